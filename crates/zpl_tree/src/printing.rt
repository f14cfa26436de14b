//! Printing a tree: its words in a row, as a text.
ghost use Rattle.std.specs.Prelude.{◌≡◌, ◌++◌, OnErr, OnOk, map};
ghost use Rattle.std.specs.List.{flat_map};
ghost use Rattle.zpl_tree.specs.Spelling.{before_end, decl_words, program_words};
ghost use Rattle.zpl_tree.specs.View.{decl_of, syntax_of};
ghost use Rattle.zpl_tree.specs.Word.{Gains};

mod declarations;
mod expressions;
mod statements;
mod words;

use crate::declarations::{Decl, Program};
use declarations::print_decl;
use std::alloc::{AllocError, Global};
use words::{put_keyword, put_name, put_symbol};
use zpl_tokens::{Key, Sym};

/// Appends a program's text: a newline behind each `;`, and one space behind every other token.
/// Numbers are
/// in decimal, and strings as they were written. A region definition stands in brackets, and the
/// local variables
/// of a procedure behind one `var`. Where memory runs out nothing is appended.
#[tactic(auto, using(crate::proofs::Spellings::printed_ending))]
pub fn print_tree(
    alloc: Global,
    program: &Program<'_>,
    into: &mut Vec<u8>,
) -> Result<(), AllocError>
    ensures ok { OnOk result (Gains into.old.items into.new.items
        (program_words (syntax_of program.now))) }
    ensures err { OnErr result (into.new.items ≡ into.old.items) }
{
    let mut text = Vec::new(alloc);
    print_program(&mut text, program)?;
    into.extend_from_slice(&text)
}

// The program without its end, as which nothing is printed.
fn print_program(text: &mut Vec<u8>, program: &Program<'_>) -> Result<(), AllocError>
    ensures { OnOk result (Gains text.old.items text.new.items
        (before_end (syntax_of program.now))) }
{
    put_keyword(text, Key::Program)?;
    put_name(text, &program.name)?;
    put_symbol(text, Sym::Semicolon)?;
    print_decls(text, program.decls)
}

fn print_decls(text: &mut Vec<u8>, decls: &[Decl<'_>]) -> Result<(), AllocError>
    ensures { OnOk result (Gains text.old.items text.new.items
        (flat_map decl_words (map decl_of decls.now))) }
{
    for decl in decls {
        print_decl(text, decl)?;
    }
    Ok(())
}
