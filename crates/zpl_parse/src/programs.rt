//! Whole programs.
ghost use Rattle.std.specs.Prelude.{◌≡◌, ◌<◌, ℕ, length, IfOk, Err};
ghost use Rattle.zpl_text.specs.Tokens.{IsTokens};
ghost use Rattle.zpl_tree.specs.Syntax.{Program as Tree};
ghost use Rattle.zpl_tree.specs.View.{syntax_of};
ghost use Rattle.zpl_grammar.specs.Texts.{IsShallowTree, IsSyntaxFault, IsTooDeep};
ghost use Rattle.zpl_parse.specs.declared.faults.ParseFault.TheVariants.{Syntax, TooDeep};
ghost use Rattle.zpl_parse.specs.Answers.{Reads};
ghost use Rattle.zpl_parse.specs.Reading.{IsRead};
ghost use Rattle.zpl_parse.specs.Declarations as rule;

use crate::declarations::decls;
use crate::faults::ParseFault;
use crate::laws::rules_tell_trees_and_faults;
use crate::placing::placed_program;
use crate::tokens::{Read, keyword, name, symbol};
use bumpalo::Bump;
use std::alloc::Global;
use zpl_text::Token;
use zpl_tokens::{Key, Sym};
use zpl_tree::Program;

/// Reads the tree of a program from the tokens of its text, the end among them. The tree lies in
/// the arena, and `alloc` has what is needed on the way. Where none is given, the fault says why.
///
/// The tree's names and strings are parts of the text. The stack holds at most 200 nested
/// statements and one expression 200 deep.
pub fn parse<'a>(
    alloc: Global,
    arena: &'a Bump<Global>,
    tokens: &[Token],
    bytes: &'a [u8],
) -> Result<&'a Program<'a>, ParseFault>
    requires { IsTokens bytes.now tokens.now }

    // What is given is the tree of the text, which isn't too deep.
    ensures tree { IfOk result (λ program.
        IsShallowTree bytes.now tokens.now (syntax_of program.now)) }

    // Where the text has one that isn't too deep, it is given, unless memory runs out.
    ensures exact { (tree : Tree) → IsShallowTree bytes.now tokens.now tree
        → Reads result (λ program. syntax_of program.now ≡ tree) }

    // When each fault comes.
    ensures syntax { (at : ℕ) → result ≡ Err (Syntax at) → IsSyntaxFault bytes.now tokens.now at }
    ensures too_deep { result ≡ Err TooDeep → IsTooDeep bytes.now tokens.now }
{
    rules_tell_trees_and_faults();
    let (program, _) = program(alloc, arena, bytes, tokens)?;
    placed_program(arena, program)
}

/// program = "program" NAME ";" { decl } END.
fn program<'a, 't>(
    alloc: Global,
    arena: &'a Bump<Global>,
    bytes: &'a [u8],
    tokens: &'t [Token],
) -> Read<'t, Program<'a>>
    ensures { (most : ℕ) → length tokens.now < most
        → IsRead result (rule.program bytes.now most) syntax_of bytes.now tokens.now }
{
    let (_, rest) = keyword(tokens, Key::Program)?;
    let (name, rest) = name(bytes, rest)?;
    let (_, rest) = symbol(rest, Sym::Semicolon)?;
    let (decls, rest) = decls(alloc, arena, bytes, rest)?;
    let source = bytes;
    let program = Program {
        name,
        decls,
        source,
    };
    Ok((program, rest))
}
