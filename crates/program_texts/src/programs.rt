//! The program that is drawn from a number.
ghost use Rattle.std.specs.Prelude.{◌≡◌, ◌++◌, IfOk, OnOk, string_bytes};
ghost use Rattle.program_texts.specs.Text.{beginning_text, declarations_text, drawn_program};
ghost use Rattle.program_texts.specs.Text.{end_text, line_text, lines_text};

use crate::lines::{Line, line_behind, line_text};
use itoa::Buffer;
use std::alloc::{AllocError, Global};

/// The text of the program that is drawn from a number.
pub fn drawn_program(alloc: Global, seed: u32) -> Result<Vec<u8>, AllocError>
    ensures { IfOk result (λ text. text.items ≡ drawn_program seed) }
{
    let mut text = Vec::new(alloc);
    text.extend_from_slice(declarations_text(alloc, 16 + seed % 17)?.as_bytes())?;
    text.extend_from_slice(beginning_text(alloc)?.as_bytes())?;
    append_lines(alloc, 40 + seed % 60, seed, &mut text)?;
    text.extend_from_slice(end_text(alloc)?.as_bytes())?;
    Ok(text)
}

/// The declarations, over arrays of so many rows and columns.
fn declarations_text(alloc: Global, size: u32) -> Result<String, AllocError>
    ensures { IfOk result (λ text. string_bytes text ≡ declarations_text size) }
{
    let mut buffer = Buffer::new();
    [
        "program gen;\nconfig var n : integer = ",
        buffer.format(size),
        ";\n",
        "region R = [1..n, 1..n];\ndirection north = [-1, 0]; south = [1, 0]; ",
        "west = [0, -1]; east = [0, 1];\nvar A, B, C : [R] integer;\n    s : integer;\n",
    ]
    .concat(alloc)
}

/// What is set first.
fn beginning_text(alloc: Global) -> Result<String, AllocError>
    ensures { IfOk result (λ text. string_bytes text ≡ beginning_text) }
{
    [
        "procedure gen();\n[R] begin\n",
        "  [north of R] A := 1;\n  [south of R] A := 2;\n",
        "  [west of R] A := 3;\n  [east of R] A := 4;\n",
        "  A := Index1 * 7 + Index2;\n  B := Index2;\n",
    ]
    .concat(alloc)
}

/// Appends so many lines, drawn from a state on.
fn append_lines(alloc: Global, count: u32, first: u32, into: &mut Vec<u8>) -> Result<(), AllocError>
    ensures { OnOk result (into.new.items ≡ into.old.items ++ lines_text count first) }
{
    let mut state = first;
    for done in 0..count {
        let line = line_behind(state);
        append_line(alloc, line, into)?;
        state = line.direction;
    }
    Ok(())
}

/// Appends a line.
fn append_line(alloc: Global, line: Line, into: &mut Vec<u8>) -> Result<(), AllocError>
    ensures { OnOk result (into.new.items ≡ into.old.items ++ line_text line) }
{
    into.extend_from_slice(line_text(alloc, line)?.as_bytes())
}

/// What is printed.
fn end_text(alloc: Global) -> Result<String, AllocError>
    ensures { IfOk result (λ text. string_bytes text ≡ end_text) }
{
    [
        "  writeln(+<<A, \" \", +<<B, \" \", +<<C, \" \", s);\n",
        "  write(A);\nend;\n",
    ]
    .concat(alloc)
}
