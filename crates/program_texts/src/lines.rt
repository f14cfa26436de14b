//! The lines that are drawn.
ghost use Rattle.std.specs.Prelude.{◌≡◌, IfOk, string_bytes};
ghost use Rattle.program_texts.specs.Text.{array_name, direction_name, line_behind, line_of_form};
ghost use Rattle.program_texts.specs.Text.{line_text};

use crate::draws::{drawn_of, next_state};
use std::alloc::{AllocError, Global};

/// The states of the four draws of a line.
#[derive(Clone, Copy)]
pub struct Line {
    /// The form is drawn from it.
    pub form: u32,
    /// The array that is mostly set.
    pub left: u32,
    /// The other array.
    pub right: u32,
    /// The direction. Behind it the next line is drawn.
    pub direction: u32,
}

/// The draws of the line behind a state.
pub fn line_behind(state: u32) -> Line
    ensures { result ≡ line_behind state }
{
    let form = next_state(state);
    let left = next_state(form);
    let right = next_state(left);
    Line {
        form,
        left,
        right,
        direction: next_state(right),
    }
}

/// The text of a line.
pub fn line_text(alloc: Global, line: Line) -> Result<String, AllocError>
    ensures { IfOk result (λ text. string_bytes text ≡ line_text line) }
{
    let p = array_name(drawn_of(3, line.left));
    let q = array_name(drawn_of(3, line.right));
    let d = direction_name(drawn_of(4, line.direction));
    line_of_form(alloc, drawn_of(6, line.form), p, q, d)
}

/// The line of a form, for the names of two arrays and of a direction.
fn line_of_form(alloc: Global, form: u32, p: &str, q: &str, d: &str) -> Result<String, AllocError>
    ensures { IfOk result (λ text. string_bytes text ≡ line_of_form form p.now q.now d.now) }
{
    match form {
        0 => ["  ", p, " := (", p, "@", d, " + ", q, " * 3) % 1000;\n"].concat(alloc),
        1 => ["  s := +<<(", p, " - ", q, ");\n"].concat(alloc),
        2 => ["  [", d, " of R] wrap ", p, ";\n"].concat(alloc),
        3 => ["  ", p, " := ", q, " + s;\n"].concat(alloc),
        4 => [
            "  if ",
            p,
            " > ",
            q,
            " then ",
            p,
            " := ",
            q,
            "; else ",
            q,
            " := ",
            p,
            " + 1; end;\n",
        ]
        .concat(alloc),
        _ => ["  ", p, " := +||[2] ", q, ";\n"].concat(alloc),
    }
}

/// The name of an array.
fn array_name(k: u32) -> &'static str
    ensures { result.now ≡ array_name k }
{
    match k {
        0 => "A",
        1 => "B",
        _ => "C",
    }
}

/// The name of a direction.
fn direction_name(k: u32) -> &'static str
    ensures { result.now ≡ direction_name k }
{
    match k {
        0 => "north",
        1 => "south",
        2 => "west",
        _ => "east",
    }
}
