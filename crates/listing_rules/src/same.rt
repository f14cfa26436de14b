//! Whether two lines are the same.
ghost use Rattle.std.specs.Prelude.{◌≡◌, ◌↔◌, IsTrue};

use listing_rows::listing_lines::{Field, Keyword, Line, Mark};
use node_form::Row;

fn same_mark(one: Mark, other: Mark) -> bool
    ensures { IsTrue result ↔ (one ≡ other) }
{
    one == other
}

/// Whether two texts are the same.
fn same_text(one: &[u8], other: &[u8]) -> bool
    ensures { IsTrue result ↔ (one.now ≡ other.now) }
{
    one == other
}

fn same_keyword(one: Keyword, other: Keyword) -> bool
    ensures { IsTrue result ↔ (one ≡ other) }
{
    same_text(one.text(), other.text())
}

fn same_integers(one: &[i64], other: &[i64]) -> bool
    ensures { IsTrue result ↔ (one.now ≡ other.now) }
{
    one == other
}

fn same_numbers(one: &Row<i64>, other: &Row<i64>) -> bool
    ensures { IsTrue result ↔ (one.now ≡ other.now) }
{
    same_integers(one.as_slice(), other.as_slice())
}

/// Whether two fields are the same.
fn same_field(one: &Field, other: &Field) -> bool
    ensures { IsTrue result ↔ (one.now ≡ other.now) }
{
    match (one, other) {
        (Field::Name(a), Field::Name(b)) => *a == *b,
        (Field::Numbers(m, a), Field::Numbers(n, b)) => same_mark(*m, *n) && same_numbers(a, b),
        (Field::Bytes(a), Field::Bytes(b)) => a.as_slice() == b.as_slice(),
        _ => false,
    }
}

/// Whether fields are the same.
fn same_fields(one: &[Field], other: &[Field]) -> bool
    ensures { IsTrue result ↔ (one.now ≡ other.now) }
{
    if one.len() != other.len() {
        return false;
    }
    for (i, field) in one.iter().enumerate() {
        if !same_field(field, &other[i]) {
            return false;
        }
    }
    true
}

/// Whether rows of fields are the same.
fn same_rows(one: &Row<Field>, other: &Row<Field>) -> bool
    ensures { IsTrue result ↔ (one.now ≡ other.now) }
{
    same_fields(one.as_slice(), other.as_slice())
}

pub(crate) fn same_line(one: &Line, other: &Line) -> bool
    ensures { IsTrue result ↔ (one.now ≡ other.now) }
{
    same_keyword(one.keyword, other.keyword) && same_rows(&one.fields, &other.fields)
}
