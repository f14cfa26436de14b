//! Loops that read with a shift what they put.
ghost use Rattle.std.specs.Prelude.{◌≡◌};
ghost use Rattle.std.specs.List.{list_any};
ghost use Rattle.temp_norm.specs.Pieces.{mask_reads, only_put, reads_shifted, self_put, word_reads};

use flat_passes::node_form::{ExprOp, Member, Tables};

/// The member of a group that puts an array.
#[derive(Clone, Copy, Debug)]
pub(crate) struct Put {
    pub array: u32,
    pub expr: u32,
    pub mask: Option<u32>,
    pub line: u32,
}

/// The put that is the one member of a group, where it reads with a shift the array that it puts.
/// Each word of its expression and of its mask is looked at once.
pub(crate) fn self_put(tables: &Tables, members: &[Member]) -> Option<Put>
    ensures { result ≡ self_put tables.now members.now }
{
    let put = only_put(members)?;
    let reads = reads_shifted(tables, put.array, put.expr);
    if reads || mask_reads(tables, put.array, put.mask) {
        Some(put)
    } else {
        None
    }
}

fn only_put(members: &[Member]) -> Option<Put>
    ensures { result ≡ only_put members.now }
{
    let [only] = members else {
        return None;
    };
    match *only {
        Member::Put {
            array,
            expr,
            mask,
            line,
        } => Some(Put {
            array,
            expr,
            mask,
            line,
        }),
        _ => None,
    }
}

fn mask_reads(tables: &Tables, array: u32, mask: Option<u32>) -> bool
    ensures { result ≡ mask_reads tables.now array mask }
{
    match mask {
        Some(expr) => reads_shifted(tables, array, expr),
        None => false,
    }
}

/// Whether the expression reads the array with a shift.
fn reads_shifted(tables: &Tables, array: u32, expr: u32) -> bool
    ensures { result ≡ reads_shifted tables.now array expr }
{
    match tables.exprs.get(u64::from(expr)) {
        Some(words) => words_read(words.as_slice(), array),
        None => false,
    }
}

fn words_read(words: &[ExprOp], array: u32) -> bool
    ensures { result ≡ list_any (λ word. word_reads array word) words.now }
{
    words.iter().any(|word| word_reads(word, array))
}

fn word_reads(word: &ExprOp, array: u32) -> bool
    ensures { result ≡ word_reads array word.now }
{
    match *word {
        ExprOp::Shifted(other, _) => array == other,
        _ => false,
    }
}
