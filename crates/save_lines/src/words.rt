//! Words that aren't numbers alone.
ghost use Rattle.std.specs.Prelude.{◌≡◌, ◌↔◌, ◌++◌, ℤ, List, All, IfOk, IfSome, IsSomeAnd, IsTrue};
ghost use Rattle.std.specs.Prelude.{OnOk, Some, codes, map, slice_get};
ghost use Rattle.std.specs.Fmt.{signed_decimal};
ghost use Rattle.std.specs.List.{flat_map};
ghost use Rattle.listing_lines.specs.Line.{spaced};
ghost use Rattle.zpl_region.specs.declared.dims.Dim.{Dim as Bounds};
ghost use Rattle.save_lines.specs.declared.lines.BoxDim.{BoxDim as Side};
ghost use Rattle.save_lines.specs.declared.lines.EndWord.{EndWord as Ending};
ghost use Rattle.save_lines.specs.Line.{IsBoxWord, IsDimWord, IsEndWord};
ghost use Rattle.save_lines.specs.Line.{box_word, dim_word, end_word};
ghost use Rattle.save_lines.specs.Reading.{range_pieces, side_pieces, trap_pieces};

use crate::lines::{BoxDim, EndWord};
use crate::numbers::{number_at, pieces_of, write_number};
use std::alloc::{AllocError, Global};
use zpl_region::Dim;

// ---- writing

fn write_dim(dim: Dim, into: &mut Vec<u8>) -> Result<(), AllocError>
    ensures { OnOk result (into.new.items ≡ into.old.items ++ dim_word dim) }
{
    let Dim::Range {
        lo,
        hi,
        step,
        align,
    } = dim
    else {
        return into.extend_from_slice(b"*");
    };
    write_bounds(lo, hi, into)?;
    into.push(b':')?;
    write_number(i128::from(step), into)?;
    into.push(b':')?;
    write_number(i128::from(align), into)
}

fn write_box(dim: BoxDim, into: &mut Vec<u8>) -> Result<(), AllocError>
    ensures { OnOk result (into.new.items ≡ into.old.items ++ box_word dim) }
{
    match dim {
        BoxDim::Range(lo, hi) => write_bounds(lo, hi, into),
        BoxDim::Star => into.extend_from_slice(b"*"),
    }
}

fn write_bounds(lo: i64, hi: i64, into: &mut Vec<u8>) -> Result<(), AllocError>
    ensures { OnOk result (into.new.items
        ≡ into.old.items ++ (signed_decimal lo ++ (codes ".." ++ signed_decimal hi))) }
{
    write_number(i128::from(lo), into)?;
    into.extend_from_slice(b"..")?;
    write_number(i128::from(hi), into)
}

/// Appends dimensions of a region, each behind a space.
pub(crate) fn write_dims(dims: &[Dim], into: &mut Vec<u8>) -> Result<(), AllocError>
    ensures { OnOk result (into.new.items
        ≡ into.old.items ++ flat_map spaced (map dim_word dims.now)) }
{
    for dim in dims {
        into.push(b' ')?;
        write_dim(*dim, into)?;
    }
    Ok(())
}

/// Appends dimensions of a box, each behind a space.
pub(crate) fn write_boxes(dims: &[BoxDim], into: &mut Vec<u8>) -> Result<(), AllocError>
    ensures { OnOk result (into.new.items
        ≡ into.old.items ++ flat_map spaced (map box_word dims.now)) }
{
    for dim in dims {
        into.push(b' ')?;
        write_box(*dim, into)?;
    }
    Ok(())
}

/// Appends how a processor has ended.
pub(crate) fn write_end(end: EndWord, into: &mut Vec<u8>) -> Result<(), AllocError>
    ensures { OnOk result (into.new.items ≡ into.old.items ++ end_word end) }
{
    match end {
        EndWord::Going => into.extend_from_slice(b"-"),
        EndWord::Done => into.extend_from_slice(b"done"),
        EndWord::Trap(kind, line) => {
            into.extend_from_slice(b"trap:")?;
            write_number(kind, into)?;
            into.push(b':')?;
            write_number(line, into)
        }
    }
}

// ---- reading: what is written so, and of other words there may be some too

pub(crate) fn is_word(word: &[u8], text: &[u8]) -> bool
    ensures { IsTrue result ↔ (word.now ≡ text.now) }
{
    word == text
}

fn dim_of(alloc: Global, word: &[u8]) -> Result<Option<Dim>, AllocError>
    ensures found { IfOk result (λ found. (dim : Bounds) → IsDimWord dim →
        word.now ≡ dim_word dim → found ≡ Some dim) }
    ensures range { IfOk result (λ found. IfSome found IsDimWord) }
{
    if is_word(word, b"*") {
        return Ok(Some(Dim::Flood));
    }
    let pieces = pieces_of(alloc, word)?;
    Ok(range_of(&pieces))
}

fn range_of(pieces: &[&[u8]]) -> Option<Dim>
    ensures found { (lo hi step align : ℤ) → IsDimWord (Bounds.Range lo hi step align) →
        map (λ piece. piece.now) pieces.now ≡ range_pieces lo hi step align →
        result ≡ Some (Bounds.Range lo hi step align) }
    ensures range { IfSome result IsDimWord }
{
    Some(Dim::Range {
        lo: number_at(pieces, 0)?,
        hi: number_at(pieces, 2)?,
        step: number_at(pieces, 3)?,
        align: number_at(pieces, 4)?,
    })
}

fn box_of(alloc: Global, word: &[u8]) -> Result<Option<BoxDim>, AllocError>
    ensures found { IfOk result (λ found. (side : Side) → IsBoxWord side →
        word.now ≡ box_word side → found ≡ Some side) }
    ensures range { IfOk result (λ found. IfSome found IsBoxWord) }
{
    if is_word(word, b"*") {
        return Ok(Some(BoxDim::Star));
    }
    let pieces = pieces_of(alloc, word)?;
    Ok(side_of(&pieces))
}

fn side_of(pieces: &[&[u8]]) -> Option<BoxDim>
    ensures found { (lo hi : ℤ) → IsBoxWord (Side.Range lo hi) →
        map (λ piece. piece.now) pieces.now ≡ side_pieces lo hi →
        result ≡ Some (Side.Range lo hi) }
    ensures range { IfSome result IsBoxWord }
{
    Some(BoxDim::Range(number_at(pieces, 0)?, number_at(pieces, 2)?))
}

/// How a processor has ended, by the word at this place.
pub(crate) fn end_at(
    alloc: Global,
    words: &[&[u8]],
    at: usize,
) -> Result<Option<EndWord>, AllocError>
    ensures found { IfOk result (λ found. (end : Ending) → IsEndWord end →
        slice_get (map (λ word. word.now) words.now) at ≡ Some (end_word end) →
        found ≡ Some end) }
    ensures range { IfOk result (λ found. IfSome found IsEndWord) }
{
    match words.get(at) {
        Some(word) => end_of(alloc, word),
        None => Ok(None),
    }
}

fn end_of(alloc: Global, word: &[u8]) -> Result<Option<EndWord>, AllocError>
    ensures found { IfOk result (λ found. (end : Ending) → IsEndWord end →
        word.now ≡ end_word end → found ≡ Some end) }
    ensures range { IfOk result (λ found. IfSome found IsEndWord) }
{
    if is_word(word, b"-") {
        return Ok(Some(EndWord::Going));
    }
    if is_word(word, b"done") {
        return Ok(Some(EndWord::Done));
    }
    let pieces = pieces_of(alloc, word)?;
    Ok(trap_of(&pieces))
}

fn trap_of(pieces: &[&[u8]]) -> Option<EndWord>
    ensures found { (kind line : ℤ) → IsEndWord (Ending.Trap kind line) →
        map (λ piece. piece.now) pieces.now ≡ trap_pieces kind line →
        result ≡ Some (Ending.Trap kind line) }
    ensures range { IfSome result IsEndWord }
{
    let kind = number_at(pieces, 1)?;
    let line = number_at(pieces, 2)?;
    Some(EndWord::Trap(i128::from(kind), i128::from(line)))
}

/// The dimensions of a region.
pub(crate) fn dims_of(alloc: Global, words: &[&[u8]]) -> Result<Option<Vec<Dim>>, AllocError>
    ensures found { IfOk result (λ found. (dims : List Bounds) → All IsDimWord dims →
        map (λ word. word.now) words.now ≡ map dim_word dims →
        IsSomeAnd found (λ list. list.items ≡ dims)) }
    ensures range { IfOk result (λ found. IfSome found (λ list. All IsDimWord list.items)) }
{
    let mut dims = Vec::new(alloc);
    for word in words {
        let Some(dim) = dim_of(alloc, word)? else {
            return Ok(None);
        };
        dims.push(dim)?;
    }
    Ok(Some(dims))
}

/// The dimensions of a box.
pub(crate) fn boxes_of(alloc: Global, words: &[&[u8]]) -> Result<Option<Vec<BoxDim>>, AllocError>
    ensures found { IfOk result (λ found. (dims : List Side) → All IsBoxWord dims →
        map (λ word. word.now) words.now ≡ map box_word dims →
        IsSomeAnd found (λ list. list.items ≡ dims)) }
    ensures range { IfOk result (λ found. IfSome found (λ list. All IsBoxWord list.items)) }
{
    let mut dims = Vec::new(alloc);
    for word in words {
        let Some(dim) = box_of(alloc, word)? else {
            return Ok(None);
        };
        dims.push(dim)?;
    }
    Ok(Some(dims))
}
