//! Lines.
ghost use Rattle.std.specs.Prelude.{◌≡◌, ◌≢◌, ◌++◌, ◌==◌, List, All, OnOk, IfOk, MatchOption, map};
ghost use Rattle.std.specs.List.{flat_map, slice_split};
ghost use Rattle.listing_lines.specs.declared.fields.Field.{Field as Written};
ghost use Rattle.listing_lines.specs.declared.lines.Line.{Line as Row};
ghost use Rattle.listing_lines.specs.Field.{IsField, field_text};
ghost use Rattle.listing_lines.specs.Line.{IsLine, is_text, line_text, spaced};

use crate::fields::{Field, read_field, write_field};
use crate::keywords::{Keyword, keyword_of};
use node_form::Row as Fields;
use std::alloc::{AllocError, Global};

/// A line of a listing: a keyword, and the fields behind it.
#[derive(Debug, Drop)]
pub struct Line {
    pub keyword: Keyword,
    pub fields: Fields<Field>,
}

/// Appends a line, without a newline.
pub(crate) fn write_line(alloc: Global, line: &Line, into: &mut Vec<u8>) -> Result<(), AllocError>
    ensures { OnOk result (into.new.items ≡ into.old.items ++ line_text line.now) }
{
    into.extend_from_slice(line.keyword.text())?;
    write_fields(alloc, line.fields.as_slice(), into)
}

fn write_fields(alloc: Global, fields: &[Field], into: &mut Vec<u8>) -> Result<(), AllocError>
    ensures { OnOk result (into.new.items
        ≡ into.old.items ++ flat_map (λ field. spaced (field_text field)) fields.now) }
{
    for field in fields {
        into.push(b' ')?;
        write_field(alloc, field, into)?;
    }
    Ok(())
}

// ---- reading

/// The words of a line: what stands between its spaces.
fn words_of(alloc: Global, text: &[u8]) -> Result<Vec<&[u8]>, AllocError>
    ensures { IfOk result (λ words.
        map (λ word. word.now) words.items ≡ slice_split (λ byte. byte == 32) text.now) }
{
    text.split(|byte| *byte == b' ').collect(alloc)
}

fn is_text(keyword: Keyword) -> bool
    ensures { result ≡ is_text keyword }
{
    keyword == Keyword::Text
}

/// The fields that are written so, one after another.
fn read_fields(
    alloc: Global,
    in_text: bool,
    words: &[&[u8]],
) -> Result<Option<Vec<Field>>, AllocError>
    ensures { IfOk result (λ found. MatchOption found
        ((fields : List Written) → All (IsField in_text) fields →
        map (λ word. word.now) words.now ≢ map field_text fields)
        (λ list. All (IsField in_text) list.items
        × (map (λ word. word.now) words.now ≡ map field_text list.items))) }
{
    let mut fields = Vec::new(alloc);
    for word in words {
        match read_field(alloc, in_text, word)? {
            Some(field) => fields.push(field)?,
            None => return Ok(None),
        }
    }
    Ok(Some(fields))
}

/// The line that is written so.
pub(crate) fn read_line(alloc: Global, text: &[u8]) -> Result<Option<Line>, AllocError>
    ensures { IfOk result (λ found. MatchOption found
        ((line : Row) → IsLine line → text.now ≢ line_text line)
        (λ line. IsLine line × (text.now ≡ line_text line))) }
{
    let words = words_of(alloc, text)?;
    let Some((first, rest)) = words.split_first() else {
        return Ok(None);
    };
    let Some(keyword) = keyword_of(first) else {
        return Ok(None);
    };
    match read_fields(alloc, is_text(keyword), rest)? {
        Some(fields) => Ok(Some(Line {
            keyword,
            fields: Fields::of(fields),
        })),
        None => Ok(None),
    }
}
