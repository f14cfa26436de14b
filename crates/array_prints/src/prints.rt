//! Lines, planes and spaces of values.
ghost use Rattle.std.specs.Prelude.{◌≡◌, ◌*◌, ◌≤◌, ◌++◌, ℤ, List, length, map, OnOk};
ghost use Rattle.zpl_arrays.specs.ArrayText.{array_text, truth_text};
ghost use Rattle.zpl_region.specs.Region.{IsRegion, members};
ghost use Rattle.array_prints.specs.RowText.{line_text, parts_text, value_text};

use region_places::size;
use std::alloc::{AllocError, Global};
use zpl_io::write_number;
use zpl_region::Region;

/// What stands between two values of a line.
const SPACE: u8 = 32;

/// What ends a line of a plane, and a plane of a space.
const NEWLINE: u8 = 10;

/// The word for a truth value.
fn truth_text(value: i64) -> &'static [u8]
    ensures { result.now ≡ truth_text value }
{
    if value != 0 { b"true" } else { b"false" }
}

/// Appends a truth value, or a number in decimal.
fn push_value(alloc: Global, truth: bool, value: i64, into: &mut Vec<u8>) -> Result<(), AllocError>
    ensures { OnOk result (into.new.items ≡ into.old.items ++ value_text truth value) }
{
    if truth {
        return into.extend_from_slice(truth_text(value));
    }
    write_number(alloc, value, into)
}

/// Appends the values of a line, with a space between each two.
fn push_line(
    alloc: Global,
    truth: bool,
    values: &[i64],
    into: &mut Vec<u8>,
) -> Result<(), AllocError>
    ensures { OnOk result (into.new.items ≡ into.old.items ++ line_text truth values.now) }
{
    if values.is_empty() {
        return Ok(());
    }
    push_value(alloc, truth, values[0], into)?;
    for i in 1..values.len() {
        into.push(SPACE)?;
        push_value(alloc, truth, values[i], into)?;
    }
    Ok(())
}

/// Appends lines of a plane, so many with so many values each.
fn push_plane(
    alloc: Global,
    truth: bool,
    count: usize,
    size: usize,
    values: &[i64],
    into: &mut Vec<u8>,
) -> Result<(), AllocError>
    requires { length values.now ≡ count * size }
    ensures { OnOk result (into.new.items
        ≡ into.old.items ++ parts_text (line_text truth) count size values.now) }
{
    let mut at = 0;
    for _ in 0..count {
        push_line(alloc, truth, &values[at..at + size], into)?;
        into.push(NEWLINE)?;
        at += size;
    }
    Ok(())
}

/// Appends planes of a space, so many with so many lines of so many values each.
fn push_space(
    alloc: Global,
    truth: bool,
    planes: usize,
    count: usize,
    size: usize,
    values: &[i64],
    into: &mut Vec<u8>,
) -> Result<(), AllocError>
    requires some { 1 ≤ planes }
    requires filled { length values.now ≡ planes * (count * size) }
    ensures { OnOk result (into.new.items
        ≡ into.old.items
        ++ parts_text (parts_text (line_text truth) count size) planes (count * size) values.now) }
{
    let plane = count * size;
    let mut at = 0;
    for _ in 0..planes {
        push_plane(alloc, truth, count, size, &values[at..at + plane], into)?;
        into.push(NEWLINE)?;
        at += plane;
    }
    Ok(())
}

/// Appends the text of an array over a region, from its values at the region's tuples in row-major
/// order: of truth values or of numbers. For want of memory a part of it may have been appended.
pub fn print_array(
    alloc: Global,
    region: &Region,
    truth: bool,
    values: &[i64],
    into: &mut Vec<u8>,
) -> Result<(), AllocError>
    requires region { IsRegion region.now }
    requires filled { length values.now ≡ length (members region.now) }
    ensures { (e : List ℤ → ℤ) → values.now ≡ map e (members region.now) →
        OnOk result (into.new.items
        ≡ into.old.items ++ array_text (value_text truth) region.now e) }
{
    if region.is_empty() {
        return Ok(());
    }
    let [planes, rows, columns] = region.dims;
    match region.rank {
        1 => push_line(alloc, truth, values, into),
        2 => push_plane(
            alloc,
            truth,
            size(planes) as usize,
            size(rows) as usize,
            values,
            into,
        ),
        _ => push_space(
            alloc,
            truth,
            size(planes) as usize,
            size(rows) as usize,
            size(columns) as usize,
            values,
            into,
        ),
    }
}
