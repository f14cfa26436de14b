//! Where a processor stands.
ghost use Rattle.std.specs.Prelude.{◌≡◌, ◌≤◌, ◌<◌, ◌^◌, ◌↔◌, ℕ, Option, IfSome, IsTrue, Some};
ghost use Rattle.std.specs.Prelude.{length};
ghost use Rattle.std.specs.Prelude.{is_some, pos, slice_get};
ghost use Rattle.std.specs.List.{Any};
ghost use Rattle.std.specs.Option.{IsSomeAnd, option_map};
ghost use Rattle.zpl_nums.specs.Integer.{IsInteger};
ghost use Rattle.zpl_nums.specs.declared.ends.End.{End as Ending};
ghost use Rattle.zpl_nums.specs.declared.ends.TrapKind.{TrapKind as Kind};
ghost use Rattle.grid_meaning.specs.Local.{Local as State};
ghost use Rattle.grid_meaning.specs.State.{IsAgain, IsOutside};
ghost use Rattle.listing_rows.specs.Rows.{trap_number};
ghost use Rattle.save_lines.specs.Line.{IsEndWord, IsProcRow, IsSavedLine};
ghost use Rattle.grid_save.specs.Kept.{IsEnding};
ghost use Rattle.grid_save.specs.Reads.{IsFlag, IsMember, IsProc, MayStand, MayStandAt, bare};
ghost use Rattle.grid_save.specs.Written.{end_of, flag_number, proc_row};
ghost use Rattle.save_reading.specs.Place.{loop_of, placed};

use node_form::{Instr, Member, NodeProgram, Row, Tables};
use save_lines::{EndWord, ProcRow, SavedLine};
use zpl_nums::{End, TrapKind};

/// Where a processor stands.
#[derive(Clone, Copy, Debug)]
pub(crate) struct Place {
    pub(crate) at: u64,
    pub(crate) made: u64,
    pub(crate) index: u64,
    pub(crate) member: u64,
    pub(crate) flag: Option<u64>,
    pub(crate) ended: Option<End>,
}

// ---- the numbers of the line

/// The number, if it isn't negative.
pub(crate) fn count_in(number: i128) -> Option<u64>
    requires { IsInteger number }
    ensures found { (count : ℕ) → number ≡ pos count → result ≡ Some count }
    ensures right { IfSome result (λ count. number ≡ pos count) }
{
    if number < 0 {
        return None;
    }
    Some(number as u64)
}

/// The flag that the number stands for, if it stands for one.
fn flag_in(number: i128) -> Option<Option<u64>>
    requires { IsInteger number }
    ensures found { (flag : Option ℕ) → number ≡ flag_number flag → result ≡ Some flag }
    ensures right { IfSome result (λ flag. number ≡ flag_number flag) }
{
    if number == -1 {
        return Some(None);
    }
    match count_in(number) {
        Some(member) => Some(Some(member)),
        None => None,
    }
}

/// The kind of trap with this number.
fn kind_in(number: i128) -> Option<TrapKind>
    ensures found { (kind : Kind) → number ≡ pos (trap_number kind) → result ≡ Some kind }
    ensures right { IfSome result (λ kind. number ≡ pos (trap_number kind)) }
{
    if number == 1 {
        Some(TrapKind::DivideByZero)
    } else if number == 2 {
        Some(TrapKind::OutsideStorage)
    } else if number == 3 {
        Some(TrapKind::RegionLimit)
    } else if number == 4 {
        Some(TrapKind::RegionMismatch)
    } else {
        None
    }
}

/// A line of a source, of 32 bits.
fn line_in(number: i128) -> Option<u32>
    requires { IsInteger number }
    ensures found { (line : ℕ) → number ≡ pos line → line < 2 ^ 32 → result ≡ Some line }
    ensures right { IfSome result (λ line. number ≡ pos line) }
{
    if number < 0 || number >= 4_294_967_296 {
        return None;
    }
    Some(number as u32)
}

/// A trap with these numbers.
fn trap_in(kind: i128, line: i128) -> Option<End>
    requires { IsInteger line }
    ensures found { (kinds : Kind) (lines : ℕ) → kind ≡ pos (trap_number kinds) → line ≡ pos lines →
        lines < 2 ^ 32 → result ≡ Some (End.Trap kinds lines) }
    ensures right { IfSome result (λ ending. IsEnding (Some ending)
        × (end_of (Some ending) ≡ EndWord.Trap kind line)) }
{
    match kind_in(kind) {
        Some(kind) => match line_in(line) {
            Some(line) => Some(End::Trap(kind, line)),
            None => None,
        },
        None => None,
    }
}

/// How a processor ended, if the word says so.
fn end_in(word: EndWord) -> Option<Option<End>>
    requires { IsEndWord word }
    ensures found { (ended : Option Ending) → IsEnding ended → word ≡ end_of ended → result
        ≡ Some ended }
    ensures right { IfSome result (λ ended. IsEnding ended × (word ≡ end_of ended)) }
{
    match word {
        EndWord::Going => Some(None),
        EndWord::Done => Some(Some(End::Done)),
        EndWord::Trap(kind, line) => match trap_in(kind, line) {
            Some(ending) => Some(Some(ending)),
            None => None,
        },
    }
}

/// The place that a line `proc` of this processor tells, if it may be one's.
fn place_in(p: u32, row: &ProcRow) -> Option<Place>
    requires { IsProcRow row.now }
    ensures found { (local : State) → row.now ≡ proc_row p local → IsEnding local.ended →
        option_map placed result ≡ Some (bare local) }
    ensures right { IfSome result (λ place.
        (row.now ≡ proc_row p (placed place)) × IsEnding place.ended) }
{
    if row.processor != i128::from(p) {
        return None;
    }
    Some(Place {
        at: count_in(row.at)?,
        made: count_in(row.made)?,
        index: count_in(row.index)?,
        member: count_in(row.member)?,
        flag: flag_in(row.flag)?,
        ended: end_in(row.end)?,
    })
}

// ---- against the program

/// Whether a group has a member with the flag's number, or there is no flag.
fn is_flag(code: &Tables, flag: Option<u64>) -> bool
    ensures { IsTrue result ↔ IsFlag code.now flag }
{
    match flag {
        Some(member) => has_member(code, member),
        None => true,
    }
}

fn has_member(code: &Tables, member: u64) -> bool
    ensures { IsTrue result ↔ Any (λ all. member < length all) code.now.groups }
{
    for i in 0..code.groups.len() {
        if member < code.groups.get(i).unwrap().as_slice().len() as u64 {
            return true;
        }
    }
    false
}

/// Whether a turn of a loop may begin again with a member.
fn is_again(member: &Member) -> bool
    ensures { IsTrue result ↔ IsAgain member.now }
{
    matches!(member, Member::OpenWhile { .. } | Member::OpenRepeat { .. })
}

fn has_again(members: &[Member], member: u64) -> bool
    ensures { IsTrue result ↔ IsSomeAnd (slice_get members.now member) IsAgain }
{
    match members.get(member as usize) {
        Some(member) => is_again(member),
        None => false,
    }
}

/// Whether a turn of a loop over this group may begin with the processor's member.
fn is_member(code: &Tables, place: &Place, group: u32) -> bool
    ensures { IsTrue result ↔ IsMember code.now (placed place.now) group }
{
    if place.member == 0 {
        return true;
    }
    match code.groups.get(u64::from(group)) {
        Some(members) => has_again(members.as_slice(), place.member),
        None => false,
    }
}

fn is_outside(place: &Place) -> bool
    ensures { IsTrue result ↔ IsOutside (placed place.now) }
{
    place.index == 0 && place.member == 0
}

/// The slot and the group of a loop.
pub(crate) fn loop_of(row: &Instr) -> Option<(u32, u32)>
    ensures { result ≡ loop_of row.now }
{
    match *row {
        Instr::Loop { slot, group } => Some((slot, group)),
        _ => None,
    }
}

/// Whether a processor that stands at this row may have the place.
fn may_stand_at(code: &Tables, place: &Place, row: &Instr) -> bool
    ensures { IsTrue result ↔ MayStandAt code.now (placed place.now) (Some row.now) }
{
    match loop_of(row) {
        Some((_, group)) => place.made == 0 && is_member(code, place, group),
        None => is_outside(place),
    }
}

/// Whether a processor may stand so, by what the line `proc` says alone.
fn may_stand(code: &Tables, place: &Place) -> bool
    ensures { IsTrue result ↔ MayStand code.now (placed place.now) (is_some place.now.ended) }
{
    if place.ended.is_some() {
        return is_outside(place) && place.made == 0;
    }
    match code.code.get(place.at) {
        Some(row) => may_stand_at(code, place, row),
        None => is_outside(place) && place.made == 0,
    }
}

/// The place that this line tells.
pub(crate) fn read_place(code: &Tables, p: u32, line: &SavedLine) -> Option<Place>
    requires { IsSavedLine line.now }
    ensures found { (local : State) → IsProc code.now p line.now local → option_map placed result
        ≡ Some local }
    ensures right { IfSome result (λ place. IsProc code.now p line.now (placed place)) }
{
    let SavedLine::Proc(row) = line else {
        return None;
    };
    let place = place_in(p, row)?;
    if place.at > code.code.len() || !is_flag(code, place.flag) || !may_stand(code, &place) {
        return None;
    }
    Some(place)
}
