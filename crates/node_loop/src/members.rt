//! What a member does at an index.
ghost use Rattle.std.specs.Prelude.{◌≡◌, ◌<◌, ◌+◌, ◌^◌, List, length};
ghost use Rattle.zpl_arrays.specs.Array.{Array};
ghost use Rattle.node_form.specs.Group.{GoesOn, Mode as GroupMode, Step};
ghost use Rattle.node_form.specs.Group.{member_step, masked, run_member, value_at};
ghost use Rattle.node_form.specs.declared.members.Member.TheVariants as member;
ghost use Rattle.grid_meaning.specs.Loop.{access_at, point_of};
ghost use Rattle.node_local.specs.Computing.{computed_by};
ghost use Rattle.node_local.specs.Workplace.{HasRoom};
ghost use Rattle.node_loop.specs.Step.{IsStep, by_mask, depth_in, mode_of, opening};

use crate::modes::{Mode, skipped};
use node_form::{Member, Tables};
use node_local::{Local, NoValue};
use zpl_nums::{Fold, join};
use zpl_region::Vec3;

/// What comes behind a member.
#[derive(Clone, Copy)]
pub(crate) enum Next {
    /// The next members, in this mode.
    On(Mode),
    /// The members from its opening on, in the next turn.
    Back,
}

/// The members behind are skipped, up to the end of what is open, or to its `Otherwise`.
fn skips(to_else: bool) -> Next
    ensures { result ≡ Next.On (Mode.Skips 0 to_else) }
{
    Next::On(Mode::Skips { depth: 0, to_else })
}

/// The value of an expression by its number.
fn value(local: &mut Local, code: &Tables, index: &Vec3, expr: u32) -> Result<i64, NoValue>
    requires { HasRoom code.now local.old }
    ensures value { value_at code.now (access_at index.now) (point_of local.old.local) expr
        ≡ computed_by result }
    ensures same { local.new ≡ local.old }
{
    match code.exprs.get(u64::from(expr)) {
        Some(words) => local.value_here(words.as_slice(), index),
        None => Err(NoValue::Lacks),
    }
}

/// Whether a mask lets its member run.
fn passes(
    local: &mut Local,
    code: &Tables,
    index: &Vec3,
    mask: Option<u32>,
) -> Result<bool, NoValue>
    requires { HasRoom code.now local.old }
    ensures mask { (skip : GroupMode) (run : Step (List Array))
        → masked code.now (access_at index.now) (point_of local.old.local) mask skip run
        ≡ by_mask result (GoesOn skip (point_of local.old.local)) run }
    ensures same { local.new ≡ local.old }
{
    match mask {
        None => Ok(true),
        Some(mask) => Ok(value(local, code, index, mask)? != 0),
    }
}

/// The array becomes the value at the index.
fn put(
    local: &mut Local,
    code: &Tables,
    index: &Vec3,
    array: u32,
    expr: u32,
    mask: Option<u32>,
) -> Result<Next, NoValue>
    requires room { HasRoom code.now local.old }
    requires log { length local.old.log < local.old.room }
    ensures { IsStep (run_member code.now (access_at index.now) (point_of local.old.local)
        (member.Put array expr mask 0)) 0 local.old local.new result }
{
    if !passes(local, code, index, mask)? {
        return Ok(Next::On(Mode::Runs));
    }
    let value = value(local, code, index, expr)?;
    if local.log_value(array, index, value) {
        Ok(Next::On(Mode::Runs))
    } else {
        Err(NoValue::Lacks)
    }
}

/// The cell becomes the value.
fn keep(
    local: &mut Local,
    code: &Tables,
    index: &Vec3,
    cell: u32,
    expr: u32,
    mask: Option<u32>,
) -> Result<Next, NoValue>
    requires room { HasRoom code.now local.old }
    requires log { length local.old.log < local.old.room }
    ensures { IsStep (run_member code.now (access_at index.now) (point_of local.old.local)
        (member.Cell cell expr mask 0)) 0 local.old local.new result }
{
    if !passes(local, code, index, mask)? {
        return Ok(Next::On(Mode::Runs));
    }
    let value = value(local, code, index, expr)?;
    local.log_cell(cell, value);
    Ok(Next::On(Mode::Runs))
}

/// The scalar becomes its join with the value.
fn accumulate(
    local: &mut Local,
    code: &Tables,
    index: &Vec3,
    scalar: u32,
    fold: Fold,
    expr: u32,
    mask: Option<u32>,
) -> Result<Next, NoValue>
    requires room { HasRoom code.now local.old }
    requires log { length local.old.log < local.old.room }
    ensures { IsStep (run_member code.now (access_at index.now) (point_of local.old.local)
        (member.Acc scalar fold expr mask 0)) 0 local.old local.new result }
{
    if !passes(local, code, index, mask)? {
        return Ok(Next::On(Mode::Runs));
    }
    let value = value(local, code, index, expr)?;
    let Some(own) = local.scalar(scalar) else {
        return Err(NoValue::Lacks);
    };
    local.log_scalar(scalar, join(fold, own, value));
    Ok(Next::On(Mode::Runs))
}

/// Goes on inside where the value isn't 0, and otherwise behind, or at the `Otherwise`.
fn open(
    local: &mut Local,
    code: &Tables,
    index: &Vec3,
    expr: u32,
    mask: Option<u32>,
    to_else: bool,
) -> Result<Next, NoValue>
    requires { HasRoom code.now local.old }
    ensures { IsStep (opening code.now (access_at index.now) (point_of local.old.local)
        expr mask to_else) 0 local.old local.new result }
{
    if !passes(local, code, index, mask)? {
        return Ok(skips(false));
    }
    if value(local, code, index, expr)? != 0 {
        Ok(Next::On(Mode::Runs))
    } else {
        Ok(skips(to_else))
    }
}

/// Goes on inside, where the mask lets it.
fn repeat(
    local: &mut Local,
    code: &Tables,
    index: &Vec3,
    mask: Option<u32>,
) -> Result<Next, NoValue>
    requires { HasRoom code.now local.old }
    ensures { IsStep (run_member code.now (access_at index.now) (point_of local.old.local)
        (member.OpenRepeat mask 0)) 0 local.old local.new result }
{
    if passes(local, code, index, mask)? {
        Ok(Next::On(Mode::Runs))
    } else {
        Ok(skips(false))
    }
}

/// Goes on behind where the value isn't 0, and otherwise back.
fn until(local: &mut Local, code: &Tables, index: &Vec3, expr: u32) -> Result<Next, NoValue>
    requires { HasRoom code.now local.old }
    ensures { IsStep (run_member code.now (access_at index.now) (point_of local.old.local)
        (member.Until expr)) 0 local.old local.new result }
{
    if value(local, code, index, expr)? != 0 {
        Ok(Next::On(Mode::Runs))
    } else {
        Ok(Next::Back)
    }
}

/// Runs a member.
fn run(local: &mut Local, code: &Tables, index: &Vec3, member: &Member) -> Result<Next, NoValue>
    requires room { HasRoom code.now local.old }
    requires log { length local.old.log < local.old.room }
    ensures { IsStep (run_member code.now (access_at index.now) (point_of local.old.local)
        member.now) 0 local.old local.new result }
{
    match *member {
        Member::Put {
            array,
            expr,
            mask,
            ..
        } => put(local, code, index, array, expr, mask),
        Member::Cell {
            cell,
            expr,
            mask,
            ..
        } => keep(local, code, index, cell, expr, mask),
        Member::Acc {
            scalar,
            fold,
            expr,
            mask,
            ..
        } => accumulate(local, code, index, scalar, fold, expr, mask),
        Member::OpenIf { expr, mask, .. } => open(local, code, index, expr, mask, true),
        Member::Otherwise => Ok(skips(false)),
        Member::CloseIf => Ok(Next::On(Mode::Runs)),
        Member::OpenWhile { expr, mask, .. } => open(local, code, index, expr, mask, false),
        Member::CloseWhile => Ok(Next::Back),
        Member::OpenRepeat { mask, .. } => repeat(local, code, index, mask),
        Member::Until { expr } => until(local, code, index, expr),
    }
}

/// Runs or skips a member.
pub(crate) fn step(
    local: &mut Local,
    code: &Tables,
    index: &Vec3,
    member: &Member,
    mode: Mode,
) -> Result<Next, NoValue>
    requires room { HasRoom code.now local.old }
    requires log { length local.old.log < local.old.room }
    requires depth { depth_in mode + 1 < 2 ^ 64 }
    ensures { IsStep (member_step code.now (access_at index.now) (mode_of mode)
        (point_of local.old.local) member.now) (depth_in mode + 1) local.old local.new result }
{
    match mode {
        Mode::Runs => run(local, code, index, member),
        Mode::Skips { depth, to_else } => Ok(Next::On(skipped(depth, to_else, member))),
    }
}
