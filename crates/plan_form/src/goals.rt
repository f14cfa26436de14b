//! Which rows are goals.
ghost use Rattle.std.specs.Prelude.{◌≡◌, IfOk, slice_set, true};
ghost use Rattle.plan_form.specs.Goals.{AreGoals, marked_by};

use flat_passes::node_form::{Code, Instr};
use std::alloc::{AllocError, Global};

/// Whether each row is a goal: whether a jump or a test may lead to it. One walk over the code
/// finds them all.
pub fn goals_of(alloc: Global, code: &Code) -> Result<Vec<bool>, AllocError>
    ensures { IfOk result (λ goals. AreGoals code.now goals.items) }
{
    let mut goals = vec![in alloc; false; code.len() as usize]?;
    for i in 0..code.len() {
        let row = *code.get(i).unwrap();
        mark(&mut goals, row);
    }
    Ok(goals)
}

fn mark(goals: &mut Vec<bool>, row: Instr)
    ensures { goals.new.items ≡ marked_by row goals.old.items }
{
    match row {
        Instr::Jump { goal } | Instr::Unless { goal, .. } => mark_row(goals, goal),
        _ => {}
    }
}

fn mark_row(goals: &mut Vec<bool>, goal: u32)
    ensures { goals.new.items ≡ slice_set goals.old.items goal true }
{
    if (goal as usize) < goals.len() {
        goals[goal as usize] = true;
    }
}
