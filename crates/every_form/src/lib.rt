//! That all that a program without faults does is of the forms that faults leave.
//!
//! The definitions stand in `specs/`. The functions here do nothing: each has a law of the
//! definitions as its contract, and a call brings the law into a proof.
#![tactic(auto)]

ghost use Rattle.zpl_tree.specs.Syntax.{Program};
ghost use Rattle.zpl_names.specs.Accepted.{IsFaultless};
ghost use Rattle.shown_texts.specs.Forms.{HasShownForms};

pub use shown_texts;
pub use shown_texts::shown_programs;
use zpl_names::{faultless_programs_leave_nothing_open, procedures_are_there};

/// All that the procedures of a program without faults do, down the chains of its calls, is of the
/// forms: calls stand alone or are the whole of what is assigned, a value is returned at the end of
/// a procedure that answers and nowhere else, what stands in shattered statements is elementwise,
/// and no chain of calls is too long.
pub fn faultless_programs_have_shown_forms()
    ensures { (program : Program) → IsFaultless program → HasShownForms program }
{
    faultless_programs_leave_nothing_open();
    procedures_are_there();
}
