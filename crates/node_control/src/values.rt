//! The value of an expression where there is no index.
ghost use Rattle.std.specs.Prelude.{◌≡◌};
ghost use Rattle.grid_meaning.specs.Turn.{expression_value};
ghost use Rattle.node_control.specs.Running.{CanRun};
ghost use Rattle.node_form.specs.Fits.{HasScalarExpr};
ghost use Rattle.node_form.specs.Value.{divided};

use crate::lookups::words_at;
use node_form::{NodeProgram, rows_fit, scalar_expressions_lack_nothing};
use node_local::Local;

/// The value of an expression of the code that needs no index; `None` where a divisor is 0. It
/// takes no memory.
pub fn scalar_value(code: &NodeProgram, local: &mut Local, expr: u32) -> Option<i64>
    requires can { CanRun code.now local.old }
    requires expr { HasScalarExpr code.now expr }
    ensures value { expression_value code.now local.old.local expr ≡ divided result }
    ensures same { local.new ≡ local.old }
{
    scalar_expressions_lack_nothing();
    rows_fit();
    let words = words_at(code.tables(), expr);
    local.value_here(words, &[0; 3]).ok()
}
