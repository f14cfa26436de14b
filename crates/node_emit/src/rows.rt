//! The rows of node code.
ghost use Rattle.std.specs.Prelude.{◌≡◌, map};
ghost use Rattle.node_emit.specs.Emit.{along_tree, emitted};

use flat_passes::node_form::{Code, Grid3, Instr, Tables};

/// The node code of a plan, for a grid: its rows, and with `tree` those of agreements along the
/// tree of processors. It takes no memory.
pub fn emit(plan: Tables, grid: &Grid3, tree: bool) -> Tables
    ensures { result ≡ emitted tree grid.now plan }
{
    let mut code = plan;
    let factors = *grid;
    code.grid = factors;
    if tree {
        go_along_tree(&mut code.code);
    }
    code
}

fn go_along_tree(code: &mut Code)
    ensures { code.new ≡ map along_tree code.old }
{
    for i in 0..code.len() {
        let row = *code.get(i).unwrap();
        code.set(i, tree_row(row));
    }
}

fn tree_row(row: Instr) -> Instr
    ensures { result ≡ along_tree row }
{
    match row {
        Instr::Vote { group } => Instr::TreeVote { group },
        Instr::Fold { scalar, fold } => Instr::TreeFold { scalar, fold },
        other => other,
    }
}
