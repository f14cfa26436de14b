//! The plan of compiled code shows what the lowered program shows, over all links that the code is
//! for.
//!
//! The functions here do nothing: each has laws of `zpl_compile`'s tables as its contract, and a
//! call brings the laws into a proof.
#![tactic(auto)]

ghost use Rattle.std.specs.Prelude.{◌≡◌, ◌≤◌, All, length};
ghost use Rattle.zpl_tree.specs.Syntax.{Program};
ghost use Rattle.node_form.specs.declared.tables.Tables.{Tables as Code};
ghost use Rattle.node_form.specs.Fits.{Fits};
ghost use Rattle.node_form.specs.Grid.{IsGrid};
ghost use Rattle.grid_meaning.specs.State.{HasThree};
ghost use Rattle.flat_form.specs.Flat.{IsFlat};
ghost use Rattle.settled_runs.specs.of_fused_runs.Typed.{IsTyped};
ghost use Rattle.planned_runs.specs.of_needs_runs.Sharable.{IsSharable};
ghost use Rattle.arranged_runs.specs.Plannable.{IsPlannable};
ghost use Rattle.lock_steps.specs.Meant.{IsPlanOf};
ghost use Rattle.zpl_claims.specs.Build.{Build, OverAllLinks};
ghost use Rattle.zpl_lowering.specs.Tables.{flat_tables};
ghost use Rattle.settled_runs.specs.of_zpl_compile.Compile.{compiled, emitted_for, plan_of, settled};

pub use arranged_runs;
use arranged_runs::plan_passes_keep_runs;
pub use lock_steps;
use lock_steps::emitted_orders::node_code_runs_as_its_plan;
use planned_runs::plans_keep_runs;
pub use settled_runs;
use settled_runs::flat_passes_keep_runs;

/// The plan behind all passes that a build asks for shows what the flat program shows in front of
/// them, and so does its node code: over all links that the build's code is for, and for every
/// bound on jumps and on the turns of loops in groups, unless the flat program comes to a row that
/// may not stand there. Of its tables is asked that they are a flat program's and have no cells
/// yet, and what their type gives; and of the settled ones all that plans ask. So it is for the
/// code that a program is compiled to.
pub fn compiled_plans_keep_runs()
    ensures plan { (build : Build) (flat : Code) → IsGrid build.grid →
        IsFlat flat → IsTyped flat → flat.cells ≡ 0 → IsSharable (settled build flat) →
        OverAllLinks build (λ links. IsPlanOf flat (plan_of build (settled build flat)) links) }
    ensures code { (build : Build) (flat : Code) → IsGrid build.grid →
        IsFlat flat → IsTyped flat → flat.cells ≡ 0 → IsSharable (settled build flat) →
        OverAllLinks build (λ links.
        IsPlanOf flat (emitted_for build (plan_of build (settled build flat))) links) }
    ensures program { (build : Build) (program : Program) → IsGrid build.grid →
        IsFlat (flat_tables program build.settings) →
        IsTyped (flat_tables program build.settings) →
        (flat_tables program build.settings).cells ≡ 0 →
        IsSharable (settled build (flat_tables program build.settings)) →
        OverAllLinks build (λ links.
        IsPlanOf (flat_tables program build.settings) (compiled build program) links) }
{
    flat_passes_keep_runs();
    plan_passes_keep_runs();
    node_code_runs_as_its_plan();
    plans_keep_runs();
}

/// The code of flat tables whose plan may be arranged fits, for every build; rows of three have
/// three in it, and it has as many rows as its plan.
pub fn compiled_code_fits()
    ensures fits { (build : Build) (flat : Code) → IsGrid build.grid → IsPlannable flat →
        Fits (emitted_for build (plan_of build flat)) }
    ensures three { (build : Build) (flat : Code) → IsGrid build.grid → IsPlannable flat →
        All (HasThree (emitted_for build (plan_of build flat)))
        (emitted_for build (plan_of build flat)).code }
    ensures long { (build : Build) (plan : Code) →
        length plan.code ≤ length (emitted_for build plan).code }
{
    plan_passes_keep_runs();
    node_code_runs_as_its_plan();
}
