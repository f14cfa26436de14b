//! The passes over plans, one behind the other, keep what a plan shows.
//!
//! The functions here do nothing: each has laws of `zpl_compile`'s tables as its contract, and a
//! call brings the laws into a proof.
#![tactic(auto)]

ghost use Rattle.std.specs.Prelude.{◌≡◌, ℕ, true, false, List, Option, All};
ghost use Rattle.node_form.specs.declared.tables.Tables.{Tables as Code};
ghost use Rattle.node_form.specs.Fits.{Fits};
ghost use Rattle.node_form.specs.Grid.{IsGrid};
ghost use Rattle.row_runs.specs.Segments.{Keeps};
ghost use Rattle.flat_form.specs.Flat.{IsFlat};
ghost use Rattle.grid_meaning.specs.State.{HasThree};
ghost use Rattle.zpl_compile.specs.of_plan_meaning.Act.{plan_run};
ghost use Rattle.stored_shifts.specs.Stored.{ShiftsAreStored};
ghost use Rattle.plan_form.specs.Plan.{IsPlan, IsPlanRow};
ghost use Rattle.comm_needs.specs.Needs.{planned};
ghost use Rattle.comm_combine.specs.Merge.{neighbours_merged};
ghost use Rattle.comm_combine.specs.Repeats.{repeats_dropped};
ghost use Rattle.comm_early.specs.Send.{sent_early};
ghost use Rattle.plan_passes.specs.Threes.{HasThrees};
ghost use Rattle.plan_passes.specs.Units.{IsInUnits};
ghost use Rattle.zpl_claims.specs.Build.{Build, OverAllLinks};
ghost use Rattle.zpl_compile.specs.Compile.{emitted_for, plan_of};
ghost use Rattle.code_parts.specs.Early.{is_roomy};
ghost use Rattle.arranged_runs.specs.Plannable.{HasFlatThrees, IsPlannable};
ghost use Rattle.arranged_runs.specs.Sent.{IsSentInOrder};

/// In the plan of a flat program each start has its finish directly behind it; and so it is without
/// repeats, and with neighbours merged, where it was before in a plan that fits.
pub fn plans_stay_in_units()
    ensures planned { (grid : List ℕ) (code : Code) →
        IsFlat code → IsInUnits (planned grid code) }
    ensures dropped { (code : Code) →
        Fits code → IsInUnits code → IsInUnits (repeats_dropped code) }
    ensures merged { (code : Code) →
        Fits code → IsInUnits code → IsInUnits (neighbours_merged code) }
{}

/// What is of three has three in the plan of a flat program where it has in this; and so it is
/// without repeats, with neighbours merged, and with starts moved up, where it was before.
pub fn plans_keep_threes()
    ensures planned { (grid : List ℕ) (code : Code) →
        IsFlat code → HasFlatThrees code → HasThrees (planned grid code) }
    ensures dropped { (code : Code) → HasThrees code → HasThrees (repeats_dropped code) }
    ensures merged { (code : Code) → HasThrees code → HasThrees (neighbours_merged code) }
    ensures early { (links : Option ℕ) (code : Code) →
        HasThrees code → HasThrees (sent_early links code) }
{}

/// Where starts are moved up in a plan in units, for links that hold a message, each finish has its
/// start before it in its stretch, the finishes stand in the order of their starts, and no row that
/// may trap and no other collective stands between; no exchange is open behind the stretch. And
/// never are more exchanges open than links hold messages. So it is behind all passes that a build
/// asks for.
pub fn exchanges_stay_in_order()
    ensures early { (links : Option ℕ) (code : Code) → is_roomy links 0 ≡ true → IsInUnits code →
        IsSentInOrder links (sent_early links code) }
    ensures arranged { (build : Build) (flat : Code) → IsGrid build.grid → IsPlannable flat →
        is_roomy build.links 0 ≡ true → IsSentInOrder build.links (plan_of build flat) }
{}

/// The plan of a flat program is a plan: it fits, and has no agreement along the tree of
/// processors. It is one still without repeats, with neighbours merged, and with starts moved up,
/// and so behind all passes that a build asks for. Code of a plan has no agreement along the tree
/// where that isn't asked for.
pub fn plans_are_plans()
    ensures planned { (grid : List ℕ) (code : Code) → IsGrid grid → IsFlat code →
        ShiftsAreStored code → IsPlan (planned grid code) }
    ensures dropped { (code : Code) → IsPlan code → IsPlan (repeats_dropped code) }
    ensures merged { (code : Code) → IsPlan code → IsPlan (neighbours_merged code) }
    ensures early { (links : Option ℕ) (code : Code) → IsPlan code →
        IsPlan (sent_early links code) }
    ensures arranged { (build : Build) (flat : Code) → IsGrid build.grid → IsPlannable flat →
        IsPlan (plan_of build flat) }
    ensures emitted { (build : Build) (plan : Code) → IsPlan plan → build.options.tree ≡ false →
        All IsPlanRow (emitted_for build plan).code }
{}

/// For every build the plan of flat tables shows what it showed in front of the passes that are
/// asked for: over all links that the build's code is for, and for every bound on jumps and on the
/// turns of loops in groups, unless the plan comes to a row that may not stand there in front of
/// them. It fits, is for the build's grid, and rows of three have three still.
pub fn plan_passes_keep_runs()
    ensures runs { (build : Build) (flat : Code) → IsGrid build.grid → IsPlannable flat →
        OverAllLinks build (λ links. (a n : ℕ) →
        Keeps (plan_run (planned build.grid flat) links a n)
        (plan_run (plan_of build flat) links a n)) }
    ensures fits { (build : Build) (flat : Code) → IsGrid build.grid → IsPlannable flat →
        Fits (plan_of build flat) }
    ensures three { (build : Build) (flat : Code) → IsGrid build.grid → IsPlannable flat →
        All (HasThree (plan_of build flat)) (plan_of build flat).code }
    ensures grid { (build : Build) (flat : Code) → (plan_of build flat).grid ≡ build.grid }
{}
