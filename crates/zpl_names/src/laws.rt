//! The laws of names, and of what a program reaches by calls.
ghost use Rattle.std.specs.Prelude.{◌≡◌, ◌<◌, ◌≤◌, ◌↔◌, ℕ, List, [], map, flat_map, sum_by, true};
ghost use Rattle.std.specs.Prelude.{Some, None, All, Contains, IsSome};
ghost use Rattle.zpl_tree.specs.Syntax.{Expr, Inner, Program};
ghost use Rattle.zpl_names.specs.Shapes.{Shapes};
ghost use Rattle.zpl_names.specs.Kinds as kind;
ghost use Rattle.zpl_names.specs.Kinds.{Rank, Signature};
ghost use Rattle.zpl_names.specs.Scope.{Entry, Scope, kind_in};
ghost use Rattle.zpl_names.specs.Ranks.{AreKnown, HasRanks, IsRank, inner_rank, operand_rank};
ghost use Rattle.zpl_names.specs.Ranks.{own_rank, rank_of};
ghost use Rattle.zpl_names.specs.Declared.{IsProcedureOf, Routine, entry_of, globals_of};
ghost use Rattle.zpl_names.specs.Declared.{routine_named, routines_of, scope_of};
ghost use Rattle.zpl_names.specs.Faults.{repeated};
ghost use Rattle.zpl_names.specs.Reached.{IsClosed, IsDeepCall, IsHeight, IsReached, IsRecursion};
ghost use Rattle.zpl_names.specs.Reached.{longest_chain, sites_at};
ghost use Rattle.zpl_names.specs.Sites.{Reach, Role, Site, expr_sites, handed, region_sites};
ghost use Rattle.zpl_names.specs.Sites.{routine_sites, text_sites, whole_rank, whole_sites};
ghost use Rattle.zpl_names.specs.Accepted.{FaultKind, HasFault, HasKnownRank, IsClean, IsFaultless};
ghost use Rattle.zpl_names.specs.Accepted.{region_faults, site_faults, HasNoFault, HasNoFaultUnder};
ghost use Rattle.zpl_names.specs.Expansion.{Instance, callees, expanded, expanded_of};
ghost use Rattle.zpl_names.specs.Expansion.{instances_from, instances_of, is_shallow};

/// A name stands for nothing exactly where no entry has it, and where no name is a second one each
/// stands for what its entry says.
pub fn names_stand_for_their_entries()
    ensures none { (entries : List Entry) (text : List ℕ) →
        (kind_in entries text ≡ None) ↔ ¬ Contains (map (λ entry. entry.name.text) entries) text }
    ensures one { (entries : List Entry) (entry : Entry) →
        repeated [] (map (λ entry. entry.name) entries) ≡ [] →
        Contains entries entry → kind_in entries entry.name.text ≡ Some entry.kind }
{}

/// What a program declares has ranks up to 3.
pub fn declared_ranks_are_at_most_three()
    ensures { (program : Program) (routine : Routine) → Contains (routines_of program) routine →
        HasRanks (scope_of program routine) }
{}

/// Over names with ranks up to 3, and with such ranks handed in, expressions and regions have ranks
/// up to 3.
pub fn ranks_are_at_most_three()
    ensures expressions { (scope : Scope) (prefix handed : Rank) (expr : Expr) → HasRanks scope →
        IsRank prefix → IsRank handed →
        IsRank (rank_of scope prefix handed expr) }
    ensures operands { (scope : Scope) (prefix : Rank) (operand : Expr) → HasRanks scope →
        IsRank prefix →
        IsRank (operand_rank scope prefix operand) }
    ensures regions { (scope : Scope) (hint prefix : Rank) (region : Inner) → HasRanks scope →
        IsRank hint → IsRank prefix →
        IsRank (inner_rank scope hint prefix region) }
{}

/// A global name that stands for a procedure names one of the text, with that signature.
pub fn procedures_are_there()
    ensures { (program : Program) (text : List ℕ) (signature : Signature) →
        kind_in (globals_of program) text ≡ Some (kind.Procedure signature) →
        (routine : Routine) × (routine_named program text ≡ Some routine) ×
        IsProcedureOf signature routine }
{}

/// A list of procedures with current regions that has the entry procedure, and with each one all
/// that it calls, has all that some chain of calls reaches.
pub fn closed_lists_have_what_is_reached()
    ensures { (program : Program) (pairs : List (List ℕ × Shapes)) → IsClosed program pairs →
        (text : List ℕ) (shapes : Shapes) → IsReached program text shapes →
        Contains pairs (text, shapes) }
{}

/// Where numbers of procedures fall with each call, no procedure reaches itself; and no chain of
/// calls is too long where the entry procedure's is below the longest one.
pub fn falling_numbers_bound_calls()
    ensures recursion { (program : Program) (height : List ℕ → ℕ) → IsHeight program height →
        (at : ℕ) → ¬ IsRecursion program at }
    ensures deep { (program : Program) (height : List ℕ → ℕ) → IsHeight program height →
        height program.name.text < longest_chain → (at : ℕ) → ¬ IsDeepCall program at }
{}

/// In a program without recursion and too long chains of calls, no chain from the entry procedure
/// on is too long to be expanded.
pub fn faultless_programs_are_shallow()
    ensures { (program : Program) (entry : Routine) → entry_of program ≡ Some entry →
        ((at : ℕ) → ¬ IsRecursion program at) → ((at : ℕ) → ¬ IsDeepCall program at) →
        is_shallow program longest_chain entry ≡ true }
{}

/// Where no chain of calls is longer than a depth, a greater depth expands nothing more.
pub fn more_depth_changes_nothing()
    ensures numbers { (program : Program) (own : Routine → ℕ) (depth deeper : ℕ) (routine : Routine)
        → depth ≤ deeper →
        is_shallow program depth routine ≡ true →
        expanded program own deeper routine ≡ expanded program own depth routine }
    ensures calls { (program : Program) (depth deeper : ℕ) (instance : Instance) → depth ≤ deeper →
        is_shallow program depth instance.routine ≡ true →
        instances_from program deeper instance ≡ instances_from program depth instance }
{}

/// What is counted of the expanded program is the sum over its calls; where the entry procedure
/// calls nothing, it is what is counted of that.
pub fn counts_add_up()
    ensures calls { (program : Program) (own : Routine → ℕ) → expanded_of program own ≡
        sum_by (λ instance. own instance.routine) (instances_of program) }
    ensures alone { (program : Program) (own : Routine → ℕ) (entry : Routine) →
        entry_of program ≡ Some entry → callees program entry ≡ [] →
        expanded_of program own ≡ own entry }
{}

/// A fault of a site is one of the program; and a program has none where its sites have none, no
/// name and no entry is wrong, and the calls are bounded.
pub fn faults_are_those_of_sites()
    ensures text { (program : Program) (kind : FaultKind) (at : ℕ) →
        Contains (flat_map site_faults (text_sites program)) (kind, at) → HasFault program kind at }
    ensures under { (program : Program) (text : List ℕ) (shapes : Shapes) →
        IsReached program text shapes → (kind : FaultKind) (at : ℕ) →
        Contains (flat_map region_faults (sites_at program text shapes)) (kind, at) →
        HasFault program kind at }
    ensures none { (program : Program) (pairs : List (List ℕ × Shapes)) (height : List ℕ → ℕ) →
        IsClean program pairs height → IsFaultless program }
{}

/// In a program without faults no site has one: not in its text, whatever current regions it stands
/// under, and none of those that speak of them under what some chain of calls gives it.
pub fn faultless_programs_have_faultless_sites()
    ensures text { (program : Program) → IsFaultless program →
        (site : Site) → Contains (text_sites program) site → HasNoFault site }
    ensures reached { (program : Program) → IsFaultless program →
        (text : List ℕ) (shapes : Shapes) → IsReached program text shapes →
        (site : Site) → Contains (sites_at program text shapes) site → HasNoFault site }
    ensures under { (program : Program) → IsFaultless program →
        (text : List ℕ) (shapes : Shapes) → IsReached program text shapes →
        (site : Site) → Contains (sites_at program text shapes) site → HasNoFaultUnder site }
{}

/// In a program without faults no shape and no rank of a name in reach of a procedure's statements
/// is left open, and no rank of a site of its statements, whoever calls it.
pub fn faultless_programs_leave_nothing_open()
    ensures names { (program : Program) → IsFaultless program →
        (routine : Routine) → Contains (routines_of program) routine →
        AreKnown (scope_of program routine) }
    ensures sites { (program : Program) → IsFaultless program →
        (routine : Routine) → Contains (routines_of program) routine →
        (shapes : Shapes) (site : Site) → Contains (routine_sites program shapes routine) site →
        HasKnownRank site }
{}

/// Over such names, where the innermost prefix and what the place hands in are known, an expression
/// and a region whose sites have no fault have a rank.
pub fn faultless_sites_have_ranks()
    ensures wholes { (reach : Reach) (role : Role) (expr : Expr) → AreKnown reach.scope →
        IsSome reach.prefix → IsSome (handed reach role) →
        All HasNoFault (whole_sites reach role expr) → IsSome (whole_rank reach role expr) }
    ensures parts { (reach : Reach) (rank : Rank) (expr : Expr) → AreKnown reach.scope →
        IsSome reach.prefix → All HasNoFault (expr_sites reach rank expr) →
        IsSome (own_rank reach.scope reach.prefix expr) }
    ensures regions { (reach : Reach) (hint : Rank) (region : Inner) → AreKnown reach.scope →
        IsSome hint → IsSome reach.prefix → All HasNoFault (region_sites reach hint region) →
        IsSome (inner_rank reach.scope hint reach.prefix region) }
{}
