//! The laws of binding.
ghost use Rattle.std.specs.Prelude.{◌≡◌, ℕ, List, [], flat_map, All, Contains};
ghost use Rattle.zpl_arrays.specs.of_zpl_region.Hull.{IsBoxed};
ghost use Rattle.zpl_tree.specs.Syntax.{Program};
ghost use Rattle.zpl_names.specs.Expansion.{expanded_copies, Instance, instances_of, ShiftedRead};
ghost use Rattle.zpl_binding.specs.Outcome.{Fails, RegionLimit};
ghost use Rattle.zpl_binding.specs.Settings.{Setting, setting_of};
ghost use Rattle.zpl_binding.specs.Declarations.{config_names, direction_names, known_of, names_of};
ghost use Rattle.zpl_binding.specs.Declarations.{region_names, value_names};
ghost use Rattle.zpl_binding.specs.Formals.{AreClosed, HasActuals, IsCalled, IsListed};
ghost use Rattle.zpl_binding.specs.Formals.{IsReadAround, Standing, StandsFor};
ghost use Rattle.zpl_binding.specs.Regions.{Known};
ghost use Rattle.zpl_binding.specs.Copies.{copy_of, HasCopiesWithin, HasCopyPastLimit};
ghost use Rattle.zpl_binding.specs.Bound.{Binds, Bound, faults_of, faults_of_settings, HasEntries};
ghost use Rattle.zpl_binding.specs.Bound.{IsAcceptedWith, IsFormed, IsWithinLimits};

/// Settings that a program accepts bind it, and in one way; so do those with which nothing but a
/// copy of an array may be wrong. Where they bind it, the only faults are those of the settings
/// themselves and of copies: without these, it accepts them.
pub fn accepted_settings_bind()
    ensures accepted { (program : Program) (settings : List Setting) →
        IsAcceptedWith program settings → (bound : Bound) × Binds program settings bound }
    ensures faultless { (program : Program) (settings : List Setting) →
        faults_of program settings ≡ [] → (bound : Bound) × Binds program settings bound }
    ensures one_way { (program : Program) (settings : List Setting) (bound other : Bound) →
        Binds program settings bound → Binds program settings other → bound ≡ other }
    ensures only { (program : Program) (settings : List Setting) (bound : Bound) →
        Binds program settings bound →
        faults_of program settings ≡ faults_of_settings program settings }
    ensures accepts { (program : Program) (settings : List Setting) (bound : Bound) →
        Binds program settings bound → faults_of_settings program settings ≡ [] →
        ¬ HasCopyPastLimit program (known_of program settings) →
        IsAcceptedWith program settings }
{}

/// For each config and constant, each region and each direction there is one entry, in text order;
/// and so for the lists of what is bound, which has a storage for each array.
pub fn bound_lists_follow_the_text()
    ensures values { (program : Program) (settings : List Setting) →
        names_of (known_of program settings).values ≡ flat_map value_names program.decls }
    ensures regions { (program : Program) (settings : List Setting) →
        names_of (known_of program settings).regions ≡ flat_map region_names program.decls }
    ensures directions { (program : Program) (settings : List Setting) →
        names_of (known_of program settings).directions ≡ flat_map direction_names program.decls }
    ensures lists { (program : Program) (settings : List Setting) (bound : Bound) →
        Binds program settings bound → HasEntries program bound }
{}

/// What is bound is within the limits: regions, vectors and storages. Storages are boxes. Regions
/// have steps of at least 1, and are padded to three dimensions.
pub fn bound_lists_are_within_limits()
    ensures limits { (program : Program) (settings : List Setting) (bound : Bound) →
        Binds program settings bound → IsWithinLimits bound }
    ensures boxes { (program : Program) (settings : List Setting) (bound : Bound) →
        Binds program settings bound → All (λ storage. All IsBoxed storage.dims) bound.storages }
    ensures formed { (program : Program) (settings : List Setting) (bound : Bound) →
        Binds program settings bound → All IsFormed bound.regions }
{}

/// Settings that give each config the same text, or none, come to the same values, and bind the
/// same.
pub fn settings_of_other_names_change_nothing()
    ensures known { (program : Program) (settings others : List Setting) →
        ((name : List ℕ) → Contains (flat_map config_names program.decls) name →
        setting_of settings name ≡ setting_of others name) →
        known_of program settings ≡ known_of program others }
    ensures bound { (program : Program) (settings others : List Setting) (bound : Bound) →
        ((name : List ℕ) → Contains (flat_map config_names program.decls) name →
        setting_of settings name ≡ setting_of others name) →
        Binds program settings bound → Binds program others bound }
{}

/// Lists that are closed under calls have all procedures that are called, and all that their
/// parameters may stand for. Where none of the copies that they tell is past the limit, none is.
pub fn closed_lists_have_what_parameters_stand_for()
    ensures called { (program : Program) (called : List (List ℕ)) (standings : List Standing) →
        AreClosed program called standings → (text : List ℕ) → IsCalled program text →
        Contains called text }
    ensures standing { (program : Program) (called : List (List ℕ)) (standings : List Standing) →
        AreClosed program called standings → (text name : List ℕ) (variable : ℕ) →
        StandsFor program text name variable → IsListed program standings text name variable }
    ensures copies { (program : Program) (called : List (List ℕ)) (standings : List Standing)
        (known : Known) → AreClosed program called standings →
        HasCopiesWithin program known called standings → ¬ HasCopyPastLimit program known }
{}

/// In a program whose calls have an array for each parameter that is one, each copy of the expanded
/// program is told by what names may stand for: so no copy is past the limit where settings are
/// accepted.
pub fn copies_of_the_expanded_program_are_told()
    ensures told { (program : Program) →
        ((call : Instance) → Contains (instances_of program) call → HasActuals program call) →
        (read : ShiftedRead) → Contains (expanded_copies program) read →
        IsReadAround program read.array.storage read.shift }
    ensures within { (program : Program) (settings : List Setting) →
        IsAcceptedWith program settings →
        ((call : Instance) → Contains (instances_of program) call → HasActuals program call) →
        (read : ShiftedRead) → Contains (expanded_copies program) read →
        ¬ (copy_of program (known_of program settings) read.array.storage read.shift ≡
        Fails RegionLimit) }
{}
