//! The laws of the numbers of arrays.
ghost use Rattle.std.specs.Prelude.{Bool, List, Option, Some, false, length, slice_get, true, ℕ};
ghost use Rattle.std.specs.Prelude.{◌++◌, ◌+◌, ◌<◌, ◌≡◌};
ghost use Rattle.std.specs.Option.{option_map};
ghost use Rattle.zpl_nums.specs.declared.operators.Op.{Op};
ghost use Rattle.zpl_tree.specs.Grammar.{IsProgram};
ghost use Rattle.zpl_tree.specs.Syntax.{Expr, Name, Program};
ghost use Rattle.zpl_names.specs.Kinds.{Rank};
ghost use Rattle.zpl_names.specs.Accepted.{IsFaultless};
ghost use Rattle.zpl_names.specs.Expansion.{ExpandedArray, Instance, array_named};
ghost use Rattle.zpl_names.specs.Expansion.{expanded_arrays, is_plain_target};
ghost use Rattle.zpl_binding.specs.Regions.{Known};
ghost use Rattle.zpl_binding.specs.Storages.{Border};
ghost use Rattle.zpl_meaning.specs.Program.{first_frame, setup_of};
ghost use Rattle.zpl_meaning.specs.Points.{assigned_expr};
ghost use Rattle.node_form.specs.Expression.{words_of};
ghost use Rattle.lowering_fits.specs.of_zpl_lowering.Where.{Next, Stored, Where};
ghost use Rattle.lowering_fits.specs.of_zpl_lowering.Slate.{settled};
ghost use Rattle.lowering_fits.specs.of_zpl_lowering.Hoist.{Free, array_code, hoisted, mask_word};
ghost use Rattle.lowering_fits.specs.of_zpl_lowering.Program.{Framed, global_numbers};
ghost use Rattle.array_numbers.specs.Calls.{AreStanding, HasNumber, IsCallOf};
ghost use Rattle.array_numbers.specs.Plain.{reads_number};

/// Wherever the body of a procedure is lowered, names that stand for an array with one number stand
/// for one array of the expanded program, and the number is below those that are free. The call's
/// own arrays have the last numbers below these, in order. Where the own arrays of each call that
/// leads to it, and of the call itself, stand among all arrays of the expanded program from the
/// number on that was free, each name stands for the array at its number.
pub fn numbers_stand_for_arrays()
    ensures one { (program : Program) (known : Known) (borders : List Border) →
        IsProgram program → IsFaultless program →
        (instance : Instance) (framed : Framed) (arrays : ℕ) →
        IsCallOf program known borders instance framed arrays →
        (name other : Name) (number : ℕ) →
        HasNumber (first_frame program known borders).names framed name number →
        HasNumber (first_frame program known borders).names framed other number →
        (array : ExpandedArray) × (array_named program instance name ≡ Some array) ×
        (array_named program instance other ≡ Some array) }
    ensures below { (program : Program) (known : Known) (borders : List Border) →
        IsProgram program → IsFaultless program →
        (instance : Instance) (framed : Framed) (arrays : ℕ) →
        IsCallOf program known borders instance framed arrays →
        (name : Name) (number : ℕ) →
        HasNumber (first_frame program known borders).names framed name number →
        number < arrays }
    ensures own { (program : Program) (known : Known) (borders : List Border) →
        IsProgram program → IsFaultless program →
        (instance : Instance) (framed : Framed) (arrays : ℕ) →
        IsCallOf program known borders instance framed arrays →
        (name : Name) (number : ℕ) →
        HasNumber (first_frame program known borders).names framed name number →
        (i : ℕ) → i < length instance.own → number + length instance.own ≡ arrays + i →
        array_named program instance name ≡
        option_map (λ binding. binding.array) (slice_get instance.own i) }
    ensures placed { (program : Program) (known : Known) (borders : List Border) →
        IsProgram program → IsFaultless program →
        (instance : Instance) (framed : Framed) (arrays : ℕ)
        (is : IsCallOf program known borders instance framed arrays) →
        (let frame = first_frame program known borders in
        AreStanding (expanded_arrays program) (setup_of program known borders frame)
        (global_numbers frame) (length frame.store.arrays) instance framed arrays is →
        (name : Name) (number : ℕ) → HasNumber frame.names framed name number →
        array_named program instance name ≡ slice_get (expanded_arrays program) number) }
{}

/// So the words that a plain assignment puts read with a shift no array that has the number of the
/// assigned one; and masks read none with a shift.
pub fn plain_assignments_stand_apart()
    ensures words { (program : Program) (known : Known) (borders : List Border) →
        IsProgram program → IsFaultless program →
        (instance : Instance) (framed : Framed) (arrays : ℕ) →
        IsCallOf program known borders instance framed arrays → (w : Where) →
        w.environment ≡
        record { names = framed.names ++ (first_frame program known borders).names } →
        w.numbers ≡ framed.numbers →
        (name : Name) (op : Option Op) (value : Expr) (number : ℕ) →
        HasNumber (first_frame program known borders).names framed name number →
        is_plain_target program instance (array_named program instance name) value ≡ true →
        (line : ℕ) (next : Next) (rank : Rank) (free : Free) →
        reads_number number
        (words_of (hoisted w.numbers line free
        (settled w line next rank (assigned_expr name op value)).slate).left) ≡ false }
    ensures masks { (number : ℕ) (without : Bool) (stored : Option Stored) →
        reads_number number (words_of (mask_word without (array_code stored))) ≡ false }
{}
