//! The laws of tables in which equal texts stand once.
ghost use Rattle.std.specs.Prelude.{◌≡◌, ℕ, ◌≤◌, All, Bool, Contains, List, [], length, sum_by};
ghost use Rattle.std.specs.List.{IsDistinct};
ghost use Rattle.std.specs.Str.{bytes_eq};
ghost use Rattle.flat_form.specs.of_node_form.declared.instructions.Instr.{Instr};
ghost use Rattle.flat_form.specs.of_node_form.declared.instructions.Instr.TheVariants.{Print};
ghost use Rattle.flat_form.specs.of_node_form.declared.tables.Tables.{Tables};
ghost use Rattle.flat_form.specs.of_node_form.Fits.{Fits};
ghost use Rattle.flat_form.specs.of_code_parts.Counts.{code_size, count_of};
ghost use Rattle.flat_form.specs.Act.{flat_run};
ghost use Rattle.flat_form.specs.Flat.{IsFlat};
ghost use Rattle.flat_form.specs.Row.{all_inlined};
ghost use Rattle.text_sharing.specs.Shared.{texts_shared};

/// No two texts are equal; each is one of the old texts, and each of those is among them.
pub fn shared_texts_are_different()
    ensures distinct { (tables : Tables) → IsDistinct bytes_eq (texts_shared tables).texts }
    ensures old { (tables : Tables) →
        All (λ text. Contains tables.texts text) (texts_shared tables).texts }
    ensures kept { (tables : Tables) →
        All (λ text. Contains (texts_shared tables).texts text) tables.texts }
{}

/// Each row prints what it did, and has the same of all else: a flat run of the tables is the same.
pub fn rows_are_the_same_inline()
    ensures inline { (tables : Tables) →
        all_inlined (texts_shared tables) ≡ all_inlined tables }
    ensures run { (tables : Tables) (a n : ℕ) →
        flat_run (texts_shared tables) a n ≡ flat_run tables a n }
{}

/// The texts have no more bytes than before, and all else is as large; there are as many rows as
/// before that pass a test which doesn't look at numbers of texts.
pub fn shared_tables_are_no_larger()
    ensures whole { (tables : Tables) → code_size (texts_shared tables) ≤ code_size tables }
    ensures bare { (tables : Tables) →
        code_size (record (texts_shared tables) { texts = [] })
        ≡ code_size (record tables { texts = [] }) }
    ensures counted { (tables : Tables) (test : Instr → Bool) →
        ((old new : ℕ) → test (Print old) ≡ test (Print new)) →
        count_of test (texts_shared tables) ≡ count_of test tables }
{}

/// Tables that fit do so with equal texts once, and a flat program's are one's.
pub fn shared_tables_fit()
    ensures fits { (tables : Tables) → Fits tables → Fits (texts_shared tables) }
    ensures flat { (tables : Tables) → IsFlat tables → IsFlat (texts_shared tables) }
{}
