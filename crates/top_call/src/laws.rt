//! The law of files that are there for sure.
ghost use Rattle.std.specs.Prelude.{◌≡◌, ℕ, List, [], Some};
ghost use Rattle.zpl_io.specs.MemFiles.{FailsLater, FailsNext, HasText, KeptFiles};
ghost use Rattle.call_claims.specs.Call.{call_of};
ghost use Rattle.call_claims.specs.Command.{Asked};
ghost use Rattle.top_call.specs.Whole.{AreSure};

/// Files in memory that have texts under the names which a command names are there for sure, where
/// none of their calls is to fail. What they tell, and where they may fail, is said by `files_tell`
/// of `zpl_io`.
pub fn kept_files_are_sure()
    ensures { (files : KeptFiles) (words : List (List ℕ)) (file text : List ℕ) (asked : Asked) →
        files.failing ≡ [] → HasText files file text →
        ((order : List ℕ) → asked.order ≡ Some order →
        (other : List ℕ) × HasText files order other) →
        AreSure (call_of words (HasText files) (FailsNext files) (FailsLater files)) file asked }
{}
