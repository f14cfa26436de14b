//! Laws of what files and sinks tell, and of counting.
//!
//! Each law is the contract of a function that does nothing: a call brings the law into a proof.
ghost use Rattle.std.specs.Prelude.{◌≡◌, ◌≤◌, ◌↔◌, ℕ, Bool, List, [], ◌++◌, IsTrue};
ghost use Rattle.zpl_io.specs.Faults.{last_count, Rose};
ghost use Rattle.zpl_io.specs.Files.{SameTexts};
ghost use Rattle.zpl_io.specs.Sink.{StopsAtFault, Takes, TakesFront};
ghost use Rattle.zpl_io.specs.MemFiles.{KeptFiles, HasText, FailsLater, FailsNext};
ghost use Rattle.zpl_io.specs.MemSink.{KeptBytes};
ghost use Rattle.zpl_io.specs.CountSink.{Tally, tally_of, tally_after};

use crate::count_sink::CountSink;
use crate::disk_files::DiskFiles;
use crate::memory_files::MemFiles;
use crate::memory_sink::MemSink;
use crate::outside::{Files, Sink};
use crate::std_sink::StdSink;
use crate::sure_files::SureFiles;
use std::io::Stdout;

/// Two pieces that a sink takes one after another act as their concatenation, and an empty piece
/// changes nothing. A put that failed was the last one of two calls, where the first call made none
/// that failed.
pub fn puts_join<S: Sink>()
    ensures none { (sink : S) → Takes (S.tells sink) [] (S.tells sink) }
    ensures whole { (before after : S) (x : List ℕ) →
        Takes (S.tells before) x (S.tells after) → TakesFront (S.tells before) x (S.tells after) }
    ensures both { (before between after : S) (x y : List ℕ) →
        Takes (S.tells before) x (S.tells between) → Takes (S.tells between) y (S.tells after) →
        Takes (S.tells before) (x ++ y) (S.tells after) }
    ensures front { (before between after : S) (x y : List ℕ) →
        Takes (S.tells before) x (S.tells between) →
        TakesFront (S.tells between) y (S.tells after) →
        TakesFront (S.tells before) (x ++ y) (S.tells after) }
    ensures last { (failed : Bool) (before between after : S) →
        StopsAtFault ⊥ (S.has_failed before) (S.has_failed between) →
        StopsAtFault (IsTrue failed) (S.has_failed between) (S.has_failed after) →
        StopsAtFault (IsTrue failed) (S.has_failed before) (S.has_failed after) }
{}

/// Counting goes on where it stopped: a list counts as its parts do one after another.
pub fn counting_goes_on()
    ensures begins { (x : List ℕ) → tally_after (tally_of []) x ≡ tally_of x }
    ensures lists { (x y : List ℕ) → tally_of (x ++ y) ≡ tally_after (tally_of x) y }
    ensures pieces { (t : Tally) (x y : List ℕ) →
        tally_after t (x ++ y) ≡ tally_after (tally_after t x) y }
{}

/// Two calls in a row tell the same texts as one does, and a count that rose in one of them rose in
/// both together.
pub fn calls_join<F: Files>()
    ensures none { (files : F) → SameTexts (F.tells files) (F.tells files) }
    ensures texts { (before between after : F) →
        SameTexts (F.tells before) (F.tells between) →
        SameTexts (F.tells between) (F.tells after) →
        SameTexts (F.tells before) (F.tells after) }
    ensures first { (before between after : ℕ) →
        Rose before between → between ≤ after → after ≤ last_count → Rose before after }
    ensures second { (before between after : ℕ) →
        before ≤ between → Rose between after → Rose before after }
{}

/// What each kind of files tells, and where its fetches may fail: in memory its own texts and no
/// others, where the next call fails, or a later one; sure files one text, never; on a disk every
/// text, everywhere.
pub fn files_tell()
    ensures memory { (files : KeptFiles) (name text : List ℕ) →
        ⟦<MemFiles as Files>⟧.tells files name text ↔ HasText files name text }
    ensures memory_fails { (files : KeptFiles) (name : List ℕ) →
        ⟦<MemFiles as Files>⟧.may_fail files name ↔ FailsNext files name }
    ensures memory_fails_later { (files : KeptFiles) (name : List ℕ) →
        ⟦<MemFiles as Files>⟧.may_fail_later files name ↔ FailsLater files name }
    ensures memory_faults { (files : KeptFiles) →
        ⟦<MemFiles as Files>⟧.faults files ≡ files.faults }
    ensures sure { (kept name text : List ℕ) →
        ⟦<SureFiles as Files>⟧.tells kept name text ↔ (text ≡ kept) }
    ensures sure_fails { (kept name : List ℕ) → ¬ ⟦<SureFiles as Files>⟧.may_fail kept name }
    ensures sure_fails_later { (kept name : List ℕ) →
        ¬ ⟦<SureFiles as Files>⟧.may_fail_later kept name }
    ensures sure_faults { (kept : List ℕ) → ⟦<SureFiles as Files>⟧.faults kept ≡ 0 }
    ensures disk { (count : ℕ) (name text : List ℕ) →
        ⟦<DiskFiles<HostRuntime> as Files>⟧.tells count name text }
    ensures disk_fails { (count : ℕ) (name : List ℕ) →
        ⟦<DiskFiles<HostRuntime> as Files>⟧.may_fail count name }
    ensures disk_fails_later { (count : ℕ) (name : List ℕ) →
        ⟦<DiskFiles<HostRuntime> as Files>⟧.may_fail_later count name }
    ensures disk_faults { (count : ℕ) → ⟦<DiskFiles<HostRuntime> as Files>⟧.faults count ≡ count }
{}

/// What each kind of sink tells: in memory its own bytes and no others, counting each list of its
/// number and hash, and a stream every list. The last two keep whether the last put failed, and no
/// put of the counting sink does.
pub fn sinks_tell()
    ensures memory { (sink : KeptBytes) (bytes : List ℕ) →
        ⟦<MemSink as Sink>⟧.tells sink bytes ↔ (bytes ≡ sink.taken) }
    ensures memory_faults { (sink : KeptBytes) → ⟦<MemSink as Sink>⟧.faults sink ≡ sink.faults }
    ensures memory_last { (sink : KeptBytes) →
        ⟦<MemSink as Sink>⟧.has_failed sink ↔ IsTrue sink.has_failed }
    ensures counting { (tally : Tally) (bytes : List ℕ) →
        ⟦<CountSink as Sink>⟧.tells tally bytes ↔ (tally ≡ tally_of bytes) }
    ensures counting_faults { (tally : Tally) → ⟦<CountSink as Sink>⟧.faults tally ≡ 0 }
    ensures counting_last { (tally : Tally) → ¬ ⟦<CountSink as Sink>⟧.has_failed tally }
    ensures stream { (sink : _) (bytes : List ℕ) → ⟦<StdSink<Stdout> as Sink>⟧.tells sink bytes }
    ensures stream_faults { (sink : _) → ⟦<StdSink<Stdout> as Sink>⟧.faults sink ≡ sink.faults }
    ensures stream_last { (sink : _) →
        ⟦<StdSink<Stdout> as Sink>⟧.has_failed sink ↔ IsTrue sink.has_failed }
{}
