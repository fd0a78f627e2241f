//! A program over a desk, from nothing to its status.
ghost use Rattle.std.specs.Prelude.{◌≡◌, ◌≢◌, ◌⊎◌, ◌≤◌, List, ℕ};
ghost use Rattle.std.specs.FinMap.{get};
ghost use Rattle.cw_desk.specs.Batch.{tell};
ghost use Rattle.cw_desk.specs.Journal.{GrownByPart, byte_events};
ghost use Rattle.cw_desk.specs.Meaning.{Files, NamedFiles, Rose};
ghost use Rattle.cw_desk.specs.State.{Narrows, OnlyPuts};
ghost use Rattle.cw_run.specs.Emits.{Run};
ghost use Rattle.cw_run.specs.Program.{Outcome, words_of};

use crate::words::words_behind;
use cw_base::{Exit, Words};
use cw_desk::{Batch, Desk, Flushed};
use std::alloc::Global;

/// A program: what it does is known, for all words and all files.
pub trait Program {
    ghost run: { Self → List (List ℕ) → NamedFiles → Run };

    /// Over all files that agree with the desk afterwards, it has done what the words ask for.
    fn run_on<D: Desk>(&self, alloc: Global, words: &Words, desk: &mut D) -> Exit
        ensures done { (files : Files) → (D.told desk.new).agrees files →
            Outcome (run self.now words.now (get files)) (D.told desk.old).journal (D.told desk.new).journal result }
        ensures handed { (files : Files) → (D.told desk.new).agrees files →
            (D.told desk.old).handed ≤ (D.told desk.new).handed }
        ensures kept { (D.told desk.old).faults ≤ (D.told desk.new).faults }
        ensures fault { result ≡ Exit.Fault → Rose (D.told desk.old).faults (D.told desk.new).faults };
}

// Hands on what still waits at the end of a run, and answers how the program exits. After a fault or out of memory
// nothing more is handed on.
fn end<D: Desk + Drop>(exit: Exit, desk: Batch<D>) -> (Exit, D)
    ensures part { GrownByPart (D.told desk.below).journal (D.told result.1).journal
        (byte_events desk.out desk.waiting) }
    ensures same { OnlyPuts (D.told desk.below) (D.told result.1) }
    ensures whole { result.0 ≢ Exit.Fault → result.0 ≢ Exit.Memory →
        (result.0 ≡ exit) × ((D.told result.1).journal ≡ (tell D.told desk).journal) }
    ensures fault { result.0 ≡ Exit.Fault →
        (exit ≡ Exit.Fault) ⊎ Rose (D.told desk.below).faults (D.told result.1).faults }
{
    if matches!(exit, Exit::Fault | Exit::Memory) {
        return (exit, desk.discard());
    }
    let (flushed, below) = desk.finish();
    match flushed {
        Flushed::Done => (exit, below),
        Flushed::Failed => (Exit::Fault, below),
        Flushed::Memory => (Exit::Memory, below),
    }
}

/// Runs a program on the words of a command line and a desk, to which its output is handed on in few calls, and gives
/// the desk back.
///
/// Whatever the desk is: over all files that would have given the answers that it gave, just the run's events were
/// handed on, and the status is the run's; or a first part of them, after a fault of the desk or out of memory.
pub fn run_program<P: Program, D: Desk + Drop>(
    alloc: Global,
    program: &P,
    line: &Words,
    desk: D,
) -> (Exit, D)
    ensures done { (files : Files) → (D.told result.1).agrees files →
        Outcome (P.run program.now (words_of line.now) (get files)) (D.told desk).journal (D.told result.1).journal
        result.0 }
    ensures kept { (D.told desk).faults ≤ (D.told result.1).faults }
    ensures fault { result.0 ≡ Exit.Fault → Rose (D.told desk).faults (D.told result.1).faults }
{
    let Ok(words) = words_behind(alloc, line) else {
        return (Exit::Memory, desk);
    };
    run_words(alloc, program, &words, desk)
}

// Runs a program on its words.
fn run_words<P: Program, D: Desk + Drop>(
    alloc: Global,
    program: &P,
    words: &Words,
    desk: D,
) -> (Exit, D)
    ensures done { (files : Files) → (D.told result.1).agrees files →
        Outcome (P.run program.now words.now (get files)) (D.told desk).journal (D.told result.1).journal result.0 }
    ensures kept { (D.told desk).faults ≤ (D.told result.1).faults }
    ensures fault { result.0 ≡ Exit.Fault → Rose (D.told desk).faults (D.told result.1).faults }
{
    let mut batch = Batch::new_in(alloc, desk);
    let exit = program.run_on(alloc, words, &mut batch);
    end(exit, batch)
}
