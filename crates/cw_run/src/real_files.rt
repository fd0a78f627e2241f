//! Programs over real files.
ghost use Rattle.std.specs.Prelude.{◌≡◌, []};
ghost use Rattle.std.specs.FinMap.{get};
ghost use Rattle.cw_desk.specs.Answer.{Agree};
ghost use Rattle.cw_desk.specs.Meaning.{Files, Rose};
ghost use Rattle.cw_run.specs.Program.{Outcome, OverSome, words_of};

use crate::program::{Program, run_program};
use cw_base::{Exit, Words};
use cw_desk::{FileDesk, agreement_law};
use std::alloc::Global;

/// Runs a program over real files. Over all files that would have given the answers that the system gave, just what the
/// words ask for was handed to the system, and the status is theirs; or a first part of it, with Fault or Memory. There
/// are such files, or the system's answers are those of no files.
pub fn run_files<P: Program>(
    rt: HostRuntime,
    alloc: Global,
    program: &P,
    line: &Words,
) -> (Exit, FileDesk)
    ensures done { (files : Files) → Agree result.1.heard files →
        Outcome (P.run program.now (words_of line.now) (get files)) [] result.1.journal result.0 }
    ensures some { OverSome (P.run program.now (words_of line.now)) result.1.heard result.1.journal result.0 }
    ensures fault { result.0 ≡ Exit.Fault → Rose 0 result.1.faults }
{
    agreement_law(); // (for the proof)
    run_program(alloc, program, line, FileDesk::new_in(rt, alloc))
}
