//! The weaver as a program, and its run over real files.
ghost use Rattle.std.specs.Prelude.{◌≡◌, []};
ghost use Rattle.std.specs.FinMap.{get};
ghost use Rattle.cw_desk.specs.Answer.{Agree};
ghost use Rattle.cw_desk.specs.Meaning.{Files, Rose};
ghost use Rattle.cw_run.specs.Program.{Outcome, OverSome, words_of};
ghost use Rattle.cw_weave.specs.Woven.{woven};

use crate::weave::weave_command;
use cw_base::{Exit, Silent, Steps, Words};
use cw_desk::{Desk, FileDesk};
use cw_run::{Program, run_files};
use std::alloc::Global;

/// The program that weaves a web: what it does is the woven book of its words and the files.
#[derive(Clone, Copy, Debug)]
pub struct Weaver;

impl Program for Weaver {
    ghost use Rattle.cw_weave.specs.Woven.{woven};

    ghost run = { λ _. woven };

    fn run_on<D: Desk>(&self, alloc: Global, words: &Words, desk: &mut D) -> Exit {
        let mut steps = Steps::<Silent>::new();
        weave_command(alloc, words, desk, &mut steps)
    }
}

/// Weaves over real files. Over all files that would have given the answers that the system gave, just what the words
/// ask for was handed to the system, and the status is theirs; or a first part of it, with status Fault or Memory.
/// There are such files, or the system's answers are those of no files.
pub fn weave_files(rt: HostRuntime, alloc: Global, line: &Words) -> (Exit, FileDesk)
    ensures woven { (files : Files) → Agree result.1.heard files →
        Outcome (woven (words_of line.now) (get files)) [] result.1.journal result.0 }
    ensures some { OverSome (woven (words_of line.now)) result.1.heard result.1.journal result.0 }
    ensures fault { result.0 ≡ Exit.Fault → Rose 0 result.1.faults }
{
    run_files(rt, alloc, &Weaver, line)
}
