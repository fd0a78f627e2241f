//! Programs over real files.
ghost use Rattle.std.specs.Prelude.{◌≡◌, []};
ghost use Rattle.std.specs.FinMap.{get};
ghost use Rattle.cw_desk.specs.Answer.{Agree};
ghost use Rattle.cw_desk.specs.Meaning.{Files, Rose};
ghost use Rattle.cw_run.specs.Program.{Outcome, words_of};
ghost use Rattle.cw_run.specs.Tool.{tool_run};

use crate::program::Program;
use crate::real_files::run_files;
use crate::tool::{Tool, tool_command};
use cw_base::{Exit, Silent, Steps, Words};
use cw_desk::{Desk, FileDesk};
use std::alloc::Global;

/// A tool as a program.
#[derive(Clone, Copy)]
pub struct ToolProgram<'a, T> {
    pub tool: &'a T,
}

impl<'a, T: Tool> Program for ToolProgram<'a, T> {
    ghost use Rattle.cw_run.specs.Tool.{tool_run};

    ghost run = { λ _. tool_run T.usage T.text };

    fn run_on<D: Desk>(&self, alloc: Global, words: &Words, desk: &mut D) -> Exit {
        tool_command(alloc, self.tool, words, desk, &mut Steps::<Silent>::new())
    }
}

/// Runs a tool over real files. Over all files that would have given the answers that the system gave, just what the
/// words ask for was handed to the system, and the status is theirs; or a first part of it, with Fault or Memory.
pub fn tool_files<T: Tool>(
    rt: HostRuntime,
    alloc: Global,
    tool: &T,
    line: &Words,
) -> (Exit, FileDesk)
    ensures written { (files : Files) → Agree result.1.heard files →
        Outcome (tool_run T.usage T.text (words_of line.now) (get files)) [] result.1.journal result.0 }
    ensures fault { result.0 ≡ Exit.Fault → Rose 0 result.1.faults }
{
    run_files(rt, alloc, &ToolProgram { tool }, line)
}
