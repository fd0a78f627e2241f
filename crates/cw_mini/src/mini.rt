//! The program that writes a small index for each section of a web.
ghost use Rattle.std.specs.Prelude.{◌≡◌, ◌≤◌, None, []};
ghost use Rattle.std.specs.FinMap.{get};
ghost use Rattle.cw_desk.specs.Answer.{Agree};
ghost use Rattle.cw_desk.specs.Meaning.{Files, Rose};
ghost use Rattle.cw_desk.specs.State.{OnlyPuts};
ghost use Rattle.cw_run.specs.Program.{Outcome, words_of};
ghost use Rattle.cw_run.specs.Asked.{asked};
ghost use Rattle.cw_mini.specs.MiniText.{mini_run};

use crate::sections::write_sections;
use crate::texts::leave_texts;
use cw_base::{Exit, Ledger, Steps, Web, Words};
use cw_desk::{Desk, FileDesk};
use cw_lines::PutError;
use cw_phase1::Book;
use cw_run::{Tool, tool_command, tool_files};
use std::alloc::Global;

/// Lists for each section the names that it uses and others define.
#[derive(Clone, Copy, Debug)]
pub struct Mini;

impl Tool for Mini {
    ghost use Rattle.cw_mini.specs.MiniText.{mini_file, usage};

    ghost usage = { usage };

    ghost text = { mini_file };

    fn usage_line(&self) -> &'static [u8] {
        b"! Usage: cwmini web change|- out\n"
    }

    fn write<D: Desk, L: Ledger>(
        &self,
        alloc: Global,
        web: &Web,
        book: &mut Book,
        desk: &mut D,
        steps: &mut Steps<L>,
    ) -> Result<(), PutError> {
        leave_texts(alloc, web, book, steps)?;
        write_sections(alloc, book, desk)
    }
}

/// Reads a web and writes a small index for each of its sections, as the words of a command line ask. Whatever the desk
/// is: over all files that would have given the answers that it gave, it has done what these files ask for.
pub fn mini_command<D: Desk, L: Ledger>(
    alloc: Global,
    words: &Words,
    desk: &mut D,
    steps: &mut Steps<L>,
) -> Exit
    ensures written { (files : Files) → (D.told desk.new).agrees files →
        Outcome (mini_run words.now (get files)) (D.told desk.old).journal (D.told desk.new).journal result }
    ensures passed { (files : Files) → (D.told desk.new).agrees files →
        (D.told desk.old).handed ≤ (D.told desk.new).handed }
    ensures kept { (D.told desk.old).faults ≤ (D.told desk.new).faults }
    ensures fault { result ≡ Exit.Fault → Rose (D.told desk.old).faults (D.told desk.new).faults }
    ensures unread { asked words.now ≡ None → OnlyPuts (D.told desk.old) (D.told desk.new) }
{
    tool_command(alloc, &Mini, words, desk, steps)
}

/// The same over real files.
pub fn mini_files(rt: HostRuntime, alloc: Global, line: &Words) -> (Exit, FileDesk)
    ensures written { (files : Files) → Agree result.1.heard files →
        Outcome (mini_run (words_of line.now) (get files)) [] result.1.journal result.0 }
    ensures fault { result.0 ≡ Exit.Fault → Rose 0 result.1.faults }
{
    tool_files(rt, alloc, &Mini, line)
}
