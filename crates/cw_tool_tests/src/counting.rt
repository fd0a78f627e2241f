//! A tool that writes the lines of a web, and behind them how many sections there are: an example of how one is made.
ghost use Rattle.std.specs.Prelude.{◌≡◌, IfOk, ◌∷◌, [], ◌++◌, decimal, length};
ghost use Rattle.std.specs.FinMap.{get};
ghost use Rattle.cw_desk.specs.Meaning.{Files, Rose};
ghost use Rattle.cw_run.specs.Program.{Outcome};
ghost use Rattle.cw_tool_tests.specs.model.Counting.{count_run};

use cw_base::{Bytes, Exit, Ledger, Memory, Out, Steps, Web, Words};
use cw_desk::Desk;
use cw_lines::{PutError, write_all};
use cw_phase1::Book;
use cw_run::{Tool, append_number, tool_command};
use std::alloc::Global;

/// Writes the lines of a web, and how many sections it has.
#[derive(Clone, Copy, Debug)]
pub(crate) struct Counting;

// A line with a number.
fn number_line(alloc: Global, number: u64) -> Result<Bytes, Memory>
    ensures { IfOk result (λ line. line ≡ decimal number ++ 10 ∷ []) }
{
    let mut line = Bytes::new_in(alloc);
    append_number(&mut line, number)?;
    line.push(b'\n')?;
    Ok(line)
}

impl Tool for Counting {
    ghost use Rattle.cw_tool_tests.specs.model.Counting.{counted, count_usage};

    ghost usage = { count_usage };

    ghost text = { counted };

    fn usage_line(&self) -> &'static [u8] {
        b"! Usage: cwcount web change|- out\n"
    }

    fn write<D: Desk, L: Ledger>(
        &self,
        alloc: Global,
        web: &Web,
        book: &mut Book,
        desk: &mut D,
        steps: &mut Steps<L>,
    ) -> Result<(), PutError> {
        write_all(desk, Out::Tex, web.text())?;
        let line = number_line(alloc, u64::from(book.section_count()))?;
        write_all(desk, Out::Tex, line.as_slice())
    }
}

/// Writes the lines of a web, and how many sections it has, as the words of a command line ask.
pub(crate) fn count_command<D: Desk, L: Ledger>(
    alloc: Global,
    words: &Words,
    desk: &mut D,
    steps: &mut Steps<L>,
) -> Exit
    ensures counted { (files : Files) → (D.told desk.new).agrees files →
        Outcome (count_run words.now (get files)) (D.told desk.old).journal (D.told desk.new).journal result }
    ensures fault { result ≡ Exit.Fault → Rose (D.told desk.old).faults (D.told desk.new).faults }
{
    tool_command(alloc, &Counting, words, desk, steps)
}
