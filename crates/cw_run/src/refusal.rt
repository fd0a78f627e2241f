//! What a tool prints when it writes nothing.
ghost use Rattle.std.specs.Prelude.{◌++◌, [], ◌∷◌};
ghost use Rattle.cw_base.specs.declared.event.Out.TheVariants.{Term};
ghost use Rattle.cw_base.specs.declared.exit.Exit.TheVariants.{Errors};
ghost use Rattle.cw_desk.specs.Journal.{byte_events};
ghost use Rattle.cw_desk.specs.State.{OnlyPuts};
ghost use Rattle.cw_run.specs.Emits.{Runs};
ghost use Rattle.cw_run.specs.Tool.{refused};

use crate::terminal::say_text;
use cw_base::{Bytes, Exit, Out};
use cw_desk::Desk;
use cw_lines::{PutError, write_all};
use std::alloc::Global;

/// Prints a line, which holds its end, and tells that the run had errors. No file is opened or made.
pub fn refuse<D: Desk>(desk: &mut D, line: &[u8]) -> Result<Exit, PutError>
    ensures runs { Runs (record { rest = byte_events Term line.now; exit = Errors })
        (D.told desk.old) (D.told desk.new) result }
    ensures same { OnlyPuts (D.told desk.old) (D.told desk.new) }
{
    write_all(desk, Out::Term, line)?;
    Ok(Exit::Errors)
}

/// The same with a message about a word of the command line, as a line.
pub fn refuse_word<D: Desk>(
    alloc: Global,
    desk: &mut D,
    message: &[u8],
    word: &[u8],
) -> Result<Exit, PutError>
    ensures runs { Runs (refused (message.now ++ word.now)) (D.told desk.old) (D.told desk.new) result }
    ensures same { OnlyPuts (D.told desk.old) (D.told desk.new) }
{
    let mut text = Bytes::from_slice(alloc, message)?;
    text.append(word)?;
    say_text(desk, text)?;
    Ok(Exit::Errors)
}
