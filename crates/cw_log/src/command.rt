//! The command `check`: the file of a log is judged whole, and then its blocks are checked.
ghost use Rattle.std.specs.Prelude.{◌≡◌, ◌≢◌, ◌≤◌, IfOk, length};
ghost use Rattle.std.specs.FinMap.{get};
ghost use Rattle.cw_base.specs.Text.{pieces_of};
ghost use Rattle.cw_desk.specs.Meaning.{Files};
ghost use Rattle.cw_logs.proofs.Deciding.{judgement};
ghost use Rattle.cw_run.specs.Emits.{Faults, Runs};
ghost use Rattle.cw_run.specs.Saying.{says};
ghost use Rattle.cw_run.specs.Tool.{refused};
ghost use Rattle.cw_log.specs.Check.{accepted_text, check_file, judged, no_log_text, rejected_text, run_of};

use crate::checking::{Checked, check_log};
use crate::file::{LOG_LIMIT, LogFile, read_log};
use cw_base::{Bytes, Exit, Ledger, Memory, Steps};
use cw_desk::Desk;
use cw_lines::PutError;
use cw_logs::{NotALog, judge};
use cw_run::{append_number, refuse, refuse_word, say_text};
use std::alloc::Global;

// Prints a line, and ends with this status.
fn end_with<D: Desk>(desk: &mut D, line: Bytes, exit: Exit) -> Result<Exit, PutError>
    ensures { Runs (record { rest = says line; exit = exit }) (D.told desk.old) (D.told desk.new) result }
{
    say_text(desk, line)?;
    Ok(exit)
}

// The line that tells which line of a file no log has.
fn no_log_text(alloc: Global, line: u64) -> Result<Bytes, Memory>
    ensures { IfOk result (λ text. text ≡ no_log_text line) }
{
    let mut text = Bytes::from_slice(alloc, b"! Not a log (line ")?;
    append_number(&mut text, line)?;
    text.push(b')')?;
    Ok(text)
}

// The line that tells how many texts and productions were accepted.
fn accepted_text(alloc: Global, texts: u64, count: u64) -> Result<Bytes, Memory>
    ensures { IfOk result (λ text. text ≡ accepted_text texts count) }
{
    let mut text = Bytes::from_slice(alloc, b"accepted: ")?;
    append_number(&mut text, texts)?;
    text.append(b" texts, ")?;
    append_number(&mut text, count)?;
    text.append(b" productions")?;
    Ok(text)
}

// The line that tells which text was rejected, and after how many productions.
fn rejected_text(alloc: Global, number: u64, count: u64) -> Result<Bytes, Memory>
    ensures { IfOk result (λ text. text ≡ rejected_text number count) }
{
    let mut text = Bytes::from_slice(alloc, b"rejected: text ")?;
    append_number(&mut text, number)?;
    text.append(b" after ")?;
    append_number(&mut text, count)?;
    text.append(b" productions")?;
    Ok(text)
}

// Prints what was found of the blocks of a log.
fn say_checked<D: Desk>(alloc: Global, checked: Checked, desk: &mut D) -> Result<Exit, PutError>
    ensures { Runs (run_of checked) (D.told desk.old) (D.told desk.new) result }
{
    match checked {
        Checked::Accepted(texts, count) => {
            let line = accepted_text(alloc, texts, count)?;
            end_with(desk, line, Exit::Clean)
        }
        Checked::Rejected(number, count) => {
            let line = rejected_text(alloc, number, count)?;
            end_with(desk, line, Exit::Errors)
        }
    }
}

// Prints why a file is no log.
fn say_fault<D: Desk>(alloc: Global, fault: NotALog, desk: &mut D) -> Result<Exit, PutError>
    ensures { Runs (refused (no_log_text fault.line)) (D.told desk.old) (D.told desk.new) result }
{
    let line = no_log_text(alloc, fault.line as u64)?;
    end_with(desk, line, Exit::Errors)
}

// Checks a file that isn't too long.
fn check_whole<D: Desk, L: Ledger>(
    alloc: Global,
    file: &[u8],
    desk: &mut D,
    steps: &mut Steps<L>,
) -> Result<Exit, PutError>
    requires { length file.now ≤ LOG_LIMIT }
    ensures runs { Runs (judged (judgement (pieces_of file.now))) (D.told desk.old) (D.told desk.new) result }
    ensures real { IfOk result (λ exit. exit ≢ Exit.Fault) }
{
    match judge(file) {
        Ok(()) => {
            let checked = check_log(alloc, file, steps)?;
            say_checked(alloc, checked, desk)
        }
        Err(fault) => say_fault(alloc, fault, desk),
    }
}

/// Checks the log in the file of a word, and prints what is found; nothing is written. All lines are judged before the
/// first block is checked.
pub fn check<D: Desk, L: Ledger>(
    alloc: Global,
    word: &[u8],
    desk: &mut D,
    steps: &mut Steps<L>,
) -> Result<Exit, PutError>
    ensures runs { (files : Files) → (D.told desk.new).agrees files →
        Runs (check_file word.now (get files word.now)) (D.told desk.old) (D.told desk.new) result }
    ensures faults { Faults (D.told desk.old) (D.told desk.new) result }
    ensures real { IfOk result (λ exit. exit ≢ Exit.Fault) }
{
    match read_log(alloc, desk, word)? {
        LogFile::Missing => refuse_word(alloc, desk, b"! Cannot open log ", word),
        LogFile::TooLong => refuse(desk, b"! Log is longer than 67108864 bytes\n"),
        LogFile::Whole(bytes) => check_whole(alloc, bytes.as_slice(), desk, steps),
    }
}
