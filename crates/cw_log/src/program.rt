//! The program `cwlog`: the log of a web is written, or that in a file is checked.
ghost use Rattle.std.specs.Prelude.{◌≡◌, ◌≢◌, ◌<◌, ◌≤◌, [], None, IfOk, IfSome, length, option_map};
ghost use Rattle.std.specs.FinMap.{get};
ghost use Rattle.cw_desk.specs.Answer.{Agree};
ghost use Rattle.cw_desk.specs.Meaning.{Files, Rose};
ghost use Rattle.cw_desk.specs.State.{OnlyPuts};
ghost use Rattle.cw_run.specs.Program.{Outcome, words_of};
ghost use Rattle.cw_run.specs.Emits.{Faults, Runs};
ghost use Rattle.cw_run.specs.Asked.{asked_for};
ghost use Rattle.cw_log.specs.Command.{IsNamed, Write, log_run, request, request_of};

use crate::command::check;
use crate::writing::{LogTool, USAGE};
use cw_base::{Exit, Ledger, Silent, Steps, Words};
use cw_desk::{Desk, FileDesk};
use cw_lines::PutError;
use cw_run::{Asked, Program, refuse, run_files, run_tool, status_of};
use std::alloc::Global;

// What the words of a command line ask for.
#[derive(Clone, Copy)]
enum Request<'a> {
    Write(Asked<'a>),
    Check(&'a [u8]),
}

// The web, the change file and the file that is written.
fn read_write<'a>(web: &'a [u8], change: &'a [u8], out: &'a [u8]) -> Option<Request<'a>>
    ensures asked { option_map request_of result ≡ option_map Write (asked_for web.now change.now out.now) }
    ensures named { IfSome result IsNamed }
{
    let asked = Asked::by_words(web, change, out)?;
    Some(Request::Write(asked))
}

// Reads the words: nothing is asked for where the first is none of the two verbs, or other words lack or are too many.
fn read_request(words: &Words) -> Option<Request>
    ensures asked { option_map request_of result ≡ request words.now }
    ensures named { IfSome result IsNamed }
{
    if words.is_empty() {
        return None;
    }
    let verb = words.word(0);
    if verb == b"write".as_slice() && words.len() == 4 {
        return read_write(words.word(1), words.word(2), words.word(3));
    }
    if verb == b"check".as_slice() && words.len() == 2 && !words.word(1).is_empty() {
        return Some(Request::Check(words.word(1)));
    }
    None
}

// Does what the words ask for.
fn run_words<D: Desk, L: Ledger>(
    alloc: Global,
    words: &Words,
    desk: &mut D,
    steps: &mut Steps<L>,
) -> Result<Exit, PutError>
    ensures runs { (files : Files) → (D.told desk.new).agrees files →
        Runs (log_run words.now (get files)) (D.told desk.old) (D.told desk.new) result }
    ensures faults { Faults (D.told desk.old) (D.told desk.new) result }
    ensures real { IfOk result (λ exit. exit ≢ Exit.Fault) }
    ensures unread { request words.now ≡ None → OnlyPuts (D.told desk.old) (D.told desk.new) }
{
    match read_request(words) {
        Some(Request::Write(asked)) => run_tool(alloc, &LogTool, asked, desk, steps),
        Some(Request::Check(word)) => check(alloc, word, desk, steps),
        None => refuse(desk, USAGE),
    }
}

/// Does what the words of a command line ask for: writes the log of a web, or checks the log in a file, and answers the
/// status of the run. It prints nothing after a fault or out of memory, and tries no failed call again.
///
/// Whatever the desk is: over all files that would have given the answers that it gave, it has done what these files
/// ask for. Words that ask for nothing open no file.
pub fn log_command<D: Desk, L: Ledger>(
    alloc: Global,
    words: &Words,
    desk: &mut D,
    steps: &mut Steps<L>,
) -> Exit
    ensures done { (files : Files) → (D.told desk.new).agrees files →
        Outcome (log_run words.now (get files)) (D.told desk.old).journal (D.told desk.new).journal result }
    ensures passed { (files : Files) → (D.told desk.new).agrees files →
        (D.told desk.old).handed ≤ (D.told desk.new).handed }
    ensures kept { (D.told desk.old).faults ≤ (D.told desk.new).faults }
    ensures fault { result ≡ Exit.Fault → Rose (D.told desk.old).faults (D.told desk.new).faults }
    ensures unread { request words.now ≡ None → OnlyPuts (D.told desk.old) (D.told desk.new) }
{
    status_of(run_words(alloc, words, desk, steps))
}

/// The program, which is run over real files.
#[derive(Clone, Copy)]
pub struct LogProgram;

impl Program for LogProgram {
    ghost use Rattle.cw_log.specs.Command.{log_run};

    ghost run = { λ _. log_run };

    fn run_on<D: Desk>(&self, alloc: Global, words: &Words, desk: &mut D) -> Exit {
        log_command(alloc, words, desk, &mut Steps::<Silent>::new())
    }
}

/// The whole program over real files. Over all files that would have given the answers that the system gave, it has
/// done what the words of the command line ask for, or a first part of it, with Fault or Memory.
pub fn log_files(rt: HostRuntime, alloc: Global, line: &Words) -> (Exit, FileDesk)
    ensures done { (files : Files) → Agree result.1.heard files →
        Outcome (log_run (words_of line.now) (get files)) [] result.1.journal result.0 }
    ensures fault { result.0 ≡ Exit.Fault → Rose 0 result.1.faults }
{
    run_files(rt, alloc, &LogProgram, line)
}
