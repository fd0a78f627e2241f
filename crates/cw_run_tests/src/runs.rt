//! Runs, and what they told.
use cw_base::{Bytes, Event, Exit, Kept, Memory, Out, Silent, Steps, Words};
use cw_desk::{Desk, MemDesk};
use cw_run::run_program;
use cw_test_desks::{desk_with, words_of};
use cw_weave::{Weaver, weave_command};
use std::alloc::Global;

/// The name of most webs here, as a word.
pub(crate) const FOO: &[u8] = b"foo";

/// A web of one section without C text.
pub(crate) const HELLO: &[u8] = b"% limbo\n@ Hello.\n";

/// Weaves what these words ask for.
pub(crate) fn weave<D: Desk>(alloc: Global, words: &[&[u8]], desk: &mut D) -> Result<Exit, Memory> {
    let list = words_of(alloc, words)?;
    Ok(weave_command(alloc, &list, desk, &mut Steps::<Silent>::new()))
}

/// The command line of the program with these words.
pub(crate) fn line_of(alloc: Global, words: &[&[u8]]) -> Result<Words, Memory> {
    let mut line = Words::new_in(alloc);
    line.push(b"cweave")?;
    for word in words {
        line.push(word)?;
    }
    Ok(line)
}

/// Weaves as the program does: what it puts is gathered, and handed on at the end, but not after a failure.
pub(crate) fn weave_gathered(
    alloc: Global,
    words: &[&[u8]],
    desk: &mut MemDesk,
) -> Result<Exit, Memory> {
    let line = line_of(alloc, words)?;
    let (exit, _below) = run_program(alloc, &Weaver, &line, desk);
    Ok(exit)
}

/// How a run calls its desk: for each line, or for many together.
#[derive(Clone, Copy)]
pub(crate) enum Way {
    /// By the desk itself.
    Direct,
    /// By a batch of it.
    Gathered,
}

impl Way {
    /// Weaves what these words ask for.
    pub(crate) fn weave(
        self,
        alloc: Global,
        words: &[&[u8]],
        desk: &mut MemDesk,
    ) -> Result<Exit, Memory> {
        match self {
            Way::Direct => weave(alloc, words, desk),
            Way::Gathered => weave_gathered(alloc, words, desk),
        }
    }
}

/// How a run over a desk ends, and how many steps it counts.
pub(crate) fn steps_of(
    alloc: Global,
    words: &[&[u8]],
    desk: &mut MemDesk,
) -> Result<(Exit, u64), Memory> {
    let list = words_of(alloc, words)?;
    let mut steps = Steps::<Kept>::new();
    let exit = weave_command(alloc, &list, desk, &mut steps);
    Ok((exit, steps.count()))
}

fn out_name(out: Out) -> &'static [u8] {
    match out {
        Out::Term => b"[term]",
        Out::Tex => b"[tex]",
        Out::Idx => b"[idx]",
        Out::Scn => b"[scn]",
    }
}

/// Appends a journal as a text: each run of bytes on one output begins with its name in brackets.
fn append_journal(text: &mut Bytes, journal: &[Event]) -> Result<(), Memory> {
    let mut last = None;
    for event in journal {
        match event {
            Event::Byte(out, byte) => {
                if last != Some(*out) {
                    text.append(out_name(*out))?;
                }
                text.push(*byte)?;
                last = Some(*out);
            }
            other => {
                append_turn(text, other)?;
                last = None;
            }
        }
    }
    Ok(())
}

/// Appends what was begun or ended, on a line of its own.
fn append_turn(text: &mut Bytes, event: &Event) -> Result<(), Memory> {
    let (out, what, name) = match event {
        Event::Made(out, name) => (out, b" is ".as_slice(), name.as_slice()),
        Event::Drafted(out, name) => (out, b" is drafted for ".as_slice(), name.as_slice()),
        Event::Kept(out) => (out, b" is kept".as_slice(), b"".as_slice()),
        Event::Replaced(out) => (out, b" is replaced".as_slice(), b"".as_slice()),
        Event::Byte(out, _) => (out, b"".as_slice(), b"".as_slice()),
    };
    text.append(out_name(*out))?;
    text.append(what)?;
    text.append(name)?;
    text.push(b'\n')
}

fn exit_name(exit: Exit) -> &'static [u8] {
    match exit {
        Exit::Clean => b"Clean",
        Exit::Errors => b"Errors",
        Exit::Fault => b"Fault",
        Exit::Memory => b"Memory",
    }
}

/// A journal as a text of its own.
pub(crate) fn journal_text(alloc: Global, journal: &[Event]) -> Result<Bytes, Memory> {
    let mut text = Bytes::new_in(alloc);
    append_journal(&mut text, journal)?;
    Ok(text)
}

/// What a run over a desk that is called in this way tells.
pub(crate) fn told_in(
    way: Way,
    alloc: Global,
    words: &[&[u8]],
    desk: &mut MemDesk,
) -> Result<Bytes, Memory> {
    let exit = way.weave(alloc, words, desk)?;
    let mut text = journal_text(alloc, desk.journal())?;
    text.append(exit_name(exit))?;
    Ok(text)
}

/// What a run over these files tells.
pub(crate) fn told(
    alloc: Global,
    words: &[&[u8]],
    files: &[(&[u8], &[u8])],
) -> Result<Bytes, Memory> {
    let mut desk = desk_with(alloc, files)?;
    told_in(Way::Direct, alloc, words, &mut desk)
}

/// Appends what is printed on the terminal.
fn append_terminal(text: &mut Bytes, journal: &[Event]) -> Result<(), Memory> {
    for event in journal {
        if let Event::Byte(Out::Term, byte) = event {
            text.push(*byte)?;
        }
    }
    Ok(())
}

/// What is printed on the terminal, and behind it how the run ended.
fn terminal_text(alloc: Global, journal: &[Event], exit: Exit) -> Result<Bytes, Memory> {
    let mut text = Bytes::new_in(alloc);
    append_terminal(&mut text, journal)?;
    text.append(exit_name(exit))?;
    Ok(text)
}

/// What a run over `foo.w` with these bytes prints on the terminal, and behind it how it ended.
pub(crate) fn terminal_told(alloc: Global, words: &[&[u8]], web: &[u8]) -> Result<Bytes, Memory> {
    let mut desk = desk_with(alloc, &[(b"foo.w".as_slice(), web)])?;
    let exit = weave(alloc, words, &mut desk)?;
    terminal_text(alloc, desk.journal(), exit)
}

/// Whether a run over this desk ends with a fault where its call of this number fails, without a further call, and
/// has told a beginning of this.
pub(crate) fn ends_at(
    way: Way,
    alloc: Global,
    words: &[&[u8]],
    desk: &mut MemDesk,
    call: u64,
    all: &[u8],
) -> Result<bool, Memory> {
    desk.fail_at(call)?;
    let exit = way.weave(alloc, words, desk)?;
    let part = journal_text(alloc, desk.journal())?;
    Ok(exit == Exit::Fault && desk.calls() == call && all.starts_with(part.as_slice()))
}
