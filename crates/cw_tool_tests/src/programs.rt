//! The programs beside the weaver, and runs of theirs over desks in memory.
use crate::counting::count_command;
use cw_base::{Bytes, Event, Exit, Memory, Out, Silent, Steps};
use cw_desk::{Desk, MemDesk};
use cw_log::log_command;
use cw_mini::mini_command;
use cw_plain::plain_command;
use cw_test_desks::{desk_with, words_of};
use std::alloc::Global;
use std::process::Abort;
use std::test::Fail;

/// Files by their names, with their bytes.
pub(crate) type Files = &'static [(&'static [u8], &'static [u8])];

/// A program.
#[derive(Clone, Copy)]
pub(crate) enum Program {
    /// The tool that counts sections.
    Counting,
    /// The one that writes small indexes.
    Mini,
    /// The one that writes plain text.
    Plain,
    /// The one that writes and checks logs.
    Log,
}

impl Program {
    /// Does what these words ask for.
    pub(crate) fn run<D: Desk>(
        self,
        alloc: Global,
        words: &[&[u8]],
        desk: &mut D,
    ) -> Result<Exit, Memory> {
        let list = words_of(alloc, words)?;
        let mut steps = Steps::<Silent>::new();
        Ok(match self {
            Program::Counting => count_command(alloc, &list, desk, &mut steps),
            Program::Mini => mini_command(alloc, &list, desk, &mut steps),
            Program::Plain => plain_command(alloc, &list, desk, &mut steps),
            Program::Log => log_command(alloc, &list, desk, &mut steps),
        })
    }

    /// The same over a desk in memory: what it tells then, and the status.
    pub(crate) fn told_on(
        self,
        alloc: Global,
        words: &[&[u8]],
        desk: &mut MemDesk,
    ) -> Result<(Bytes, Exit), Memory> {
        let exit = self.run(alloc, words, desk)?;
        Ok((journal_text(alloc, desk.journal())?, exit))
    }

    /// The same over these files, and how many calls of the desk there are.
    pub(crate) fn told(
        self,
        alloc: Global,
        words: &[&[u8]],
        files: &[(&[u8], &[u8])],
    ) -> Result<(Bytes, Exit, u64), Memory> {
        let mut desk = desk_with(alloc, files)?;
        let (text, exit) = self.told_on(alloc, words, &mut desk)?;
        Ok((text, exit, desk.calls()))
    }
}

fn out_name(out: Out) -> &'static [u8] {
    match out {
        Out::Term => b"[term]",
        Out::Tex => b"[tex]",
        Out::Idx => b"[idx]",
        Out::Scn => b"[scn]",
    }
}

/// Appends an event: a byte as it is, on the terminal or in the file, and what was made in brackets.
fn append_event(text: &mut Bytes, event: &Event) -> Result<(), Memory> {
    match event {
        Event::Byte(Out::Term | Out::Tex, byte) => text.push(*byte),
        Event::Made(out, name) => {
            text.append(out_name(*out))?;
            text.append(name.as_slice())?;
            text.push(b'\n')
        }
        _ => text.append(b"[other]"),
    }
}

/// A journal as a text of its own.
pub(crate) fn journal_text(alloc: Global, journal: &[Event]) -> Result<Bytes, Memory> {
    let mut text = Bytes::new_in(alloc);
    for event in journal {
        append_event(&mut text, event)?;
    }
    Ok(text)
}

/// A run, and what it has to tell.
pub(crate) struct Run {
    /// The words of its command line.
    pub(crate) words: &'static [&'static [u8]],
    /// The files of its desk.
    pub(crate) files: Files,
    /// What it prints and writes.
    pub(crate) told: &'static [u8],
    /// Its status.
    pub(crate) exit: Exit,
    /// How many calls of the desk there have to be, where they are known.
    pub(crate) calls: Option<u64>,
}

/// Each of these runs has to tell what is expected of it.
pub(crate) fn expect_runs(
    rt: &impl Abort,
    alloc: Global,
    program: Program,
    runs: &[Run],
) -> Result<(), Fail> {
    for run in runs {
        let (text, exit, calls) = program.told(alloc, run.words, run.files)?;
        let wanted = (run.told, run.exit, run.calls.unwrap_or(calls));
        assert_eq!(rt; (text.as_slice(), exit, calls), wanted);
    }
    Ok(())
}
