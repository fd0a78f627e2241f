//! Runs in which a call of the desk fails, or memory runs out.
use crate::programs::{Files, Program, journal_text};
use cw_base::{Bytes, Exit, Ledger, Memory, Silent, Steps, Web};
use cw_desk::{Desk, MemDesk};
use cw_lines::PutError;
use cw_phase1::Book;
use cw_run::{Tool, tool_command};
use cw_test_desks::{desk_with, words_of};
use std::alloc::Global;
use std::process::Abort;
use std::test::Fail;

/// A run whose calls fail in turn: its words, the files that there are, and its status where none fails.
struct Run {
    words: &'static [&'static [u8]],
    files: Files,
    exit: Exit,
}

const COUNTING: [Run; 3] = [
    Run {
        words: &[b"foo", b"-"],
        files: &[],
        exit: Exit::Errors,
    },
    Run {
        words: &[b"none", b"-", b"out"],
        files: &[],
        exit: Exit::Errors,
    },
    Run {
        words: &[b"foo", b"foo", b"out"],
        files: &[
            (b"foo.w", b"@ One.\n@c a;\n"),
            (b"foo.ch", b"@x\n@c a;\n@y\n@c b;\n@z\n"),
        ],
        exit: Exit::Clean,
    },
];

static MINI: [Run; 1] = [Run {
    words: &[b"foo", b"foo", b"out"],
    files: &[
        (b"foo.w", b"@ @c int i;\n@ @c i=i+1;\n"),
        (b"foo.ch", b"@x\n@ @c int i;\n@y\n@ @c int i, j;\n@z\n"),
    ],
    exit: Exit::Clean,
}];

static PLAIN: [Run; 5] = [
    Run {
        words: &[b"foo", b"-"],
        files: &[],
        exit: Exit::Errors,
    },
    Run {
        words: &[b"foo", b"-", b"out"],
        files: &[],
        exit: Exit::Errors,
    },
    Run {
        words: &[b"foo", b"foo", b"out"],
        files: &[(b"foo.w", b"@ @c a;\n")],
        exit: Exit::Errors,
    },
    Run {
        words: &[b"foo", b"-", b"foo.w"],
        files: &[(b"foo.w", b"@ @c a;\n")],
        exit: Exit::Errors,
    },
    // Two parts, of which a change file gives the second.
    Run {
        words: &[b"foo", b"foo", b"out"],
        files: &[
            (b"foo.w", b"@ @c a;\n@ @c b;\n"),
            (b"foo.ch", b"@x\n@ @c b;\n@y\n@ @<C@>= i=i+1;\n@z\n"),
        ],
        exit: Exit::Clean,
    },
];

static LOG: [Run; 9] = [
    Run {
        words: &[b"weave", b"foo"],
        files: &[],
        exit: Exit::Errors,
    },
    Run {
        words: &[b"write", b"foo", b"-", b"foo.log"],
        files: &[],
        exit: Exit::Errors,
    },
    Run {
        words: &[b"write", b"foo", b"foo", b"foo.log"],
        files: &[(b"foo.w", b"@ |a|\n")],
        exit: Exit::Errors,
    },
    Run {
        words: &[b"write", b"foo", b"-", b"foo.w"],
        files: &[(b"foo.w", b"@ |a|\n")],
        exit: Exit::Errors,
    },
    // Two texts, of which a change file gives the second.
    Run {
        words: &[b"write", b"foo", b"foo", b"foo.log"],
        files: &[
            (b"foo.w", b"@ |a|\n@c b;\n"),
            (b"foo.ch", b"@x\n@c b;\n@y\n@c i=i+1;\n@z\n"),
        ],
        exit: Exit::Clean,
    },
    Run {
        words: &[b"check", b"foo.log"],
        files: &[],
        exit: Exit::Errors,
    },
    Run {
        words: &[b"check", b"foo.log"],
        files: &[(b"foo.log", b"text 01\n")],
        exit: Exit::Errors,
    },
    Run {
        words: &[b"check", b"foo.log"],
        files: &[(b"foo.log", b"text 0\nP6 0\nend\n")],
        exit: Exit::Errors,
    },
    Run {
        words: &[b"check", b"foo.log"],
        files: &[(b"foo.log", b"text 2\nb exp x\ns semi\nP8 0\nend\n")],
        exit: Exit::Clean,
    },
];

/// Whether a run ends with a fault where its call of this number fails, without a further call, and has told a
/// beginning of this.
fn ends_at(
    alloc: Global,
    program: Program,
    run: &Run,
    call: u64,
    all: &[u8],
) -> Result<bool, Memory> {
    let mut desk = desk_with(alloc, run.files)?;
    desk.fail_at(call)?;
    let (part, exit) = program.told_on(alloc, run.words, &mut desk)?;
    Ok(exit == Exit::Fault && desk.calls() == call && all.starts_with(part.as_slice()))
}

/// Whether that is so of each call, and the run ends well where none fails.
fn ends_everywhere(alloc: Global, program: Program, run: &Run) -> Result<bool, Memory> {
    let (all, exit, calls) = program.told(alloc, run.words, run.files)?;
    let mut ends = exit == run.exit && calls > 0;
    for before in 0..calls {
        ends = ends && ends_at(alloc, program, run, before + 1, all.as_slice())?;
    }
    Ok(ends)
}

/// Each call of each of these runs fails in turn.
fn expect_faults(
    rt: &impl Abort,
    alloc: Global,
    program: Program,
    runs: &[Run],
) -> Result<(), Fail> {
    for run in runs {
        assert!(rt; ends_everywhere(alloc, program, run)?);
    }
    Ok(())
}

#[test]
fn each_call_of_a_counting_run_fails_in_turn(rt: HostRuntime) -> Result<(), Fail> {
    expect_faults(&rt, rt.alloc(), Program::Counting, &COUNTING)
}

#[test]
fn each_call_of_a_small_index_fails_in_turn(rt: HostRuntime) -> Result<(), Fail> {
    expect_faults(&rt, rt.alloc(), Program::Mini, &MINI)
}

#[test]
fn each_call_of_a_plain_text_fails_in_turn(rt: HostRuntime) -> Result<(), Fail> {
    expect_faults(&rt, rt.alloc(), Program::Plain, &PLAIN)
}

#[test]
fn each_call_of_a_log_fails_in_turn(rt: HostRuntime) -> Result<(), Fail> {
    expect_faults(&rt, rt.alloc(), Program::Log, &LOG)
}

/// A tool that is always out of memory.
struct Wanting;

impl Tool for Wanting {
    ghost use Rattle.cw_tool_tests.specs.model.Counting.{counted, count_usage};

    ghost usage = { count_usage };

    ghost text = { counted };

    fn usage_line(&self) -> &'static [u8] {
        b"! Usage: cwcount web change|- out\n"
    }

    fn write<D: Desk, L: Ledger>(
        &self,
        _alloc: Global,
        _web: &Web,
        _book: &mut Book,
        _desk: &mut D,
        _steps: &mut Steps<L>,
    ) -> Result<(), PutError> {
        Err(PutError::Memory)
    }
}

/// What it tells over a web.
fn told_without_memory(alloc: Global, desk: &mut MemDesk) -> Result<(Bytes, Exit), Memory> {
    let list = words_of(alloc, &[b"foo", b"-", b"out"])?;
    let exit = tool_command(alloc, &Wanting, &list, desk, &mut Steps::<Silent>::new());
    Ok((journal_text(alloc, desk.journal())?, exit))
}

#[test]
fn a_tool_without_memory(rt: HostRuntime) -> Result<(), Fail> {
    let mut desk = desk_with(rt.alloc(), &[(b"foo.w", b"@ One.\n")])?;
    let (text, exit) = told_without_memory(rt.alloc(), &mut desk)?;
    let told = b"[tex]out\n".as_slice();
    assert_eq!(rt; (text.as_slice(), exit), (told, Exit::Memory));
    Ok(())
}
