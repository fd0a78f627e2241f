//! Whole runs over real files: the system answers as a desk in memory with these files, and what that would hold in the
//! end stands in the files.
use crate::recording::{Heard, Recording};
use crate::runs::{HELLO, line_of, weave};
use cw_base::{Event, Exit, Memory, Out};
use cw_desk::{FileDesk, MemDesk};
use cw_run::run_program;
use cw_test_desks::{desk_with, enter_new_folder, has_bytes, write_files};
use cw_weave::Weaver;
use std::alloc::Global;
use std::fs;
use std::os::unix::fs::symlink;
use std::test::Fail;

/// Files by their names, with their bytes.
type Files = &'static [(&'static [u8], &'static [u8])];

/// A run over files that are there.
struct Run {
    words: &'static [&'static [u8]],
    files: Files,
    /// Which of these names are links on the system, and where each leads.
    links: &'static [(&'static str, &'static str)],
}

const HELLO_TEX: &[u8] = b"\\input cwebmac\n% limbo\n\\M{1}Hello.\n\\fi\n\n\\inx\n\\fin\n\\end\n";

static RUNS: [Run; 11] = [
    // A file that is missing, one that is read twice, and a path through a file.
    Run {
        words: &[b"foo"],
        files: &[
            (b"foo.w", b"@i a\n@i b\n@i a\n@i a/b\n@ One.\n"),
            (b"a", b"% a\n"),
        ],
        links: &[],
    },
    Run {
        words: &[b"foo", b"foo"],
        files: &[
            (b"foo.web", b"@ One.\n@c a;\nb;\n"),
            (b"foo.ch", b"@x\n@c a;\n@y\n@c z;\n@z\n"),
        ],
        links: &[],
    },
    // Neither the web nor, with it, the change file is there.
    Run {
        words: &[b"foo"],
        files: &[],
        links: &[],
    },
    Run {
        words: &[b"foo", b"bar"],
        files: &[(b"foo.w", HELLO)],
        links: &[],
    },
    // The output would be written over the web.
    Run {
        words: &[b"foo", b"-", b"foo.w"],
        files: &[(b"foo.w", HELLO)],
        links: &[],
    },
    // Old files are kept and replaced, and a new one is made.
    Run {
        words: &[b"+k", b"foo"],
        files: &[
            (b"foo.w", HELLO),
            (b"foo.tex", HELLO_TEX),
            (b"foo.idx", b"old"),
        ],
        links: &[],
    },
    // The draft would be written over the web.
    Run {
        words: &[b"+k", b"foo.tex.new", b"-", b"foo"],
        files: &[(b"foo.tex.new", HELLO)],
        links: &[],
    },
    // Two outputs have one name: no file is made.
    Run {
        words: &[b"+k", b"foo", b"-", b"foo.idx"],
        files: &[(b"foo.w", HELLO), (b"foo.idx", b"old")],
        links: &[],
    },
    // The same, where no old file has it.
    Run {
        words: &[b"+k", b"foo", b"-", b"foo.idx"],
        files: &[(b"foo.w", HELLO)],
        links: &[],
    },
    // Two names of one file, and a web behind a link.
    Run {
        words: &[b"foo"],
        files: &[
            (b"web", b"@i a\n@i b\n@ One.\n"),
            (b"foo.w", b"@i a\n@i b\n@ One.\n"),
            (b"a", b"% a\n"),
            (b"b", b"% a\n"),
        ],
        links: &[("foo.w", "web"), ("b", "a")],
    },
    Run {
        words: &[b"n\xff"],
        files: &[],
        links: &[],
    },
];

// Makes the files of a run, and its links.
fn make_files(rt: HostRuntime, run: &Run) -> Result<(), Fail> {
    write_files(rt, run.files)?;
    for (link, target) in run.links {
        fs::remove_file(&rt, *link)?;
        symlink(&rt, *target, *link)?;
    }
    Ok(())
}

/// What a run over a recorded desk answers.
type Answered = (Exit, Vec<Heard>);

fn weave_real(rt: HostRuntime, words: &[&[u8]]) -> Result<Answered, Memory> {
    let alloc = rt.alloc();
    let mut desk = Recording::of(alloc, FileDesk::new_in(rt, alloc));
    let exit = weave(alloc, words, &mut desk)?;
    let (_, heard) = desk.into_parts();
    Ok((exit, heard))
}

fn weave_in_memory(alloc: Global, run: &Run) -> Result<(Answered, MemDesk), Memory> {
    let mut desk = Recording::of(alloc, desk_with(alloc, run.files)?);
    let exit = weave(alloc, run.words, &mut desk)?;
    let (desk, heard) = desk.into_parts();
    Ok(((exit, heard), desk))
}

/// The bytes of an output, as a journal has them.
fn bytes_of(alloc: Global, journal: &[Event], out: Out) -> Result<Vec<u8>, Memory> {
    let mut bytes = Vec::new(alloc);
    for event in journal {
        if let Event::Byte(to, byte) = event {
            if *to == out {
                bytes.push(*byte)?;
            }
        }
    }
    Ok(bytes)
}

/// Whether each output that a journal has stands in its file.
fn stands(rt: HostRuntime, journal: &[Event]) -> Result<bool, Fail> {
    let mut all = true;
    for event in journal {
        if let Event::Made(out, name) | Event::Drafted(out, name) = event {
            let bytes = bytes_of(rt.alloc(), journal, *out)?;
            let Ok(name) = str::from_utf8(name.as_slice()) else {
                return Err(Fail::from("the name of an output is text"));
            };
            all = all && has_bytes(rt, name, bytes.as_slice())?;
        }
    }
    Ok(all)
}

/// Whether a run over real files answers as one in memory, and whether its outputs stand in their files.
fn agree(rt: HostRuntime, run: &Run) -> Result<[bool; 2], Fail> {
    enter_new_folder(rt)?;
    make_files(rt, run)?;
    let real = weave_real(rt, run.words)?;
    let (wanted, desk) = weave_in_memory(rt.alloc(), run)?;
    Ok([real == wanted, stands(rt, desk.journal())?])
}

#[test]
fn real_files_answer_as_files_in_memory(rt: HostRuntime) -> Result<(), Fail> {
    for run in &RUNS {
        assert_eq!(rt; agree(rt, run)?, [true; 2]);
    }
    Ok(())
}

/// The status of the whole program.
fn status_of(rt: HostRuntime, words: &[&[u8]]) -> Result<u8, Fail> {
    let alloc = rt.alloc();
    let line = line_of(alloc, words)?;
    let (exit, _) = run_program(alloc, &Weaver, &line, FileDesk::new_in(rt, alloc));
    Ok(exit.code())
}

/// The longest name that a file may have, so that its draft can't be made.
const LONGEST: &[u8] = b"\
    a-name-of-255-bytes-that-is-given-as-a-word-------------------------------------------------------\
    --------------------------------------------------------------------------------------------------\
    -------------------------------------------------------.tex";

/// A run in which a device fails.
struct Failing {
    words: &'static [&'static [u8]],
    /// The files that could be read before it.
    files: Files,
    /// The call of a desk in memory that fails so.
    call: u64,
}

static FAILING: [Failing; 7] = [
    // A folder can be opened, but not read.
    Failing {
        words: &[b"folder"],
        files: &[(b"folder.w", b"")],
        call: 3,
    },
    // A link leads to itself.
    Failing {
        words: &[b"circle"],
        files: &[],
        call: 2,
    },
    // An included file is a folder.
    Failing {
        words: &[b"bar"],
        files: &[(b"bar.w", b"@i folder.w\n@ One.\n"), (b"folder.w", b"")],
        call: 6,
    },
    // An output has no folder.
    Failing {
        words: &[b"foo", b"-", b"none/out"],
        files: &[(b"foo.w", HELLO)],
        call: 6,
    },
    // The draft's name is too long.
    Failing {
        words: &[b"+k", b"foo", b"-", LONGEST],
        files: &[(b"foo.w", HELLO), (LONGEST, b"")],
        call: 7,
    },
    // A device is full.
    Failing {
        words: &[b"foo", b"-", b"full"],
        files: &[(b"foo.w", HELLO)],
        call: 7,
    },
    Failing {
        words: &[b"+k", b"foo", b"-", b"full"],
        files: &[(b"foo.w", HELLO), (b"full.tex", b"")],
        call: 8,
    },
];

/// The files of the failing runs with which nothing is wrong.
const SOUND_FILES: [(&[u8], &[u8]); 3] = [
    (b"foo.w", HELLO),
    (b"bar.w", b"@i folder.w\n@ One.\n"),
    (LONGEST, b""),
];

/// Makes the files of the failing runs, and what they stumble over.
fn make_traps(rt: HostRuntime) -> Result<(), Fail> {
    enter_new_folder(rt)?;
    write_files(rt, &SOUND_FILES)?;
    fs::create_dir(&rt, "folder.w")?;
    symlink(&rt, "circle.w", "circle.w")?;
    symlink(&rt, "/dev/full", "full.tex")?;
    Ok(())
}

fn failing_in_memory(alloc: Global, run: &Failing) -> Result<Answered, Memory> {
    let mut below = desk_with(alloc, run.files)?;
    below.fail_at(run.call)?;
    let mut desk = Recording::of(alloc, below);
    let exit = weave(alloc, run.words, &mut desk)?;
    let (_, heard) = desk.into_parts();
    Ok((exit, heard))
}

/// Whether the system's answers are those of a failing desk in memory, and the status of the whole program.
fn failing_run(rt: HostRuntime, run: &Failing) -> Result<(bool, u8), Fail> {
    let real = weave_real(rt, run.words)?;
    let wanted = failing_in_memory(rt.alloc(), run)?;
    Ok((real == wanted, status_of(rt, run.words)?))
}

#[test]
fn a_failing_system_answers_as_a_failing_desk(rt: HostRuntime) -> Result<(), Fail> {
    make_traps(rt)?;
    for run in &FAILING {
        assert_eq!(rt; failing_run(rt, run)?, (true, 2));
    }
    Ok(())
}

/// A link to an output, and what is written through it.
#[test]
fn an_output_is_written_through_a_link(rt: HostRuntime) -> Result<(), Fail> {
    enter_new_folder(rt)?;
    fs::create_dir(&rt, "inner")?;
    write_files(rt, &[(b"foo.w", HELLO), (b"inner/old", b"old")])?;
    symlink(&rt, "inner/link", "foo.tex")?;
    symlink(&rt, "old", "inner/link")?;
    let status = status_of(rt, &[b"+k", b"foo"])?;
    let is_link = fs::symlink_metadata(&rt, "foo.tex")?.is_symlink();
    let seen = (status, is_link, has_bytes(rt, "inner/old", HELLO_TEX)?);
    assert_eq!(rt; seen, (0, true, true));
    Ok(())
}
