//! Inputs that are real files: none is opened for writing, whatever an output is called that leads to it.
use crate::runs::{HELLO, line_of};
use cw_base::Out;
use cw_desk::{Desk, FileDesk, MadeOut, Opened, Taken};
use cw_run::run_program;
use cw_test_desks::{enter_new_folder, has_bytes, write_files};
use cw_weave::Weaver;
use std::fs;
use std::os::unix::fs::symlink;
use std::test::Fail;

/// A web with an included file, the changes of it, and a web in a folder.
const INPUTS: [(&[u8], &[u8]); 4] = [
    (b"foo.w", b"@i part\n@ Hello.\n@c x;\n"),
    (b"part", b"% part\n"),
    (b"foo.ch", b"@x\n@c x;\n@y\n@c y;\n@z\n"),
    (b"inc/web.w", HELLO),
];

/// A run that would write to an input: its words, and the links that are there, with the place to which each leads.
struct Run {
    words: &'static [&'static [u8]],
    links: &'static [(&'static str, &'static str)],
}

static RUNS: [Run; 10] = [
    // Another path to the web, and to one that was found in a folder.
    Run {
        words: &[b"./foo.w", b"-", b"foo.w"],
        links: &[],
    },
    Run {
        words: &[b"web", b"-", b"inc/web.w"],
        links: &[],
    },
    // Links to the web, to the change file and to the included file.
    Run {
        words: &[b"foo"],
        links: &[("foo.tex", "foo.w")],
    },
    Run {
        words: &[b"foo", b"foo"],
        links: &[("foo.idx", "foo.ch")],
    },
    Run {
        words: &[b"foo"],
        links: &[("foo.scn", "link"), ("link", "part")],
    },
    // With flag k the place of an output, and that of a draft.
    Run {
        words: &[b"+k", b"foo"],
        links: &[("foo.tex", "foo.w")],
    },
    Run {
        words: &[b"+k", b"foo", b"-", b"./foo.w"],
        links: &[],
    },
    Run {
        words: &[b"+k", b"foo"],
        links: &[("foo.tex.new", "foo.w")],
    },
    Run {
        words: &[b"+k", b"foo"],
        links: &[("foo.idx.new", "part")],
    },
    // The draft of what a link leads to.
    Run {
        words: &[b"+k", b"foo"],
        links: &[("foo.tex", "out"), ("out.new", "foo.w")],
    },
];

/// Makes the inputs in a new folder.
fn make_inputs(rt: HostRuntime) -> Result<(), Fail> {
    enter_new_folder(rt)?;
    fs::create_dir(&rt, "inc")?;
    write_files(rt, &INPUTS)
}

/// Whether all inputs are as they were.
fn are_whole(rt: HostRuntime) -> Result<bool, Fail> {
    let mut whole = true;
    for (name, bytes) in &INPUTS {
        let Ok(name) = str::from_utf8(name) else {
            return Err(Fail::from("the name of an input is text"));
        };
        whole = whole && has_bytes(rt, name, bytes)?;
    }
    Ok(whole)
}

/// The status of the whole program, where files are looked for in the folder.
fn status_of(rt: HostRuntime, words: &[&[u8]]) -> Result<u8, Fail> {
    let alloc = rt.alloc();
    let line = line_of(alloc, words)?;
    let mut desk = FileDesk::new_in(rt, alloc);
    desk.look_in(b"inc")?;
    let (exit, _) = run_program(alloc, &Weaver, &line, desk);
    Ok(exit.code())
}

/// The status of a run, and whether the inputs are whole after it.
fn seen(rt: HostRuntime, run: &Run) -> Result<(u8, bool), Fail> {
    make_inputs(rt)?;
    for (link, target) in run.links {
        symlink(&rt, *target, *link)?;
    }
    Ok((status_of(rt, run.words)?, are_whole(rt)?))
}

#[test]
fn inputs_stay_whole(rt: HostRuntime) -> Result<(), Fail> {
    for run in &RUNS {
        assert_eq!(rt; seen(rt, run)?, (2, true));
    }
    Ok(())
}

/// A second name of the web, which is no link.
#[test]
fn another_name_of_an_input(rt: HostRuntime) -> Result<(), Fail> {
    make_inputs(rt)?;
    fs::hard_link(&rt, "foo.w", "foo.tex")?;
    assert_eq!(rt; (status_of(rt, &[b"foo"])?, are_whole(rt)?), (2, true));
    Ok(())
}

/// With flag k the old index is the old TeX file too: what is compared is no input.
#[test]
fn an_old_output_is_no_input(rt: HostRuntime) -> Result<(), Fail> {
    make_inputs(rt)?;
    fs::write(&rt, "foo.tex", b"old".as_slice())?;
    fs::hard_link(&rt, "foo.tex", "foo.idx")?;
    let status = status_of(rt, &[b"+k", b"foo"])?;
    let seen = (status, has_bytes(rt, "foo.idx", b"old")?, are_whole(rt)?);
    assert_eq!(rt; seen, (0, false, true));
    Ok(())
}

/// Drafts a file with the bytes of an old one that is in the folder, opening that before or after it, and keeps it.
fn keep(desk: &mut FileDesk, opens_first: bool) -> [bool; 3] {
    let first = opens_first && matches!(desk.open(b"old"), Opened::File(_));
    if desk.draft(Out::Tex, b"old") != MadeOut::Done {
        return [false; 3];
    }
    let put = desk.put(Out::Tex, b"text") == Taken::Bytes(4);
    let opened = first || matches!(desk.open(b"old"), Opened::File(_));
    [put, opened, desk.keep(Out::Tex) == MadeOut::Done]
}

/// Whether the calls succeed, and the file stands in both places then.
fn kept(rt: HostRuntime, opens_first: bool) -> Result<([bool; 3], [bool; 2]), Fail> {
    make_inputs(rt)?;
    fs::write(&rt, "inc/old", b"text".as_slice())?;
    let mut desk = FileDesk::new_in(rt, rt.alloc());
    desk.look_in(b"inc")?;
    let succeeded = keep(&mut desk, opens_first);
    let stands = [
        has_bytes(rt, "old", b"text")?,
        has_bytes(rt, "inc/old", b"text")?,
    ];
    Ok((succeeded, stands))
}

#[test]
fn an_old_file_in_a_folder_is_opened_before_or_after_the_draft(
    rt: HostRuntime,
) -> Result<(), Fail> {
    for opens_first in [true, false] {
        assert_eq!(rt; kept(rt, opens_first)?, ([true; 3], [true; 2]));
    }
    Ok(())
}
