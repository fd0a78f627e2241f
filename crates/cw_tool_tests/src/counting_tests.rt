//! Whole runs of the tool that counts sections: what is printed and written for the words of a command line, and by
//! how many calls of the desk.
use crate::counting::Counting;
use crate::programs::{Program, Run, expect_runs, journal_text};
use cw_base::{Bytes, Exit, Memory};
use cw_desk::QuietDesk;
use cw_run::tool_files;
use cw_test_desks::{enter_new_folder, words_of};
use std::alloc::Global;
use std::fs;
use std::os::unix::fs::symlink;
use std::test::Fail;

const WEBS: [(&[u8], &[u8]); 6] = [
    (b"foo.w", b"@ One.\n@c a;\n@ Two.\n"),
    (b"foo.ch", b"@x\n@c a;\n@y\n@c b;\n@z\n"),
    (b"empty.w", b""),
    (b"bad.w", b"@ One.\n@c @<Never@>\n"),
    (b"two.w", b"@i part\n@ One.\n"),
    (b"part", b"% part\n"),
];

static RUNS: [Run; 11] = [
    Run {
        words: &[b"none", b"-", b"out"],
        files: &WEBS,
        told: b"! Cannot open web file none\n",
        exit: Exit::Errors,
        calls: Some(3),
    },
    Run {
        words: &[b"foo", b"none", b"out"],
        files: &WEBS,
        told: b"! Cannot open change file none\n",
        exit: Exit::Errors,
        calls: Some(5),
    },
    Run {
        words: &[b"foo", b"-", b"out"],
        files: &WEBS,
        told: b"[tex]out\n@ One.\n@c a;\n@ Two.\n2\n",
        exit: Exit::Clean,
        calls: Some(6),
    },
    Run {
        words: &[b"foo", b"foo", b"out"],
        files: &WEBS,
        told: b"[tex]out\n@ One.\n@c b;\n@ Two.\n2\n",
        exit: Exit::Clean,
        calls: Some(9),
    },
    // No word is an option.
    Run {
        words: &[b"-x", b"-", b"+b"],
        files: &[(b"-x.w", b"@ One.\n")],
        told: b"[tex]+b\n@ One.\n1\n",
        exit: Exit::Clean,
        calls: Some(6),
    },
    Run {
        words: &[b"empty", b"-", b"out"],
        files: &WEBS,
        told: b"[tex]out\n0\n",
        exit: Exit::Clean,
        calls: Some(4),
    },
    // Notes are not printed, and don't change the status.
    Run {
        words: &[b"bad", b"-", b"out"],
        files: &WEBS,
        told: b"[tex]out\n@ One.\n@c @<Never@>\n1\n",
        exit: Exit::Clean,
        calls: Some(6),
    },
    // The file would overwrite the web, the change file, and an included file. What lacks is told before that.
    Run {
        words: &[b"foo", b"-", b"foo.w"],
        files: &WEBS,
        told: b"! Output file would overwrite foo.w\n",
        exit: Exit::Errors,
        calls: Some(4),
    },
    Run {
        words: &[b"foo", b"foo", b"foo.ch"],
        files: &WEBS,
        told: b"! Output file would overwrite foo.ch\n",
        exit: Exit::Errors,
        calls: Some(7),
    },
    Run {
        words: &[b"two", b"-", b"part"],
        files: &WEBS,
        told: b"! Output file would overwrite part\n",
        exit: Exit::Errors,
        calls: Some(7),
    },
    Run {
        words: &[b"foo", b"none", b"foo.w"],
        files: &WEBS,
        told: b"! Cannot open change file none\n",
        exit: Exit::Errors,
        calls: Some(5),
    },
];

#[test]
fn words_and_webs(rt: HostRuntime) -> Result<(), Fail> {
    expect_runs(&rt, rt.alloc(), Program::Counting, &RUNS)
}

/// A web of this many lines of seven bytes each.
fn long_web(alloc: Global, lines: usize) -> Result<Bytes, Memory> {
    let mut web = Bytes::new_in(alloc);
    for _ in 0..lines {
        web.append(b"% text\n")?;
    }
    Ok(web)
}

#[test]
fn a_web_that_is_too_long(rt: HostRuntime) -> Result<(), Fail> {
    let web = long_web(rt.alloc(), 8_388_608 / 7 + 1)?;
    let mut desk = QuietDesk::new_in(rt.alloc());
    desk.add_file(b"foo.w", web.as_slice())?;
    let exit = Program::Counting.run(rt.alloc(), &[b"foo", b"-", b"out"], &mut desk)?;
    let text = journal_text(rt.alloc(), desk.journal())?;
    let told = b"! Input is longer than 8388608 bytes\n".as_slice();
    assert_eq!(rt; (text.as_slice(), exit), (told, Exit::Errors));
    Ok(())
}

#[test]
fn a_web_that_is_a_real_file(rt: HostRuntime) -> Result<(), Fail> {
    let alloc = rt.alloc();
    enter_new_folder(rt)?;
    fs::write(&rt, "foo.w", b"@ One.\n".as_slice())?;
    let line = words_of(alloc, &[b"cwcount", b"foo", b"-", b"out"])?;
    let (exit, _desk) = tool_files(rt, alloc, &Counting, &line);
    let written = fs::read(&rt, "out")?;
    assert_eq!(rt;
        (exit, written.as_slice()),
        (Exit::Clean, b"@ One.\n1\n".as_slice())
    );
    Ok(())
}

#[test]
fn a_file_that_leads_to_its_web(rt: HostRuntime) -> Result<(), Fail> {
    let alloc = rt.alloc();
    enter_new_folder(rt)?;
    fs::write(&rt, "foo.w", b"@ One.\n".as_slice())?;
    symlink(&rt, "foo.w", "out")?;
    let line = words_of(alloc, &[b"cwcount", b"foo", b"-", b"out"])?;
    let (exit, _desk) = tool_files(rt, alloc, &Counting, &line);
    let web = fs::read(&rt, "foo.w")?;
    assert_eq!(rt;
        (exit, web.as_slice()),
        (Exit::Fault, b"@ One.\n".as_slice())
    );
    Ok(())
}
