//! Webs, some of them over old files too, where each call fails in turn, a call moves one byte, or nothing fails.
use crate::expectations::{expect_faults, expect_told};
use crate::quiet::weave_quietly;
use crate::runs::{FOO, HELLO, Way, told_in};
use cw_base::{Bytes, Exit, Memory, Words};
use cw_desk::{MemDesk, QuietDesk};
use cw_test_desks::desk_with;
use std::alloc::Global;
use std::test::Fail;

const GREETING: &[u8] = b"\\def\\title{Hello}
@* Hello. This program greets |n| times.
@d n 3
@c
#include <stdio.h>
int main(void)
{
  int i;
  for (i=0;i<n;i++) @<Greet@>;
  return 0;
}
@ Here it is.
@<Greet@>=
printf(\"Hello\\n\"); /* |i| is unused */
";

/// The files of a run with a change file.
const CHANGED: [(&[u8], &[u8]); 2] = [
    (b"foo.w", b"@ One.\n@c a;\nb;\n"),
    (b"foo.ch", b"@x\n@c a;\nc;\n@y\n@c z;\n@z\n"),
];

/// The files of a run whose web lies ten files deep.
const NESTED: [(&[u8], &[u8]); 11] = [
    (b"foo.w", b"@i f1\n"),
    (b"f1", b"@i f2\n"),
    (b"f2", b"@i f3\n"),
    (b"f3", b"@i f4\n"),
    (b"f4", b"@i f5\n"),
    (b"f5", b"@i f6\n"),
    (b"f6", b"@i f7\n"),
    (b"f7", b"@i f8\n"),
    (b"f8", b"@i f9\n"),
    (b"f9", b"@i f10\n"),
    (b"f10", b"@ Deep.\n"),
];

/// The files of a run whose outputs are compared with old files: the TeX file and the index would be the same.
const KEPT: [(&[u8], &[u8]); 3] = [
    (b"foo.w", b"% limbo\n@ Hello.\n"),
    (
        b"foo.tex",
        b"\\input cwebmac\n% limbo\n\\M{1}Hello.\n\\fi\n\n\\inx\n\\fin\n\\end\n",
    ),
    (b"foo.idx", b""),
];

/// An old TeX file that agrees with the new one for some of its bytes.
pub(crate) const BEGUN: [(&[u8], &[u8]); 2] = [
    (b"foo.w", HELLO),
    (b"foo.tex", b"\\input cwebmac\n% limbo\n"),
];

/// A run, and how its desk is called.
struct Called {
    way: Way,
    /// How many bytes the first read or put moves where each other one moves one.
    first: usize,
    words: &'static [&'static [u8]],
    files: &'static [(&'static [u8], &'static [u8])],
}

static RUNS: [Called; 7] = [
    Called {
        way: Way::Direct,
        first: 1,
        words: &[b"+b", FOO, b"-"],
        files: &[(b"foo.w", HELLO)],
    },
    Called {
        way: Way::Direct,
        first: 1,
        words: &[b"+b", FOO, FOO],
        files: &CHANGED,
    },
    Called {
        way: Way::Direct,
        first: 1,
        words: &[b"+b", FOO, b"-"],
        files: &NESTED,
    },
    Called {
        way: Way::Direct,
        first: 1,
        words: &[b"+b", FOO, b"-"],
        files: &[(b"foo.w", GREETING)],
    },
    Called {
        way: Way::Direct,
        first: 1,
        words: &[b"+k", FOO, b"-"],
        files: &KEPT,
    },
    Called {
        way: Way::Direct,
        first: 3,
        words: &[FOO],
        files: &[(b"foo.w", HELLO)],
    },
    Called {
        way: Way::Gathered,
        first: 1,
        words: &[b"+k", FOO],
        files: &BEGUN,
    },
];

#[test]
fn each_call_fails_in_turn(rt: HostRuntime) -> Result<(), Fail> {
    for run in &RUNS {
        expect_faults(&rt, rt.alloc(), run.way, run.words, run.files)?;
    }
    Ok(())
}

/// A desk with the files of a run, on which a call moves few bytes.
fn slow_desk(alloc: Global, run: &Called) -> Result<MemDesk, Memory> {
    let mut desk = desk_with(alloc, run.files)?;
    desk.limit(run.first.max(1))?;
    desk.limit(1)?;
    Ok(desk)
}

/// What a run over it tells.
fn told_slowly(alloc: Global, run: &Called) -> Result<Bytes, Memory> {
    let mut desk = slow_desk(alloc, run)?;
    told_in(Way::Direct, alloc, run.words, &mut desk)
}

#[test]
fn a_byte_at_a_time(rt: HostRuntime) -> Result<(), Fail> {
    for run in &RUNS {
        let slow = told_slowly(rt.alloc(), run)?;
        expect_told(&rt, rt.alloc(), run.words, run.files, slow.as_slice())?;
    }
    Ok(())
}

/// How a run over this web ends where nothing fails.
fn quiet_exit(alloc: Global, words: &Words, web: &[u8]) -> Result<Exit, Memory> {
    let mut desk = QuietDesk::new_in(alloc);
    desk.add_file(b"foo.w", web)?;
    Ok(weave_quietly(alloc, words, &mut desk))
}

/// How much of the web is left where its run first ends in another way than clean or with errors.
fn first_other_end(alloc: Global) -> Result<Option<usize>, Memory> {
    let mut words = Words::new_in(alloc);
    words.push(FOO)?;
    for length in 0..GREETING.len() {
        let exit = quiet_exit(alloc, &words, &GREETING[..length])?;
        if exit != Exit::Clean && exit != Exit::Errors {
            return Ok(Some(length));
        }
    }
    Ok(None)
}

#[test]
fn a_web_cut_after_each_byte(rt: HostRuntime) -> Result<(), Fail> {
    assert_eq!(rt; first_other_end(rt.alloc())?, None);
    Ok(())
}
