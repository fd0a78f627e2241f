//! Runs with flag k: what is drafted over old files, and which of these are kept.
use crate::expectations::expect;
use crate::runs::{FOO, HELLO, Way, told_in};
use crate::texts::{Piece, text_of};
use cw_base::{Bytes, Memory};
use cw_desk::MemDesk;
use cw_test_desks::desk_with;
use std::alloc::Global;
use std::process::Abort;
use std::test::Fail;

static KEEPING: [&[u8]; 2] = [b"+k", FOO];

/// The TeX file of the web.
const TEX: &[u8] = b"\\input cwebmac
% limbo
\\M{1}Hello.
\\fi

\\inx
\\fin
\\end
";

/// The same without its last byte.
const SHORTER: &[u8] = b"\\input cwebmac
% limbo
\\M{1}Hello.
\\fi

\\inx
\\fin
\\end";

/// What the run tells before it has compared the TeX file with the old one.
const DRAFTED: &[u8] = b"[term]This is CWEAVE (profile 4)
Writing the output file...
[tex] is drafted for foo.tex
[tex]\\input cwebmac
% limbo
\\M{1}Hello.
\\fi

\\inx
\\fin
\\end
";

/// What it tells afterwards.
const INDEXED: &[u8] = b"[term]Writing the index...
[idx] is drafted for foo.idx
[idx] is kept
[scn] is drafted for foo.scn
[scn] is replaced
[term]Done.
(No errors were found.)
";

/// How it ends.
const ENDED: &[u8] = b"Clean";

/// A desk with this old TeX file and an old index that is empty.
fn desk_over(alloc: Global, old: &[u8]) -> Result<MemDesk, Memory> {
    let files: [(&[u8], &[u8]); 3] = [(b"foo.tex", old), (b"foo.idx", b""), (b"foo.w", HELLO)];
    desk_with(alloc, &files)
}

/// What a run tells over this old TeX file, which is so many pieces.
fn told_over(alloc: Global, old: &[Piece]) -> Result<Bytes, Memory> {
    let old = text_of(alloc, old)?;
    let mut desk = desk_over(alloc, old.as_slice())?;
    told_in(Way::Direct, alloc, &KEEPING, &mut desk)
}

/// It has to tell this of the TeX file.
fn expect_ending(rt: &impl Abort, alloc: Global, old: &[Piece], ending: &[u8]) -> Result<(), Fail> {
    let seen = told_over(alloc, old)?;
    let wanted = text_of(
        alloc,
        &[(DRAFTED, 1), (ending, 1), (INDEXED, 1), (ENDED, 1)],
    )?;
    expect(rt, &seen, &wanted);
    Ok(())
}

const REPLACED: &[u8] = b"[tex] is replaced\n";

/// An old TeX file, and what a run does with it.
const OLD: [(&[Piece], &[u8]); 5] = [
    (&[(TEX, 1)], b"[tex] is kept\n"),
    // Of another length.
    (&[(TEX, 1), (b"\n", 1)], REPLACED),
    (&[(SHORTER, 1)], REPLACED),
    (&[], REPLACED),
    // What is read of an old file doesn't count as input, of which there may be 8,388,608 bytes at most.
    (&[(TEX, 1), (b"x", 8_388_609)], REPLACED),
];

#[test]
fn old_files_of_each_length(rt: HostRuntime) -> Result<(), Fail> {
    for (old, ending) in &OLD {
        expect_ending(&rt, rt.alloc(), old, ending)?;
    }
    Ok(())
}

#[test]
fn old_files_with_another_byte(rt: HostRuntime) -> Result<(), Fail> {
    for at in 0..TEX.len() {
        let old = [(&TEX[..at], 1), (b"?".as_slice(), 1), (&TEX[at + 1..], 1)];
        expect_ending(&rt, rt.alloc(), &old, REPLACED)?;
    }
    Ok(())
}

// The call that puts the draft of the list in its place is the third from the end.
fn told_without_replacing(alloc: Global) -> Result<Bytes, Memory> {
    let calls = calls_over(alloc)?;
    let mut desk = desk_over(alloc, TEX)?;
    desk.fail_at(calls.saturating_sub(2))?;
    told_in(Way::Direct, alloc, &KEEPING, &mut desk)
}

/// How many calls a run over the same old TeX file makes.
fn calls_over(alloc: Global) -> Result<u64, Memory> {
    let mut desk = desk_over(alloc, TEX)?;
    Way::Direct.weave(alloc, &KEEPING, &mut desk)?;
    Ok(desk.calls())
}

#[test]
fn a_draft_that_stays_a_draft(rt: HostRuntime) -> Result<(), Fail> {
    let text = told_without_replacing(rt.alloc())?;
    let end = b"[idx] is kept\n[scn] is drafted for foo.scn\nFault".as_slice();
    assert!(rt; text.as_slice().ends_with(end));
    Ok(())
}
