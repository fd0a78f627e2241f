//! Runs over a batch of a desk: they tell what runs over the desk itself tell, and each call fails in turn.
use crate::expectations::expect_faults;
use crate::failing_tests::BEGUN;
use crate::runs::{FOO, HELLO, Way, told_in};
use crate::texts::{Piece, text_of};
use cw_base::Memory;
use cw_desk::MemDesk;
use cw_test_desks::desk_with;
use std::alloc::Global;
use std::test::Fail;

/// A web whose TeX file is longer than what a batch gathers.
const LONG: [Piece<'static>; 2] = [
    (HELLO, 1),
    (
        b"A line of the section, which is not long, is printed as it is.\n",
        1000,
    ),
];

/// Whether runs over two desks, over the second by a batch, tell the same and end clean.
fn are_alike(
    alloc: Global,
    words: &[&[u8]],
    direct: &mut MemDesk,
    gathered: &mut MemDesk,
) -> Result<bool, Memory> {
    let all = told_in(Way::Direct, alloc, words, direct)?;
    let same = told_in(Way::Gathered, alloc, words, gathered)?;
    Ok(all.as_slice() == same.as_slice() && all.as_slice().ends_with(b"Clean"))
}

/// Whether that is so of desks with these files, and the numbers of their calls.
fn both_ways(
    alloc: Global,
    words: &[&[u8]],
    files: &[(&[u8], &[u8])],
) -> Result<(bool, [u64; 2]), Memory> {
    let mut direct = desk_with(alloc, files)?;
    let mut gathered = desk_with(alloc, files)?;
    let alike = are_alike(alloc, words, &mut direct, &mut gathered)?;
    Ok((alike, [direct.calls(), gathered.calls()]))
}

#[test]
fn a_batch_over_old_files_changes_nothing(rt: HostRuntime) -> Result<(), Fail> {
    let (alike, _) = both_ways(rt.alloc(), &[b"+k", FOO], &BEGUN)?;
    assert!(rt; alike);
    Ok(())
}

#[test]
fn a_batch_of_a_long_web(rt: HostRuntime) -> Result<(), Fail> {
    let web = text_of(rt.alloc(), &LONG)?;
    let files = [(b"foo.w".as_slice(), web.as_slice())];
    let (alike, [many, few]) = both_ways(rt.alloc(), &[FOO], &files)?;
    assert!(rt;
        alike && many > 1000 && few < 30,
        "the same is told, and lines are handed on together"
    );
    expect_faults(&rt, rt.alloc(), Way::Gathered, &[FOO], &files)
}
