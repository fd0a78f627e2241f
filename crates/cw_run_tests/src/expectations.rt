//! Runs that have to tell what is expected of them.
use crate::runs::{Way, ends_at, journal_text, told, told_in};
use cw_base::{Bytes, Memory};
use cw_desk::MemDesk;
use cw_test_desks::desk_with;
use std::alloc::Global;
use std::process::Abort;
use std::test::Fail;

/// A run, and what it has to tell.
pub(crate) struct Run {
    /// What it shows.
    pub(crate) name: &'static str,
    /// The words of its command line.
    pub(crate) words: &'static [&'static [u8]],
    /// The files of its desk.
    pub(crate) files: &'static [(&'static [u8], &'static [u8])],
    /// Its journal, and how it ends.
    pub(crate) told: &'static [u8],
}

/// What was seen has to be what is wanted.
pub(crate) fn expect(rt: &impl Abort, seen: &Bytes, wanted: &Bytes) {
    assert_eq!(rt; seen.as_slice(), wanted.as_slice());
}

/// A run over these files has to tell what is wanted.
pub(crate) fn expect_told(
    rt: &impl Abort,
    alloc: Global,
    words: &[&[u8]],
    files: &[(&[u8], &[u8])],
    wanted: &[u8],
) -> Result<(), Fail> {
    let seen = told(alloc, words, files)?;
    assert_eq!(rt; seen.as_slice(), wanted);
    Ok(())
}

/// Each of these runs has to tell what is expected of it.
pub(crate) fn expect_runs(rt: &impl Abort, alloc: Global, runs: &[Run]) -> Result<(), Fail> {
    for run in runs {
        let seen = told(alloc, run.words, run.files)?;
        assert_eq!(rt; seen.as_slice(), run.told, "{}", run.name);
    }
    Ok(())
}

/// A run of which a call may fail, and the number of its calls.
pub(crate) struct Counted {
    /// The run.
    pub(crate) run: Run,
    /// The number of the call that fails.
    pub(crate) fails_at: Option<u64>,
    /// How many calls there have to be.
    pub(crate) calls: u64,
}

/// What a run tells, and how many calls there are.
fn told_counted(alloc: Global, counted: &Counted) -> Result<(Bytes, u64), Memory> {
    let mut desk = desk_with(alloc, counted.run.files)?;
    if let Some(call) = counted.fails_at {
        desk.fail_at(call)?;
    }
    let text = told_in(Way::Direct, alloc, counted.run.words, &mut desk)?;
    Ok((text, desk.calls()))
}

/// Each of these runs has to tell what is expected of it, by so many calls.
pub(crate) fn expect_calls(rt: &impl Abort, alloc: Global, rows: &[Counted]) -> Result<(), Fail> {
    for row in rows {
        let (seen, calls) = told_counted(alloc, row)?;
        let wanted = (row.run.told, row.calls);
        assert_eq!(rt; (seen.as_slice(), calls), wanted, "{}", row.run.name);
    }
    Ok(())
}

/// Each call of a run over these files fails in turn: the run has to end there with a fault, and to have told a
/// beginning of what it tells if none fails.
pub(crate) fn expect_faults(
    rt: &impl Abort,
    alloc: Global,
    way: Way,
    words: &[&[u8]],
    files: &[(&[u8], &[u8])],
) -> Result<(), Fail> {
    let (all, calls) = whole_run(alloc, way, words, files)?;
    for before in 0..calls {
        let mut desk = desk_with(alloc, files)?;
        let ends = ends_at(way, alloc, words, &mut desk, before + 1, all.as_slice())?;
        assert!(rt; ends, "where {before} calls went before");
    }
    Ok(())
}

/// The journal of a run in which no call fails, and the number of its calls.
fn whole_run(
    alloc: Global,
    way: Way,
    words: &[&[u8]],
    files: &[(&[u8], &[u8])],
) -> Result<(Bytes, u64), Memory> {
    let mut desk = desk_with(alloc, files)?;
    let all = run_over(alloc, way, words, &mut desk)?;
    Ok((all, desk.calls()))
}

/// The journal of a run over this desk.
fn run_over(alloc: Global, way: Way, words: &[&[u8]], desk: &mut MemDesk) -> Result<Bytes, Memory> {
    way.weave(alloc, words, desk)?;
    journal_text(alloc, desk.journal())
}
