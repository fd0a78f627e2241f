//! Words that ask for nothing, and files that would overwrite a web.
use crate::programs::{Program, Run, expect_runs};
use cw_base::Exit;
use std::alloc::Global;
use std::process::Abort;
use std::test::Fail;

/// Words that ask a tool for nothing.
const IDLE: [&[&[u8]]; 7] = [
    &[],
    &[b"foo", b"-"],
    &[b"foo", b"-", b"out", b"-"],
    &[b"", b"-", b"out"],
    &[b"-", b"-", b"out"],
    &[b"foo", b"-", b""],
    &[b"foo", b"-", b"-"],
];

/// Words that ask for no log.
const IDLE_OF_LOG: [&[&[u8]]; 9] = [
    &[],
    &[b"write"],
    &[b"write", b"foo", b"-"],
    &[b"write", b"foo", b"-", b"out", b"-"],
    &[b"write", b"-", b"-", b"out"],
    &[b"write", b"foo", b"-", b""],
    &[b"check"],
    &[b"check", b""],
    &[b"weave", b"foo"],
];

/// Over a web, each of these command lines has to be answered by one line.
fn expect_idle(
    rt: &impl Abort,
    alloc: Global,
    program: Program,
    lines: &[&[&[u8]]],
    told: &[u8],
) -> Result<(), Fail> {
    for words in lines {
        let (text, exit, calls) = program.told(alloc, words, &[(b"foo.w", b"@ |a|\n")])?;
        assert_eq!(rt; (text.as_slice(), exit, calls), (told, Exit::Errors, 1));
    }
    Ok(())
}

#[test]
fn words_that_ask_to_count_nothing(rt: HostRuntime) -> Result<(), Fail> {
    let told = b"! Usage: cwcount web change|- out\n";
    expect_idle(&rt, rt.alloc(), Program::Counting, &IDLE, told)
}

#[test]
fn words_that_ask_for_no_small_index(rt: HostRuntime) -> Result<(), Fail> {
    let told = b"! Usage: cwmini web change|- out\n";
    expect_idle(&rt, rt.alloc(), Program::Mini, &IDLE, told)
}

#[test]
fn words_that_ask_for_no_plain_text(rt: HostRuntime) -> Result<(), Fail> {
    let told = b"! Usage: cwplain web change|- out\n";
    expect_idle(&rt, rt.alloc(), Program::Plain, &IDLE, told)
}

#[test]
fn words_that_ask_for_no_log(rt: HostRuntime) -> Result<(), Fail> {
    let told = b"! Usage: cwlog write web change|- out, or cwlog check log\n";
    expect_idle(&rt, rt.alloc(), Program::Log, &IDLE_OF_LOG, told)
}

/// A run whose file would overwrite its web.
const OVERWRITING: [Run; 1] = [Run {
    words: &[b"foo", b"-", b"foo.w"],
    files: &[(b"foo.w", b"@ One.\n")],
    told: b"! Output file would overwrite foo.w\n",
    exit: Exit::Errors,
    calls: Some(4),
}];

/// The same of a log.
const LOG_OVERWRITING: [Run; 1] = [Run {
    words: &[b"write", b"foo", b"-", b"foo.w"],
    files: &[(b"foo.w", b"@ |a|\n")],
    told: b"! Output file would overwrite foo.w\n",
    exit: Exit::Errors,
    calls: Some(4),
}];

#[test]
fn a_small_index_that_would_overwrite_its_web(rt: HostRuntime) -> Result<(), Fail> {
    expect_runs(&rt, rt.alloc(), Program::Mini, &OVERWRITING)
}

#[test]
fn a_plain_text_that_would_overwrite_its_web(rt: HostRuntime) -> Result<(), Fail> {
    expect_runs(&rt, rt.alloc(), Program::Plain, &OVERWRITING)
}

#[test]
fn a_log_that_would_overwrite_its_web(rt: HostRuntime) -> Result<(), Fail> {
    expect_runs(&rt, rt.alloc(), Program::Log, &LOG_OVERWRITING)
}
