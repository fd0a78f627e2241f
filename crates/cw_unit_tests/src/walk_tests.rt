//! Worked lines of scraps, reduced by calls.
ghost use Rattle.std.specs.Prelude.{OnOk};
ghost use Rattle.cw_scraps.specs.Lines.{IsSoundLine};

use crate::row_tests::Bench;
use crate::slow_tests::bench_of_words;
use crate::worked_lines::add_all;
use cw_base::{Flags, Memory};
use cw_reduce::reduce;
use std::alloc::Global;
use std::test::Fail;

// What is left of a line, and what was counted.
#[derive(Clone, Copy)]
struct Outcome {
    scraps: usize,
    productions: u64,
    steps: u64,
    marks: usize,
}

fn finish(bench: &mut Bench) -> Result<Outcome, Memory>
    requires sound { IsSoundLine bench.old.store bench.old.names bench.old.line }
{
    let reduced = reduce(
        &mut bench.line,
        &mut bench.store,
        &mut bench.names,
        &mut bench.marks,
        &Flags::start(),
        &mut bench.steps,
    )?;
    Ok(Outcome {
        scraps: bench.line.len(),
        productions: reduced.productions,
        steps: bench.steps.count(),
        marks: bench.marks.len(),
    })
}

// The scraps of these tokens, so many times.
fn add_times(bench: &mut Bench, tokens: &[u8], times: usize) -> Result<(), Memory>
    requires sound { IsSoundLine bench.old.store bench.old.names bench.old.line }
    ensures sound { OnOk result (IsSoundLine bench.new.store bench.new.names bench.new.line) }
{
    for _time in 0..times {
        add_all(tokens, &mut bench.line, &mut bench.store, &mut bench.names)?;
    }
    Ok(())
}

// A line of these tokens, so many times the first and then so many times the second, is reduced.
fn reduce_both(
    bench: &mut Bench,
    first: (&[u8], usize),
    second: (&[u8], usize),
) -> Result<Outcome, Memory>
    requires sound { IsSoundLine bench.old.store bench.old.names bench.old.line }
{
    add_times(bench, first.0, first.1)?;
    add_times(bench, second.0, second.1)?;
    finish(bench)
}

// The same with the names of the start.
fn reduced(
    alloc: Global,
    first: (&[u8], usize),
    second: (&[u8], usize),
) -> Result<Outcome, Memory> {
    let mut bench = bench_of_words(alloc)?;
    reduce_both(&mut bench, first, second)
}

// A line of tokens, so many times the first and then so many times the second, and what is left of it and counted.
struct Line {
    first: (&'static [u8], usize),
    second: (&'static [u8], usize),
    scraps: usize,
    productions: Option<u64>,
    steps: Option<u64>,
    marks: Option<usize>,
}

static LINES: [Line; 5] = [
    // A declaration is one scrap with two marks.
    Line {
        first: (b"Ta=b+c,*d;", 1),
        second: (b"", 0),
        scraps: 1,
        productions: Some(10),
        steps: None,
        marks: Some(2),
    },
    // Nested choices are one scrap.
    Line {
        first: (b"I(a)b;EI(c){d;}Ee;", 1),
        second: (b"", 0),
        scraps: 1,
        productions: Some(12),
        steps: None,
        marks: None,
    },
    // What stays at the left is not looked at again.
    Line {
        first: (b")", 200),
        second: (b"a;", 200),
        scraps: 201,
        productions: Some(399),
        steps: Some(4796),
        marks: None,
    },
    // A million scraps become one.
    Line {
        first: (b"a;", 500000),
        second: (b"", 0),
        scraps: 1,
        productions: Some(999999),
        steps: None,
        marks: None,
    },
    // A line without scraps stays.
    Line {
        first: (b"", 1),
        second: (b"", 0),
        scraps: 0,
        productions: None,
        steps: Some(0),
        marks: None,
    },
];

#[test]
fn worked_lines_have_their_counts(rt: HostRuntime) -> Result<(), Fail> {
    for (i, line) in LINES.iter().enumerate() {
        let done = reduced(rt.alloc(), line.first, line.second)?;
        let seen = (done.scraps, done.productions, done.steps, done.marks);
        let wanted = (
            line.scraps,
            line.productions.unwrap_or(done.productions),
            line.steps.unwrap_or(done.steps),
            line.marks.unwrap_or(done.marks),
        );
        assert_eq!(rt; seen, wanted, "line {i}");
    }
    Ok(())
}
