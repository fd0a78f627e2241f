//! The slow program of the definition, which looks for the least place again from the left before each production,
//! beside `reduce`.
ghost use Rattle.std.specs.Prelude.{OnOk, IfOk};
ghost use Rattle.cw_scraps.specs.Lines.{IsSoundLine};

use crate::row_tests::{Bench, bench_with, produce};
use crate::worked_lines::add_all;
use cw_base::{Flags, Kept, Memory, Steps};
use cw_names::Names;
use cw_reduce::reduce;
use std::alloc::Global;
use std::test::Fail;

// The leftmost production, if there is one.
fn produce_leftmost(bench: &mut Bench) -> Result<bool, Memory>
    requires sound { IsSoundLine bench.old.store bench.old.names bench.old.line }
    ensures sound { OnOk result (IsSoundLine bench.new.store bench.new.names bench.new.line) }
{
    for place in 0..bench.line.len() {
        if produce(bench, place, &Flags::start())? != 0 {
            return Ok(true);
        }
    }
    Ok(false)
}

// All productions of a line, of which there are at most eight for each scrap.
fn produce_all(bench: &mut Bench) -> Result<u64, Memory>
    requires sound { IsSoundLine bench.old.store bench.old.names bench.old.line }
    ensures sound { OnOk result (IsSoundLine bench.new.store bench.new.names bench.new.line) }
{
    for done in 0..8 * bench.line.len() as u64 {
        if !produce_leftmost(bench)? {
            return Ok(done);
        }
    }
    Ok(8 * bench.line.len() as u64)
}

fn slowly(bench: &mut Bench, tokens: &[u8]) -> Result<u64, Memory>
    requires sound { IsSoundLine bench.old.store bench.old.names bench.old.line }
{
    add_all(tokens, &mut bench.line, &mut bench.store, &mut bench.names)?;
    produce_all(bench)
}

fn by_walk(bench: &mut Bench, tokens: &[u8]) -> Result<u64, Memory>
    requires sound { IsSoundLine bench.old.store bench.old.names bench.old.line }
{
    add_all(tokens, &mut bench.line, &mut bench.store, &mut bench.names)?;
    let done = reduce(
        &mut bench.line,
        &mut bench.store,
        &mut bench.names,
        &mut bench.marks,
        &Flags::start(),
        &mut bench.steps,
    )?;
    Ok(done.productions)
}

// Whether two lines have the same categories, and the same number of marks was made.
fn agree(one: &Bench, other: &Bench) -> bool {
    if one.line.len() != other.line.len() || one.marks.len() != other.marks.len() {
        return false;
    }
    let mut steps: Steps<Kept> = Steps::new();
    for i in 0..one.line.len() {
        if one.line.cat_at(i, &mut steps) != other.line.cat_at(i, &mut steps) {
            return false;
        }
    }
    true
}

// An empty line with the names of the start.
pub(crate) fn bench_of_words(alloc: Global) -> Result<Bench, Memory>
    ensures { IfOk result (λ bench. IsSoundLine bench.store bench.names bench.line) }
{
    let names = Names::with_words(alloc)?;
    Ok(bench_with(alloc, names))
}

// Whether the walk leaves of a line what the slow program does, in as many productions.
fn end_alike(slow: &mut Bench, walked: &mut Bench, text: &[u8]) -> Result<bool, Memory>
    requires slow { IsSoundLine slow.old.store slow.old.names slow.old.line }
    requires walked { IsSoundLine walked.old.store walked.old.names walked.old.line }
{
    let productions = [slowly(slow, text)?, by_walk(walked, text)?];
    Ok(productions[0] == productions[1] && agree(slow, walked))
}

fn walk_ends_as(slow: &mut Bench, alloc: Global, text: &[u8]) -> Result<bool, Memory>
    requires slow { IsSoundLine slow.old.store slow.old.names slow.old.line }
{
    let mut walked = bench_of_words(alloc)?;
    end_alike(slow, &mut walked, text)
}

fn ends_alike(alloc: Global, text: &[u8]) -> Result<bool, Memory> {
    let mut slow = bench_of_words(alloc)?;
    walk_ends_as(&mut slow, alloc, text)
}

// The first text of which they leave something else.
fn first_other(alloc: Global, texts: &[&[u8]]) -> Result<Option<usize>, Memory> {
    for (i, text) in texts.iter().enumerate() {
        if !ends_alike(alloc, text)? {
            return Ok(Some(i));
        }
    }
    Ok(None)
}

#[test]
fn the_walk_ends_as_the_slow_program(rt: HostRuntime) -> Result<(), Fail> {
    let texts: [&[u8]; 8] = [
        b"Ta=b+c,*d;",
        b"I(a)b;EI(c){d;}Ee;",
        b")))a;b;c;(",
        b"Ta(Tb,Tc){a=b+c;}",
        b"T*a;Tb;c=(a+b)*a;",
        b"{I(a){b;}E{c;}}}",
        b"a Tf(b Tc){d e;}T(",
        b"a={{},{b}},{};f(a,+);",
    ];
    assert_eq!(rt; first_other(rt.alloc(), &texts)?, None);
    Ok(())
}
