//! Does the production of a sum twice in a line of scraps.
ghost use Rattle.std.specs.Prelude.{◌≡◌, ◌<◌, ◌≤◌, true, drop, length, IfSome, OnOk};
ghost use Rattle.cw_table.specs.Fitting.{row_fits};
ghost use Rattle.cw_table.specs.Productions.{productions};
ghost use Rattle.cw_table.specs.Rewriting.{cats_of};
ghost use Rattle.cw_scraps.specs.Applying.{row_of};
ghost use Rattle.cw_scraps.specs.model.Inserting.{entry_cats};
ghost use Rattle.cw_scraps.specs.Leaves.{MakesLeaf};
ghost use Rattle.cw_scraps.specs.Lines.{IsSoundLine, scraps_of};

use cw_base::{Flags, Memory, Silent, Span, Steps};
use cw_lex::{Directive, Sign, Tok, TokKind};
use cw_names::Names;
use cw_scraps::{Marks, ScrapLine, scrap_of};
use cw_table::{ROW_COUNT, RowNo, Table, first_production, table};
use cw_tokens::TokenStore;
use std::alloc::Global;
use std::io;

fn kind_of(i: usize) -> TokKind
    ensures { MakesLeaf result }
{
    if i % 2 == 0 {
        TokKind::Constant
    } else {
        TokKind::Sign(Sign::Slash)
    }
}

fn add(
    kind: TokKind,
    line: &mut ScrapLine,
    store: &mut TokenStore,
    names: &mut Names,
) -> Result<(), Memory>
    requires kind { MakesLeaf kind }
    requires sound { IsSoundLine store.old names.old line.old }
    ensures sound { OnOk result (IsSoundLine store.new names.new line.new) }
{
    let token = Tok {
        kind,
        text: b"1",
        span: Span { start: 0, end: 0 },
        hash_line: false,
        directive: Directive::No,
    };
    let leaf = scrap_of(&token, names, store)?;
    line.add(leaf.cat, leaf.list, leaf.left, leaf.right)
}

// The scraps of `1/1/1` and so on, so many.
fn add_all(
    count: usize,
    line: &mut ScrapLine,
    store: &mut TokenStore,
    names: &mut Names,
) -> Result<(), Memory>
    requires sound { IsSoundLine store.old names.old line.old }
    ensures sound { OnOk result (IsSoundLine store.new names.new line.new) }
{
    for i in 0..count {
        add(kind_of(i), line, store, names)?;
    }
    Ok(())
}

// The first row that fits at a place.
fn first_row(line: &ScrapLine, place: usize, steps: &mut Steps<Silent>) -> Option<RowNo>
    requires { place < length line.now }
    ensures from_one { IfSome result (λ row. 1 ≤ row.number) }
    ensures to_last { IfSome result (λ row. row.number ≤ ROW_COUNT) }
    ensures fits { IfSome result (λ row. row_fits (row_of productions row.number) (drop place (entry_cats line.now)) ≡
        true) }
{
    let _length = line.len();
    first_production([
        line.cat_at(place, steps),
        line.cat_at(place + 1, steps),
        line.cat_at(place + 2, steps),
        line.cat_at(place + 3, steps),
    ])
}

// A line of scraps with all that productions change.
#[derive(Drop)]
struct Bench {
    line: ScrapLine,
    store: TokenStore,
    names: Names,
    marks: Marks,
    steps: Steps<Silent>,
}

// The production whose instructions are counted.
#[inline(never)]
fn apply(bench: &mut Bench, table: &Table<ROW_COUNT>, row: RowNo, place: usize)
    requires from_one { 1 ≤ row.number }
    requires to_last { row.number ≤ ROW_COUNT }
    requires fits { row_fits (row_of table.now row.number)
        (drop place (cats_of (scraps_of bench.old.store.lists bench.old.line))) ≡ true }
    requires sound { IsSoundLine bench.old.store bench.old.names bench.old.line }
    requires room { 24 ≤ bench.old.store.spare }
    requires free { 0 < bench.old.marks.spare }
    ensures { IsSoundLine bench.new.store bench.new.names bench.new.line }
{
    let flags = Flags::start();
    bench.line.apply(
        table,
        row,
        place,
        &flags,
        &mut bench.names,
        &mut bench.marks,
        &mut bench.store,
        &mut bench.steps,
    );
}

// The production by the first row that fits at a place, where there is one.
fn once(bench: &mut Bench, table: &Table<ROW_COUNT>, place: usize) -> Result<(), Memory>
    requires table { table.now ≡ productions }
    requires sound { IsSoundLine bench.old.store bench.old.names bench.old.line }
    ensures sound { OnOk result (IsSoundLine bench.new.store bench.new.names bench.new.line) }
{
    if place >= bench.line.len() {
        return Ok(());
    }
    bench.store.reserve(24)?;
    bench.marks.reserve(1)?;
    if let Some(row) = first_row(&bench.line, place, &mut bench.steps) {
        apply(bench, table, row, place);
    }
    Ok(())
}

// How many scraps are left of so many after two productions in the middle.
fn left(alloc: Global, count: usize) -> Result<usize, Memory> {
    let names = Names::with_words(alloc)?;
    let mut bench = Bench {
        line: ScrapLine::new_in(alloc),
        store: TokenStore::new_in(alloc),
        names,
        marks: Marks::new_in(alloc),
        steps: Steps::new(),
    };
    left_in(&mut bench, count)
}

// The same in a line that is empty.
fn left_in(bench: &mut Bench, count: usize) -> Result<usize, Memory>
    requires { IsSoundLine bench.old.store bench.old.names bench.old.line }
{
    let table = table();
    add_all(count, &mut bench.line, &mut bench.store, &mut bench.names)?;
    let place = count / 4 * 2;
    once(bench, &table, place)?;
    once(bench, &table, place)?;
    Ok(bench.line.len())
}

/// Does it in a line of so many scraps, or of ten.
pub(crate) fn run(rt: HostRuntime, size: Option<usize>) -> io::Result<()> {
    let count = size.unwrap_or(10);
    match left(rt.alloc(), count) {
        Ok(left) => println!(rt; "scraps {count}, after two productions {left}"),
        Err(Memory) => println!(rt; "want of memory"),
    }
}
