//! The reducer: a pointer goes along a line of scraps, and back after each production.
ghost use Rattle.std.specs.Prelude.{◌≡◌, ◌+◌, ◌<◌, ◌≤◌, true, drop, length, IfOk, OnOk, OnErr, MatchOption};
ghost use Rattle.std.specs.Prelude.{MatchResult, IfSome, None};
ghost use Rattle.cw_table.specs.Fitting.{first_of, row_fits};
ghost use Rattle.cw_table.specs.Normal.{log};
ghost use Rattle.cw_table.specs.Productions.{productions};
ghost use Rattle.cw_table.specs.Rewriting.{cats_of, rewrite};
ghost use Rattle.cw_table.specs.Safe.{least};
ghost use Rattle.cw_table.specs.WalkCounts.{right_of_new};
ghost use Rattle.cw_table.specs.Rows.{row_of};
ghost use Rattle.cw_tokens.specs.Counting.{token_count};
ghost use Rattle.cw_scraps.specs.Applying.{state_of};
ghost use Rattle.cw_scraps.specs.Changing.{Keeps};
ghost use Rattle.cw_scraps.specs.model.Inserting.{entry_cats};
ghost use Rattle.cw_scraps.specs.Lines.{IsSoundLine, roots_of, scraps_of};
ghost use Rattle.cw_rewrite.specs.Reduction.{IsReduced, Reaches, reducer};
ghost use Rattle.cw_rewrite.specs.model.Reduction.{HasNoMore, IsFirst, IsNext, IsPairAt};
ghost use Rattle.cw_rewrite.specs.Telling.{EndsWithin, StopsAt, grown_by};
ghost use Rattle.cw_names.specs.Words.{words_of};

use crate::watch::Watch;
use cw_base::{Cat, Flags, Ledger, Memory, Steps};
use cw_names::Names;
use cw_scraps::{Marks, PRODUCTION_TOKENS, Production, ScrapLine};
use cw_table::{ROW_COUNT, RowNo, first_of_four, may_fit, step_back};
use cw_tokens::TokenStore;

/// What was done to a line of scraps.
#[derive(Clone, Copy, Debug, PartialEq, Eq)]
pub struct Reduced {
    /// The number of productions.
    pub productions: u64,
}

/// Applies productions to a line, at the least place where one fits and by the first row that fits there, until
/// none fits. A pointer goes along the line: where a row fits, the line is rewritten and the pointer goes back by
/// the least safe distance of the row; where none fits, it goes on by one. Each turn counts four steps, and each
/// production by a row that reserves counts one more for each scrap to the right of the new one. A watch hears of each
/// production before it is done. Where it refuses one, the line is left as it is before that production, and None is
/// answered.
#[inline(always)]
pub fn reduce_watched<L: Ledger, W: Watch>(
    line: &mut ScrapLine,
    store: &mut TokenStore,
    names: &mut Names,
    marks: &mut Marks,
    flags: &Flags,
    watch: &mut W,
    steps: &mut Steps<L>,
) -> Result<Option<Reduced>, Memory>
    requires sound { IsSoundLine store.old names.old line.old }
    ensures reduced { IfOk result (λ o. IfSome o (λ done. IsReduced flags.now
        (reducer store.old line.old names.old marks.old steps.old)
        (reducer store.new line.new names.new marks.new steps.new) done.productions)) }
    ensures told { IfOk result (λ o. IfSome o (λ done. W.told watch.new ≡ grown_by (log productions flags.now
        (state_of store.old.lists line.old marks.old names.old)) (W.told watch.old))) }
    ensures stopped { IfOk result (λ o. o ≡ None → StopsAt flags.now
        (state_of store.old.lists line.old marks.old names.old)
        (state_of store.new.lists line.new marks.new names.new)
        (W.told watch.old) (W.told watch.new) (W.refuses watch.new)) }
    ensures memory { OnErr result (EndsWithin flags.now (state_of store.old.lists line.old marks.old names.old)
        (state_of store.new.lists line.new marks.new names.new) (W.told watch.old) (W.told watch.new)) }
    ensures basis { W.basis watch.new ≡ W.basis watch.old }
    ensures reaches { Reaches flags.now
        (reducer store.old line.old names.old marks.old steps.old)
        (reducer store.new line.new names.new marks.new steps.new) }
{
    let _length = line.len(); // (for the proof)
    let mut place = 0;
    let mut productions = 0;
    while let Some(found) = next_row(line, place, steps) {
        if !watch.hear(found.row, found.place)? {
            return Ok(None);
        }
        let production = Production {
            row: found.row,
            place: found.place,
            flags,
        };
        rewrite_at(&production, line, names, marks, store, steps)?;
        productions += 1;
        place = found.place.saturating_sub(distance(found.row));
    }
    Ok(Some(Reduced { productions }))
}

// A row, and the place at which it fits.
#[derive(Clone, Copy)]
struct RowMatch {
    row: RowNo,
    place: usize,
}

// The first place from this one on where a row fits, with the first row there. Each place that is looked at counts four
// steps. Behind a production the place mostly lies before the gap: then its first two categories are read where they
// lie, and the line is opened only if they may fit.
#[inline(always)]
fn next_row<L: Ledger>(line: &mut ScrapLine, from: usize, steps: &mut Steps<L>) -> Option<RowMatch>
    ensures next { MatchOption result (HasNoMore line.old from steps.old steps.new)
        (λ found. IsNext line.old from steps.old found.place found.row.number steps.new) }
    ensures same { line.new ≡ line.old }
{
    let _length = line.len(); // (for the proof)
    match line.pair_at(from, steps) {
        Some((first, second)) => {
            if may_fit(first, second) {
                line.open(from);
            }
            match row_behind(line, from, (first, second), steps) {
                Some(row) => Some(RowMatch { row, place: from }),
                None => walk_on(line, from + 1, steps),
            }
        }
        None => walk_on(line, from, steps),
    }
}

// The same, where the line is opened at each place.
#[inline(always)]
fn walk_on<L: Ledger>(line: &mut ScrapLine, from: usize, steps: &mut Steps<L>) -> Option<RowMatch>
    ensures next { MatchOption result (HasNoMore line.old from steps.old steps.new)
        (λ found. IsNext line.old from steps.old found.place found.row.number steps.new) }
    ensures same { line.new ≡ line.old }
{
    let mut place = from;
    while place < line.len() {
        if let Some(row) = row_at(line, place, steps) {
            return Some(RowMatch { row, place });
        }
        place += 1;
    }
    None
}

// The first row that fits at a place, where the line is opened. It counts four steps.
#[inline(always)]
fn row_at<L: Ledger>(line: &mut ScrapLine, place: usize, steps: &mut Steps<L>) -> Option<RowNo>
    requires { place < length line.old }
    ensures first { MatchOption result (first_of productions (drop place (entry_cats line.old)) ≡
        None) (λ row. IsFirst (drop place (entry_cats line.old)) row.number) }
    ensures same { line.new ≡ line.old }
    ensures steps { steps.new ≡ steps.old + 4 }
{
    line.open(place);
    let first = line.cat_behind(place, 0, steps);
    let second = line.cat_behind(place, 1, steps);
    row_behind(line, place, (first, second), steps)
}

// The same in a line that is only read, by two categories that were read and counted. It counts two steps, also where
// the two tell that no row fits and the others are not read.
#[inline(always)]
fn row_behind<L: Ledger>(
    line: &ScrapLine,
    place: usize,
    seen: (Cat, Cat),
    steps: &mut Steps<L>,
) -> Option<RowNo>
    requires place { place < length line.now }
    requires seen { IsPairAt line.now place seen.0 seen.1 }
    ensures first { MatchOption result (first_of productions (drop place (entry_cats line.now)) ≡
        None) (λ row. IsFirst (drop place (entry_cats line.now)) row.number) }
    ensures steps { steps.new ≡ steps.old + 2 }
{
    let (first, second) = seen;
    if may_fit(first, second) {
        // Where the fourth is there the third needs no test.
        let fourth = line.cat_behind(place, 3, steps);
        let third = line.cat_behind(place, 2, steps);
        return first_of_four(first, second, third, fourth);
    }
    steps.tick();
    steps.tick();
    None
}

// How far the pointer goes back after a row.
fn distance(row: RowNo) -> usize
    requires from_one { 1 ≤ row.number }
    requires to_last { row.number ≤ ROW_COUNT }
    ensures { result ≡ least productions (row_of productions row.number) }
{
    step_back(row)
}

// One production at a place, where its row fits, with the capacity that it needs.
fn rewrite_at<L: Ledger>(
    production: &Production,
    line: &mut ScrapLine,
    names: &mut Names,
    marks: &mut Marks,
    store: &mut TokenStore,
    steps: &mut Steps<L>,
) -> Result<(), Memory>
    requires from_one { 1 ≤ production.now.row.number }
    requires to_last { production.now.row.number ≤ ROW_COUNT }
    requires fits { row_fits (row_of productions production.now.row.number)
        (drop production.now.place (cats_of (scraps_of store.old.lists line.old))) ≡ true }
    requires sound { IsSoundLine store.old names.old line.old }
    ensures state { MatchResult result (λ _. state_of store.new.lists line.new marks.new names.new ≡
        rewrite production.now.flags.now (row_of productions production.now.row.number) production.now.place
        (state_of store.old.lists line.old marks.old names.old))
        (λ _. state_of store.new.lists line.new marks.new names.new ≡ state_of store.old.lists line.old marks.old
        names.old) }
    ensures steps { MatchResult result (λ _. steps.new ≡ steps.old +
        right_of_new production.now.flags.now (row_of productions production.now.row.number) production.now.place
        (state_of store.old.lists line.old marks.old names.old)) (λ _. steps.new ≡ steps.old) }
    ensures words { words_of names.new ≡ words_of names.old }
    ensures sound { IsSoundLine store.new names.new line.new }
    ensures others { Keeps store.old.lists store.new.lists (roots_of line.old) (roots_of line.new) }
    ensures tokens { OnOk result (token_count store.new.lists ≤ token_count store.old.lists + PRODUCTION_TOKENS) }
    ensures refused { OnErr result (store.new.lists ≡ store.old.lists) }
{
    store.reserve(PRODUCTION_TOKENS)?;
    line.apply_in_room(production, names, marks, store, steps)?;
    Ok(())
}
