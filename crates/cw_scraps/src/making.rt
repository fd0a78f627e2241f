//! The scrap that stands in place of those that a production replaces.
ghost use Rattle.std.specs.Prelude.{◌≡◌, ◌<◌, ◌≤◌, true, length, drop};
ghost use Rattle.cw_table.specs.Fitting.{row_fits};
ghost use Rattle.cw_table.specs.Rows.{pieces_for};
ghost use Rattle.cw_table.specs.Sound.{row_is_sound};
ghost use Rattle.cw_scraps.specs.Lines.{roots_of, AreRoots};
ghost use Rattle.cw_scraps.specs.model.Inserting.{entry_cats};
ghost use Rattle.cw_scraps.specs.model.Making.{pieces_at, IsMade};

use crate::PRODUCTION_TOKENS;
use crate::joining::join;
use crate::line::{LineEntry, ScrapLine};
use crate::pieces::{alone, result_cat, takes_other};
use cw_base::Flags;
use cw_table::RowAtHand;
use cw_tokens::TokenStore;

/// Whether a row takes its other pieces at a place.
fn takes_others(row: &RowAtHand, flags: &Flags, line: &ScrapLine, place: usize) -> bool
    requires { place < length line.now }
    ensures { pieces_for result row.now ≡ pieces_at flags.now row.now (drop place line.now) }
{
    takes_other(flags, row.choice(), line, place)
}

/// The entry of the scrap that a row makes at a place.
#[inline(always)]
pub fn make(
    line: &ScrapLine,
    place: usize,
    row: &RowAtHand,
    flags: &Flags,
    store: &mut TokenStore,
) -> LineEntry
    requires sound { row_is_sound row.now ≡ true }
    requires fits { row_fits row.now (entry_cats (drop place line.now)) ≡ true }
    requires idle { store.old.building ≡ None }
    requires room { PRODUCTION_TOKENS ≤ store.old.spare }
    requires roots { AreRoots store.old.lists (roots_of (drop place line.now)) }
    ensures { IsMade flags.now row.now (drop place line.now) store.old store.new result }
{
    let _length = line.len(); // (for the proof)
    let cat = result_cat(row.outcome(), line, place);
    let other = takes_others(row, flags, line, place);
    match alone(row, other) {
        Some(k) => {
            let entry = line.behind(place, k);
            LineEntry {
                cat,
                list: entry.list,
                left: entry.left,
                right: entry.right,
            }
        }
        None => {
            let part = join(line, place, row, other, store);
            LineEntry {
                cat,
                list: part.list,
                left: part.left,
                right: part.right,
            }
        }
    }
}
