//! One production without its marks.
ghost use Rattle.std.specs.Prelude.{◌≡◌, ◌+◌, ◌≤◌, true, drop};
ghost use Rattle.cw_table.specs.Fitting.{row_fits};
ghost use Rattle.cw_table.specs.Sound.{row_is_sound};
ghost use Rattle.cw_tokens.specs.References.{IsTied};
ghost use Rattle.cw_scraps.specs.Lines.{roots_of, AreRoots};
ghost use Rattle.cw_scraps.specs.model.Inserting.{entry_cats};
ghost use Rattle.cw_scraps.specs.model.Replacing.{Replaces};

use crate::PRODUCTION_TOKENS;
use crate::line::ScrapLine;
use crate::making::make;
use cw_base::Flags;
use cw_table::RowAtHand;
use cw_tokens::TokenStore;

/// Replaces what a row replaces at a place by the scrap that it makes.
#[inline(always)]
pub fn produce(
    line: &mut ScrapLine,
    place: usize,
    row: &RowAtHand,
    flags: &Flags,
    store: &mut TokenStore,
)
    requires sound { row_is_sound row.now ≡ true }
    requires fits { row_fits row.now (entry_cats (drop place line.old)) ≡ true }
    requires idle { store.old.building ≡ None }
    requires room { PRODUCTION_TOKENS ≤ store.old.spare }
    requires roots { AreRoots store.old.lists (roots_of line.old) }
    ensures replaced { Replaces flags.now row.now place store.old.lists line.old store.new.lists line.new }
    ensures tied { IsTied store.new.lists }
    ensures idle { store.new.building ≡ None }
    ensures spare { store.old.spare ≤ store.new.spare + PRODUCTION_TOKENS }
{
    store.tied_law(); // (for the proof)
    let _length = line.len(); // (for the proof)
    let entry = make(line, place, row, flags, store);
    line.replace(
        place + row.offset() as usize,
        row.replaced() as usize,
        entry,
    );
    store.tied_law(); // (for the proof)
}
