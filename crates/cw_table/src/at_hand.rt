//! Rows at hand: what a reducer reads of a production, from the program's own data, with no table made for it.
ghost use Rattle.std.specs.Prelude.{◌≡◌, ◌≤◌, ◌<◌, Some, true, length, option_map, slice_get};
ghost use Rattle.cw_table.specs.Insertions.{insertion_of};
ghost use Rattle.cw_table.specs.Productions.{productions};
ghost use Rattle.cw_table.specs.Rows.{pieces_for, row_of};
ghost use Rattle.cw_table.specs.Sound.{row_is_sound};

use crate::productions::{HEADS, OTHER_INSERTIONS, ROW_COUNT, USUAL_INSERTIONS};
use crate::types::{Choice, Insertion, RowNo, RowResult};
use std::marker::Model;

/// A production of the table. Its parts are read where they stand in the program's data.
#[derive(Drop)]
pub struct RowAtHand {
    index: usize,
}

impl Model for RowAtHand {
    ghost use Rattle.std.specs.Prelude.{◌+◌, ◌<◌};
    ghost use Rattle.cw_table.specs.declared.productions.TheConstants.{ROW_COUNT};
    ghost use Rattle.cw_table.specs.declared.types.Row.{Row};
    ghost use Rattle.cw_table.specs.Productions.{productions};
    ghost use Rattle.cw_table.specs.Rows.{row_of};

    ghost Value = { Row };

    ghost view = { λ r. row_of productions (r.index + 1) };

    ghost invariant = { λ r. r.index < ROW_COUNT };
}

impl RowAtHand {
    /// The production of this number.
    #[inline(always)]
    pub fn of(row: RowNo) -> RowAtHand
        requires from_one { 1 ≤ row.number }
        requires to_last { row.number ≤ ROW_COUNT }
        ensures row { result ≡ row_of productions row.number }
        ensures sound { row_is_sound result ≡ true }
    {
        RowAtHand {
            index: row.number as usize - 1,
        }
    }

    /// The first tested scrap that is replaced.
    #[inline(always)]
    pub fn offset(&self) -> u8
        ensures { result ≡ self.now.offset }
    {
        HEADS[self.index].offset
    }

    /// How many scraps are replaced.
    #[inline(always)]
    pub fn replaced(&self) -> u8
        ensures { result ≡ self.now.replaced }
    {
        HEADS[self.index].replaced
    }

    /// The category of the new scrap.
    #[inline(always)]
    pub fn outcome(&self) -> RowResult
        ensures { result ≡ self.now.result }
    {
        HEADS[self.index].result
    }

    /// Which of its two translations is taken.
    #[inline(always)]
    pub fn choice(&self) -> Choice
        ensures { result ≡ self.now.action.choice }
    {
        HEADS[self.index].choice
    }

    /// The tested scrap whose first identifier is underlined.
    #[inline(always)]
    pub fn underline(&self) -> Option<u8>
        ensures { result ≡ self.now.action.underline }
    {
        HEADS[self.index].underline
    }

    /// The tested scrap whose first identifier becomes a reserved word.
    #[inline(always)]
    pub fn reserve(&self) -> Option<u8>
        ensures { result ≡ self.now.action.reserve }
    {
        HEADS[self.index].reserve
    }

    /// The tested scrap that becomes a reserved word in the new tree, where it is one identifier alone.
    #[inline(always)]
    pub fn bold(&self) -> Option<u8>
        ensures { result ≡ self.now.action.bold }
    {
        HEADS[self.index].bold
    }

    /// The number of pieces of its usual translation, or of the other one.
    #[inline(always)]
    pub fn piece_count(&self, other: bool) -> usize
        ensures count { result ≡ length (pieces_for other self.now) }
        ensures twelve { result ≤ 12 }
    {
        if other {
            HEADS[self.index].other_count as usize
        } else {
            HEADS[self.index].usual_count as usize
        }
    }

    /// What a piece of its usual translation, or of the other one, puts into a translation.
    #[inline(always)]
    pub fn insertion(&self, other: bool, i: usize) -> Insertion
        requires { i < length (pieces_for other self.now) }
        ensures { option_map insertion_of (slice_get (pieces_for other self.now) i) ≡ Some result }
    {
        if other {
            OTHER_INSERTIONS[self.index][i]
        } else {
            USUAL_INSERTIONS[self.index][i]
        }
    }
}
