//! One production on a line of scraps, with its marks and its reserving.
ghost use Rattle.std.specs.Prelude.{◌≡◌, ℕ, ◌+◌, ◌<◌, ◌≤◌, ◌++◌, true, length, drop, Some, OnOk, OnErr};
ghost use Rattle.std.specs.Option.{option_to_list};
ghost use Rattle.cw_names.specs.declared.NameId.{NameId};
ghost use Rattle.cw_table.specs.Fitting.{row_fits};
ghost use Rattle.cw_table.specs.Productions.{productions};
ghost use Rattle.cw_table.specs.Rows.{row_of};
ghost use Rattle.cw_table.specs.Sound.{row_is_sound};
ghost use Rattle.cw_table.specs.Rewriting.{cats_of};
ghost use Rattle.cw_scraps.specs.Lines.{scraps_of, IsSoundLine};
ghost use Rattle.cw_scraps.specs.Applying.{retyped_by, work, IsApplied};

use crate::PRODUCTION_TOKENS;
use crate::line::ScrapLine;
use crate::marks::Marks;
use crate::producing::produce;
use crate::reserving::{Turning, named_ident, reserve_words, turn_right};
use cw_base::{Cat, Flags, Ledger, Memory, Steps};
use cw_names::{NameId, Names};
use cw_table::{ROW_COUNT, RowAtHand, RowNo, Table};
use cw_tokens::TokenStore;

/// A production: the number of its row, its place on a line, and the flags that choose between translations.
#[derive(Clone, Copy)]
pub struct Production<'a> {
    /// The number of its row.
    pub row: RowNo,
    /// The place of the first scrap that the row looks at.
    pub place: usize,
    /// The flags that choose between translations.
    pub flags: &'a Flags,
}

/// A production whose row is at hand, with the scraps that the row names.
#[derive(Clone, Copy)]
struct AtHand<'a> {
    row: &'a RowAtHand,
    place: usize,
    flags: &'a Flags,
    underline: Option<u8>,
    reserve: Option<u8>,
    bold: Option<u8>,
}

impl ScrapLine {
    /// Does the production of a number at a place, with its marks and its reserving, by the flags that
    /// choose between translations. The row is read from the program's own data, which are those of the
    /// table. Where it reserves it counts one step for each scrap to the right of the new one. It takes
    /// no memory: the store and the marks have the capacity that was reserved.
    pub fn apply<L: Ledger>(
        &mut self,
        table: &Table<ROW_COUNT>,
        row: RowNo,
        place: usize,
        flags: &Flags,
        names: &mut Names,
        marks: &mut Marks,
        store: &mut TokenStore,
        steps: &mut Steps<L>,
    )
        requires from_one { 1 ≤ row.number }
        requires to_last { row.number ≤ ROW_COUNT }
        requires fits { row_fits (row_of table.now row.number)
            (drop place (cats_of (scraps_of store.old.lists self.old))) ≡ true }
        requires sound { IsSoundLine store.old names.old self.old }
        requires room { PRODUCTION_TOKENS ≤ store.old.spare }
        requires free { 0 < marks.old.spare }
        ensures { IsApplied flags.now (row_of table.now row.number) place
            (work store.old self.old marks.old names.old steps.old)
            (work store.new self.new marks.new names.new steps.new) }
    {
        let _same = table.row(row); // (for the proof)
        self.apply_row(
            &Production { row, place, flags },
            names,
            marks,
            store,
            steps,
        );
    }

    /// The same for a production of the program's own data.
    pub fn apply_row<L: Ledger>(
        &mut self,
        production: &Production,
        names: &mut Names,
        marks: &mut Marks,
        store: &mut TokenStore,
        steps: &mut Steps<L>,
    )
        requires from_one { 1 ≤ production.now.row.number }
        requires to_last { production.now.row.number ≤ ROW_COUNT }
        requires fits { row_fits (row_of productions production.now.row.number)
            (drop production.now.place (cats_of (scraps_of store.old.lists self.old))) ≡ true }
        requires sound { IsSoundLine store.old names.old self.old }
        requires room { PRODUCTION_TOKENS ≤ store.old.spare }
        requires free { 0 < marks.old.spare }
        ensures { IsApplied production.now.flags.now (row_of productions production.now.row.number) production.now.place
            (work store.old self.old marks.old names.old steps.old)
            (work store.new self.new marks.new names.new steps.new) }
    {
        self.apply_marking(production, names, marks, store, steps);
    }

    /// The same, where capacity for the name that the row may mark is made first. After `Memory` nothing has changed.
    #[inline(always)]
    pub fn apply_in_room<L: Ledger>(
        &mut self,
        production: &Production,
        names: &mut Names,
        marks: &mut Marks,
        store: &mut TokenStore,
        steps: &mut Steps<L>,
    ) -> Result<(), Memory>
        requires from_one { 1 ≤ production.now.row.number }
        requires to_last { production.now.row.number ≤ ROW_COUNT }
        requires fits { row_fits (row_of productions production.now.row.number)
            (drop production.now.place (cats_of (scraps_of store.old.lists self.old))) ≡ true }
        requires sound { IsSoundLine store.old names.old self.old }
        requires room { PRODUCTION_TOKENS ≤ store.old.spare }
        ensures applied { OnOk result (IsApplied production.now.flags.now (row_of productions production.now.row.number)
            production.now.place (work store.old self.old marks.old names.old steps.old)
            (work store.new self.new marks.new names.new steps.new)) }
        ensures line { OnErr result (self.new ≡ self.old) }
        ensures names { OnErr result (names.new ≡ names.old) }
        ensures marks { OnErr result (marks.new ≡ marks.old) }
        ensures store { OnErr result (store.new ≡ store.old) }
        ensures steps { OnErr result (steps.new ≡ steps.old) }
    {
        let row = RowAtHand::of(production.row);
        let underline = row.underline();
        let reserve = row.reserve();
        let bold = row.bold();
        match (underline, reserve, bold) {
            (None, None, None) => {
                let at_hand = AtHand {
                    row: &row,
                    place: production.place,
                    flags: production.flags,
                    underline: None,
                    reserve: None,
                    bold: None,
                };
                self.apply_naming(&at_hand, names, marks, store, steps);
            }
            _ => {
                marks.reserve(1)?;
                // A copy, so that no other production needs a place in memory.
                let production = *production;
                self.apply_marking(&production, names, marks, store, steps);
            }
        }
        Ok(())
    }

    /// The same, kept apart since few rows mark or reserve.
    #[inline(never)]
    fn apply_marking<L: Ledger>(
        &mut self,
        production: &Production,
        names: &mut Names,
        marks: &mut Marks,
        store: &mut TokenStore,
        steps: &mut Steps<L>,
    )
        requires from_one { 1 ≤ production.now.row.number }
        requires to_last { production.now.row.number ≤ ROW_COUNT }
        requires fits { row_fits (row_of productions production.now.row.number)
            (drop production.now.place (cats_of (scraps_of store.old.lists self.old))) ≡ true }
        requires sound { IsSoundLine store.old names.old self.old }
        requires room { PRODUCTION_TOKENS ≤ store.old.spare }
        requires free { 0 < marks.old.spare }
        ensures { IsApplied production.now.flags.now (row_of productions production.now.row.number) production.now.place
            (work store.old self.old marks.old names.old steps.old)
            (work store.new self.new marks.new names.new steps.new) }
    {
        let row = RowAtHand::of(production.row);
        let at_hand = AtHand {
            row: &row,
            place: production.place,
            flags: production.flags,
            underline: row.underline(),
            reserve: row.reserve(),
            bold: row.bold(),
        };
        self.apply_naming(&at_hand, names, marks, store, steps);
    }

    /// The same, where the scraps that the row names are given: of a row that names none no more is
    /// left than the production.
    #[inline(always)]
    fn apply_naming<L: Ledger>(
        &mut self,
        production: &AtHand,
        names: &mut Names,
        marks: &mut Marks,
        store: &mut TokenStore,
        steps: &mut Steps<L>,
    )
        requires underline { production.now.underline ≡ production.now.row.now.action.underline }
        requires reserve { production.now.reserve ≡ production.now.row.now.action.reserve }
        requires bold { production.now.bold ≡ production.now.row.now.action.bold }
        requires row { row_is_sound production.now.row.now ≡ true }
        requires fits { row_fits production.now.row.now
            (drop production.now.place (cats_of (scraps_of store.old.lists self.old))) ≡ true }
        requires sound { IsSoundLine store.old names.old self.old }
        requires room { PRODUCTION_TOKENS ≤ store.old.spare }
        requires free { (k : ℕ) → production.now.underline ≡ Some k → 0 < marks.old.spare }
        ensures { IsApplied production.now.flags.now production.now.row.now production.now.place
            (work store.old self.old marks.old names.old steps.old)
            (work store.new self.new marks.new names.new steps.new) }
    {
        let row = production.row;
        let place = production.place;
        let reserve = production.reserve;
        let marked = named_ident(self, place, production.underline, names, store);
        let reserved = reserve_words(self, place, reserve, production.bold, names, store);
        produce(self, place, row, production.flags, store);
        let _length = self.len(); // (for the proof)
        let right = place + row.offset() as usize + 1;
        let turning = Turning {
            named: reserve,
            name: reserved,
        };
        turn_right(self, right, turning, names, store, steps);
        mark(marked, marks);
        retype(reserved, names);
    }
}

/// Marks a name, if there is one.
fn mark(name: Option<NameId>, marks: &mut Marks)
    requires { (id : NameId) → name ≡ Some id → 0 < marks.old.spare }
    ensures names { marks.new.names ≡ marks.old.names ++ option_to_list name }
    ensures spare { marks.old.spare ≤ marks.new.spare + 1 }
{
    if let Some(name) = name {
        marks.push(name);
    }
}

/// Makes a name, if there is one, a type from now on.
fn retype(name: Option<NameId>, names: &mut Names)
    requires { (id : NameId) → name ≡ Some id → id.index < length names.old }
    ensures { names.new ≡ retyped_by name names.old }
{
    if let Some(name) = name {
        names.set_category(name, Cat::RawInt);
    }
}
