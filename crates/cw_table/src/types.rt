//! What a production is: tests, result, pieces and marks; and the table in which productions are found.
ghost use Rattle.std.specs.Prelude.{true, ◌≡◌, ◌≤◌, IfSome, Some};

use crate::masks::first_production;
use cw_base::{Cat, CatSet, MathMode};
use cw_trees::Control;
use std::marker::Model;

/// The number of a production, from 1 on.
#[derive(Clone, Copy, PartialEq, Eq, Debug)]
pub struct RowNo {
    /// The number in the table.
    pub number: u8,
}

/// The category of the scrap that a production makes.
#[derive(Clone, Copy, PartialEq, Eq, Debug)]
pub enum RowResult {
    /// This category.
    Is(Cat),
    /// The category of the tested scrap of this number.
    SameAs(u8),
}

/// One piece of a translation: a tested scrap by its number, or a sign.
#[derive(Clone, Copy, PartialEq, Eq, Debug)]
pub enum Piece {
    /// The tested scrap of this number.
    Scrap(u8),
    /// That scrap, joined as math where both its modes are maybe.
    MathScrap(u8),
    /// No piece: what stands behind the pieces that are counted.
    Unused,
    /// A blank.
    Blank,
    /// A place where a line may be broken, with a blank.
    OptionalBreak,
    /// A line break.
    Break,
    /// A line break with some space.
    BigBreak,
    /// Takes the breaks around it away.
    Cancel,
    /// The line sticks out to the left.
    Backup,
    /// Keeps the breaks on its two sides apart.
    Wall,
    /// The lines from here on are indented further.
    Indent,
    /// The lines from here on are indented less.
    Outdent,
    /// A place where a line may be broken, at no cost.
    OptionalLineBreak0,
    /// A place where a line may be broken, at some cost.
    OptionalLineBreak9,
    /// A thin space.
    ThinSpace,
    /// A brace that opens a group in math.
    OpenBrace,
    /// A brace that closes a group in math.
    CloseBrace,
    /// The beginning of a relation that is made of two operators.
    OpenRelation,
    /// A mark that prints nothing: no identifier is looked for behind it.
    Inserted,
}

/// What a piece puts into a translation.
#[derive(Clone, Copy, PartialEq, Eq, Debug)]
pub enum Insertion {
    /// The tested scrap of this number, joined in this mode where both its modes are maybe.
    Scrap(u8, MathMode),
    /// The control that a sign stands for, and the mode that it needs.
    Sign(Control, MathMode),
}

/// The pieces of a translation, the first `count` of the twelve places; the rest holds `Unused`.
#[derive(Clone, Copy, PartialEq, Eq, Debug)]
pub struct Pieces {
    /// The pieces, in order.
    pub pieces: [Piece; 12],
    /// How many they are.
    pub count: u8,
}

/// When a production uses its `other` pieces in place of the `usual` ones.
#[derive(Clone, Copy, PartialEq, Eq, Debug)]
pub enum Choice {
    /// Never: always the usual ones.
    Always,
    /// Where the flag for indenting is off.
    Indent,
    /// Where the flag for separating is off and tested scrap 1 is a statement.
    Separate,
    /// Where the flag for forcing lines is off.
    Force,
}

/// What a production does with the scraps that it replaces.
#[derive(Clone, Copy, PartialEq, Eq, Debug)]
pub struct Action {
    /// The translation of the new scrap.
    pub usual: Pieces,
    /// The translation where `choice` says so.
    pub other: Pieces,
    /// Which of the two is taken.
    pub choice: Choice,
    /// The tested scrap whose first identifier is underlined.
    pub underline: Option<u8>,
    /// The tested scrap whose first identifier becomes a reserved word.
    pub reserve: Option<u8>,
    /// The tested scrap that becomes a reserved word in the new tree, where it is one identifier alone.
    pub bold: Option<u8>,
}

/// One production.
#[derive(Clone, Copy, PartialEq, Eq, Debug)]
pub struct Row {
    /// What is tested of the scraps from a place on; past the tests it holds empty sets.
    pub tests: [CatSet; 4],
    /// Its number in the table.
    pub number: RowNo,
    /// How many tests there are, from one to four.
    pub test_count: u8,
    /// The first tested scrap that is replaced.
    pub offset: u8,
    /// How many scraps are replaced.
    pub replaced: u8,
    /// The category of the new scrap.
    pub result: RowResult,
    /// Its translation, and what is done beside.
    pub action: Action,
}

/// The productions in order of their numbers, which begin at 1. There is no other table: N says how
/// many they are.
#[derive(Drop)]
pub struct Table<const N: usize> {
    pub(crate) rows: [Row; N],
}

impl<const N: usize> Model for Table<N> {
    ghost use Rattle.std.specs.Prelude.{List, ◌≡◌};
    ghost use Rattle.cw_table.specs.declared.types.Row.{Row};
    ghost use Rattle.cw_table.specs.Productions.{productions};

    ghost Value = { List Row };

    ghost view = { λ t. t.rows };

    ghost invariant = { λ t. t.rows ≡ productions };
}

impl<const N: usize> Table<N> {
    ghost use Rattle.std.specs.Option.{option_map};
    ghost use Rattle.cw_table.specs.Fitting.{first_of};
    ghost use Rattle.cw_table.specs.Productions.{productions};
    ghost use Rattle.cw_table.specs.Rows.{row_numbered};
    ghost use Rattle.cw_table.specs.Sound.{row_is_sound};

    /// The production of this number.
    pub fn row(&self, row: RowNo) -> &Row
        requires from_one { 1 ≤ row.number }
        requires to_last { row.number ≤ N }
        ensures number { row_numbered self.now row.number ≡ Some result.now }
        ensures same { row_numbered productions row.number ≡ Some result.now }
        ensures sound { row_is_sound result.now ≡ true }
    {
        &self.rows[row.number as usize - 1]
    }

    /// The number of the first production whose tests all admit the categories of the window; None
    /// exactly where no production fits. Past the last scrap the window holds `End`.
    pub fn first_at(&self, window: [Cat; 4]) -> Option<RowNo>
        ensures first { result ≡ option_map (λ row. row.number) (first_of self.now window) }
        ensures from_one { IfSome result (λ row. 1 ≤ row.number) }
        ensures to_last { IfSome result (λ row. row.number ≤ N) }
    {
        let _productions = &self.rows; // (for the proof)
        first_production(window)
    }
}
