//! What a piece of a production puts into a list.
ghost use Rattle.std.specs.Prelude.{◌≡◌, ℕ, ◌+◌, ◌<◌, [], ◌∷◌, length, drop};
ghost use Rattle.cw_base.specs.declared.mode.MathMode.TheVariants.{Maybe};
ghost use Rattle.cw_trees.specs.Joining.{first_mode};
ghost use Rattle.cw_table.specs.declared.types.Insertion.TheVariants.{Scrap};
ghost use Rattle.cw_table.specs.declared.types.Piece.{Piece};
ghost use Rattle.cw_table.specs.declared.types.RowResult.TheVariants.{SameAs};
ghost use Rattle.cw_table.specs.Insertions.{insertion_of};
ghost use Rattle.cw_table.specs.Rows.{pieces_for, result_at};
ghost use Rattle.cw_table.specs.Rewriting.{alone, is_stmt, takes_other};
ghost use Rattle.cw_scraps.specs.model.Inserting.{entry_cats, insert_in, inserted_by};

use crate::line::ScrapLine;
use cw_base::{Cat, Flags, MathMode};
use cw_table::{Choice, Insertion, RowAtHand, RowResult};
use cw_tokens::Token;

/// A token of a new list, and the modes in which it begins and ends.
#[derive(Clone, Copy)]
pub struct Insert {
    pub token: Token,
    pub left: MathMode,
    pub right: MathMode,
}

/// The first of two modes that is not `Maybe`.
pub fn first_mode(mode: MathMode, later: MathMode) -> MathMode
    ensures { result ≡ first_mode mode later }
{
    match mode {
        MathMode::Maybe => later,
        MathMode::Text | MathMode::Math => mode,
    }
}

fn in_mode(mode: MathMode, token: Token, left: MathMode, right: MathMode) -> Insert
    ensures { result ≡ insert_in mode token left right }
{
    match (left, right) {
        (MathMode::Maybe, MathMode::Maybe) => Insert {
            token,
            left: mode,
            right: mode,
        },
        _ => Insert { token, left, right },
    }
}

/// What a scrap puts into the list of a production at a place.
#[inline(always)]
pub fn scrap_insert(line: &ScrapLine, place: usize, k: u8) -> Insert
    requires { place + k < length line.now }
    ensures { result ≡ inserted_by (drop place line.now) (Scrap k Maybe) }
{
    let _length = line.len(); // (for the proof)
    let entry = line.behind(place, k);
    Insert {
        token: Token::List(entry.list),
        left: entry.left,
        right: entry.right,
    }
}

/// The same for a scrap that is joined in a mode where it could be in either.
#[inline]
pub fn scrap_insert_in(mode: MathMode, line: &ScrapLine, place: usize, k: u8) -> Insert
    requires { place + k < length line.now }
    ensures { result ≡ inserted_by (drop place line.now) (Scrap k mode) }
{
    let _length = line.len(); // (for the proof)
    let entry = line.behind(place, k);
    in_mode(mode, Token::List(entry.list), entry.left, entry.right)
}

/// The scrap that stays as it is: where one scrap is replaced and the pieces are that scrap alone.
pub fn alone(row: &RowAtHand, other: bool) -> Option<u8>
    ensures { result ≡ alone row.now.replaced (pieces_for other row.now) }
{
    if row.replaced() == 1 && row.piece_count(other) == 1 {
        only_scrap(row.insertion(other, 0))
    } else {
        None
    }
}

// The scrap that is put in, where it is one as it stands.
fn only_scrap(insertion: Insertion) -> Option<u8>
    ensures { (piece : Piece) → insertion_of piece ≡ insertion → result ≡ alone 1 (piece ∷ []) }
{
    match insertion {
        Insertion::Scrap(k, MathMode::Maybe) => Some(k),
        _ => None,
    }
}

/// Whether a row takes its other pieces at a place.
pub fn takes_other(flags: &Flags, choice: Choice, line: &ScrapLine, place: usize) -> bool
    requires { place < length line.now }
    ensures { result ≡ takes_other flags.now choice (entry_cats (drop place line.now)) }
{
    let _length = line.len(); // (for the proof)
    if let Choice::Always = choice {
        return false;
    }
    match choice {
        Choice::Always => false,
        Choice::Indent => !flags.indent,
        Choice::Separate => !flags.separate && is_stmt(line.entry(place + 1).cat),
        Choice::Force => !flags.force,
    }
}

/// Whether a category is that of statements.
fn is_stmt(cat: Cat) -> bool
    ensures { result ≡ is_stmt cat }
{
    matches!(cat, Cat::Stmt)
}

/// The category that a row gives at a place.
pub fn result_cat(outcome: RowResult, line: &ScrapLine, place: usize) -> Cat
    requires { (k : ℕ) → outcome ≡ SameAs k → place + k < length line.now }
    ensures { result ≡ result_at outcome (entry_cats (drop place line.now)) }
{
    let _length = line.len(); // (for the proof)
    match outcome {
        RowResult::Is(cat) => cat,
        RowResult::SameAs(k) => line.behind(place, k).cat,
    }
}
