//! The check of each production by itself: its tests, pieces, result, marks and counts.
ghost use Rattle.std.specs.Prelude.{◌≡◌, ◌≤◌, true};
ghost use Rattle.std.specs.List.{All, list_all};
ghost use Rattle.cw_base.specs.Category.{may_be_bare};

use crate::ranks::rank_of;
use crate::types::{Piece, Pieces, Row, RowResult, Table};
use cw_base::{ALL_CATS, Cat};

impl<const N: usize> Table<N> {
    ghost use Rattle.cw_table.specs.Sound.{IsSound, row_is_sound};

    /// Goes over the rows and tests each by itself.
    pub fn is_sound(&self) -> bool
        ensures test { result ≡ list_all row_is_sound self.now }
        ensures rule { result ≡ true → All IsSound self.now }
    {
        for row in &self.rows {
            if !row.is_sound() {
                return false;
            }
        }
        true
    }
}

impl Piece {
    ghost use Rattle.cw_table.specs.Sound.{is_used, scrap_in};

    fn is_used(self) -> bool
        ensures { result ≡ is_used self }
    {
        !matches!(self, Piece::Unused)
    }

    // The number of the scrap that the piece is, where it is one.
    fn scrap(self) -> Option<u8>
        ensures { result ≡ scrap_in self }
    {
        match self {
            Piece::Scrap(k) | Piece::MathScrap(k) => Some(k),
            _ => None,
        }
    }
}

impl Row {
    ghost use Rattle.std.specs.Prelude.{drop};
    ghost use Rattle.cw_table.specs.Sound.{IsSound, counts_parts, holds_replaced, is_blank, lowers, lowers_all};
    ghost use Rattle.cw_table.specs.Sound.{marks_parts, names_replaced, pieces_parts, result_is_good, result_parts};
    ghost use Rattle.cw_table.specs.Sound.{row_is_sound};
    ghost use Rattle.cw_table.specs.Sound.{tests_parts, without_end};

    /// Whether the row is a good one by itself: it has from one to four tests, the replaced scraps are
    /// tested ones, its pieces hold each of these once and in order, a new category lowers the rank where
    /// one scrap is replaced, each counted piece is used, and the tests behind the count are empty.
    pub fn is_sound(&self) -> bool
        ensures test { result ≡ row_is_sound self.now }
        ensures rule { result ≡ true → IsSound self.now }
    {
        self.has_sound_tests()
            & self.has_sound_pieces()
            & self.has_sound_result()
            & self.has_sound_marks()
            & self.has_sound_counts()
    }

    fn has_sound_tests(&self) -> bool
        ensures { result ≡ list_all (λ b. b) (tests_parts self.now) }
    {
        1 <= self.test_count
            && self.test_count <= 4
            && self.test_count as usize <= self.tests.len()
            && 1 <= self.replaced
            && self.offset as usize + self.replaced as usize <= self.test_count as usize
            && !self.test_at(0).has(Cat::End)
            && self.replaces_no_end()
    }

    // Whether no replaced scrap may be past the last one.
    fn replaces_no_end(&self) -> bool
        ensures { result ≡ without_end self.now self.now.offset self.now.replaced }
    {
        for k in self.offset as usize..self.offset as usize + self.replaced as usize {
            if self.test_at(k).has(Cat::End) {
                return false;
            }
        }
        true
    }

    fn has_sound_pieces(&self) -> bool
        ensures { result ≡ list_all (λ b. b) (pieces_parts self.now) }
    {
        self.action.usual.count <= 12
            && self.action.other.count <= 12
            && self.holds_replaced(&self.action.usual)
            && self.holds_replaced(&self.action.other)
    }

    // Whether the pieces hold each replaced scrap once, in order.
    fn holds_replaced(&self, pieces: &Pieces) -> bool
        requires { pieces.now.count ≤ 12 }
        ensures { result ≡ holds_replaced self.now pieces.now }
    {
        let end = self.offset as usize + self.replaced as usize;
        let mut next = self.offset as usize;
        for piece in &pieces.pieces[..pieces.count as usize] {
            if let Some(k) = piece.scrap() {
                if next == end || k as usize != next {
                    return false;
                }
                next += 1;
            }
        }
        next == end
    }

    fn has_sound_result(&self) -> bool
        ensures { result ≡ list_all (λ b. b) (result_parts self.now) }
    {
        self.result_is_good() && (2 <= self.replaced || self.lowers_all())
    }

    // Whether the new category is one, and that of a tested scrap where it is to be that.
    fn result_is_good(&self) -> bool
        ensures { result ≡ result_is_good self.now self.now.result }
    {
        match self.result {
            RowResult::Is(cat) => !matches!(cat, Cat::End),
            RowResult::SameAs(k) => k < self.test_count && !self.test_at(k as usize).has(Cat::End),
        }
    }

    // Whether the row lowers each category that it may replace.
    fn lowers_all(&self) -> bool
        ensures { result ≡ lowers_all self.now }
    {
        for old in ALL_CATS {
            if !self.lowers(old) {
                return false;
            }
        }
        true
    }

    // Whether a category that the row may replace alone is lowered: its rank falls, it becomes an
    // expression from rank 2 only, and where it may be a bare identifier so may the new one.
    fn lowers(&self, old: Cat) -> bool
        ensures { result ≡ lowers self.now old }
    {
        let new = match self.result {
            RowResult::Is(cat) => cat,
            RowResult::SameAs(_) => old,
        };
        !self.test_at(self.offset as usize).has(old)
            || rank_of(new) < rank_of(old)
                && (!matches!(new, Cat::Exp) || rank_of(old) == 2)
                && (!matches!(old, Cat::Exp) || allows_bare(new))
    }

    fn has_sound_marks(&self) -> bool
        ensures { result ≡ list_all (λ b. b) (marks_parts self.now) }
    {
        let underline = match self.action.underline {
            None => true,
            Some(k) => k < self.test_count && !self.test_at(k as usize).has(Cat::End),
        };
        underline
            && self.replaces_named(self.action.reserve)
            && self.replaces_named(self.action.bold)
    }

    // Whether a scrap that the row names, if it names one, is one that it replaces.
    fn replaces_named(&self, named: Option<u8>) -> bool
        ensures { result ≡ names_replaced self.now named }
    {
        match named {
            None => true,
            Some(k) => self.offset <= k
                && (k as usize) < self.offset as usize + self.replaced as usize,
        }
    }

    fn has_sound_counts(&self) -> bool
        ensures { result ≡ list_all (λ b. b) (counts_parts self.now) }
    {
        self.action.usual.are_used() && self.action.other.are_used() && self.has_no_more_tests()
    }

    // Whether the tests behind those that are counted are empty.
    fn has_no_more_tests(&self) -> bool
        ensures { result ≡ list_all is_blank (drop self.now.test_count self.now.tests) }
    {
        self.tests
            .iter()
            .skip(self.test_count as usize)
            .all(|test| test.bits == 0)
    }
}

impl Pieces {
    ghost use Rattle.cw_table.specs.Rows.{translation};
    ghost use Rattle.cw_table.specs.Sound.{is_used};

    // Whether each piece that is counted is used.
    fn are_used(&self) -> bool
        ensures { result ≡ list_all is_used (translation self.now) }
    {
        self.pieces
            .iter()
            .take(self.count as usize)
            .all(|piece| piece.is_used())
    }
}

// Whether a scrap of this category may be exactly one identifier.
fn allows_bare(cat: Cat) -> bool
    ensures { result ≡ may_be_bare cat }
{
    matches!(cat, Cat::Exp | Cat::FnDecl | Cat::Stmt)
}
