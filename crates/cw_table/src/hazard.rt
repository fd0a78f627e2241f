//! Whether one production may bring another to fit some places before it, where that didn't fit.
ghost use Rattle.std.specs.Prelude.{◌≡◌, ◌≤◌, ◌&&◌, ◌||◌};
ghost use Rattle.std.specs.List.{list_any};
ghost use Rattle.cw_base.specs.Category.{leaves, some_of};

use crate::types::{Row, RowResult};
use cw_base::CatSet;

impl Row {
    ghost use Rattle.cw_table.specs.Rows.{test};
    ghost use Rattle.cw_table.specs.Safe.{brings, is_hazard, pairs_of, reserves, sees_moved, suits_after, suits_at};
    ghost use Rattle.cw_table.specs.Safe.{suits_before};

    // The test of a number; past the tests nothing is admitted.
    pub(crate) fn test_at(&self, q: usize) -> CatSet
        ensures { result ≡ test self.now q }
    {
        if q < self.test_count as usize && q < 4 {
            self.tests[q]
        } else {
            CatSet::EMPTY
        }
    }

    // Whether the row makes a name a reserved word.
    fn reserves(&self) -> bool
        ensures { result ≡ reserves self.now }
    {
        self.action.reserve.is_some()
    }

    // Whether the other row looks past test q at what this row has moved or may have changed.
    fn sees_moved(&self, other: &Row, q: usize) -> bool
        requires { q ≤ 258 }
        ensures { result ≡ sees_moved self.now other.now q }
    {
        q + 1 < other.test_count as usize && (2 <= self.replaced || self.reserves())
    }

    // Whether a pair of categories that this row may give is new to test q of the other row, or to what
    // it sees behind.
    fn brings(&self, other: &Row, q: usize) -> bool
        requires { q ≤ 258 }
        ensures { result ≡ list_any (brings self.now other.now q) (pairs_of self.now) }
    {
        let old = self.test_at(self.offset as usize);
        let admitted = other.test_at(q);
        let moved = self.sees_moved(other, q);
        match self.result {
            RowResult::Is(new) => admitted.has(new) && is_news(old, admitted, moved),
            RowResult::SameAs(k) if k == self.offset => moved && old.meets(admitted),
            RowResult::SameAs(k) => {
                self.test_at(k as usize).meets(admitted) && is_news(old, admitted, moved)
            }
        }
    }

    // Whether what stands before the new scrap suits both rows.
    fn suits_before(&self, other: &Row, places: usize) -> bool
        requires { places ≤ 3 }
        ensures { result ≡ suits_before self.now other.now places }
    {
        for a in 0..self.offset as usize {
            if !other.test_at(places + a).meets(self.test_at(a)) {
                return false;
            }
        }
        true
    }

    // Whether test s of the other row, behind the new scrap, suits the test that this row had there.
    fn suits_at(&self, other: &Row, places: usize, s: usize) -> bool
        requires near { places ≤ 3 }
        requires few { s ≤ 255 }
        ensures { result ≡ suits_at self.now other.now places s }
    {
        let own = (s + self.replaced as usize).saturating_sub(places + 1);
        self.test_count as usize <= own || other.test_at(s).meets(self.test_at(own))
    }

    // Whether what stands behind the new scrap suits both rows.
    fn suits_after(&self, other: &Row, places: usize) -> bool
        requires { places ≤ 3 }
        ensures { result ≡ suits_after self.now other.now places }
    {
        for s in places + self.offset as usize + 1..other.test_count as usize {
            if !self.suits_at(other, places, s) {
                return false;
            }
        }
        true
    }

    // Whether this row may bring the other one to fit so many places before, where it didn't fit.
    pub(crate) fn is_hazard(&self, other: &Row, places: usize) -> bool
        requires { places ≤ 3 }
        ensures { result ≡ is_hazard self.now other.now places }
    {
        let q = places + self.offset as usize;
        q < other.test_count as usize
            && self.brings(other, q)
            && self.suits_before(other, places)
            && (self.reserves() || self.suits_after(other, places))
    }
}

// Whether an old category is not admitted, or there is one and what stands behind has moved.
fn is_news(old: CatSet, admitted: CatSet, moved: bool) -> bool
    ensures { result ≡ (leaves old admitted || (moved && some_of old)) }
{
    old.leaves(admitted) || moved && !old.is_empty()
}
