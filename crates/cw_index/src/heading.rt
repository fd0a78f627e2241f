//! The headings of the index: its entries, as they are sorted and printed.
ghost use Rattle.std.specs.Prelude.{refl};
ghost use Rattle.std.specs.Cmp;
ghost use Rattle.std.specs.Ordering.{as_partial_cmp, eq_by_cmp, on};
ghost use Rattle.cw_index.specs.Collation.{entry_cmp};
ghost use Rattle.cw_index.specs.laws.CollationLaws.{entry_cmp-total};
ghost use Rattle.cw_index.specs.model.Headings.{entry_of};

use crate::collation::Collated;
use cw_base::Cat;
use cw_names::{NameId, SectionRef};
use std::cmp::Ordering;

/// An entry of the index, with all that its row prints. Headings stand in the order of the collation, and those of one
/// kind and one text are equal.
#[derive(Clone, Copy)]
pub(crate) struct Heading<'a> {
    pub id: NameId,
    pub collated: Collated<'a>,
    pub category: Cat,
    pub sections: &'a [SectionRef],
    // Whether only the underlined sections are listed.
    pub underlined_only: bool,
}

impl<'a> PartialEq for Heading<'a> {
    ghost eq = { eq_by_cmp (on entry_of entry_cmp) };

    ghost laws = { Cmp.partial_equiv_from_equiv (Cmp.eq_by_cmp_equiv (Cmp.on_total entry_of entry_cmp-total)) };

    fn eq(&self, other: &Heading) -> bool {
        self.cmp(other).is_eq()
    }
}

impl<'a> Eq for Heading<'a> {
    ghost laws = { Cmp.eq_by_cmp_equiv (Cmp.on_total entry_of entry_cmp-total) };
}

impl<'a> PartialOrd for Heading<'a> {
    ghost partial_cmp = { as_partial_cmp (on entry_of entry_cmp) };

    ghost laws = { Cmp.partial_order_from_total (Cmp.on_total entry_of entry_cmp-total) };

    fn partial_cmp(&self, other: &Heading) -> Option<Ordering> {
        Some(self.cmp(other))
    }
}

impl<'a> Ord for Heading<'a> {
    ghost cmp = { on entry_of entry_cmp };

    ghost total = { Cmp.on_total entry_of entry_cmp-total };

    ghost matches_partial_cmp = { λ x y. refl };

    ghost matches_eq = { λ x y. refl };

    fn cmp(&self, other: &Heading) -> Ordering {
        self.collated.compare(&other.collated)
    }
}
