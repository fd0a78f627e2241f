//! The rows of one section's small index, for all marks. No program calls it, users of the
//! library do: a thin call of what programs run.
ghost use Rattle.std.specs.Prelude.{◌≡◌, ◌<◌, ◌≤◌, IfOk, length};
ghost use Rattle.cw_mini.specs.Marks.{with_marks};
ghost use Rattle.cw_mini.specs.Mini.{mini_rows};

use crate::marks::SectionMarks;
use crate::places::Places;
use crate::rows::{MiniRows, add_marks, copy_of, rows_of};
use cw_base::Memory;
use cw_phase1::Book;
use std::alloc::Global;

/// The small index of the section of this number: of the names that a book has and that are marked.
pub fn mini_rows(
    alloc: Global,
    book: &Book,
    marks: &SectionMarks,
    section: u32,
) -> Result<MiniRows, Memory>
    requires first { 0 < section }
    requires last { section ≤ length book.now.outline.sections }
    ensures { IfOk result
        (λ rows. rows ≡ mini_rows section book.now.names (with_marks book.now.xrefs marks.now)) }
{
    let mut occurrences = copy_of(alloc, &book.xrefs)?;
    add_marks(marks, &mut occurrences)?;
    let places = Places {
        names: &book.names,
        occurrences: &occurrences,
    };
    rows_of(alloc, places, section)
}
