//! The small indexes of all sections, written one after another.
ghost use Rattle.std.specs.Prelude.{IsTrue};
ghost use Rattle.cw_base.specs.declared.event.Out.TheVariants.{Tex};
ghost use Rattle.cw_desk.specs.Journal.{byte_events};
ghost use Rattle.cw_desk.specs.Meaning.{is_open};
ghost use Rattle.cw_lines.specs.Writes.{Adds};
ghost use Rattle.cw_mini.specs.MiniFile.{book_lines};

use crate::lines::section_lines;
use crate::listing::Listing;
use cw_base::Out;
use cw_desk::Desk;
use cw_lines::{PutError, write_all};
use cw_phase1::Book;
use std::alloc::Global;

/// Writes the small indexes of a book whose texts are translated.
pub(crate) fn write_sections<D: Desk>(
    alloc: Global,
    book: &Book,
    desk: &mut D,
) -> Result<(), PutError>
    requires { IsTrue (is_open (D.told desk.old).outputs Tex) }
    ensures { Adds (byte_events Tex (book_lines book.now)) (D.told desk.old) (D.told desk.new) result }
{
    let listing = Listing::of_book(alloc, book)?;
    for before in 0..book.section_count() {
        let section = before + 1;
        let lines = section_lines(alloc, book, section, listing.names_of(section))?;
        write_all(desk, Out::Tex, lines.as_slice())?;
    }
    Ok(())
}
