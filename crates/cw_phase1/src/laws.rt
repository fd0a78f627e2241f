//! Laws of the book.
ghost use Rattle.cw_phase1.specs.Whole.{SectionsAreWhole};

use cw_lex::openings_law;

/// The law of whole parts: each part of a section, scanned by itself, has no section code. It does nothing: what it
/// ensures is for proofs.
pub fn whole_law()
    ensures { SectionsAreWhole }
{
    openings_law();
}
