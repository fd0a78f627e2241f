//! The law of the C texts of a book.
ghost use Rattle.cw_each.specs.WholeRefs.{TextsAreWhole};

use cw_phase1::whole_law;
use cw_texts::{whole_pieces_law, whole_rest_law};

/// The law of whole texts: each C text of a book can be translated. It does nothing: what it ensures is for proofs.
pub fn whole_texts_law()
    ensures { TextsAreWhole }
{
    whole_law();
    whole_pieces_law();
    whole_rest_law();
}
