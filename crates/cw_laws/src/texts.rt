//! The law of a book's C texts.
ghost use Rattle.cw_laws.specs.BookTexts.{EveryTextIsWoven, OccurrencesAreWoven, TextsAreWoven};

use cw_lex::{nest_law, nesting_law};
use cw_phase1::whole_law;

/// The law of texts: the sections of a web are woven of the C texts that `texts` lists, in its order. What these leave,
/// translated one after another, the sections leave: the names with their categories, the marks with their sections,
/// and the texts with scraps in the order in which they are reduced. It does nothing: what it ensures is for proofs.
pub fn texts_law()
    ensures every { EveryTextIsWoven }
    ensures printed { TextsAreWoven }
    ensures occurrences { OccurrencesAreWoven }
{
    nest_law();
    nesting_law();
    whole_law();
}
