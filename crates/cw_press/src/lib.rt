//! What the parts of a book are printed with: C texts that are translated and printed one by one, section numbers,
//! footnotes, and the section at hand with the code that stands beside its number.
#![tactic(auto)]

mod beside;
mod counts;
mod footnotes;
mod inks;
mod numbers;
mod section_at_hand;
mod spans;
mod texts;

pub use beside::Beside;
pub use counts::Counts;
pub use footnotes::{put_footnotes, put_use_footnotes};
pub use inks::{is_text, kind_bytes};
pub use numbers::put_number;
pub use section_at_hand::SectionAtHand;
pub use spans::part_of;
pub use texts::{
    CText, Rooms, StoredText, StoredTree, TranslatedText, print_text, translate_into,
    translate_text,
};
