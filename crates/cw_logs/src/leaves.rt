//! The lines of a log, one at a time.
ghost use Rattle.std.specs.Prelude.{◌≡◌, ◌≢◌, MatchOption};
ghost use Rattle.cw_logs.specs.LogText.{fits_kind, letter};
ghost use Rattle.cw_logs.specs.model.Lines.{HasLeaf, NoLeaf};

use crate::categories::cat_named;
use crate::words::{count_names, cut_word};
use cw_base::Cat;
use cw_leaves::LeafKind;

/// A leaf line, whose names are still text: each stands behind a blank.
#[derive(Clone, Copy)]
pub(crate) struct LeafText<'a> {
    pub kind: LeafKind,
    pub cat: Cat,
    pub names: &'a [u8],
}

// The kind that has this letter.
fn kind_named(byte: u8) -> Option<LeafKind>
    ensures { MatchOption result ((kind : LeafKind) → byte ≢ letter kind) (λ kind. byte ≡ letter kind) }
{
    match byte {
        b'b' => Some(LeafKind::B),
        b'c' => Some(LeafKind::C),
        b'i' => Some(LeafKind::I),
        b's' => Some(LeafKind::S),
        _ => None,
    }
}

// Whether a leaf line may have this kind, category and number of names.
fn fits(kind: LeafKind, cat: Cat, count: usize) -> bool
    ensures { result ≡ fits_kind kind cat count }
{
    match kind {
        LeafKind::B => matches!(cat, Cat::Exp) && count == 1,
        LeafKind::C => true,
        LeafKind::I => count > 0,
        LeafKind::S => count == 0,
    }
}

// The leaf line that these bytes are.
pub(crate) fn leaf_in(line: &[u8]) -> Option<LeafText<'_>>
    ensures { MatchOption result (NoLeaf line.now) (λ l. HasLeaf line.now l) }
{
    let (byte, behind) = line.split_first()?;
    let (blank, words) = behind.split_first()?;
    if *blank != b' ' {
        return None;
    }
    let kind = kind_named(*byte)?;
    let cut = cut_word(words);
    let cat = cat_named(cut.word)?;
    let count = count_names(cut.rest)?;
    if !fits(kind, cat, count) {
        return None;
    }
    Some(LeafText {
        kind,
        cat,
        names: cut.rest,
    })
}
