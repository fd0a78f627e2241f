//! The collation: the order of the entries of the index.
ghost use Rattle.std.specs.Prelude.{◌≡◌, ◌<◌};
ghost use Rattle.cw_index.specs.Collation.{class_of, class_cmp, classes_cmp, entry_kind_place, text_cmp};
ghost use Rattle.cw_index.specs.model.Headings.{collated_cmp};

use cw_names::EntryKind;
use std::cmp::Ordering;

/// The class of a byte, with what orders it in its class. The classes stand in their order.
#[derive(Clone, Copy, PartialEq, Eq, PartialOrd, Ord)]
pub(crate) enum Class {
    /// All blanks are alike.
    Blank,
    /// Another byte below 128.
    Sign(u8),
    Underscore,
    /// An ASCII letter, in its small form.
    Letter(u8),
    /// A byte of 128 and above.
    High(u8),
    Digit(u8),
}

// The class of a byte.
fn class_of(byte: u8) -> Class
    ensures { result ≡ class_of byte }
{
    match byte {
        b' ' | 9 | 11 | 12 | 13 => Class::Blank,
        b'_' => Class::Underscore,
        b'a'..=b'z' => Class::Letter(byte),
        b'A'..=b'Z' => Class::Letter(byte + 32),
        b'0'..=b'9' => Class::Digit(byte),
        128..=255 => Class::High(byte),
        _ => Class::Sign(byte),
    }
}

// The order of two bytes by their classes.
fn compare_bytes(first: u8, second: u8) -> Ordering
    ensures { result ≡ class_cmp (class_of first) (class_of second) }
{
    // Names begin alike more often than not.
    if first == second {
        return Ordering::Equal;
    }
    class_of(first).cmp(&class_of(second))
}

// The order of two texts by the classes of their bytes.
fn compare_classes(first: &[u8], second: &[u8]) -> Ordering
    ensures { result ≡ classes_cmp first.now second.now }
{
    let mut i = 0;
    while i < first.len() && i < second.len() {
        let order = compare_bytes(first[i], second[i]);
        if order.is_ne() {
            return order;
        }
        i += 1;
    }
    first.len().cmp(&second.len())
}

// The order of two texts: by the classes of their bytes, and then by the bytes.
fn compare_texts(first: &[u8], second: &[u8]) -> Ordering
    ensures { result ≡ text_cmp first.now second.now }
{
    compare_classes(first, second).then_with(|| first.cmp(second))
}

// The place of a kind among those of one text.
fn kind_place(kind: EntryKind) -> u8
    ensures { result ≡ entry_kind_place kind }
{
    match kind {
        EntryKind::Ident => 0,
        EntryKind::Roman => 1,
        EntryKind::Typewriter => 2,
        EntryKind::User => 3,
    }
}

/// What orders an entry.
#[derive(Clone, Copy)]
pub(crate) struct Collated<'a> {
    pub kind: EntryKind,
    pub text: &'a [u8],
}

impl<'a> Collated<'a> {
    /// The order of two entries: by their texts, and then by what they are.
    pub(crate) fn compare(&self, other: &Collated) -> Ordering
        ensures { result ≡ collated_cmp self.now other.now }
    {
        compare_texts(self.text, other.text).then(kind_place(self.kind).cmp(&kind_place(
            other.kind,
        )))
    }
}
