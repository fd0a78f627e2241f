//! What a journal has to tell.
use cw_base::{Bytes, Event, Out};
use std::process::Abort;

/// What was written has to be what is wanted.
pub(crate) fn expect(rt: &impl Abort, seen: &Bytes, wanted: &[u8]) {
    assert_eq!(rt; seen.as_slice(), wanted);
}

/// An event as a plain value.
#[derive(Clone, Copy, PartialEq)]
pub(crate) enum Told<'a> {
    Made(Out, &'a [u8]),
    Drafted(Out, &'a [u8]),
    Byte(Out, u8),
    Kept(Out),
    Replaced(Out),
}

impl<'a> Told<'a> {
    fn of(event: &'a Event) -> Told<'a> {
        match event {
            Event::Made(out, name) => Told::Made(*out, name.as_slice()),
            Event::Drafted(out, name) => Told::Drafted(*out, name.as_slice()),
            Event::Byte(out, byte) => Told::Byte(*out, *byte),
            Event::Kept(out) => Told::Kept(*out),
            Event::Replaced(out) => Told::Replaced(*out),
        }
    }
}

/// Whether a journal has these events and no more.
pub(crate) fn tells(journal: &[Event], wanted: &[Told]) -> bool {
    if journal.len() != wanted.len() {
        return false;
    }
    for (event, wanted) in journal.iter().zip(wanted) {
        if Told::of(event) != *wanted {
            return false;
        }
    }
    true
}
