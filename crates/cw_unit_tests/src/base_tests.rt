//! Tests of texts, words, ledgers, notes, exits and flags.
use cw_base::{Bytes, Exit, Flags, Grade, Kept, Memory, NoteKind, Silent, Steps, Words};
use std::alloc::Global;
use std::test::Fail;

/// Whether a text has the bytes that it was made and grown of, how long it is when it was taken apart and made again,
/// and whether a new one is empty.
fn grown(alloc: Global) -> Result<(bool, usize, bool), Memory> {
    let mut text = Bytes::from_slice(alloc, b"we")?;
    text.push(b'b')?;
    text.append(b" of C")?;
    let is_grown = text.as_slice() == b"web of C".as_slice();
    let text = Bytes::from_vec(text.into_vec());
    Ok((is_grown, text.len(), Bytes::new_in(alloc).is_empty()))
}

#[test]
fn bytes_grow(rt: HostRuntime) -> Result<(), Fail> {
    assert_eq!(rt; grown(rt.alloc())?, (true, 8, true));
    Ok(())
}

/// Whether a list of words begins empty, its length with two, and whether the second is found.
fn kept_words(alloc: Global) -> Result<(bool, usize, bool), Memory> {
    let mut words = Words::new_in(alloc);
    let begins_empty = words.is_empty();
    words.push(b"-bp")?;
    words.push(b"foo")?;
    let is_kept = words.word(1) == b"foo".as_slice();
    Ok((begins_empty, words.len(), is_kept))
}

#[test]
fn words_are_kept_in_order(rt: HostRuntime) -> Result<(), Fail> {
    assert_eq!(rt; kept_words(rt.alloc())?, (true, 2, true));
    Ok(())
}

#[test]
fn both_ledgers_count(rt: HostRuntime) {
    let mut kept: Steps<Kept> = Steps::new();
    let mut silent: Steps<Silent> = Steps::new();
    for _ in 0..3 {
        kept.tick();
        silent.tick();
    }
    assert_eq!(rt; kept.count(), 3);
}

#[test]
fn notes_exits_and_flags(rt: HostRuntime) {
    let message = NoteKind::CodeInTexText.message();
    let grades = [
        NoteKind::NeverUsed.grade(),
        NoteKind::AmbiguousPrefix.grade(),
    ];
    let seen = (message, grades, Exit::Fault.code(), Flags::start().index);
    let wanted = "You can't do that in TeX text";
    assert_eq!(rt; seen, (wanted, [Grade::Harmless, Grade::Error], 2, true));
}
