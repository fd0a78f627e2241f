//! The first phase of worked webs, by calls.
use cw_base::{Memory, NoteKind, Span};
use cw_phase1::{Book, phase_one};
use cw_secnames::SecId;
use cw_test_desks::web_of;
use std::alloc::Global;
use std::test::Fail;

fn book(alloc: Global, lines: &[&[u8]]) -> Result<Book, Memory> {
    let web = web_of(alloc, lines)?;
    phase_one(alloc, &web)
}

/// The name and the C part of the second section, where there is one.
fn second_section(book: &Book) -> Option<(Option<SecId>, Span)> {
    if book.section_count() < 2 {
        return None;
    }
    let second = book.section(2);
    Some((second.name, second.c_part))
}

/// Whether the notes are of a prefix of several names in the third line and of the second name, which isn't used.
fn are_of_a_prefix_and_a_name(book: &Book) -> bool {
    match book.notes() {
        [first, second] => first.kind == NoteKind::AmbiguousPrefix
            && first.place.line == 3
            && second.kind == NoteKind::NeverUsed
            && second.value == 1,
        _ => false,
    }
}

/// What is known of a book whose third section cites two names by what they begin with.
#[derive(Clone, Copy)]
struct Seen {
    /// The sections, the end of limbo, and the section names.
    counts: (u32, usize, usize),
    second: Option<(Option<SecId>, Span)>,
    /// The names at four places.
    uses: [Option<SecId>; 4],
    are_noted: bool,
}

fn prefix_of_two_names(alloc: Global) -> Result<Seen, Memory> {
    let lines: &[&[u8]] = &[
        b"@ @<Read a@>= x;",
        b"@ @<Read b@>= y;",
        b"@ @c @<Read...@>;",
    ];
    let book = book(alloc, lines)?;
    let uses = &book.name_uses;
    Ok(Seen {
        counts: (book.section_count(), book.limbo().end, book.sec_names.len()),
        second: second_section(&book),
        uses: [uses.at(2), uses.at(19), uses.at(39), uses.at(3)],
        are_noted: are_of_a_prefix_and_a_name(&book),
    })
}

#[test]
fn a_prefix_of_two_names(rt: HostRuntime) -> Result<(), Fail> {
    let seen = prefix_of_two_names(rt.alloc())?;
    let (first, next) = (Some(SecId { index: 0 }), Some(SecId { index: 1 }));
    assert_eq!(rt; seen.counts, (3, 0, 2));
    let c_part = Span { start: 19, end: 34 };
    assert_eq!(rt; seen.second, Some((next, c_part)));
    assert_eq!(rt; seen.uses, [first, next, first, None]);
    assert!(rt; seen.are_noted);
    Ok(())
}

/// Whether the notes are of these kinds.
fn are_of_kinds(book: &Book, kinds: &[NoteKind]) -> bool {
    let notes = book.notes();
    notes.len() == kinds.len()
        && notes
            .iter()
            .zip(kinds.iter())
            .all(|(note, kind)| note.kind == *kind)
}

/// The same of the book of these lines.
fn has_notes(alloc: Global, lines: &[&[u8]], kinds: &[NoteKind]) -> Result<bool, Memory> {
    Ok(are_of_kinds(&book(alloc, lines)?, kinds))
}

/// Webs, and the notes on each: where a `=` seems to be missing, and five where none is.
static EQUALS: [(&[&[u8]], &[NoteKind]); 7] = [
    (
        &[b"@ Text.", b"  @<Read@>", b"x=1;"],
        &[
            NoteKind::EqualsMissing,
            NoteKind::NeverDefined,
            NoteKind::NeverUsed,
        ],
    ),
    (
        &[b"@ @<Read@>", b"x=1;"],
        &[
            NoteKind::EqualsMissing,
            NoteKind::NeverDefined,
            NoteKind::NeverUsed,
        ],
    ),
    (
        &[b"@ See @<Read@>."],
        &[NoteKind::NeverDefined, NoteKind::NeverUsed],
    ),
    // That the name didn't end is told already.
    (
        &[b"@ Text.", b"@<Read", b"x=1;"],
        &[
            NoteKind::NameUnended,
            NoteKind::NeverDefined,
            NoteKind::NeverUsed,
        ],
    ),
    (
        &[b"@ The text |", b"@<Read@>", b"| is read."],
        &[NoteKind::NeverDefined, NoteKind::NeverUsed],
    ),
    (
        &[b"@ See", b"@<Read@>", b"@ @<Read@>= x;"],
        &[NoteKind::NeverUsed],
    ),
    (
        &[b"@ See", b"@<Read@>", b"@c x;"],
        &[NoteKind::NeverDefined, NoteKind::NeverUsed],
    ),
];

#[test]
fn a_missing_equals_sign(rt: HostRuntime) -> Result<(), Fail> {
    for (lines, kinds) in &EQUALS {
        assert!(rt; has_notes(rt.alloc(), lines, kinds)?);
    }
    Ok(())
}

#[test]
fn notes_come_in_order(rt: HostRuntime) -> Result<(), Fail> {
    let lines: &[&[u8]] = &[b"@ @<Read@>=", b"@c @<Read @^b", b"@ @<@>@<Wr...@>@(Read@>"];
    let kinds = [
        NoteKind::CodeInCText,
        NoteKind::NameUnended,
        NoteKind::NameConflict,
        NoteKind::CodeInName,
        NoteKind::NameEmpty,
        NoteKind::NameIncomplete,
        NoteKind::NeverDefined,
    ];
    assert!(rt; has_notes(rt.alloc(), lines, &kinds)?);
    Ok(())
}
