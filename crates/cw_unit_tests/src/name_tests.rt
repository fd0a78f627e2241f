//! Tests of names that are found again, of the words known from the start, and of the sections of names.
ghost use Rattle.std.specs.Prelude.{◌<◌, length};

use cw_base::{Cat, Memory};
use cw_names::{EntryKind, NameId, Names, SectionRef, WORD_COUNT, Xrefs};
use std::alloc::Global;
use std::test::Fail;

// The categories of two names before and behind a change of the first, and whether the first is built in.
fn changed(names: &mut Names, first: NameId, second: NameId) -> ([Cat; 3], bool)
    requires first { first.index < length names.old }
    requires second { second.index < length names.old }
{
    let begun = names.category(first);
    names.set_category(first, Cat::RawInt);
    let cats = [begun, names.category(first), names.category(second)];
    (cats, names.is_built_in(first))
}

// How many names there are, and where three are found; whether the second is roman; and what a change of the first
// gives.
type Found = ([usize; 4], bool, ([Cat; 3], bool));

fn found_in(names: &mut Names) -> Result<Found, Memory> {
    let count = names.len();
    let x = names.find_or_add(EntryKind::Ident, b"x")?;
    let roman = names.find_or_add(EntryKind::Roman, b"x")?;
    let again = names.find_or_add(EntryKind::Ident, b"x")?;
    let is_roman = names.text(roman) == b"x".as_slice() && names.kind(roman) == EntryKind::Roman;
    let places = [count, x.index, roman.index, again.index];
    Ok((places, is_roman, changed(names, x, roman)))
}

// The same for the names at the start.
fn found_again(alloc: Global) -> Result<Found, Memory> {
    let mut names = Names::with_words(alloc)?;
    found_in(&mut names)
}

#[test]
fn names_are_found_again(rt: HostRuntime) -> Result<(), Fail> {
    let wanted = (
        [WORD_COUNT, WORD_COUNT, WORD_COUNT + 1, WORD_COUNT],
        true,
        ([Cat::Exp, Cat::RawInt, Cat::Exp], false),
    );
    assert_eq!(rt; found_again(rt.alloc())?, wanted);
    Ok(())
}

const WORDS: [&[u8]; 4] = [b"struct", b"_Generic", b"restrict", b"endif"];

// The categories of words that are built in.
fn built_in(names: &mut Names) -> Result<[Cat; 4], Memory> {
    let mut found = [Cat::End; 4];
    for (i, text) in WORDS.iter().enumerate() {
        let word = names.find_or_add(EntryKind::Ident, text)?;
        if i < 4 && names.is_built_in(word) {
            found[i] = names.category(word);
        }
    }
    Ok(found)
}

fn built_in_at_start(alloc: Global) -> Result<[Cat; 4], Memory> {
    let mut names = Names::with_words(alloc)?;
    built_in(&mut names)
}

#[test]
fn words_are_there_from_the_start(rt: HostRuntime) -> Result<(), Fail> {
    assert_eq!(rt;
        built_in_at_start(rt.alloc())?,
        [Cat::StructLike, Cat::SizeofLike, Cat::ConstLike, Cat::Exp]
    );
    Ok(())
}

// What is noted of two names.
fn note_all(xrefs: &mut Xrefs, x: NameId, y: NameId) -> Result<(), Memory> {
    let noted = [
        (x, 3, false),
        (y, 2, true),
        (x, 7, false),
        (x, 3, true),
        (x, 1, false),
        (x, 3, false),
    ];
    for (name, section, underlined) in &noted {
        xrefs.note(*name, *section, *underlined)?;
    }
    Ok(())
}

// Whether the sections of the first name are as wanted, how many a second and a third name have, and how many
// occurrences there are.
fn noted_in(xrefs: &mut Xrefs) -> Result<(bool, [usize; 3]), Memory> {
    let (x, y, other) = (
        NameId { index: WORD_COUNT },
        NameId {
            index: WORD_COUNT + 1,
        },
        NameId { index: 3 },
    );
    note_all(xrefs, x, y)?;
    let wanted = [(1, false), (3, true), (7, false)].map(|(section, underlined)| SectionRef {
        section,
        underlined,
    });
    let counts = [
        xrefs.sections_of(y).len(),
        xrefs.sections_of(other).len(),
        xrefs.occurrences().len(),
    ];
    Ok((xrefs.sections_of(x) == wanted.as_slice(), counts))
}

fn noted_sections(alloc: Global) -> Result<(bool, [usize; 3]), Memory> {
    let mut xrefs = Xrefs::new_in(alloc);
    noted_in(&mut xrefs)
}

#[test]
fn sections_stand_in_ascending_order(rt: HostRuntime) -> Result<(), Fail> {
    assert_eq!(rt; noted_sections(rt.alloc())?, (true, [1, 0, 6]));
    Ok(())
}
