//! Worked names, by calls.
use cw_base::{Memory, Span};
use cw_secnames::{Entered, NameUses, RefKind, SecId, SecKind, SecNames, next_part};
use std::alloc::Global;
use std::test::Fail;

const FIRST: SecId = SecId { index: 0 };

const SECOND: SecId = SecId { index: 1 };

const NAMED: Option<SecKind> = Some(SecKind::Named);

const FILE: Option<SecKind> = Some(SecKind::File);

/// Enters texts one after another, a whole name of a kind or a prefix. The number of the first that is answered
/// otherwise.
fn first_other(
    names: &mut SecNames,
    rows: &[(Option<SecKind>, &[u8], Entered)],
) -> Result<Option<usize>, Memory> {
    for (i, (kind, text, wanted)) in rows.iter().enumerate() {
        if text.is_empty() {
            return Ok(Some(i));
        }
        let answer = match kind {
            Some(kind) => names.enter(*kind, text)?,
            None => names.enter_prefix(text)?,
        };
        if answer != *wanted {
            return Ok(Some(i));
        }
    }
    Ok(None)
}

/// Whether a name is kept so.
fn is_kept(names: &SecNames, id: SecId, kind: SecKind, text: &[u8], complete: bool) -> bool {
    id.index < names.len()
        && names.kind(id) == kind
        && names.text(id) == text
        && names.complete(id) == complete
}

/// Enters two prefixes, and then the name that they begin and two others. The answers that are otherwise, whether the
/// names are kept, and how many there are.
fn grown_prefix(alloc: Global) -> Result<([Option<usize>; 2], [bool; 3], usize), Memory> {
    let mut names = SecNames::new_in(alloc);
    let prefixes: [(_, &[u8], _); 2] = [
        (None, b"Re", Entered::New(FIRST)),
        (None, b"Rea", Entered::Known(FIRST)),
    ];
    let whole: [(_, &[u8], _); 3] = [
        (NAMED, b"Read", Entered::Known(FIRST)),
        (NAMED, b"Rea", Entered::Conflict(FIRST)),
        (FILE, b"Rea", Entered::New(SECOND)),
    ];
    let other_prefix = first_other(&mut names, &prefixes)?;
    let begun = is_kept(&names, FIRST, SecKind::Named, b"Rea", false);
    let other_name = first_other(&mut names, &whole)?;
    let kept = [
        begun,
        is_kept(&names, FIRST, SecKind::Named, b"Read", true),
        is_kept(&names, SECOND, SecKind::File, b"Rea", true),
    ];
    Ok(([other_prefix, other_name], kept, names.len()))
}

#[test]
fn a_prefix_grows_to_its_name(rt: HostRuntime) -> Result<(), Fail> {
    let (others, kept, count) = grown_prefix(rt.alloc())?;
    assert_eq!(rt; others, [None; 2]);
    assert_eq!(rt; (kept, count), ([true; 3], 2));
    Ok(())
}

/// Notes references one after another.
fn refer_all(names: &mut SecNames, references: &[(SecId, RefKind, u32)]) -> Result<(), Memory> {
    for (id, how, section) in references {
        if id.index < names.len() {
            names.add_ref(*id, *how, *section)?;
        }
    }
    Ok(())
}

/// Whether a name is defined, used and cited in these sections.
fn is_referred(names: &SecNames, id: SecId, wanted: [&[u32]; 3]) -> bool {
    let [defined, used, cited] = wanted;
    id.index < names.len()
        && names.defined_in(id) == defined
        && names.used_in(id) == used
        && names.cited_in(id) == cited
}

/// Enters two names and what both begin with, and notes where they are referred to. The answer that is otherwise, and
/// whether each is referred to so.
fn ambiguous_prefix(alloc: Global) -> Result<(Option<usize>, [bool; 2]), Memory> {
    let mut names = SecNames::new_in(alloc);
    let rows: [(_, &[u8], _); 3] = [
        (NAMED, b"Read a", Entered::New(FIRST)),
        (NAMED, b"Read b", Entered::New(SECOND)),
        (None, b"Read", Entered::Ambiguous(FIRST, SECOND)),
    ];
    let references = [
        (FIRST, RefKind::Defined, 1),
        (SECOND, RefKind::Defined, 2),
        (FIRST, RefKind::Used, 3),
        (FIRST, RefKind::Used, 3),
        (SECOND, RefKind::Cited, 3),
    ];
    let other = first_other(&mut names, &rows)?;
    refer_all(&mut names, &references)?;
    let referred = [
        is_referred(&names, FIRST, [&[1], &[3], &[]]),
        is_referred(&names, SECOND, [&[2], &[], &[3]]),
    ];
    Ok((other, referred))
}

#[test]
fn a_prefix_of_two_names_is_ambiguous(rt: HostRuntime) -> Result<(), Fail> {
    assert_eq!(rt; ambiguous_prefix(rt.alloc())?, (None, [true; 2]));
    Ok(())
}

/// Enters `Read 000 of them` up to `Read 299 of them`: whether each is new.
fn enter_many(names: &mut SecNames) -> Result<bool, Memory> {
    let mut text = *b"Read 000 of them";
    for count in 0..300u16 {
        text[5] = b'0' + (count / 100) as u8;
        text[6] = b'0' + (count / 10 % 10) as u8;
        text[7] = b'0' + (count % 10) as u8;
        let answer = names.enter(SecKind::Named, &text)?;
        let index = usize::from(count);
        if answer != Entered::New(SecId { index }) {
            return Ok(false);
        }
    }
    Ok(true)
}

const LAST: SecId = SecId { index: 300 };

/// What is answered behind three hundred names.
static BEHIND_MANY: [(Option<SecKind>, &[u8], Entered); 6] = [
    (
        NAMED,
        b"Read 217 of them",
        Entered::Known(SecId { index: 217 }),
    ),
    (None, b"Read 217", Entered::Known(SecId { index: 217 })),
    (
        None,
        b"Read 21",
        Entered::Ambiguous(SecId { index: 210 }, SecId { index: 211 }),
    ),
    (
        NAMED,
        b"Read 299 of them all",
        Entered::Conflict(SecId { index: 299 }),
    ),
    (None, b"Read 3", Entered::New(LAST)),
    (None, b"Read 333", Entered::Known(LAST)),
];

/// Whether three hundred names are new and a prefix behind them is kept, and the answers there that are otherwise.
fn behind_many_others(alloc: Global) -> Result<([bool; 2], [Option<usize>; 2]), Memory> {
    let mut names = SecNames::new_in(alloc);
    let grown: [(_, &[u8], _); 1] = [(NAMED, b"Read 333 of them", Entered::Known(LAST))];
    let are_new = enter_many(&mut names)?;
    let other = first_other(&mut names, &BEHIND_MANY)?;
    let kept = is_kept(&names, LAST, SecKind::Named, b"Read 333", false);
    let other_grown = first_other(&mut names, &grown)?;
    Ok(([are_new, kept], [other, other_grown]))
}

#[test]
fn names_are_found_behind_many_others(rt: HostRuntime) -> Result<(), Fail> {
    assert_eq!(rt; behind_many_others(rt.alloc())?, ([true; 2], [None; 2]));
    Ok(())
}

/// The names at two places where they stand, and at two others.
fn names_at_places(alloc: Global) -> Result<[Option<SecId>; 4], Memory> {
    let mut uses = NameUses::new_in(alloc);
    uses.add(2, SECOND)?;
    uses.add(19, FIRST)?;
    Ok([uses.at(2), uses.at(19), uses.at(18), uses.at(20)])
}

#[test]
fn a_name_is_found_at_its_place(rt: HostRuntime) -> Result<(), Fail> {
    let found = names_at_places(rt.alloc())?;
    assert_eq!(rt; found, [Some(SECOND), Some(FIRST), None, None]);
    Ok(())
}

/// The pairs of two places and names, if there are two.
fn two_pairs(alloc: Global) -> Result<Option<[(u32, SecId); 2]>, Memory> {
    let mut uses = NameUses::new_in(alloc);
    uses.add(2, SECOND)?;
    uses.add(19, FIRST)?;
    if uses.len() != 2 {
        return Ok(None);
    }
    Ok(Some([uses.pair(0), uses.pair(1)]))
}

#[test]
fn pairs_are_read_in_their_order(rt: HostRuntime) -> Result<(), Fail> {
    let pairs = two_pairs(rt.alloc())?;
    assert_eq!(rt; pairs, Some([(2, SECOND), (19, FIRST)]));
    Ok(())
}

#[test]
fn parts_stand_between_bars(rt: HostRuntime) -> Result<(), Fail> {
    let text = b"Do |x+|y||z| it";
    assert_eq!(rt;
        [next_part(text, 0), next_part(text, 7), next_part(text, 10)],
        [
            Some(Span { start: 4, end: 6 }),
            Some(Span { start: 9, end: 9 }),
            None
        ]
    );
    Ok(())
}
