//! What no clause says: that the calls succeed, and the lines that they print.
ghost use Rattle.std.specs.Prelude.{◌<◌, IfOk, length};

use cw_base::{Bytes, Event, Exit, Flags, Memory, Note, NoteKind, Out, Place, Web};
use cw_desk::MemDesk;
use cw_lines::PutError;
use cw_run::{
    Judgement, Message, NoteSource, Totals, begin_file, close, end_file, print_broken, print_notes,
    say, say_if, say_statistics, stop, stop_without_change, stop_without_web,
};
use cw_secnames::{SecKind, SecNames};
use cw_test_desks::{desk_with, written};
use std::alloc::Global;
use std::process::Abort;
use std::test::Fail;

fn note(kind: NoteKind, value: u32, line: u32) -> Note
    ensures { result.place.file < 1 }
{
    Note {
        kind,
        value,
        place: Place { file: 0, line },
    }
}

/// A web of one file, without lines.
fn web_of(alloc: Global, name: &[u8]) -> Result<Web, Memory>
    ensures { IfOk result (λ web. 0 < length web.files) }
{
    let mut web = Web::new_in(alloc);
    web.add_file(name)?;
    Ok(web)
}

fn say_lines(desk: &mut MemDesk) -> Result<(), PutError> {
    say(desk, Message::Banner)?;
    say_if(desk, false, Message::WritingOutput)?;
    say_if(desk, true, Message::WritingIndex)?;
    say(desk, Message::Done)
}

fn stop_thrice(alloc: Global, desk: &mut MemDesk) -> Result<[Exit; 3], PutError> {
    let too_long = stop(desk, Message::TooLong)?;
    let no_web = stop_without_web(alloc, desk, b"foo")?;
    let no_change = stop_without_change(alloc, desk, b"bar")?;
    Ok([too_long, no_web, no_change])
}

fn say_notes(noted: NoteSource, desk: &mut MemDesk) -> Result<(), PutError> {
    let notes = [
        note(NoteKind::LinesDiffer, 3, 7),
        note(NoteKind::NeverUsed, 0, 0),
        note(NoteKind::NeverDefined, 1, 0),
    ];
    print_notes(noted, &notes, desk)
}

/// The names of one section.
fn names_with(alloc: Global, name: &[u8]) -> Result<SecNames, Memory>
    requires { 0 < length name.now }
{
    let mut names = SecNames::new_in(alloc);
    names.enter(SecKind::Named, name)?;
    Ok(names)
}

/// Prints three notes on a web of one name.
fn say_notes_of_web(alloc: Global, desk: &mut MemDesk) -> Result<(), Fail> {
    let web = web_of(alloc, b"foo.w")?;
    let names = names_with(alloc, b"Read it")?;
    let noted = NoteSource {
        alloc,
        web: &web,
        names: &names,
    };
    Ok(say_notes(noted, desk)?)
}

/// Puts a long line to a file, and says that it had to be broken.
fn say_broken(alloc: Global, desk: &mut MemDesk) -> Result<(), PutError> {
    let mut lines = begin_file(alloc, desk, Out::Tex, b"foo.tex", false)?;
    lines.put_all(&[b'a'; 100], desk)?;
    print_broken(alloc, b"foo.tex", &lines, desk)
}

/// What is printed of a line that had to be broken.
fn printed_broken(alloc: Global) -> Result<Bytes, Fail> {
    let mut desk = MemDesk::new_in(alloc);
    say_broken(alloc, &mut desk)?;
    Ok(written(alloc, desk.journal())?)
}

#[test]
fn broken_lines(rt: HostRuntime) -> Result<(), Fail> {
    let text = printed_broken(rt.alloc())?;
    let end = b"! Line had to be broken (output l. 1 of foo.tex)\n".as_slice();
    assert!(rt; text.as_slice().ends_with(end));
    Ok(())
}

/// Writes a line to a draft.
fn write_draft(alloc: Global, desk: &mut MemDesk, name: &[u8]) -> Result<(), PutError> {
    let mut lines = begin_file(alloc, desk, Out::Idx, name, true)?;
    lines.put_all(b"line\n", desk)?;
    end_file(desk, Out::Idx, &mut lines, true)?;
    Ok(())
}

/// Writes a line to a draft over an old file, and tells whether the old file was kept.
fn is_kept(alloc: Global, name: &[u8]) -> Result<bool, Fail> {
    let mut desk = desk_with(alloc, &[(b"a.idx", b"line\n"), (b"b.idx", b"line\n\n")])?;
    write_draft(alloc, &mut desk, name)?;
    Ok(matches!(desk.journal().last(), Some(Event::Kept(Out::Idx))))
}

/// New files, and whether the old file is kept in the place of each.
static OLD_FILES: [(&[u8], bool); 3] = [(b"a.idx", true), (b"b.idx", false), (b"c.idx", false)];

#[test]
fn old_files(rt: HostRuntime) -> Result<(), Fail> {
    for (name, wanted) in &OLD_FILES {
        assert_eq!(rt; is_kept(rt.alloc(), name)?, *wanted);
    }
    Ok(())
}

fn close_thrice(alloc: Global, desk: &mut MemDesk) -> Result<[Exit; 3], PutError> {
    let totals = Totals {
        sections: 3,
        scraps: 87,
        productions: 60,
        lines: 34,
    };
    let flags = Flags::start();
    let harmless = [note(NoteKind::NeverUsed, 0, 0)];
    let error = [note(NoteKind::LinesDiffer, 1, 1)];
    say_statistics(alloc, true, totals, desk)?;
    say_statistics(alloc, false, totals, desk)?;
    let clean = close(desk, &flags, Judgement::of(&[], &[]))?;
    let warned = close(desk, &flags, Judgement::of(&[], &harmless))?;
    let failed = close(desk, &flags, Judgement::of(&error, &harmless))?;
    Ok([clean, warned, failed])
}

/// What is said on a desk.
enum Part {
    Lines,
    Stops,
    Notes,
    Endings,
}

/// Says a part, and tells how its three runs end, where it stops or closes some.
fn say_part(alloc: Global, desk: &mut MemDesk, part: &Part) -> Result<Option<[Exit; 3]>, Fail> {
    match part {
        Part::Lines => say_lines(desk)?,
        Part::Stops => return Ok(Some(stop_thrice(alloc, desk)?)),
        Part::Notes => say_notes_of_web(alloc, desk)?,
        Part::Endings => return Ok(Some(close_thrice(alloc, desk)?)),
    }
    Ok(None)
}

/// How its runs end, and what it says.
type Said = (Option<[Exit; 3]>, Bytes);

fn said_on(alloc: Global, desk: &mut MemDesk, part: &Part) -> Result<Said, Fail> {
    let exits = say_part(alloc, desk, part)?;
    Ok((exits, written(alloc, desk.journal())?))
}

/// The same on a desk of its own.
fn said(alloc: Global, part: &Part) -> Result<Said, Fail> {
    let mut desk = MemDesk::new_in(alloc);
    said_on(alloc, &mut desk, part)
}

/// Each part, how its runs have to end, and what it has to say.
const PARTS: [(Part, Option<[Exit; 3]>, &[u8]); 4] = [
    (
        Part::Lines,
        None,
        b"This is CWEAVE (profile 4)
Writing the index...
Done.
",
    ),
    (
        Part::Stops,
        Some([Exit::Errors; 3]),
        b"! Input is longer than 8388608 bytes
(That was a fatal error, my friend.)
! Cannot open web file foo
(That was a fatal error, my friend.)
! Cannot open change file bar
(That was a fatal error, my friend.)
",
    ),
    (
        Part::Notes,
        None,
        b"! 3 of the preceding lines did not match (l. 7 of foo.w)
! Never used: <Read it>
! Never defined: <>
",
    ),
    (
        Part::Endings,
        Some([Exit::Clean, Exit::Clean, Exit::Errors]),
        b"sections 3
scraps 87
productions 60
lines 34
(No errors were found.)
(Did you see the warning message above?)
(Pardon me, but I think I spotted something wrong.)
",
    ),
];

/// What is said has to be this, and the runs have to end so.
fn expect_said(rt: &impl Abort, said: &Said, exits: Option<[Exit; 3]>, text: &[u8]) {
    assert_eq!(rt; (said.0, said.1.as_slice()), (exits, text));
}

#[test]
fn what_is_said_and_how_runs_end(rt: HostRuntime) -> Result<(), Fail> {
    for (part, exits, text) in &PARTS {
        let seen = said(rt.alloc(), part)?;
        expect_said(&rt, &seen, *exits, text);
    }
    Ok(())
}
