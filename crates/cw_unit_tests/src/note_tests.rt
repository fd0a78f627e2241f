//! Tests of the notes of scanning: each with its place, in its order.
use crate::lexer_tests::notes_only;
use cw_base::NoteKind;
use cw_lex::Mode;
use std::process::Abort;

/// A text, the only note that scanning makes of it, and the place of that.
type Row = (Mode, &'static [u8], NoteKind, usize);

/// The note of each text has to be its only one.
fn expect_notes(rt: &impl Abort, rows: &[Row]) {
    for (mode, text, kind, place) in rows {
        assert!(rt; notes_only(*mode, text, *kind, *place));
    }
}

static CODES: [Row; 11] = [
    (Mode::TexText, b"a@3b", NoteKind::UnknownCode, 1),
    (Mode::TexText, b"a@lb", NoteKind::UnknownCode, 1),
    (Mode::CPart, b"a @@ b", NoteKind::UnknownCode, 2),
    (Mode::Inner, b"a@", NoteKind::UnknownCode, 1),
    (Mode::Limbo, b"a@cb", NoteKind::CodeInLimbo, 1),
    (Mode::Limbo, b"a@<b", NoteKind::CodeInLimbo, 1),
    (Mode::TexText, b"a @t x@> b", NoteKind::CodeInTexText, 2),
    (Mode::TexText, b"a @, b", NoteKind::CodeInTexText, 2),
    (Mode::CPart, b"a @d b", NoteKind::CodeInCText, 2),
    (Mode::Inner, b"a @c b", NoteKind::CodeInCText, 2),
    (Mode::Definition, b"/*|@f|*/", NoteKind::CodeInCText, 3),
];

#[test]
fn notes_on_codes(rt: HostRuntime) {
    expect_notes(&rt, &CODES);
}

static STRINGS_AND_CONTROL_TEXTS: [Row; 8] = [
    (Mode::CPart, b"\"a@b\"", NoteKind::AtInString, 2),
    (Mode::CPart, b"@'@a'", NoteKind::AtInString, 2),
    (Mode::CPart, b"\"ab\nc\n", NoteKind::StringUnended, 3),
    (Mode::CPart, b"'ab", NoteKind::StringUnended, 2),
    (Mode::TexText, b"@^ab\nc", NoteKind::ControlTextUnended, 4),
    (Mode::Limbo, b"@q ab", NoteKind::ControlTextUnended, 4),
    (Mode::TexText, b"@^a@,b@>", NoteKind::CodeInControlText, 3),
    (Mode::CPart, b"@=a@ b@>", NoteKind::CodeInControlText, 3),
];

#[test]
fn notes_on_strings_and_control_texts(rt: HostRuntime) {
    expect_notes(&rt, &STRINGS_AND_CONTROL_TEXTS);
}

const SECTION_NAMES: [Row; 5] = [
    (Mode::CPart, b"a @<b", NoteKind::NameUnended, 2),
    (Mode::TexText, b"a @(b\n@ c", NoteKind::NameUnended, 2),
    (Mode::CPart, b"@<a@,b@>", NoteKind::CodeInName, 3),
    (Mode::CPart, b"a @<@>", NoteKind::NameEmpty, 2),
    (Mode::TexText, b"@( \n ... @>", NoteKind::NameEmpty, 0),
];

#[test]
fn notes_on_section_names(rt: HostRuntime) {
    expect_notes(&rt, &SECTION_NAMES);
}

/// Twenty comments with inner text in each, and one more.
const DEEP: &[u8] = b"|/*|/*|/*|/*|/*|/*|/*|/*|/*|/*|/*|/*|/*|/*|/*|/*|/*|/*|/*|/*\
    |*/|*/|*/|*/|*/|*/|*/|*/|*/|*/|*/|*/|*/|*/|*/|*/|*/|*/|*/|*/|";

static COMMENTS: [Row; 12] = [
    (Mode::CPart, b"a /*b", NoteKind::CommentUnended, 2),
    (Mode::CPart, b"a //b", NoteKind::CommentUnended, 2),
    (Mode::CPart, b"a /*b@ c", NoteKind::CommentUnended, 2),
    (Mode::CPart, b"/*a@b*/", NoteKind::AtInComment, 3),
    (Mode::CPart, b"/*a\\@b*/", NoteKind::AtInComment, 4),
    (Mode::CPart, b"/*{}a}*/", NoteKind::ExtraBrace, 5),
    (Mode::CPart, b"/*{{}{*/", NoteKind::MissingBrace, 6),
    (Mode::CPart, b"//{a\n", NoteKind::MissingBrace, 4),
    (Mode::TexText, b"|a", NoteKind::BarMissing, 1),
    (Mode::TexText, b"|a@ b", NoteKind::BarMissing, 2),
    (Mode::CPart, b"//|a\n", NoteKind::BarMissing, 4),
    (Mode::TexText, DEEP, NoteKind::TooDeep, 60),
];

#[test]
fn notes_on_comments(rt: HostRuntime) {
    expect_notes(&rt, &COMMENTS);
}

// An improper head is noted at its code.
const HEADS: [Row; 7] = [
    (Mode::TexText, b"a @d 3", NoteKind::ImproperMacro, 2),
    (Mode::TexText, b"a @d x(y 3)", NoteKind::ImproperMacro, 2),
    (Mode::TexText, b"a @d x(", NoteKind::ImproperMacro, 2),
    (Mode::Definition, b"a @d", NoteKind::ImproperMacro, 2),
    (Mode::TexText, b"a @f x 3", NoteKind::ImproperFormat, 2),
    (Mode::Definition, b"a @s @ b", NoteKind::ImproperFormat, 2),
    (Mode::Limbo, b"a @s x", NoteKind::ImproperFormat, 2),
];

#[test]
fn notes_on_heads(rt: HostRuntime) {
    expect_notes(&rt, &HEADS);
}
