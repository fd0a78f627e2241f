//! Tokens as they are cut where they begin, each with the notes that it may have.
ghost use Rattle.std.specs.Prelude.{◌≡◌, ◌<◌, ◌≤◌, ◌+◌, None, Some, length, drop, take};
ghost use Rattle.cw_rules.specs.Bytes.{run};
ghost use Rattle.cw_rules.specs.Bodies.{at_start, extent, note_unless};
ghost use Rattle.cw_rules.specs.Pending.{no_notes};
ghost use Rattle.cw_rules.specs.Codes.{code_at};
ghost use Rattle.cw_rules.specs.Tokens.{string, include_name, alone_size, control_text_of, section_name_of};
ghost use Rattle.cw_rules.specs.Tokens.{control_or_plain, code_token, dropped_code, is_head, is_head_by, is_signed};
ghost use Rattle.cw_rules.specs.Tokens.{head_sign_size, section_code, depth_size};
ghost use Rattle.cw_rules.specs.Answers.{dropped, plain};
ghost use Rattle.cw_rules.specs.model.Cuttings.{bytes_at, cut_of, IsCut};

use crate::bodies::{Body, Inside, NoteAt, extent_to, walk};
use crate::classes::{Class, begins, from, run};
use crate::names::is_void;
use crate::pending::Pending;
use crate::{Code, TokKind};
use cw_base::NoteKind;

/// A token that is cut: what it is, how many bytes it has, and its notes.
#[derive(Clone, Copy)]
pub struct Cutting {
    /// What the token is.
    pub kind: TokKind,
    /// How many bytes it has.
    pub size: usize,
    /// The notes on it.
    pub pending: Pending,
}

// The beginning of a body.
fn at_start(body: Body, place: usize) -> Inside
    ensures { result ≡ at_start body place }
{
    Inside {
        body,
        braces: 0,
        place,
        before: 0,
        along: false,
    }
}

/// A note where something doesn't hold.
pub fn note_unless(holds: bool, kind: NoteKind, place: usize) -> Option<NoteAt>
    ensures { result ≡ note_unless holds kind place }
{
    if holds {
        None
    } else {
        Some(NoteAt { kind, place })
    }
}

/// A token without notes.
pub fn plain(kind: TokKind, size: usize) -> Cutting
    ensures { result ≡ record { kind = kind; size = size; pending = no_notes } }
{
    Cutting {
        kind,
        size,
        pending: Pending::new(),
    }
}

/// A string, whose quote is the last of its first `opening` bytes.
#[inline(always)]
pub fn string(text: &[u8], at: usize, kind: TokKind, opening: usize, quote: u8) -> Cutting
    requires some { 0 < opening }
    requires within { at + opening ≤ length text.now }
    ensures same { cut_of text.now result ≡ string kind opening quote at (bytes_at text.now at) }
    ensures fits { IsCut text.now at result }
{
    let inside = at_start(Body::Quoted(quote), at + opening);
    let walked = walk(inside, text);
    let extent = extent_to(inside, walked.stop, text);
    Cutting {
        kind,
        size: opening + extent.size,
        pending: Pending {
            first: None,
            second: None,
            body: walked.notes,
            last: note_unless(extent.closed, NoteKind::StringUnended, extent.stop),
        },
    }
}

/// A code with its control text.
fn control_text(text: &[u8], at: usize, code: Code) -> Cutting
    requires { at + 2 ≤ length text.now }
    ensures same { cut_of text.now result ≡ control_text_of code (at_start (Body.ControlText) (at + 2))
        (drop (at + 2) text.now) }
    ensures first { result.pending.first ≡ None }
    ensures fits { IsCut text.now at result }
{
    let inside = at_start(Body::ControlText, at + 2);
    let walked = walk(inside, text);
    let extent = extent_to(inside, walked.stop, text);
    Cutting {
        kind: TokKind::Code(code),
        size: 2 + extent.size,
        pending: Pending {
            first: None,
            second: None,
            body: walked.notes,
            last: note_unless(extent.closed, NoteKind::ControlTextUnended, extent.stop),
        },
    }
}

/// A section name.
fn section_name(text: &[u8], at: usize, code: Code) -> Cutting
    requires { at + 2 ≤ length text.now }
    ensures same { cut_of text.now result ≡ section_name_of code at (at_start (Body.SectionName) (at + 2))
        (drop (at + 2) text.now) }
    ensures fits { IsCut text.now at result }
{
    let inside = at_start(Body::SectionName, at + 2);
    let walked = walk(inside, text);
    let extent = extent_to(inside, walked.stop, text);
    let void = is_void(first(from(text, at + 2), extent.inner_size));
    Cutting {
        kind: TokKind::Code(code),
        size: 2 + extent.size,
        pending: Pending {
            first: note_unless(extent.closed, NoteKind::NameUnended, at),
            second: note_unless(!void, NoteKind::NameEmpty, at),
            body: walked.notes,
            last: None,
        },
    }
}

// The first bytes.
fn first(bytes: &[u8], size: usize) -> &[u8]
    requires { size ≤ length bytes.now }
    ensures { result.now ≡ take size bytes.now }
{
    &bytes[..size]
}

/// An include name, between whose `<` and `>` so many bytes stand.
pub fn include_name(text: &[u8], at: usize, size: usize) -> Cutting
    requires size { size ≡ run Class.IncludeName (drop (at + 1) text.now) }
    requires within { at + (size + 2) ≤ length text.now }
    ensures same { cut_of text.now result ≡ include_name at (bytes_at text.now at) }
    ensures fits { IsCut text.now at result }
{
    Cutting {
        kind: TokKind::IncludeName,
        size: 1 + (size + 1),
        pending: Pending {
            first: None,
            second: None,
            body: Some(at_start(Body::IncludeName, at + 1)),
            last: None,
        },
    }
}

/// A code with its name, string or control text.
pub fn code_token(text: &[u8], at: usize, code: Code) -> Cutting
    requires place { at < length text.now }
    requires code { code ≡ code_at (drop (at + 1) text.now) }
    ensures same { cut_of text.now result ≡ code_token code at (bytes_at text.now at) }
    ensures fits { IsCut text.now at result }
{
    if code.is_name() && at + 1 < text.len() {
        return section_name(text, at, code);
    }
    if code.is_quote() && at + 1 < text.len() {
        return string(text, at, TokKind::Code(code), 2, 39);
    }
    control_or_plain(text, at, code)
}

// A code with the control text that it may have.
fn control_or_plain(text: &[u8], at: usize, code: Code) -> Cutting
    requires place { at < length text.now }
    requires code { code ≡ code_at (drop (at + 1) text.now) }
    ensures same { cut_of text.now result ≡ control_or_plain code at (bytes_at text.now at) }
    ensures first { result.pending.first ≡ None }
    ensures fits { IsCut text.now at result }
{
    if code.has_control_text() && at + 1 < text.len() {
        return control_text(text, at, code);
    }
    alone(text, at, code)
}

/// A code that is its `@` and the byte behind it, where one is there.
pub fn alone(text: &[u8], at: usize, code: Code) -> Cutting
    requires place { at < length text.now }
    ensures same { cut_of text.now result ≡ plain (TokKind.Code code) (alone_size (bytes_at text.now at)) }
    ensures first { result.pending.first ≡ None }
    ensures fits { IsCut text.now at result }
{
    plain(
        TokKind::Code(code),
        if from(text, at + 1).is_empty() { 1 } else { 2 },
    )
}

/// A code that is dropped with its control text.
pub fn dropped_code(text: &[u8], at: usize, code: Code, note: NoteKind) -> Cutting
    requires place { at < length text.now }
    requires code { code ≡ code_at (drop (at + 1) text.now) }
    ensures same { cut_of text.now result ≡ dropped_code note code at (bytes_at text.now at) }
    ensures fits { IsCut text.now at result }
{
    dropped(control_or_plain(text, at, code), note, at)
}

/// The token as one that is dropped, with the note why before its own.
pub fn dropped(cut: Cutting, note: NoteKind, at: usize) -> Cutting
    ensures { result ≡ record {
      kind = TokKind.Dropped;
      size = cut.size;
      pending = record cut.pending { first = Some (record { kind = note; place = at }) };
    } }
{
    Cutting {
        kind: TokKind::Dropped,
        size: cut.size,
        pending: Pending {
            first: Some(NoteAt {
                kind: note,
                place: at,
            }),
            second: cut.pending.second,
            body: cut.pending.body,
            last: cut.pending.last,
        },
    }
}

/// Whether the name here begins a C part.
pub fn is_head(text: &[u8], at: usize) -> bool
    requires { at + 2 ≤ length text.now }
    ensures { result ≡ is_head at (bytes_at text.now at) }
{
    is_head_from(text, at + 2)
}

// The same, from behind its code on.
fn is_head_from(text: &[u8], place: usize) -> bool
    requires { place ≤ length text.now }
    ensures { result ≡ is_head_by (extent (at_start (Body.SectionName) place) (drop place text.now))
        (drop place text.now) }
{
    let inside = at_start(Body::SectionName, place);
    let extent = extent_to(inside, walk(inside, text).stop, text);
    if !extent.closed {
        return false;
    }
    is_signed(from(from(text, place), extent.size))
}

fn is_signed(bytes: &[u8]) -> bool
    ensures { result ≡ is_signed bytes.now }
{
    head_sign_size(from(bytes, run(Class::Blank, bytes))) > 0
}

fn head_sign_size(bytes: &[u8]) -> usize
    ensures { result ≡ head_sign_size bytes.now }
{
    if bytes.is_empty() {
        return 0;
    }
    if bytes.len() >= 2 && (bytes[0] == b'=' || bytes[0] == b'+') && bytes[1] == b'=' {
        return 2;
    }
    if bytes[0] == b'=' { 1 } else { 0 }
}

/// A section code, with its depth and the blanks behind it.
pub fn section_code(text: &[u8], at: usize) -> Cutting
    requires { at < length text.now }
    ensures same { cut_of text.now result ≡ section_code (bytes_at text.now at) }
    ensures fits { IsCut text.now at result }
{
    let rest = from(text, at + 1);
    if !begins(b'*', rest) {
        let blanks = run(Class::Blank, rest);
        return plain(TokKind::Code(Code::Section), 1 + blanks);
    }
    let size = 2 + depth_size(from(rest, 1));
    let blanks = run(Class::Blank, from(rest, size - 1));
    plain(TokKind::Code(Code::StarredSection), size + blanks)
}

fn depth_size(bytes: &[u8]) -> usize
    ensures value { result ≡ depth_size bytes.now }
    ensures within { result ≤ length bytes.now }
{
    if begins(b'*', bytes) {
        1
    } else {
        run(Class::Digit, bytes)
    }
}
