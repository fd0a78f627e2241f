//! What goes on byte by byte: strings, control texts, section names and pieces of comments, with their notes.
ghost use Rattle.std.specs.Prelude.{◌≡◌, ◌≤◌, ◌<◌, ◌+◌, ◌-◌, ◌^◌, ◌∷◌, [], true, length, drop, slice_index};
ghost use Rattle.std.specs.Prelude.{MatchOption, IsTrue};
ghost use Rattle.cw_rules.specs.Bodies.{stops, takes_next, note_on, braces_after, stepped, goes_on, note_here};
ghost use Rattle.cw_rules.specs.Bodies.{is_plain};
ghost use Rattle.cw_rules.specs.Bodies.{is_idle, ended, noted, closing_bytes, extent};
ghost use Rattle.cw_rules.specs.Bytes.{begins_with};
ghost use Rattle.cw_rules.specs.Pending.{body_notes, notes_so_far, IsInside};

use crate::classes::{begins, from};
use crate::codes::begins_section;
use cw_base::NoteKind;

/// The inside of a token that ends at a byte of its own and whose bytes may have notes.
#[derive(Clone, Copy)]
pub enum Body {
    /// A string with this quote.
    Quoted(u8),
    /// An include name.
    IncludeName,
    /// A control text.
    ControlText,
    /// A section name.
    SectionName,
    /// A piece of a comment's text. `deep` says that inner C text would reach a depth above 20 there.
    Piece { long: bool, deep: bool },
}

/// A place inside such a token.
#[derive(Clone, Copy)]
pub struct Inside {
    /// What goes on there.
    pub body: Body,
    /// How many braces are open, in a comment.
    pub braces: usize,
    /// How many bytes of the text stand before.
    pub place: usize,
    /// The byte before it.
    pub before: u8,
    /// Whether the byte there was taken along by the byte before.
    pub along: bool,
}

/// A note and the place of the byte that it is about.
#[derive(Clone, Copy)]
pub struct NoteAt {
    /// What is told.
    pub kind: NoteKind,
    /// The place of the byte.
    pub place: usize,
}

/// How far a body goes.
#[derive(Clone, Copy)]
pub(crate) struct Extent {
    /// Its bytes without what closes it.
    pub inner_size: usize,
    /// Its bytes with what closes it, where that stands there.
    pub size: usize,
    pub closed: bool,
    /// The place before which it stopped, or of the last byte of the text.
    pub stop: usize,
}

/// Where a body stops, and the place of its first byte with a note, from which its notes are found.
#[derive(Clone, Copy)]
pub struct Walked {
    /// Where the body stops.
    pub stop: Inside,
    /// The place of its first byte with a note.
    pub notes: Option<Inside>,
}

impl Body {
    // Whether the body has no rule for this byte.
    #[inline(always)]
    fn is_idle(self, byte: u8) -> bool
        ensures { result ≡ is_idle self byte }
    {
        match self {
            Body::Quoted(quote) => is_plain(byte) && byte != quote,
            _ => is_plain(byte),
        }
    }

    // Whether what closes the body stands at the beginning of these bytes.
    #[inline(always)]
    fn closes(self, bytes: &[u8]) -> bool
        ensures { result ≡ begins_with (closing_bytes self) bytes.now }
    {
        match self {
            Body::Quoted(quote) => begins(quote, bytes),
            Body::IncludeName => begins(b'>', bytes),
            Body::ControlText | Body::SectionName => {
                bytes.len() >= 2 && bytes[0] == b'@' && bytes[1] == b'>'
            }
            Body::Piece { .. } => true,
        }
    }

    #[inline(always)]
    fn closing_size(self) -> usize
        ensures { result ≡ length (closing_bytes self) }
    {
        match self {
            Body::Quoted(_) | Body::IncludeName => 1,
            Body::ControlText | Body::SectionName => 2,
            Body::Piece { .. } => 0,
        }
    }

    #[inline(always)]
    fn stops(self, before: u8, byte: u8, rest: &[u8]) -> bool
        ensures { result ≡ stops self before byte rest.now }
    {
        match self {
            Body::Quoted(quote) => byte == quote || (byte == b'\n' && before != b'\\'),
            Body::IncludeName => byte == b'>',
            Body::ControlText => byte == b'\n' || (byte == b'@' && begins(b'>', rest)),
            Body::SectionName => byte == b'@' && (begins(b'>', rest) || begins_section(rest)),
            Body::Piece { long, deep } => {
                (if long {
                    byte == b'*' && begins(b'/', rest)
                } else {
                    byte == b'\n'
                }) || (byte == b'@' && begins_section(rest))
                    || (byte == b'|' && !deep)
            }
        }
    }

    #[inline(always)]
    fn takes_next(self, byte: u8, rest: &[u8]) -> bool
        ensures { result ≡ takes_next self byte rest.now }
    {
        match self {
            Body::Quoted(_) => byte == b'\\' || (byte == b'@' && begins(b'@', rest)),
            Body::IncludeName | Body::ControlText => byte == b'@' && begins(b'@', rest),
            Body::SectionName => byte == b'@',
            Body::Piece { long, .. } => {
                (byte == b'\\' && !(begins(b'@', rest) || (!long && begins(b'\n', rest))))
                    || (byte == b'@' && begins(b'@', rest))
            }
        }
    }

    #[inline(always)]
    fn note_on(self, braces: usize, byte: u8, rest: &[u8]) -> Option<NoteKind>
        ensures { result ≡ note_on self braces byte rest.now }
    {
        let single = byte == b'@' && !begins(b'@', rest);
        match self {
            Body::Quoted(_) | Body::IncludeName => single.then_some(NoteKind::AtInString),
            Body::ControlText => single.then_some(NoteKind::CodeInControlText),
            Body::SectionName => single.then_some(NoteKind::CodeInName),
            Body::Piece { .. } => {
                if single {
                    Some(NoteKind::AtInComment)
                } else if byte == b'}' && braces == 0 {
                    Some(NoteKind::ExtraBrace)
                } else if byte == b'|' {
                    Some(NoteKind::TooDeep)
                } else {
                    None
                }
            }
        }
    }
}

// Whether no body has a rule for a byte, but a string for its quote: one look takes the place of ten tests.
static PLAIN_BYTES: [bool; 256] = [
    true, true, true, true, true, true, true, true, true, true, false, true, true, true, true,
    true, true, true, true, true, true, true, true, true, true, true, true, true, true, true, true,
    true, true, true, true, true, true, true, true, true, true, true, false, true, true, true,
    true, true, true, true, true, true, true, true, true, true, true, true, true, true, true, true,
    false, true, false, true, true, true, true, true, true, true, true, true, true, true, true,
    true, true, true, true, true, true, true, true, true, true, true, true, true, true, true,
    false, true, true, true, true, true, true, true, true, true, true, true, true, true, true,
    true, true, true, true, true, true, true, true, true, true, true, true, true, true, true, true,
    false, false, false, true, true, true, true, true, true, true, true, true, true, true, true,
    true, true, true, true, true, true, true, true, true, true, true, true, true, true, true, true,
    true, true, true, true, true, true, true, true, true, true, true, true, true, true, true, true,
    true, true, true, true, true, true, true, true, true, true, true, true, true, true, true, true,
    true, true, true, true, true, true, true, true, true, true, true, true, true, true, true, true,
    true, true, true, true, true, true, true, true, true, true, true, true, true, true, true, true,
    true, true, true, true, true, true, true, true, true, true, true, true, true, true, true, true,
    true, true, true, true, true, true, true, true, true, true, true, true, true, true, true, true,
    true, true, true, true, true, true,
];

// Whether no body has a rule for this byte, but a string for its quote.
#[inline(always)]
fn is_plain(byte: u8) -> bool
    ensures { result ≡ is_plain byte }
{
    PLAIN_BYTES[byte as usize]
}

#[inline(always)]
fn braces_after(braces: usize, byte: u8) -> usize
    requires { braces < 2 ^ 64 - 1 }
    ensures { result ≡ braces_after braces byte }
{
    match byte {
        b'{' => braces + 1,
        b'}' => braces.saturating_sub(1),
        _ => braces,
    }
}

#[inline(always)]
fn goes_on(inside: &Inside, bytes: &[u8]) -> bool
    ensures value { result ≡ goes_on inside.now bytes.now }
    ensures some { IsTrue result → 0 < length bytes.now }
{
    if bytes.is_empty() {
        return false;
    }
    inside.along || !inside.body.stops(inside.before, bytes[0], from(bytes, 1))
}

#[inline(always)]
fn note_here(inside: &Inside, bytes: &[u8]) -> Option<NoteKind>
    requires { 0 < length bytes.now }
    ensures { result ≡ note_here inside.now (slice_index bytes.now 0) (drop 1 bytes.now) }
{
    if inside.along {
        return None;
    }
    inside.body.note_on(inside.braces, bytes[0], from(bytes, 1))
}

// One byte on.
#[inline(always)]
fn step(inside: Inside, bytes: &[u8]) -> Inside
    requires some { 0 < length bytes.now }
    requires place { inside.place < 2 ^ 64 - 1 }
    requires braces { inside.braces ≤ inside.place }
    ensures value { result ≡ stepped inside (slice_index bytes.now 0) (drop 1 bytes.now) }
    ensures place { result.place ≡ inside.place + 1 }
    ensures braces { result.braces ≤ result.place }
{
    let byte = bytes[0];
    Inside {
        body: inside.body,
        braces: if inside.along {
            inside.braces
        } else {
            braces_after(inside.braces, byte)
        },
        place: inside.place + 1,
        before: byte,
        along: !inside.along && inside.body.takes_next(byte, from(bytes, 1)),
    }
}

// Behind the bytes for which the body has no rule.
#[inline(always)]
fn behind_idle(inside: Inside, text: &[u8]) -> Inside
    requires within { inside.place ≤ length text.now }
    requires braces { inside.braces ≤ inside.place }
    ensures stop { ended result (drop result.place text.now) ≡ ended inside (drop inside.place text.now) }
    ensures notes { noted result (drop result.place text.now) ≡ noted inside (drop inside.place text.now) }
    ensures from { inside.place ≤ result.place }
    ensures within { result.place ≤ length text.now }
    ensures braces { result.braces ≤ result.place }
{
    let mut i = inside;
    while !i.along && i.place < text.len() && i.body.is_idle(text[i.place]) {
        i.before = text[i.place];
        i.place += 1;
    }
    i
}

// The place of the first byte with a note, where one was met before or stands here.
#[inline(always)]
fn first_noted(notes: Option<Inside>, i: Inside, text: &[u8]) -> Option<Inside>
    requires goes { goes_on i (drop i.place text.now) ≡ true }
    requires some { i.place < length text.now }
    requires braces { i.braces ≤ i.place }
    requires inside { IsInside (length text.now) notes }
    ensures notes { notes_so_far text.now result (stepped i (slice_index (drop i.place text.now) 0)
        (drop 1 (drop i.place text.now))) ≡ notes_so_far text.now notes i }
    ensures inside { IsInside (length text.now) result }
{
    match notes {
        Some(first) => Some(first),
        None => match note_here(&i, from(text, i.place)) {
            Some(_kind) => Some(i),
            None => None,
        },
    }
}

/// Where the body stops in the text, and its notes.
#[inline(always)]
pub fn walk(inside: Inside, text: &[u8]) -> Walked
    requires within { inside.place ≤ length text.now }
    requires braces { inside.braces ≤ inside.place }
    ensures stop { result.stop ≡ ended inside (drop inside.place text.now) }
    ensures notes { body_notes text.now result.notes ≡ noted inside (drop inside.place text.now) }
    ensures inside { IsInside (length text.now) result.notes }
    ensures from { inside.place ≤ result.stop.place }
    ensures within { result.stop.place ≤ length text.now }
    ensures braces { result.stop.braces ≤ result.stop.place }
{
    let mut notes = None;
    let mut i = behind_idle(inside, text);
    while goes_on(&i, from(text, i.place)) {
        notes = first_noted(notes, i, text);
        let next = step(i, from(text, i.place));
        i = behind_idle(next, text);
    }
    Walked { stop: i, notes }
}

/// The next note inside, and the place behind it, from which the later ones are found.
pub(crate) fn next_noted(inside: &mut Inside, text: &[u8]) -> Option<NoteAt>
    requires within { inside.old.place ≤ length text.now }
    requires braces { inside.old.braces ≤ inside.old.place }
    ensures value { MatchOption result (noted inside.old (drop inside.old.place text.now) ≡
        []) (λ n. noted inside.old (drop inside.old.place text.now) ≡ n ∷
        noted inside.new (drop inside.new.place text.now)) }
    ensures within { inside.new.place ≤ length text.now }
    ensures braces { inside.new.braces ≤ inside.new.place }
{
    let mut i = behind_idle(*inside, text);
    while goes_on(&i, from(text, i.place)) {
        let place = i.place;
        let bytes = from(text, place);
        let here = note_here(&i, bytes);
        let next = step(i, bytes);
        i = behind_idle(next, text);
        match here {
            Some(kind) => {
                *inside = i;
                return Some(NoteAt { kind, place });
            }
            None => {}
        }
    }
    *inside = i;
    None
}

/// How far the body goes that stops here.
pub(crate) fn extent_to(inside: Inside, stop: Inside, text: &[u8]) -> Extent
    requires stop { stop ≡ ended inside (drop inside.place text.now) }
    requires from { inside.place ≤ stop.place }
    requires within { stop.place ≤ length text.now }
    ensures value { result ≡ extent inside (drop inside.place text.now) }
    ensures within { inside.place + result.size ≤ length text.now }
    ensures inner { result.inner_size ≤ result.size }
{
    let place = stop.place;
    let inner_size = place - inside.place;
    let closed = inside.body.closes(from(text, place));
    Extent {
        inner_size,
        size: if closed {
            inner_size + inside.body.closing_size()
        } else {
            inner_size
        },
        closed,
        stop: if place < text.len() {
            place
        } else {
            place.saturating_sub(1)
        },
    }
}
