//! The text of comments, and what opens and ends comments and inner C text.
ghost use Rattle.std.specs.Prelude.{◌≡◌, ◌<◌, ◌≤◌, ◌+◌, ◌∷◌, [], true, false, not, ◌==◌, ◌&&◌, length, drop};
ghost use Rattle.std.specs.Prelude.{slice_index};
ghost use Rattle.cw_rules.specs.Answers.{Gives, before};
ghost use Rattle.cw_rules.specs.Bytes.{begins};
ghost use Rattle.cw_rules.specs.Bodies.{stops, note_unless};
ghost use Rattle.cw_lex.specs.Lexing.{last_at, spot_at};
ghost use Rattle.cw_rules.specs.Pending.{no_notes};
ghost use Rattle.cw_rules.specs.Codes.{begins_section};
ghost use Rattle.cw_rules.specs.Tokens.{comment_text, comment_closed, comment_end, piece, is_deep, line_end};
ghost use Rattle.cw_rules.specs.Tokens.{inner_begin};
ghost use Rattle.cw_rules.specs.Tokens.{inner_end, with_inner, in_hash_line, comment_begin, comment_kind};
ghost use Rattle.cw_lex.specs.model.Coming.{where_of, coming, found_at, IsReady, CanStep};
ghost use Rattle.cw_rules.specs.model.Cuttings.{bytes_at};
ghost use Rattle.cw_rules.specs.Tokens.{is_code};

use crate::giving::token;
use crate::state::State;
use crate::{Lexed, TokKind};
use cw_base::NoteKind;
use cw_rules::bodies::{Body, Inside, walk};
use cw_rules::classes::{begins, from};
use cw_rules::cuttings::note_unless;
use cw_rules::parts::{Opened, Part};
use cw_rules::pending::Pending;

pub(crate) fn kind_of(long: bool) -> TokKind
    ensures { result ≡ comment_kind long }
{
    if long {
        TokKind::LongComment
    } else {
        TokKind::ShortComment
    }
}

/// Answers that a comment begins.
pub(crate) fn begin_comment<'a>(text: &'a [u8], state: &mut State, long: bool) -> Lexed<'a>
    requires step { CanStep text.now state.old }
    requires code { is_code state.old.part state.old.comments ≡ true }
    requires two { state.old.at + 2 ≤ length text.now }
    requires found { found_at text.now (where_of state.old) state.old.at ≡
        comment_begin long (where_of state.old) state.old.at (bytes_at text.now state.old.at) }
    ensures gives { Gives (coming text.now state.old) result (coming text.now state.new) }
    ensures ready { IsReady text.now state.new }
{
    let token = token(text, state.at, 2, kind_of(long), state.part.in_hash_line());
    state.comments.push(Opened {
        start: state.at,
        long,
        braces: 0,
        inner: false,
    });
    state.at += 2;
    state.part = state.part.passed();
    Lexed::Begin(token)
}

/// Answers that inner C text of TeX text or of a comment ends at its bar.
#[inline(never)]
pub(crate) fn end_inner<'a>(text: &'a [u8], state: &mut State) -> Lexed<'a>
    requires step { CanStep text.now state.old }
    requires found { found_at text.now (where_of state.old) state.old.at ≡ inner_end (where_of state.old) state.old.at
        (bytes_at text.now state.old.at) }
    ensures gives { Gives (coming text.now state.old) result (coming text.now state.new) }
    ensures ready { IsReady text.now state.new }
{
    match state.comments.top() {
        Some(comment) => end_comment_inner(text, state, comment),
        None => end_tex_inner(text, state),
    }
}

fn end_tex_inner<'a>(text: &'a [u8], state: &mut State) -> Lexed<'a>
    requires step { CanStep text.now state.old }
    requires comments { state.old.comments ≡ [] }
    requires found { found_at text.now (where_of state.old) state.old.at ≡ inner_end (where_of state.old) state.old.at
        (bytes_at text.now state.old.at) }
    ensures gives { Gives (coming text.now state.old) result (coming text.now state.new) }
    ensures ready { IsReady text.now state.new }
{
    let token = token(
        text,
        state.at,
        1,
        TokKind::InnerText,
        state.part.in_hash_line(),
    );
    state.part = Part::Tex;
    state.at += 1;
    Lexed::Finish(token)
}

fn end_comment_inner<'a>(text: &'a [u8], state: &mut State, comment: Opened) -> Lexed<'a>
    requires step { CanStep text.now state.old }
    requires top { state.old.comments ≡ comment ∷ drop 1 state.old.comments }
    requires found { found_at text.now (where_of state.old) state.old.at ≡ inner_end (where_of state.old) state.old.at
        (bytes_at text.now state.old.at) }
    ensures gives { Gives (coming text.now state.old) result (coming text.now state.new) }
    ensures ready { IsReady text.now state.new }
{
    let token = token(
        text,
        state.at,
        1,
        TokKind::InnerText,
        state.part.in_hash_line(),
    );
    state.comments.set_top(Opened {
        start: comment.start,
        long: comment.long,
        braces: comment.braces,
        inner: false,
    });
    state.part = state.part.passed();
    state.at += 1;
    Lexed::Finish(token)
}

/// The text of the innermost comment.
pub(crate) fn comment_text<'a>(text: &'a [u8], state: &mut State, comment: Opened) -> Lexed<'a>
    requires step { CanStep text.now state.old }
    requires top { state.old.comments ≡ comment ∷ drop 1 state.old.comments }
    requires text { comment.inner ≡ false }
    requires section { (slice_index text.now state.old.at == 64 && begins_section (drop (state.old.at + 1) text.now)) ≡
        false }
    requires found { found_at text.now (where_of state.old) state.old.at ≡
        comment_text comment (drop 1 state.old.comments) (spot_at text.now (where_of state.old) state.old.at)
        (slice_index text.now state.old.at) (drop (state.old.at + 1) text.now) }
    ensures gives { Gives (coming text.now state.old) result (coming text.now state.new) }
    ensures ready { IsReady text.now state.new }
{
    let byte = text[state.at];
    if closes(comment, byte, from(text, state.at + 1)) {
        return end_comment(text, state, comment);
    }
    if closes_at_line(comment, byte) {
        return end_short_comment(text, state, comment);
    }
    let deep = state.part.first_depth() + state.comments.len() > 20;
    if opens_inner(byte, deep) {
        return begin_inner(text, state, comment);
    }
    piece(text, state, comment, deep)
}

fn closes(comment: Opened, byte: u8, rest: &[u8]) -> bool
    ensures value { result ≡ (comment.long && (byte == 42 && begins 47 rest.now)) }
    ensures some { result ≡ true → 0 < length rest.now }
{
    comment.long && byte == b'*' && begins(b'/', rest)
}

fn closes_at_line(comment: Opened, byte: u8) -> bool
    ensures value { result ≡ (not comment.long && byte == 10) }
    ensures newline { result ≡ true → byte ≡ 10 }
{
    !comment.long && byte == b'\n'
}

fn opens_inner(byte: u8, deep: bool) -> bool
    ensures value { result ≡ (byte == 124 && not deep) }
    ensures deep { result ≡ true → deep ≡ false }
{
    byte == b'|' && !deep
}

// Answers that the comment ends by its own bytes.
fn end_comment<'a>(text: &'a [u8], state: &mut State, comment: Opened) -> Lexed<'a>
    requires step { CanStep text.now state.old }
    requires top { state.old.comments ≡ comment ∷ drop 1 state.old.comments }
    requires two { state.old.at + 2 ≤ length text.now }
    requires found { found_at text.now (where_of state.old) state.old.at ≡
        comment_closed state.old.part comment (drop 1 state.old.comments) state.old.at
        (bytes_at text.now state.old.at) }
    ensures gives { Gives (coming text.now state.old) result (coming text.now state.new) }
    ensures ready { IsReady text.now state.new }
{
    let token = token(
        text,
        state.at,
        2,
        kind_of(comment.long),
        state.part.in_hash_line(),
    );
    state.pending = braces_note(comment, state.at);
    state.comments.pop();
    state.at += 2;
    Lexed::Finish(token)
}

// The note where a comment that ends at a place has open braces.
fn braces_note(comment: Opened, place: usize) -> Pending
    ensures { result ≡ record no_notes { first = note_unless (comment.braces == 0) NoteKind.MissingBrace place } }
{
    Pending {
        first: note_unless(comment.braces == 0, NoteKind::MissingBrace, place),
        second: None,
        body: None,
        last: None,
    }
}

// Answers that the line's end ends the comment. The line's end itself is not taken.
fn end_short_comment<'a>(text: &'a [u8], state: &mut State, comment: Opened) -> Lexed<'a>
    requires step { CanStep text.now state.old }
    requires top { state.old.comments ≡ comment ∷ drop 1 state.old.comments }
    requires newline { slice_index text.now state.old.at ≡ 10 }
    requires found { found_at text.now (where_of state.old) state.old.at ≡
        before (comment_end (in_hash_line state.old.part) comment state.old.at 0 [])
        (line_end state.old.part (drop 1 state.old.comments) (last_at text.now state.old.at) state.old.at) }
    ensures gives { Gives (coming text.now state.old) result (coming text.now state.new) }
    ensures ready { IsReady text.now state.new }
{
    let token = token(
        text,
        state.at,
        0,
        kind_of(comment.long),
        state.part.in_hash_line(),
    );
    state.pending = braces_note(comment, state.at);
    state.comments.pop();
    Lexed::Finish(token)
}

// Answers that inner C text begins in the comment.
fn begin_inner<'a>(text: &'a [u8], state: &mut State, comment: Opened) -> Lexed<'a>
    requires step { CanStep text.now state.old }
    requires top { state.old.comments ≡ comment ∷ drop 1 state.old.comments }
    requires depth { length state.old.comments ≤ 20 }
    requires found { found_at text.now (where_of state.old) state.old.at ≡ inner_begin (in_hash_line state.old.part)
        (record { part = state.old.part; comments = with_inner comment true ∷ drop 1 state.old.comments }) state.old.at
        (bytes_at text.now state.old.at) }
    ensures gives { Gives (coming text.now state.old) result (coming text.now state.new) }
    ensures ready { IsReady text.now state.new }
{
    let token = token(
        text,
        state.at,
        1,
        TokKind::InnerText,
        state.part.in_hash_line(),
    );
    state.comments.set_top(Opened {
        start: comment.start,
        long: comment.long,
        braces: comment.braces,
        inner: true,
    });
    state.at += 1;
    Lexed::Begin(token)
}

// Answers a piece of the comment's text.
fn piece<'a>(text: &'a [u8], state: &mut State, comment: Opened, deep: bool) -> Lexed<'a>
    requires step { CanStep text.now state.old }
    requires top { state.old.comments ≡ comment ∷ drop 1 state.old.comments }
    requires text { comment.inner ≡ false }
    requires deep { deep ≡ is_deep state.old.part state.old.comments }
    requires goes { stops (Body.Piece comment.long deep) 0 (slice_index text.now state.old.at)
        (drop (state.old.at + 1) text.now) ≡ false }
    requires found { found_at text.now (where_of state.old) state.old.at ≡
        piece state.old.part (drop 1 state.old.comments) comment state.old.at (bytes_at text.now state.old.at) }
    ensures gives { Gives (coming text.now state.old) result (coming text.now state.new) }
    ensures ready { IsReady text.now state.new }
{
    let inside = Inside {
        body: Body::Piece {
            long: comment.long,
            deep,
        },
        braces: comment.braces,
        place: state.at,
        before: 0,
        along: false,
    };
    let walked = walk(inside, text);
    let end = walked.stop;
    let size = end.place - state.at;
    let token = token(
        text,
        state.at,
        size,
        TokKind::Text,
        state.part.in_hash_line(),
    );
    state.comments.set_top(Opened {
        start: comment.start,
        long: comment.long,
        braces: end.braces,
        inner: false,
    });
    state.pending = Pending {
        first: None,
        second: None,
        body: walked.notes,
        last: None,
    };
    state.at = end.place;
    Lexed::Token(token)
}
