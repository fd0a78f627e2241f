//! What ends at a section code and at the end of the text.
ghost use Rattle.std.specs.Prelude.{◌≡◌, ◌<◌, ◌+◌, ◌-◌, ◌∷◌, ◌++◌, [], true, false, ◌==◌, ◌&&◌, length, drop};
ghost use Rattle.std.specs.Prelude.{slice_index, Some, MatchOption};
ghost use Rattle.cw_rules.specs.Answers.{note_answers};
ghost use Rattle.cw_rules.specs.Codes.{begins_section};
ghost use Rattle.cw_rules.specs.Pending.{pending_notes, no_notes};
ghost use Rattle.cw_rules.specs.Bodies.{note_unless};
ghost use Rattle.cw_rules.specs.Tokens.{all_cut};
ghost use Rattle.cw_rules.specs.Tokens.{section};
ghost use Rattle.cw_lex.specs.model.Coming.{CutsOff, IsReady};

use crate::comment_text::kind_of;
use crate::giving::{give, token};
use crate::state::State;
use crate::{Lexed, TokKind};
use cw_base::NoteKind;
use cw_rules::classes::from;
use cw_rules::codes::begins_section;
use cw_rules::cuttings::{note_unless, section_code};
use cw_rules::parts::{Opened, Part};
use cw_rules::pending::Pending;

/// Whether a section code stands at a place.
pub(crate) fn is_section_at(text: &[u8], at: usize) -> bool
    requires { at < length text.now }
    ensures { result ≡ (slice_index text.now at == 64 && begins_section (drop (at + 1) text.now)) }
{
    text[at] == b'@' && begins_section(from(text, at + 1))
}

/// The next of what is open, which ends at the scanner's place. Its notes are about the byte at `about`.
pub(crate) fn cut_off<'a>(text: &'a [u8], state: &mut State, about: usize) -> Option<Lexed<'a>>
    requires ready { IsReady text.now state.old }
    requires quiet { state.old.pending ≡ no_notes }
    ensures answer { CutsOff (all_cut state.old.part state.old.comments state.old.at about) result
        (note_answers (pending_notes text.now state.new.pending) ++ all_cut state.new.part state.new.comments
        state.new.at about) }
    ensures at { state.new.at ≡ state.old.at }
    ensures none { MatchOption result ((state.new ≡ state.old) × (state.old.comments ≡ [])) (λ _. Unit {0}) }
    ensures ready { IsReady text.now state.new }
{
    match state.comments.top() {
        Some(comment) => {
            if comment.inner {
                Some(cut_off_inner(text, state, comment, about))
            } else {
                Some(cut_off_comment(text, state, comment, about))
            }
        }
        None => cut_off_part(text, state, about),
    }
}

fn bar_missing(about: usize) -> Pending
    ensures { result ≡ record no_notes { first = note_unless false NoteKind.BarMissing about } }
{
    Pending {
        first: note_unless(false, NoteKind::BarMissing, about),
        second: None,
        body: None,
        last: None,
    }
}

fn cut_off_inner<'a>(text: &'a [u8], state: &mut State, comment: Opened, about: usize) -> Lexed<'a>
    requires ready { IsReady text.now state.old }
    requires top { state.old.comments ≡ comment ∷ drop 1 state.old.comments }
    requires inner { comment.inner ≡ true }
    ensures answer { CutsOff (all_cut state.old.part state.old.comments state.old.at about) (Some result)
        (note_answers (pending_notes text.now state.new.pending) ++ all_cut state.new.part state.new.comments
        state.new.at about) }
    ensures at { state.new.at ≡ state.old.at }
    ensures ready { IsReady text.now state.new }
{
    let token = token(
        text,
        state.at,
        0,
        TokKind::InnerText,
        state.part.in_hash_line(),
    );
    state.comments.set_top(Opened {
        start: comment.start,
        long: comment.long,
        braces: comment.braces,
        inner: false,
    });
    state.pending = bar_missing(about);
    Lexed::Finish(token)
}

fn cut_off_comment<'a>(
    text: &'a [u8],
    state: &mut State,
    comment: Opened,
    about: usize,
) -> Lexed<'a>
    requires ready { IsReady text.now state.old }
    requires top { state.old.comments ≡ comment ∷ drop 1 state.old.comments }
    requires text { comment.inner ≡ false }
    ensures answer { CutsOff (all_cut state.old.part state.old.comments state.old.at about) (Some result)
        (note_answers (pending_notes text.now state.new.pending) ++ all_cut state.new.part state.new.comments
        state.new.at about) }
    ensures at { state.new.at ≡ state.old.at }
    ensures ready { IsReady text.now state.new }
{
    let token = token(
        text,
        state.at,
        0,
        kind_of(comment.long),
        state.part.in_hash_line(),
    );
    state.pending = comment_notes(comment, about);
    state.comments.pop();
    Lexed::Finish(token)
}

fn comment_notes(comment: Opened, about: usize) -> Pending
    ensures { result ≡ record no_notes {
      first = note_unless false NoteKind.CommentUnended comment.start;
      second = note_unless (comment.braces == 0) NoteKind.MissingBrace about;
    } }
{
    Pending {
        first: note_unless(false, NoteKind::CommentUnended, comment.start),
        second: note_unless(comment.braces == 0, NoteKind::MissingBrace, about),
        body: None,
        last: None,
    }
}

fn cut_off_part<'a>(text: &'a [u8], state: &mut State, about: usize) -> Option<Lexed<'a>>
    requires ready { IsReady text.now state.old }
    requires quiet { state.old.pending ≡ no_notes }
    requires comments { state.old.comments ≡ [] }
    ensures answer { CutsOff (all_cut state.old.part state.old.comments state.old.at about) result
        (note_answers (pending_notes text.now state.new.pending) ++ all_cut state.new.part state.new.comments
        state.new.at about) }
    ensures at { state.new.at ≡ state.old.at }
    ensures none { MatchOption result ((state.new ≡ state.old) × (state.old.comments ≡ [])) (λ _. Unit {0}) }
    ensures ready { IsReady text.now state.new }
{
    match state.part {
        Part::TexInner => {
            let token = token(text, state.at, 0, TokKind::InnerText, false);
            state.part = Part::Tex;
            state.pending = bar_missing(about);
            Some(Lexed::Finish(token))
        }
        Part::MacroName { code } | Part::MacroParen { code } | Part::Parameters { code } => {
            state.part = Part::Definition;
            Some(Lexed::Note(NoteKind::ImproperMacro, code))
        }
        Part::FormatName { code, .. } => {
            state.part = Part::Limbo;
            Some(Lexed::Note(NoteKind::ImproperFormat, code))
        }
        Part::Limbo
        | Part::Tex
        | Part::Begin
        | Part::Plain { .. }
        | Part::Definition
        | Part::Inner
        | Part::Head => None,
    }
}
