//! An answer of the scanner, without the bytes of the text.
ghost use Rattle.std.specs.Prelude.{◌≡◌, ◌<◌, ◌^◌, ◌∷◌, List, length, IfOk};
ghost use Rattle.cw_rules.specs.Answers.{Answer, Gives, seen};
ghost use Rattle.cw_answers.specs.model.Kept.{seen_at, answer_at, IsWithin, LiesIn, StandsIn};

use cw_base::{Memory, NoteKind, Span};
use cw_lex::{Directive, Lexed, Tok, TokKind};

/// A token, by where its bytes lie in the text.
#[derive(Clone, Copy)]
pub(crate) struct Stretch {
    kind: TokKind,
    hash_line: bool,
    directive: Directive,
    start: u32,
    end: u32,
}

/// A note, and the place that it is about.
#[derive(Clone, Copy)]
pub(crate) struct NotePlace {
    kind: NoteKind,
    place: u32,
}

/// An answer of the scanner, by where its bytes lie in the text.
#[derive(Clone, Copy)]
pub(crate) enum KeptAnswer {
    Token(Stretch),
    Begin(Stretch),
    Finish(Stretch),
    Note(NotePlace),
}

impl Stretch {
    /// Where a token of the text lies.
    #[inline(always)]
    pub(crate) fn of(text: &[u8], token: &Tok) -> Stretch
        requires stands { StandsIn text.now (seen token.now) }
        requires short { length text.now < 2 ^ 32 }
        ensures same { seen_at text.now result ≡ seen token.now }
        ensures within { LiesIn (length text.now) result }
    {
        Stretch {
            kind: token.kind,
            hash_line: token.hash_line,
            directive: token.directive,
            start: token.span.start as u32,
            end: token.span.end as u32,
        }
    }

    /// The token itself.
    #[inline(always)]
    fn token<'a>(&self, text: &'a [u8]) -> Tok<'a>
        requires { LiesIn (length text.now) self.now }
        ensures { seen result ≡ seen_at text.now self.now }
    {
        let start = self.start as usize;
        let end = self.end as usize;
        Tok {
            kind: self.kind,
            text: &text[start..end],
            span: Span { start, end },
            hash_line: self.hash_line,
            directive: self.directive,
        }
    }
}

impl NotePlace {
    /// `Memory` where the place is beyond 2^32: no such place is in a text that is kept.
    pub(crate) fn of(kind: NoteKind, place: usize) -> Result<NotePlace, Memory>
        ensures { IfOk result (λ note. (note.kind ≡ kind) × (note.place ≡ place)) }
    {
        let Ok(place) = u32::try_from(place) else {
            return Err(Memory);
        };
        Ok(NotePlace { kind, place })
    }
}

impl KeptAnswer {
    /// The answer itself.
    #[inline(always)]
    pub(crate) fn answer<'a>(&self, text: &'a [u8]) -> Lexed<'a>
        requires { IsWithin (length text.now) self.now }
        ensures { (rest : List Answer) → Gives (answer_at text.now self.now ∷ rest) result rest }
    {
        match self {
            KeptAnswer::Token(stretch) => Lexed::Token(stretch.token(text)),
            KeptAnswer::Begin(stretch) => Lexed::Begin(stretch.token(text)),
            KeptAnswer::Finish(stretch) => Lexed::Finish(stretch.token(text)),
            KeptAnswer::Note(note) => Lexed::Note(note.kind, note.place as usize),
        }
    }
}
