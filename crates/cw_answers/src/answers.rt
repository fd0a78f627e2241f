//! All answers of a scan, which are kept.
ghost use Rattle.std.specs.Prelude.{◌≡◌, ◌≤◌, ◌<◌, ◌+◌, [], All, drop, length, OnErr, OnOk};
ghost use Rattle.cw_rules.specs.Answers.{Gives};
ghost use Rattle.cw_lex.specs.Lexing.{tokens_of};
ghost use Rattle.cw_answers.specs.model.Kept.{BeginWith, IsWithin, answers_at};

use crate::kept_answer::{KeptAnswer, NotePlace, Stretch};
use cw_base::{Memory, Span};
use cw_lex::{Lexed, Lexer, Mode};
use std::alloc::Global;
use std::marker::Model;

/// All answers of a scan, in their order: sixteen bytes for each. It is seen as their list.
#[derive(Drop)]
pub struct Answers<'a> {
    text: &'a [u8],
    kept: Vec<KeptAnswer>,
}

impl<'a> Model for Answers<'a> {
    ghost use Rattle.std.specs.Prelude.{List, length};
    ghost use Rattle.std.specs.List.{All};
    ghost use Rattle.cw_rules.specs.Answers.{Answer};
    ghost use Rattle.cw_answers.specs.model.Kept.{answers_at, IsWithin};

    ghost Value = { List Answer };

    ghost view = { λ a. answers_at a.text.now a.kept.items };

    ghost invariant = { λ a. All (IsWithin (length a.text.now)) a.kept.items };
}

impl<'a> Answers<'a> {
    /// No answers. It takes no memory.
    pub fn new_in(alloc: Global) -> Answers<'a>
        ensures { result ≡ [] }
    {
        Answers {
            text: b"",
            kept: Vec::new(alloc),
        }
    }

    // Those of a text that are kept.
    pub(crate) fn of(text: &'a [u8], kept: Vec<KeptAnswer>) -> Answers<'a>
        requires { All (IsWithin (length text.now)) kept.items }
        ensures { result ≡ answers_at text.now kept.items }
    {
        Answers { text, kept }
    }

    // The vector in which they are kept.
    #[inline(always)]
    pub(crate) fn into_room(self) -> Vec<KeptAnswer> {
        self.kept
    }

    /// Scans a span, and keeps its answers in the vector of those before. After `Memory` it keeps some of
    /// them, from the first on. `Memory` answers a text of 2^32 bytes or more too, since places are kept in 32 bits.
    pub fn scan(&mut self, text: &'a [u8], span: Span, mode: Mode) -> Result<(), Memory>
        requires order { span.start ≤ span.end }
        requires within { span.end ≤ length text.now }
        ensures ok { OnOk result (self.new ≡ tokens_of text.now span.start span.end mode) }
        ensures err { OnErr result (BeginWith (tokens_of text.now span.start span.end mode) self.new) }
    {
        self.kept.clear();
        self.text = text;
        if text.len() > u32::MAX as usize {
            return Err(Memory);
        }
        let mut lexer = Lexer::over(text, span.start, span.end, mode);
        loop {
            let kept = match lexer.next() {
                Lexed::Token(token) => KeptAnswer::Token(Stretch::of(text, &token)),
                Lexed::Begin(token) => KeptAnswer::Begin(Stretch::of(text, &token)),
                Lexed::Finish(token) => KeptAnswer::Finish(Stretch::of(text, &token)),
                Lexed::Note(kind, place) => KeptAnswer::Note(NotePlace::of(kind, place)?),
                Lexed::End => return Ok(()),
            };
            self.kept.push(kept)?;
        }
    }

    /// How many there are.
    #[inline(always)]
    pub fn len(&self) -> usize
        ensures { result ≡ length self.now }
    {
        self.kept.len()
    }

    /// The answer behind so many.
    #[inline(always)]
    pub fn at(&self, place: usize) -> Lexed<'a>
        requires { place < length self.now }
        ensures { Gives (drop place self.now) result (drop (place + 1) self.now) }
    {
        self.kept[place].answer(self.text)
    }
}
