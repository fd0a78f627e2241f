//! A scanner whose answers are kept as they come.
ghost use Rattle.std.specs.Prelude.{◌≡◌, ◌≤◌, ◌<◌, ◌^◌, [], length, IfOk, OnErr, None, Some};
ghost use Rattle.cw_rules.specs.Answers.{Gives};
ghost use Rattle.cw_lex.specs.Lexing.{tokens_of};
ghost use Rattle.cw_answers.specs.Reading.{Stays};
ghost use Rattle.cw_answers.specs.model.Reading.{Goes, GoesByNote};

use crate::answers::Answers;
use crate::kept_answer::{KeptAnswer, NotePlace, Stretch};
use cw_base::{Memory, NoteKind, Span};
use cw_lex::{Lexed, Lexer, Mode};
use std::alloc::Global;
use std::marker::Model;
use std::mem;

/// What is kept of a scan, and whether that is each answer so far.
#[derive(Drop)]
pub(crate) struct Room {
    items: Vec<KeptAnswer>,
    whole: bool,
}

impl Room {
    // Keeps an answer behind those before it. Where there is no memory for it, none is kept from then on.
    #[inline(always)]
    fn push(&mut self, one: KeptAnswer)
        ensures { Goes self.old one self.new }
    {
        if self.whole {
            self.whole = self.items.push(one).is_ok();
        }
    }

    // The same for a note.
    fn push_note(&mut self, kind: NoteKind, place: usize)
        ensures { GoesByNote self.old kind place self.new }
    {
        match NotePlace::of(kind, place) {
            Ok(note) => self.push(KeptAnswer::Note(note)),
            Err(_) => self.whole = false,
        }
    }
}

/// A scanner that may keep its answers. It is seen as those that are still to come, and as all answers of the scan
/// where each is kept: those that are kept, and those still to come.
#[derive(Drop)]
pub struct Reader<'a> {
    text: &'a [u8],
    lexer: Lexer<'a>,
    room: Room,
}

impl<'a> Model for Reader<'a> {
    ghost use Rattle.std.specs.Prelude.{◌++◌};
    ghost use Rattle.cw_answers.specs.model.Kept.{answers_at};
    ghost use Rattle.cw_answers.specs.Reading.{Reading};
    ghost use Rattle.cw_answers.specs.model.Reading.{IsReading, all_of};

    ghost Value = { Reading };

    ghost view = { λ r. record {
      coming = r.lexer;
      all = all_of r.room.whole (answers_at r.text.now r.room.items.items ++ r.lexer);
    } };

    ghost invariant = { λ r. IsReading r.text.now r.room r.lexer };
}

impl<'a> Reader<'a> {
    /// A scanner of a span that keeps no answer. It takes no memory.
    pub fn over(alloc: Global, text: &'a [u8], span: Span, mode: Mode) -> Reader<'a>
        requires order { span.start ≤ span.end }
        requires within { span.end ≤ length text.now }
        requires short { length text.now < 2 ^ 32 }
        ensures { result.coming ≡ tokens_of text.now span.start span.end mode }
    {
        Reader {
            text,
            lexer: Lexer::over(text, span.start, span.end, mode),
            room: Room {
                items: Vec::new(alloc),
                whole: false,
            },
        }
    }

    /// Begins anew over a span, in its own place, and keeps its answers in the vector of those that were kept before,
    /// which is made as large as most texts want it.
    pub fn restart(&mut self, room: Answers<'a>, text: &'a [u8], span: Span, mode: Mode)
        requires order { span.start ≤ span.end }
        requires within { span.end ≤ length text.now }
        requires short { length text.now < 2 ^ 32 }
        ensures coming { self.new.coming ≡ tokens_of text.now span.start span.end mode }
        ensures all { Stays (Some (tokens_of text.now span.start span.end mode)) self.new.all }
    {
        let mut items = room.into_room();
        items.clear();
        let whole = items.reserve(first_room(span)).is_ok();
        self.room = Room { items, whole };
        self.text = text;
        self.lexer.restart(text, span.start, span.end, mode);
    }

    /// The next answer. Where there is no memory to keep it, none is kept from then on.
    #[inline(always)]
    pub fn next(&mut self) -> Lexed<'a>
        ensures gives { Gives self.old.coming result self.new.coming }
        ensures all { Stays self.old.all self.new.all }
    {
        // It is kept by what it is, so that this is asked once.
        match self.lexer.next() {
            Lexed::Token(token) => {
                self.room
                    .push(KeptAnswer::Token(Stretch::of(self.text, &token)));
                Lexed::Token(token)
            }
            Lexed::Begin(token) => {
                self.room
                    .push(KeptAnswer::Begin(Stretch::of(self.text, &token)));
                Lexed::Begin(token)
            }
            Lexed::Finish(token) => {
                self.room
                    .push(KeptAnswer::Finish(Stretch::of(self.text, &token)));
                Lexed::Finish(token)
            }
            Lexed::Note(kind, place) => {
                self.room.push_note(kind, place);
                Lexed::Note(kind, place)
            }
            Lexed::End => Lexed::End,
        }
    }

    /// Hands out all answers of the scan, where all have come, and keeps none; `Memory` where not each is kept.
    pub fn take_answers(&mut self, alloc: Global) -> Result<Answers<'a>, Memory>
        requires { self.old.coming ≡ [] }
        ensures answers { IfOk result (λ answers. self.old.all ≡ Some answers) }
        ensures memory { OnErr result (self.old.all ≡ None) }
        ensures coming { self.new.coming ≡ [] }
        ensures all { self.new.all ≡ None }
    {
        if !self.room.whole {
            return Err(Memory);
        }
        self.room.whole = false;
        let items = mem::replace(&mut self.room.items, Vec::new(alloc));
        Ok(Answers::of(self.text, items))
    }
}

// For how many answers there is capacity at first: most texts have no more, so that they are never moved.
fn first_room(span: Span) -> usize
    requires order { span.start ≤ span.end }
{
    (span.end - span.start).min(4096) / 4 + 8
}
