//! The notes of a token that are still to be answered.
ghost use Rattle.std.specs.Prelude.{◌≡◌, ◌∷◌, [], true, length, MatchOption};
ghost use Rattle.cw_rules.specs.Pending.{pending_notes, IsInside, no_notes};

use crate::bodies::{Inside, NoteAt, next_noted};

/// The notes of the last token that are still to be answered, in this order. Those of a body are found from
/// a place inside it.
#[derive(Clone, Copy)]
pub struct Pending {
    /// The first note.
    pub first: Option<NoteAt>,
    /// The second note.
    pub second: Option<NoteAt>,
    /// The place inside a body from which its notes are found.
    pub body: Option<Inside>,
    /// The note behind those of the body.
    pub last: Option<NoteAt>,
}

impl Pending {
    /// No note.
    pub fn new() -> Pending
        ensures { result ≡ no_notes }
    {
        Pending {
            first: None,
            second: None,
            body: None,
            last: None,
        }
    }

    /// Whether no note is left to look for.
    #[inline(always)]
    pub fn is_quiet(&self) -> bool
        ensures none { result ≡ true → self.now ≡ no_notes }
        ensures only { self.now ≡ no_notes → result ≡ true }
    {
        self.first.is_none() && self.second.is_none() && self.body.is_none() && self.last.is_none()
    }

    /// The next note, which is taken out.
    pub fn next(&mut self, text: &[u8]) -> Option<NoteAt>
        requires { IsInside (length text.now) self.old.body }
        ensures value { MatchOption result (pending_notes text.now self.old ≡
            []) (λ n. pending_notes text.now self.old ≡ n ∷ pending_notes text.now self.new) }
        ensures quiet { MatchOption result (self.new ≡ no_notes) (λ _. Unit {0}) }
        ensures inside { IsInside (length text.now) self.new.body }
    {
        if let Some(note) = self.first {
            self.first = None;
            return Some(note);
        }
        if let Some(note) = self.second {
            self.second = None;
            return Some(note);
        }
        self.next_of_body(text)
    }

    // The same where the first two are answered.
    fn next_of_body(&mut self, text: &[u8]) -> Option<NoteAt>
        requires inside { IsInside (length text.now) self.old.body }
        requires first { self.old.first ≡ None }
        requires second { self.old.second ≡ None }
        ensures value { MatchOption result (pending_notes text.now self.old ≡
            []) (λ n. pending_notes text.now self.old ≡ n ∷ pending_notes text.now self.new) }
        ensures quiet { MatchOption result (self.new ≡ no_notes) (λ _. Unit {0}) }
        ensures inside { IsInside (length text.now) self.new.body }
    {
        match self.body {
            Some(inside) => {
                let mut inside = inside;
                match next_noted(&mut inside, text) {
                    Some(note) => {
                        self.body = Some(inside);
                        Some(note)
                    }
                    None => {
                        self.body = None;
                        self.last.take()
                    }
                }
            }
            None => self.last.take(),
        }
    }
}
