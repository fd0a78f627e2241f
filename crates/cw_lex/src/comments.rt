//! The open comments, as deep as inner C text may stand.
ghost use Rattle.std.specs.Prelude.{◌≡◌, ◌<◌, ◌≤◌, [], ◌∷◌, length, drop, MatchOption};
ghost use Rattle.cw_lex.specs.model.Stack.{IsWhole, opened_at, with_opened};

use cw_rules::parts::Opened;
use std::marker::Model;

/// What is known of the open comments, the outermost first. A row for each takes half the space, and each scan makes
/// them anew.
#[derive(Drop)]
pub(crate) struct Rows {
    starts: [usize; 21],
    braces: [usize; 21],
    long: [bool; 21],
    inner: [bool; 21],
}

impl Rows {
    // The comment at a place.
    #[inline(always)]
    fn at(&self, place: usize) -> Opened
        requires whole { IsWhole self.now }
        requires place { place < 21 }
        ensures { result ≡ opened_at self.now place }
    {
        Opened {
            start: self.starts[place],
            long: self.long[place],
            braces: self.braces[place],
            inner: self.inner[place],
        }
    }

    // Puts a comment at a place.
    #[inline(always)]
    fn put(&mut self, place: usize, comment: Opened)
        requires whole { IsWhole self.old }
        requires place { place < 21 }
        ensures { self.new ≡ with_opened self.old place comment }
    {
        self.starts[place] = comment.start;
        self.long[place] = comment.long;
        self.braces[place] = comment.braces;
        self.inner[place] = comment.inner;
    }
}

/// The comments that are open. They are seen with the innermost first.
#[derive(Drop)]
pub(crate) struct Comments {
    rows: Rows,
    count: usize,
}

impl Model for Comments {
    ghost use Rattle.std.specs.Prelude.{◌≤◌, List};
    ghost use Rattle.cw_rules.specs.declared.parts.Opened.{Opened};

    ghost Value = { List Opened };

    ghost use Rattle.cw_lex.specs.model.Stack.{IsWhole, innermost};

    ghost view = { λ c. innermost c.rows c.count };

    ghost invariant = { λ c. (c.count ≤ 21) × IsWhole c.rows };
}

impl Comments {
    pub(crate) fn new() -> Comments
        ensures { result ≡ [] }
    {
        Comments {
            rows: Rows {
                starts: [0; 21],
                braces: [0; 21],
                long: [false; 21],
                inner: [false; 21],
            },
            count: 0,
        }
    }

    /// No comment is open any more. What was known of them stays in its place.
    pub(crate) fn clear(&mut self)
        ensures { self.new ≡ [] }
    {
        self.count = 0;
    }

    pub(crate) fn len(&self) -> usize
        ensures value { result ≡ length self.now }
        ensures most { length self.now ≤ 21 }
    {
        self.count
    }

    /// The innermost comment.
    pub(crate) fn top(&self) -> Option<Opened>
        ensures { MatchOption result (self.now ≡ []) (λ c. self.now ≡ c ∷ drop 1 self.now) }
    {
        if self.count == 0 {
            return None;
        }
        Some(self.rows.at(self.count - 1))
    }

    pub(crate) fn push(&mut self, comment: Opened)
        requires { length self.old < 21 }
        ensures { self.new ≡ comment ∷ self.old }
    {
        self.rows.put(self.count, comment);
        self.count += 1;
    }

    /// Changes the innermost comment.
    pub(crate) fn set_top(&mut self, comment: Opened)
        requires some { 0 < length self.old }
        requires most { length self.old ≤ 21 }
        ensures { self.new ≡ comment ∷ drop 1 self.old }
    {
        let _ = self.pop();
        self.push(comment);
    }

    pub(crate) fn pop(&mut self) -> Option<Opened>
        ensures value { MatchOption result ((self.old ≡ []) × (self.new ≡ [])) (λ c. self.old ≡ c ∷ self.new) }
        ensures rest { self.new ≡ drop 1 self.old }
    {
        if self.count == 0 {
            return None;
        }
        self.count -= 1;
        Some(self.rows.at(self.count))
    }
}
