//! The counter of steps, with a ledger that keeps its number and one whose number contracts alone see.
ghost use Rattle.std.specs.Prelude.{◌≡◌, ℕ, ◌+◌, ◌-◌, ◌^◌, min};

use std::marker::Model;

/// How steps are counted: contracts see a number, and the kind decides what is kept at run time.
pub trait Ledger: Drop {
    ghost counted: { Self → ℕ };

    /// A ledger that stands at 0.
    fn empty() -> Self
        ensures { counted result ≡ 0 };

    /// Counts one step.
    fn tick(&mut self)
        ensures { counted self.new ≡ counted self.old + 1 };
}

/// A ledger that holds nothing at run time. Its number is seen by contracts alone.
#[derive(Drop)]
pub struct Silent {
    pub ghost count: { ℕ },
}

impl Model for Silent {
    ghost use Rattle.std.specs.Borrow.{ftrue};

    ghost also_owns = { λ _. ftrue };
}

impl Silent {
    pub(crate) fn new() -> Silent
        ensures { result.count ≡ 0 }
    {
        Silent {}
    }

    pub(crate) fn after(_before: &Silent) -> Silent
        ensures { result.count ≡ _before.now.count + 1 }
    {
        Silent {}
    }
}

impl Ledger for Silent {
    ghost counted = { λ s. s.count };

    fn empty() -> Silent {
        Silent::new()
    }

    fn tick(&mut self) {
        *self = Silent::after(self);
    }
}

/// A ledger that keeps its number, up to the greatest `u64`.
#[derive(Drop)]
pub struct Kept {
    exact: Silent,
    count: u64,
    pub ghost kept: { count ≡ min exact.count (2 ^ 64 - 1) },
}

impl Ledger for Kept {
    ghost counted = { λ k. k.exact.count };

    fn empty() -> Kept {
        Kept {
            exact: Silent::new(),
            count: 0,
        }
    }

    fn tick(&mut self) {
        self.exact.tick();
        self.count = self.count.saturating_add(1);
    }
}

/// A counter of steps, which contracts see as a number without an end.
#[derive(Drop)]
pub struct Steps<L: Ledger> {
    ledger: L,
}

impl<L: Ledger> Model for Steps<L> {
    ghost Value = { ℕ };

    ghost view = { λ s. L.counted s.ledger };
}

impl<L: Ledger> Steps<L> {
    /// A counter that stands at 0.
    pub fn new() -> Steps<L>
        ensures { result ≡ 0 }
    {
        Steps { ledger: L::empty() }
    }

    /// Counts one step.
    pub fn tick(&mut self)
        ensures { self.new ≡ self.old + 1 }
    {
        self.ledger.tick();
    }
}

impl Steps<Kept> {
    /// The number of steps counted, or the greatest `u64` where it is larger.
    pub fn count(&self) -> u64
        ensures { result ≡ min self.now (2 ^ 64 - 1) }
    {
        self.ledger.count
    }
}
