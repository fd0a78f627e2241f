//! Marks: numbers by which the names near a text are found.
ghost use Rattle.std.specs.Prelude.{◌≡◌, ℕ, true, List, ◌++◌, IfOk, OnOk};
ghost use Rattle.cw_secnames.specs.Marks.{is_one_of};
ghost use Rattle.cw_secnames.specs.model.Marks.{first_mark, Has, HasAll, is_kept_length, IsMarked, IsNear, KeepsMarks};
ghost use Rattle.cw_secnames.specs.model.Marks.{last_kept, next_mark, wholes_at};

use crate::SecKind;
use crate::tables::Tables;
use cw_base::Memory;
use std::alloc::Global;

/// The positions of names, by marks. A mark is made of a kind and some bytes. Equal bytes have one mark; other bytes
/// rarely have it too, so that a name found by a mark has still to be looked at.
///
/// A name costs as many steps as its text has bytes, but marks at each fourth length below 16, at each second below
/// 256, and at each 256th one alone.
#[derive(Drop)]
pub(crate) struct Marks {
    // The mark of each name's whole text.
    wholes: Tables,
    // The marks of what each name's text begins with.
    starts: Tables,
    // No name's text has fewer bytes.
    shortest: usize,
    alloc: Global,
}

fn first_mark(kind: SecKind) -> u32
    ensures { result ≡ first_mark kind }
{
    match kind {
        SecKind::Named => 0,
        SecKind::File => 1,
    }
}

// A factor that spreads the marks: an odd number near 2^32 divided by the golden ratio.
#[tactic(auto, unfolding(crate::specs::model::Marks::next_mark))]
fn next_mark(mark: u32, byte: u8) -> u32
    ensures { result ≡ next_mark mark byte }
{
    mark.wrapping_add(u32::from(byte) + 1)
        .wrapping_mul(2654435769)
}

#[tactic(auto, unfolding(crate::specs::model::Marks::is_kept_length))]
fn is_kept_length(count: usize) -> bool
    ensures { result ≡ is_kept_length count }
{
    let step = if count < 16 {
        4
    } else if count < 256 {
        2
    } else {
        256
    };
    count % step == 0
}

// Puts a mark of what a name begins with, if its length is one of those that are kept.
fn put_start(tables: &mut Tables, count: usize, mark: u32, index: u32) -> Result<(), Memory>
    ensures keeps { HasAll tables.old tables.new }
    ensures ok { OnOk result (is_kept_length count ≡ true → Has tables.new mark index) }
{
    if !is_kept_length(count) {
        return Ok(());
    }
    tables.put(mark, index)
}

// The last kept mark, after the mark of so many bytes.
fn last_kept(count: usize, mark: u32, start: u32) -> u32
    ensures { result ≡ last_kept count mark start }
{
    if is_kept_length(count) { mark } else { start }
}

impl Marks {
    pub(crate) fn new_in(alloc: Global) -> Marks {
        Marks {
            wholes: Tables::new_in(alloc),
            starts: Tables::new_in(alloc),
            shortest: usize::MAX,
            alloc,
        }
    }

    // Marks a name. What is marked stays so, also out of memory; it is for a position of more than 32 bits.
    pub(crate) fn enter(&mut self, kind: SecKind, text: &[u8], index: usize) -> Result<(), Memory>
        ensures keeps { KeepsMarks self.old self.new }
        ensures ok { OnOk result (IsMarked self.new kind text.now index) }
    {
        if index > 4294967295 {
            return Err(Memory);
        }
        self.mark(kind, text, index as u32)
    }

    // The same at a position of 32 bits.
    fn mark(&mut self, kind: SecKind, text: &[u8], index: u32) -> Result<(), Memory>
        ensures keeps { KeepsMarks self.old self.new }
        ensures ok { OnOk result (IsMarked self.new kind text.now index) }
    {
        self.shortest = self.shortest.min(text.len());
        let mut mark = first_mark(kind);
        put_start(&mut self.starts, 0, mark, index)?;
        for count in 0..text.len() {
            mark = next_mark(mark, text[count]);
            put_start(&mut self.starts, count + 1, mark, index)?;
        }
        self.wholes.put(mark, index)?;
        Ok(())
    }

    // Adds the positions of names whose text has so many bytes and this mark behind others. Nothing is looked for where
    // all names are longer.
    fn add_wholes(&self, positions: &mut Vec<usize>, count: usize, mark: u32) -> Result<(), Memory>
        ensures { OnOk result (positions.new.items ≡ positions.old.items ++ wholes_at self.now count mark) }
    {
        if count < self.shortest {
            return Ok(());
        }
        self.wholes.add_to(positions, mark)
    }

    // The positions of the names of a kind that begin a text or that it begins, and maybe others.
    pub(crate) fn near(&self, kind: SecKind, text: &[u8]) -> Result<Vec<usize>, Memory>
        ensures { IfOk result (λ near. (other : List ℕ) (k : ℕ) → IsMarked self.now kind other k
            → IsNear other text.now → is_one_of k near.items ≡ true) }
    {
        let mut near = Vec::new(self.alloc);
        let mut mark = first_mark(kind);
        let mut start = mark;
        for count in 0..text.len() {
            self.add_wholes(&mut near, count, mark)?;
            mark = next_mark(mark, text[count]);
            start = last_kept(count + 1, mark, start);
        }
        self.starts.add_to(&mut near, start)?;
        Ok(near)
    }
}
