//! Positions by marks. A table that is full stays as it is, and the next positions go to a new one.
ghost use Rattle.std.specs.Prelude.{◌≡◌, ◌<◌, ◌==◌, [], ℕ, true, ◌++◌, length, IfOk, OnOk};
ghost use Rattle.cw_secnames.specs.model.Marks.{Has, HasAll, HasAllIn, HasIn, last_place, positions_at, positions_in};
ghost use Rattle.cw_secnames.specs.model.Marks.{row_of, sign_of, with_sign};

use cw_base::Memory;
use std::alloc::Global;
use std::mem::replace;

// How many rows the first table has, and each further one, which has two links a row when it is full.
const FIRST_ROWS: usize = 1024;

const ROWS: usize = 32768;

// A place in a table has 16 bits, and no place is the greatest of these numbers.
const NOWHERE: u16 = 65535;

/// A position under a mark.
#[derive(Clone, Copy)]
pub(crate) struct Link {
    // The half of the mark that doesn't tell the row.
    sign: u16,
    // The place of the link before this one in its row.
    before: u16,
    position: u32,
}

/// A table whose rows are found by marks.
#[derive(Drop)]
pub(crate) struct Table {
    // The place of the last link of each row.
    rows: Vec<u16>,
    links: Vec<Link>,
}

/// Positions by marks. Many take little memory, since no table is copied where it would grow beyond its limit.
#[derive(Drop)]
pub(crate) struct Tables {
    full: Vec<Table>,
    latest: Table,
    alloc: Global,
}

// The row of a mark, in a table of so many.
fn row_of(mark: u32, rows: usize) -> usize
    requires { 0 < rows }
    ensures value { result ≡ row_of mark rows }
    ensures within { result < rows }
{
    (mark / 65536) as usize % rows
}

fn sign_of(mark: u32) -> u16
    ensures { result ≡ sign_of mark }
{
    (mark % 65536) as u16
}

// Adds the position of a link behind others, if it has the sign.
fn add_link(positions: &mut Vec<usize>, link: Link, sign: u16) -> Result<(), Memory>
    ensures { OnOk result
        (positions.new.items ≡ positions.old.items ++ with_sign (link.sign == sign) link.position []) }
{
    if link.sign == sign {
        positions.push(link.position as usize)?;
    }
    Ok(())
}

impl Table {
    // A table without rows. It takes no memory.
    fn none(alloc: Global) -> Table
        ensures { (mark : ℕ) → positions_in mark result ≡ [] }
    {
        Table {
            rows: Vec::new(alloc),
            links: Vec::new(alloc),
        }
    }

    fn with_rows(alloc: Global, rows: usize) -> Result<Table, Memory>
        requires { 0 < rows }
        ensures none { IfOk result (λ table. (mark : ℕ) → positions_in mark table ≡ []) }
        ensures rows { IfOk result (λ table. 0 < length table.rows.items) }
        ensures links { IfOk result (λ table. length table.links.items < 65535) }
    {
        let rows = vec![in alloc; NOWHERE; rows]?;
        Ok(Table {
            rows,
            links: Vec::new(alloc),
        })
    }

    // Whether a link more finds a place, with few others in its row.
    fn has_room(&self) -> bool
        ensures rows { result ≡ true → 0 < length self.now.rows.items }
        ensures links { result ≡ true → length self.now.links.items < 65535 }
    {
        self.links.len() / 4 < self.rows.len() && self.links.len() < usize::from(NOWHERE)
    }

    fn put(&mut self, mark: u32, position: u32) -> Result<(), Memory>
        requires rows { 0 < length self.old.rows.items }
        requires links { length self.old.links.items < 65535 }
        ensures keeps { HasAllIn self.old self.new }
        ensures ok { OnOk result (HasIn self.new mark position) }
    {
        let row = row_of(mark, self.rows.len());
        let place = self.links.len() as u16;
        self.links.push(Link {
            sign: sign_of(mark),
            before: self.rows[row],
            position,
        })?;
        self.rows[row] = place;
        Ok(())
    }

    // The place of the last link of a mark's row.
    fn last_place(&self, mark: u32) -> u16
        ensures { result ≡ last_place mark self.now }
    {
        if self.rows.is_empty() {
            return NOWHERE;
        }
        self.rows[row_of(mark, self.rows.len())]
    }

    // Adds the positions under a mark behind others.
    fn add_to(&self, positions: &mut Vec<usize>, mark: u32) -> Result<(), Memory>
        ensures { OnOk result (positions.new.items ≡ positions.old.items ++ positions_in mark self.now) }
    {
        let sign = sign_of(mark);
        let mut place = usize::from(self.last_place(mark));
        let mut left = self.links.len();
        while left > 0 && place < self.links.len() {
            let link = self.links[place];
            add_link(positions, link, sign)?;
            place = usize::from(link.before);
            left -= 1;
        }
        Ok(())
    }
}

impl Tables {
    pub(crate) fn new_in(alloc: Global) -> Tables {
        Tables {
            full: Vec::new(alloc),
            latest: Table::none(alloc),
            alloc,
        }
    }

    // Sees to capacity for a link more.
    fn open_next(&mut self) -> Result<(), Memory>
        ensures same { (mark : ℕ) → positions_at mark self.new ≡ positions_at mark self.old }
        ensures rows { OnOk result (0 < length self.new.latest.rows.items) }
        ensures links { OnOk result (length self.new.latest.links.items < 65535) }
    {
        let rows = if self.latest.rows.is_empty() {
            FIRST_ROWS
        } else {
            ROWS
        };
        let next = Table::with_rows(self.alloc, rows)?;
        let full = replace(&mut self.latest, next);
        if let Err(failed) = self.full.push(full) {
            self.latest = failed.value;
            return Err(Memory);
        }
        Ok(())
    }

    /// Puts a position under a mark. What stands there stays, also out of memory.
    pub(crate) fn put(&mut self, mark: u32, position: u32) -> Result<(), Memory>
        ensures keeps { HasAll self.old self.new }
        ensures ok { OnOk result (Has self.new mark position) }
    {
        if self.latest.has_room() {
            return self.latest.put(mark, position);
        }
        self.open_next()?;
        self.latest.put(mark, position)
    }

    /// Adds the positions under a mark behind others.
    pub(crate) fn add_to(&self, positions: &mut Vec<usize>, mark: u32) -> Result<(), Memory>
        ensures { OnOk result (positions.new.items ≡ positions.old.items ++ positions_at mark self.now) }
    {
        for table in &self.full {
            table.add_to(positions, mark)?;
        }
        self.latest.add_to(positions, mark)
    }
}
