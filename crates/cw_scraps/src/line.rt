//! A line of scraps: the two ends of one vector, with a gap between them.
ghost use Rattle.std.specs.Prelude.{◌≡◌, ◌≢◌, ◌+◌, ◌-◌, ◌^◌, ◌<◌, ◌≤◌, ◌↔◌, [], ◌∷◌, ◌++◌, length, take, drop, set};
ghost use Rattle.std.specs.Prelude.{IsTrue, IfOk, IfSome, MatchOption, OnOk, OnErr, slice_index_or};
ghost use Rattle.cw_base.specs.declared.category.Cat.TheVariants.{End};
ghost use Rattle.cw_scraps.specs.model.Gap.{around, IsGap};
ghost use Rattle.cw_scraps.specs.Lines.{no_entry};

use cw_base::{Cat, Ledger, MathMode, Memory, Steps};
use cw_tokens::ListId;
use std::alloc::Global;
use std::marker::Model;

/// A scrap of a line: its category, the list that it is translated to, and the modes of that list's
/// two ends.
#[derive(Clone, Copy, PartialEq, Eq, Debug)]
pub struct LineEntry {
    pub list: ListId,
    pub cat: Cat,
    pub left: MathMode,
    pub right: MathMode,
}

/// The translation of a scrap.
#[derive(Clone, Copy, PartialEq, Eq, Debug)]
pub struct Part {
    /// Its list.
    pub list: ListId,
    /// The mode in which it begins.
    pub left: MathMode,
    /// The mode in which it ends.
    pub right: MathMode,
}

/// The scraps of a C text, in order. They lie at the two ends of one vector with a gap between them, so
/// that a production moves only the scraps between the gap and its place. Whoever reads the category of one
/// counts a step.
#[derive(Drop)]
pub struct ScrapLine {
    items: Vec<LineEntry>,
    left: usize,
    right: usize,
}

impl Model for ScrapLine {
    ghost use Rattle.std.specs.Prelude.{List};
    ghost use Rattle.cw_scraps.specs.declared.line.LineEntry.{LineEntry};
    ghost use Rattle.cw_scraps.specs.model.Gap.{around, IsGap};

    ghost Value = { List LineEntry };

    ghost view = { λ l. around l.left l.right l.items.items };

    ghost invariant = { λ l. IsGap l.left l.right l.items.items };
}

impl ScrapLine {
    /// A line without scraps.
    pub fn new_in(alloc: Global) -> ScrapLine
        ensures { result ≡ [] }
    {
        ScrapLine {
            items: Vec::new(alloc),
            left: 0,
            right: 0,
        }
    }

    /// A line without scraps that has capacity for so many.
    pub fn with_room(alloc: Global, count: usize) -> Result<ScrapLine, Memory>
        ensures { IfOk result (λ line. line ≡ []) }
    {
        let mut items = Vec::new(alloc);
        items.reserve(count)?;
        Ok(ScrapLine {
            items,
            left: 0,
            right: 0,
        })
    }

    /// Puts a scrap behind the others. After `Memory` the line is as before.
    pub fn add(
        &mut self,
        cat: Cat,
        list: ListId,
        left: MathMode,
        right: MathMode,
    ) -> Result<(), Memory>
        requires { cat ≢ End }
        ensures ok { OnOk result (self.new ≡ self.old ++ record { cat = cat; list = list; left = left; right = right } ∷
            []) }
        ensures refused { OnErr result (self.new ≡ self.old) }
    {
        self.items.push(LineEntry {
            cat,
            list,
            left,
            right,
        })?;
        Ok(())
    }

    /// The number of scraps.
    pub fn len(&self) -> usize
        ensures length { result ≡ length self.now }
        ensures short { result < 2 ^ 60 }
    {
        self.left + (count(&self.items) - self.right)
    }

    /// Whether there is no scrap.
    pub fn is_empty(&self) -> bool
        ensures { IsTrue result ↔ (length self.now ≡ 0) }
    {
        self.len() == 0
    }

    /// The category of a scrap, or `End` past the last one. It counts one step.
    pub fn cat_at<L: Ledger>(&self, i: usize, steps: &mut Steps<L>) -> Cat
        ensures cat { result ≡ (slice_index_or self.now i no_entry).cat }
        ensures steps { steps.new ≡ steps.old + 1 }
    {
        steps.tick();
        read_cat(&self.items, self.left, self.right, i)
    }

    /// Moves the gap to a scrap. The scraps stay, and those from this one on then lie one behind another.
    #[inline(always)]
    pub fn open(&mut self, place: usize)
        requires { place < length self.old }
        ensures { self.new ≡ self.old }
    {
        self.right = gap_to(&mut self.items, self.left, self.right, place);
        self.left = place;
    }

    /// The category of the scrap so many behind one that is there, or `End` past the last one. It counts one step, and
    /// is quick where the line is open at the place.
    #[inline(always)]
    pub fn cat_behind<L: Ledger>(&self, place: usize, k: u8, counter: &mut Steps<L>) -> Cat
        requires { place < length self.now }
        ensures cat { result ≡ (slice_index_or self.now (place + k) no_entry).cat }
        ensures steps { counter.new ≡ counter.old + 1 }
    {
        counter.tick();
        read_cat_behind(&self.items, self.left, self.right, place, k)
    }

    /// The categories of two scraps, one behind the other, where both of them lie before the gap. It counts a step for
    /// each of the two, and none where it answers nothing.
    #[inline(always)]
    pub fn pair_at<L: Ledger>(&self, place: usize, counter: &mut Steps<L>) -> Option<(Cat, Cat)>
        ensures there { IfSome result (λ pair. place + 1 < length self.now) }
        ensures first { IfSome result (λ pair. pair.0 ≡ (slice_index_or self.now place no_entry).cat) }
        ensures second { IfSome result (λ pair. pair.1 ≡ (slice_index_or self.now (place + 1) no_entry).cat) }
        ensures steps { MatchOption result (counter.new ≡ counter.old) (λ pair. counter.new ≡ counter.old + 2) }
    {
        if place < self.left && self.left - place > 1 {
            let first = read_inside(&self.items, self.left, self.right, place);
            counter.tick();
            let second = read_inside(&self.items, self.left, self.right, place + 1);
            counter.tick();
            return Some((first.cat, second.cat));
        }
        None
    }

    /// The translation of a scrap.
    pub fn part_at(&self, i: usize) -> Part
        requires { i < length self.now }
        ensures { let entry = slice_index_or self.now i no_entry in result ≡
            record { list = entry.list; left = entry.left; right = entry.right } }
    {
        let entry = self.entry(i);
        Part {
            list: entry.list,
            left: entry.left,
            right: entry.right,
        }
    }

    /// A scrap, or one of category `End` past the last one.
    pub(crate) fn entry(&self, i: usize) -> LineEntry
        ensures { result ≡ slice_index_or self.now i no_entry }
    {
        read(&self.items, self.left, self.right, i)
    }

    /// The scrap so many behind a place, which is there. It is quick where the line is open at the place.
    #[inline(always)]
    pub(crate) fn behind(&self, place: usize, k: u8) -> LineEntry
        requires { place + k < length self.now }
        ensures { result ≡ slice_index_or self.now (place + k) no_entry }
    {
        read_behind(&self.items, self.left, self.right, place, k)
    }

    /// Writes a scrap over another.
    pub(crate) fn put(&mut self, i: usize, entry: LineEntry)
        requires { i < length self.old }
        ensures { self.new ≡ set self.old i entry }
    {
        let at = if i < self.left {
            i
        } else {
            i + (self.right - self.left)
        };
        self.items[at] = entry;
    }

    /// Replaces as many scraps, from a place on, by one.
    #[inline(always)]
    pub(crate) fn replace(&mut self, at: usize, count: usize, entry: LineEntry)
        requires some { 0 < count }
        requires within { at + count ≤ length self.old }
        ensures { self.new ≡ take at self.old ++ entry ∷ drop (at + count) self.old }
    {
        let last = gap_to(&mut self.items, self.left, self.right, at) + (count - 1);
        self.items[last] = entry;
        self.left = at;
        self.right = last;
    }
}

/// The number of entries, each of which takes sixteen bytes.
fn count(items: &[LineEntry]) -> usize
    ensures length { result ≡ length items.now }
    ensures short { result < 2 ^ 60 }
{
    items.len()
}

fn read(items: &[LineEntry], left: usize, right: usize, i: usize) -> LineEntry
    requires { IsGap left right items.now }
    ensures { result ≡ slice_index_or (around left right items.now) i no_entry }
{
    if i < left {
        return items[i];
    }
    let behind = i - left;
    if behind < items.len() - right {
        return items[right + behind];
    }
    LineEntry {
        cat: Cat::End,
        list: ListId { index: 0 },
        left: MathMode::Maybe,
        right: MathMode::Maybe,
    }
}

/// The category of a scrap, or `End` past the last one.
#[inline]
fn read_cat(items: &[LineEntry], left: usize, right: usize, i: usize) -> Cat
    requires { IsGap left right items.now }
    ensures { result ≡ (slice_index_or (around left right items.now) i no_entry).cat }
{
    if i < left + (items.len() - right) {
        read_inside(items, left, right, i).cat
    } else {
        Cat::End
    }
}

#[inline]
fn read_inside(items: &[LineEntry], left: usize, right: usize, i: usize) -> LineEntry
    requires gap { IsGap left right items.now }
    requires inside { i < length (around left right items.now) }
    ensures { result ≡ slice_index_or (around left right items.now) i no_entry }
{
    if i < left {
        items[i]
    } else {
        items[i + (right - left)]
    }
}

/// The category of the scrap so many behind one that is there, or `End` past the last one.
#[inline(always)]
fn read_cat_behind(items: &[LineEntry], left: usize, right: usize, place: usize, k: u8) -> Cat
    requires gap { IsGap left right items.now }
    requires there { place < length (around left right items.now) }
    ensures { result ≡ (slice_index_or (around left right items.now) (place + k) no_entry).cat }
{
    if place < left {
        return read_cat(items, left, right, place + k as usize);
    }
    if k == 0 || (k as usize) < items.len() - (right + (place - left)) {
        read_behind(items, left, right, place, k).cat
    } else {
        Cat::End
    }
}

/// The scrap so many behind a place, which is there.
#[inline(always)]
fn read_behind(items: &[LineEntry], left: usize, right: usize, place: usize, k: u8) -> LineEntry
    requires gap { IsGap left right items.now }
    requires inside { place + k < length (around left right items.now) }
    ensures { result ≡ slice_index_or (around left right items.now) (place + k) no_entry }
{
    if place < left {
        return read_inside(items, left, right, place + k as usize);
    }
    items[right + (place - left) + k as usize]
}

/// Moves the gap to a place, and answers where it then ends. Mostly it moves over one scrap, or back over two.
#[inline(always)]
fn gap_to(items: &mut [LineEntry], left: usize, right: usize, to: usize) -> usize
    requires gap { IsGap left right items.old }
    requires within { to + (right - left) ≤ length items.old }
    ensures around { around to result items.new ≡ around left right items.old }
    ensures size { result ≡ to + (right - left) }
{
    if to == left + 1 {
        move_on(items, left, right);
        return right + 1;
    }
    if to == left {
        return right;
    }
    if to < left {
        if left - to == 2 {
            move_back(items, left, right);
            move_back(items, left - 1, right - 1);
            return right - 2;
        }
        if left - to == 1 {
            move_back(items, left, right);
            return right - 1;
        }
    }
    move_far(items, left, right, to)
}

/// Moves the gap over the next scrap.
#[inline(always)]
fn move_on(items: &mut [LineEntry], left: usize, right: usize)
    requires gap { IsGap left right items.old }
    requires within { right < length items.old }
    ensures { around (left + 1) (right + 1) items.new ≡ around left right items.old }
{
    items[left] = items[right];
}

/// Moves the gap back over the last scrap.
#[inline(always)]
fn move_back(items: &mut [LineEntry], left: usize, right: usize)
    requires gap { IsGap left right items.old }
    requires some { 0 < left }
    ensures { around (left - 1) (right - 1) items.new ≡ around left right items.old }
{
    items[right - 1] = items[left - 1];
}

/// Moves the gap to any place, and answers where it then ends.
#[inline(never)]
fn move_far(items: &mut [LineEntry], left: usize, right: usize, to: usize) -> usize
    requires gap { IsGap left right items.old }
    requires within { to + (right - left) ≤ length items.old }
    ensures around { around to result items.new ≡ around left right items.old }
    ensures size { result ≡ to + (right - left) }
{
    if to < left {
        return move_left(items, left, right, to);
    }
    move_right(items, left, right, to)
}

fn move_left(items: &mut [LineEntry], left: usize, right: usize, to: usize) -> usize
    requires gap { IsGap left right items.old }
    requires to { to ≤ left }
    ensures around { around to result items.new ≡ around left right items.old }
    ensures size { result ≡ to + (right - left) }
{
    let size = right - left;
    for moved in 0..left - to {
        items[right - 1 - moved] = items[left - 1 - moved];
    }
    to + size
}

fn move_right(items: &mut [LineEntry], left: usize, right: usize, to: usize) -> usize
    requires gap { IsGap left right items.old }
    requires to { left ≤ to }
    requires within { to + (right - left) ≤ length items.old }
    ensures around { around to result items.new ≡ around left right items.old }
    ensures size { result ≡ to + (right - left) }
{
    let size = right - left;
    for moved in 0..to - left {
        items[left + moved] = items[right + moved];
    }
    to + size
}
