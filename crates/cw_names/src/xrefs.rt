//! The sections in which each name occurs.
ghost use Rattle.std.specs.Prelude.{◌≡◌, ◌∷◌, ◌++◌, [], ℕ, ◌<◌, ◌≤◌, OnOk, OnErr, insert, length, slice_index_or};
ghost use Rattle.cw_names.specs.declared.xrefs.SectionRef.{SectionRef};
ghost use Rattle.cw_names.specs.Mentions.{AreAscending, mentions};
ghost use Rattle.cw_names.specs.model.Noted.{sections_at, with_mention};

use crate::NameId;
use cw_base::Memory;
use std::alloc::Global;
use std::marker::Model;

/// A section in which a name occurs, and whether any of its occurrences there is underlined.
#[derive(Clone, Copy, PartialEq, Eq, Debug)]
pub struct SectionRef {
    pub section: u32,
    pub underlined: bool,
}

/// An occurrence of a name in a section.
#[derive(Clone, Copy, PartialEq, Eq, Debug)]
pub struct Occurrence {
    pub name: NameId,
    pub section: u32,
    pub underlined: bool,
}

/// Occurrences of names, in the order in which they were noted. The sections of each name are kept in ascending order
/// beside them.
#[derive(Drop)]
pub struct Xrefs {
    noted: Vec<Occurrence>,
    by_name: Vec<Vec<SectionRef>>,
    alloc: Global,
}

impl Model for Xrefs {
    ghost use Rattle.std.specs.Prelude.{◌≡◌, ℕ, List};
    ghost use Rattle.cw_names.specs.declared.xrefs.Occurrence.{Occurrence};

    ghost Value = { List Occurrence };

    ghost use Rattle.cw_names.specs.Mentions.{mentions};
    ghost use Rattle.cw_names.specs.model.Noted.{sections_at};

    ghost view = { λ x. x.noted.items };

    ghost invariant = { λ x. (name : ℕ) → sections_at name x.by_name.items ≡ mentions name x.noted.items };
}

impl Xrefs {
    /// No occurrences.
    pub fn new_in(alloc: Global) -> Xrefs
        ensures { result ≡ [] }
    {
        Xrefs {
            noted: Vec::new(alloc),
            by_name: Vec::new(alloc),
            alloc,
        }
    }

    /// Adds an occurrence. Sections may come in any order; ascending ones cost the least. After `Memory` the
    /// occurrences are as before.
    pub fn note(&mut self, id: NameId, section: u32, underlined: bool) -> Result<(), Memory>
        ensures ok { OnOk result (self.new ≡ self.old ++ record {
          name = id;
          section = section;
          underlined = underlined;
        } ∷ []) }
        ensures err { OnErr result (self.new ≡ self.old) }
    {
        let name = id;
        grow(&mut self.by_name, self.alloc, name.index)?;
        self.noted.reserve(1)?;
        mention(&mut self.by_name, name.index, section, underlined)?;
        match self.noted.push(Occurrence {
            name,
            section,
            underlined,
        }) {
            Ok(()) => Ok(()),
            Err(_) => unreachable!(),
        }
    }

    /// The sections in which a name occurs, ascending, each once, underlined where any of its occurrences there is.
    pub fn sections_of(&self, id: NameId) -> &[SectionRef]
        ensures value { result.now ≡ mentions id.index self.now }
        ensures ascending { AreAscending result.now }
    {
        match self.by_name.get(id.index) {
            Some(list) => list.as_slice(),
            None => &[],
        }
    }

    /// The occurrences, in the order in which they were noted.
    pub fn occurrences(&self) -> &[Occurrence]
        ensures { result.now ≡ self.now }
    {
        self.noted.as_slice()
    }
}

// Gives each name up to this one a list. Most have theirs.
#[inline(always)]
fn grow(lists: &mut Vec<Vec<SectionRef>>, alloc: Global, name: usize) -> Result<(), Memory>
    ensures same { (other : ℕ) → sections_at other lists.new.items ≡ sections_at other lists.old.items }
    ensures there { OnOk result (name < length lists.new.items) }
{
    if name < lists.len() {
        return Ok(());
    }
    add_lists(lists, alloc, name)
}

// The same, for a name that has none.
#[inline(never)]
fn add_lists(lists: &mut Vec<Vec<SectionRef>>, alloc: Global, name: usize) -> Result<(), Memory>
    requires { length lists.old.items ≤ name }
    ensures same { (other : ℕ) → sections_at other lists.new.items ≡ sections_at other lists.old.items }
    ensures there { OnOk result (name < length lists.new.items) }
{
    lists.reserve(name - lists.len())?;
    'names: while lists.len() <= name {
        lists.push(Vec::new(alloc))?;
    }
    Ok(())
}

// Puts a section into the list of a name.
fn mention(
    lists: &mut Vec<Vec<SectionRef>>,
    name: usize,
    section: u32,
    underlined: bool,
) -> Result<(), Memory>
    requires there { name < length lists.old.items }
    requires ascending { AreAscending (sections_at name lists.old.items) }
    ensures here { OnOk result (sections_at name lists.new.items ≡
        with_mention section underlined (sections_at name lists.old.items)) }
    ensures elsewhere { (other : ℕ) → (other ≡ name → Prim.⊥) → sections_at other lists.new.items ≡
        sections_at other lists.old.items }
    ensures err { OnErr result (sections_at name lists.new.items ≡ sections_at name lists.old.items) }
{
    let list = &mut lists[name];
    add(list, section, underlined)
}

// Puts a section at its ascending place; one that is there is underlined when either is.
fn add(list: &mut Vec<SectionRef>, section: u32, underlined: bool) -> Result<(), Memory>
    requires { AreAscending list.old.items }
    ensures ok { OnOk result (list.new.items ≡ with_mention section underlined list.old.items) }
    ensures err { OnErr result (list.new.items ≡ list.old.items) }
{
    let place = place_of_section(list, section);
    if place < list.len() && list[place].section == section {
        list[place].underlined |= underlined;
        Ok(())
    } else {
        put(
            list,
            place,
            SectionRef {
                section,
                underlined,
            },
        )
    }
}

// Puts a section at a place of a list. Most come behind all others.
#[inline(always)]
fn put(list: &mut Vec<SectionRef>, place: usize, section: SectionRef) -> Result<(), Memory>
    requires { place ≤ length list.old.items }
    ensures ok { OnOk result (list.new.items ≡ insert list.old.items place section) }
    ensures err { OnErr result (list.new.items ≡ list.old.items) }
{
    if place < list.len() {
        return put_inside(list, place, section);
    }
    list.push(section)?;
    Ok(())
}

// The same before other sections.
#[inline(never)]
fn put_inside(list: &mut Vec<SectionRef>, place: usize, section: SectionRef) -> Result<(), Memory>
    requires { place ≤ length list.old.items }
    ensures ok { OnOk result (list.new.items ≡ insert list.old.items place section) }
    ensures err { OnErr result (list.new.items ≡ list.old.items) }
{
    list.insert(place, section)?;
    Ok(())
}

// How many sections of an ascending list come before this one. Most are the last one or belong behind it.
fn place_of_section(list: &[SectionRef], section: u32) -> usize
    requires { AreAscending list.now }
    ensures within { result ≤ length list.now }
    ensures before { (k : ℕ) (d : SectionRef) → k < result → (slice_index_or list.now k d).section < section }
    ensures behind { (d : SectionRef) → result < length list.now → section ≤
        (slice_index_or list.now result d).section }
{
    let count = list.len();
    if count == 0 {
        return 0;
    }
    let last = list[count - 1].section;
    if last < section {
        return count;
    }
    if last == section {
        return count - 1;
    }
    place_inside(list, section)
}

// The same for a section that belongs anywhere.
#[inline(never)]
fn place_inside(list: &[SectionRef], section: u32) -> usize
    requires { AreAscending list.now }
    ensures within { result ≤ length list.now }
    ensures before { (k : ℕ) (d : SectionRef) → k < result → (slice_index_or list.now k d).section < section }
    ensures behind { (d : SectionRef) → result < length list.now → section ≤
        (slice_index_or list.now result d).section }
{
    list.partition_point(|found| found.section < section)
}
