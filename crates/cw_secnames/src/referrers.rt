//! The sections that refer to a name in one way.
ghost use Rattle.std.specs.Prelude.{◌≡◌, ◌<◌, ◌≤◌, IfOk, IfSome, OnOk, OnErr, [], ◌∷◌, insert, length};
ghost use Rattle.cw_secnames.specs.References.{Ascend, with_number};
ghost use Rattle.cw_secnames.specs.model.Inside.{listed, lists_in, lists_of, ListsAscend, numbers_of, with_in};

use crate::RefKind;
use cw_base::Memory;
use std::alloc::Global;
use std::slice::from_ref;

/// The numbers of sections. Most names have one or none, which take no memory of their own.
#[derive(Drop)]
pub(crate) enum Referrers {
    Nobody,
    One(u32),
    More(Box<Vec<u32>>),
}

// Puts a section at a place among others.
fn put(sections: &mut Vec<u32>, place: usize, section: u32) -> Result<(), Memory>
    requires { place ≤ length sections.old.items }
    ensures ok { OnOk result (sections.new.items ≡ insert sections.old.items place section) }
    ensures err { OnErr result (sections.new.items ≡ sections.old.items) }
{
    sections.insert(place, section)?;
    Ok(())
}

// Adds a section at its ascending place, unless it is there already.
fn add_section(sections: &mut Vec<u32>, section: u32) -> Result<(), Memory>
    requires { Ascend sections.old.items }
    ensures ok { OnOk result (sections.new.items ≡ with_number section sections.old.items) }
    ensures err { OnErr result (sections.new.items ≡ sections.old.items) }
{
    match sections.binary_search(&section) {
        Ok(_) => Ok(()),
        Err(place) => put(sections, place, section),
    }
}

// Two sections.
fn two(alloc: Global, first: u32, second: u32) -> Result<Referrers, Memory>
    ensures { IfOk result (λ both. numbers_of both ≡ first ∷ second ∷ []) }
{
    let sections = vec![in alloc; first, second]?;
    let sections = Box::new(alloc, sections)?;
    Ok(Referrers::More(sections))
}

impl Referrers {
    /// Adds a section at its ascending place, unless it is there already. After `Memory` they are as before.
    #[tactic(auto, using(crate::proofs::References::few))]
    pub(crate) fn add(&mut self, alloc: Global, section: u32) -> Result<(), Memory>
        requires { Ascend (numbers_of self.old) }
        ensures ok { OnOk result (numbers_of self.new ≡ with_number section (numbers_of self.old)) }
        ensures err { OnErr result (numbers_of self.new ≡ numbers_of self.old) }
    {
        match self {
            Referrers::Nobody => *self = Referrers::One(section),
            Referrers::One(first) => {
                let first = *first;
                if first < section {
                    *self = two(alloc, first, section)?;
                } else if section < first {
                    *self = two(alloc, section, first)?;
                }
            }
            Referrers::More(sections) => add_section(sections, section)?,
        }
        Ok(())
    }

    pub(crate) fn as_slice(&self) -> &[u32]
        ensures { result.now ≡ numbers_of self.now }
    {
        match self {
            Referrers::Nobody => &[],
            Referrers::One(section) => from_ref(section),
            Referrers::More(sections) => sections.as_slice(),
        }
    }
}

/// The sections that define, use and cite a name, in lists.
#[derive(Drop)]
pub(crate) struct Lists {
    defined: Referrers,
    used: Referrers,
    cited: Referrers,
}

impl Lists {
    fn of(defined: Referrers, used: Referrers) -> Lists
        ensures { lists_in result ≡ record { defined = numbers_of defined; used = numbers_of used; cited = [] } }
    {
        Lists {
            defined,
            used,
            cited: Referrers::Nobody,
        }
    }

    // Adds a section that refers to the name in one way. After `Memory` they are as before.
    fn add(&mut self, alloc: Global, how: RefKind, section: u32) -> Result<(), Memory>
        requires { ListsAscend (lists_in self.old) }
        ensures ok { OnOk result (lists_in self.new ≡ with_in how section (lists_in self.old)) }
        ensures err { OnErr result (lists_in self.new ≡ lists_in self.old) }
    {
        match how {
            RefKind::Defined => self.defined.add(alloc, section)?,
            RefKind::Used => self.used.add(alloc, section)?,
            RefKind::Cited => self.cited.add(alloc, section)?,
        }
        Ok(())
    }

    fn listed(&self, how: RefKind) -> &[u32]
        ensures { result.now ≡ listed how (lists_in self.now) }
    {
        match how {
            RefKind::Defined => self.defined.as_slice(),
            RefKind::Used => self.used.as_slice(),
            RefKind::Cited => self.cited.as_slice(),
        }
    }
}

/// The sections that define, use and cite a name. One that defines it and one that uses it take no memory of their own.
#[derive(Drop)]
pub(crate) enum NameReferrers {
    Nobody,
    Defined(u32),
    Used(u32),
    Both { defined: u32, used: u32 },
    Lists(Box<Lists>),
}

// The lists with a section more.
fn in_lists(
    alloc: Global,
    lists: Lists,
    how: RefKind,
    section: u32,
) -> Result<NameReferrers, Memory>
    requires { ListsAscend (lists_in lists) }
    ensures { IfOk result (λ more. lists_of more ≡ with_in how section (lists_in lists)) }
{
    let mut lists = lists;
    lists.add(alloc, how, section)?;
    let lists = Box::new(alloc, lists)?;
    Ok(NameReferrers::Lists(lists))
}

impl NameReferrers {
    // The same with a section more, where that takes no memory.
    #[tactic(auto, using(crate::proofs::References::few))]
    fn without_memory(&self, how: RefKind, section: u32) -> Option<NameReferrers>
        ensures { IfSome result (λ more. lists_of more ≡ with_in how section (lists_of self.now)) }
    {
        match self {
            NameReferrers::Nobody => match how {
                RefKind::Defined => Some(NameReferrers::Defined(section)),
                RefKind::Used => Some(NameReferrers::Used(section)),
                RefKind::Cited => None,
            },
            NameReferrers::Defined(defined) => match how {
                RefKind::Used => Some(NameReferrers::Both {
                    defined: *defined,
                    used: section,
                }),
                RefKind::Defined | RefKind::Cited => None,
            },
            NameReferrers::Used(used) => match how {
                RefKind::Defined => Some(NameReferrers::Both {
                    defined: section,
                    used: *used,
                }),
                RefKind::Used | RefKind::Cited => None,
            },
            NameReferrers::Both { .. } | NameReferrers::Lists(_) => None,
        }
    }

    // The same in lists.
    fn add_to_lists(&mut self, alloc: Global, how: RefKind, section: u32) -> Result<(), Memory>
        requires { ListsAscend (lists_of self.old) }
        ensures ok { OnOk result (lists_of self.new ≡ with_in how section (lists_of self.old)) }
        ensures err { OnErr result (lists_of self.new ≡ lists_of self.old) }
    {
        let few = match self {
            NameReferrers::Lists(lists) => return lists.add(alloc, how, section),
            NameReferrers::Nobody => Lists::of(Referrers::Nobody, Referrers::Nobody),
            NameReferrers::Defined(defined) => {
                Lists::of(Referrers::One(*defined), Referrers::Nobody)
            }
            NameReferrers::Used(used) => Lists::of(Referrers::Nobody, Referrers::One(*used)),
            NameReferrers::Both { defined, used } => {
                Lists::of(Referrers::One(*defined), Referrers::One(*used))
            }
        };
        *self = in_lists(alloc, few, how, section)?;
        Ok(())
    }

    /// Adds a section that refers to the name in one way. After `Memory` they are as before.
    pub(crate) fn add(&mut self, alloc: Global, how: RefKind, section: u32) -> Result<(), Memory>
        requires { ListsAscend (lists_of self.old) }
        ensures ok { OnOk result (lists_of self.new ≡ with_in how section (lists_of self.old)) }
        ensures err { OnErr result (lists_of self.new ≡ lists_of self.old) }
    {
        if let Some(more) = self.without_memory(how, section) {
            *self = more;
            return Ok(());
        }
        self.add_to_lists(alloc, how, section)
    }

    pub(crate) fn listed(&self, how: RefKind) -> &[u32]
        ensures { result.now ≡ listed how (lists_of self.now) }
    {
        match self {
            NameReferrers::Nobody => &[],
            NameReferrers::Defined(defined) => match how {
                RefKind::Defined => from_ref(defined),
                RefKind::Used | RefKind::Cited => &[],
            },
            NameReferrers::Used(used) => match how {
                RefKind::Used => from_ref(used),
                RefKind::Defined | RefKind::Cited => &[],
            },
            NameReferrers::Both { defined, used } => match how {
                RefKind::Defined => from_ref(defined),
                RefKind::Used => from_ref(used),
                RefKind::Cited => &[],
            },
            NameReferrers::Lists(lists) => lists.listed(how),
        }
    }
}
