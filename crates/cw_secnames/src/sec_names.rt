//! The section names that are kept, and what refers to them.
ghost use Rattle.std.specs.Prelude.{◌≡◌, ◌+◌, ◌^◌, ◌<◌, ◌≤◌, [], ◌∷◌, ◌++◌, drop, false, length, map, Some, IfSome};
ghost use Rattle.std.specs.Prelude.{IfOk, OnOk, OnErr};
ghost use Rattle.std.specs.List.{position};
ghost use Rattle.std.specs.Option.{option_map};
ghost use Rattle.cw_secnames.specs.Kept.{
  AreKept,
  is_beginning_of,
  begins_properly,
  conflicts_with,
  earliest,
  enter,
  enter_prefix,
  grown,
  grows_to,
  has_text,
  id,
  is_candidate,
  positions_from,
  shown,
  unreferred,
  with_text,
};
ghost use Rattle.cw_secnames.specs.References.{Ascend, RefersAscending, with_reference, with_section};
ghost use Rattle.cw_secnames.specs.model.Inside.{IsWithin, listed, lists_of, name_of};
ghost use Rattle.cw_secnames.specs.model.Asked.{chosen, is_below, is_lesser, kind_asked, passes, passes_at};
ghost use Rattle.cw_secnames.specs.model.Marks.{HoldNear};
ghost use Rattle.cw_secnames.specs.declared.kinds.SecKind.TheVariants.{Named};

use crate::name_marks::NameMarks;
use crate::referrers::NameReferrers;
use crate::{Earliest, Entered, RefKind, SecId, SecKind};
use cw_base::Memory;
use std::alloc::Global;
use std::marker::Model;

// So many names need much memory for finding them.
const MANY: usize = 10000;

/// A name with its references.
#[derive(Drop)]
pub(crate) struct KeptName {
    kind: SecKind,
    complete: bool,
    text: Vec<u8>,
    referrers: NameReferrers,
}

/// The kept names, in order of entry.
///
/// A name is looked for among those that its text begins or that begin it, and not among all names, until the memory
/// for that is given back.
#[derive(Drop)]
pub struct SecNames {
    names: Vec<KeptName>,
    marks: NameMarks,
    alloc: Global,
}

impl Model for SecNames {
    ghost use Rattle.std.specs.Prelude.{List, map};
    ghost use Rattle.cw_secnames.specs.Kept.{SecName};
    ghost use Rattle.cw_secnames.specs.model.Inside.{name_of};
    ghost use Rattle.cw_secnames.specs.model.Sound.{AreSound};

    ghost Value = { List SecName };

    ghost view = { λ n. map name_of n.names.items };

    ghost invariant = { λ n. AreSound n.marks (map name_of n.names.items) };
}

// What is asked of a name.
#[derive(Clone, Copy)]
pub(crate) enum Asked {
    // Whether the text is its whole name.
    Whole(SecKind),
    // Whether the text is to complete it.
    Growing(SecKind),
    // Whether the text conflicts with it.
    Conflicting(SecKind),
    // Whether the text is a prefix of it.
    Candidate,
}

fn is_below(index: usize, least: Option<usize>) -> bool
    ensures { result ≡ is_below index least }
{
    match least {
        None => true,
        Some(least) => index < least,
    }
}

fn chosen(lesser: bool, index: usize, least: Option<usize>) -> Option<usize>
    ensures { result ≡ chosen lesser index least }
{
    if lesser { Some(index) } else { least }
}

fn begins(first: &[u8], text: &[u8]) -> bool
    ensures { result ≡ is_beginning_of first.now text.now }
{
    text.starts_with(first)
}

fn begins_properly(first: &[u8], text: &[u8]) -> bool
    ensures { result ≡ begins_properly first.now text.now }
{
    first.len() < text.len() && begins(first, text)
}

impl KeptName {
    fn passes(&self, asked: Asked, text: &[u8]) -> bool
        ensures { result ≡ passes asked text.now (name_of self.now) }
    {
        match asked {
            Asked::Whole(kind) => self.has_text(kind, text),
            Asked::Growing(kind) => self.grows_to(kind, text),
            Asked::Conflicting(kind) => self.conflicts_with(kind, text),
            Asked::Candidate => self.is_candidate(text),
        }
    }

    fn has_text(&self, kind: SecKind, text: &[u8]) -> bool
        ensures { result ≡ has_text kind text.now (name_of self.now) }
    {
        self.complete && kind.is(self.kind) && text == self.text.as_slice()
    }

    fn grows_to(&self, kind: SecKind, text: &[u8]) -> bool
        ensures { result ≡ grows_to kind text.now (name_of self.now) }
    {
        !self.complete && kind.is(self.kind) && begins(&self.text, text)
    }

    fn conflicts_with(&self, kind: SecKind, text: &[u8]) -> bool
        ensures { result ≡ conflicts_with kind text.now (name_of self.now) }
    {
        kind.is(self.kind)
            && (begins_properly(&self.text, text) || begins_properly(text, &self.text))
    }

    // A section more that refers to the name.
    fn add_ref(&mut self, alloc: Global, how: RefKind, section: u32) -> Result<(), Memory>
        requires { RefersAscending (name_of self.old) }
        ensures ok { OnOk result (name_of self.new ≡ with_section how section (name_of self.old)) }
        ensures err { OnErr result (name_of self.new ≡ name_of self.old) }
    {
        self.referrers.add(alloc, how, section)
    }

    // The sections that refer to the name in one way.
    fn listed(&self, how: RefKind) -> &[u32]
        ensures { result.now ≡ listed how (lists_of self.now.referrers) }
    {
        self.referrers.listed(how)
    }

    fn is_candidate(&self, prefix: &[u8]) -> bool
        ensures { result ≡ is_candidate prefix.now (name_of self.now) }
    {
        SecKind::Named.is(self.kind)
            && (begins(prefix, &self.text) || (!self.complete && begins(&self.text, prefix)))
    }
}

impl SecNames {
    /// No names. It takes no memory.
    pub fn new_in(alloc: Global) -> SecNames
        ensures { result ≡ [] }
    {
        SecNames {
            names: Vec::new(alloc),
            marks: NameMarks::new_in(alloc),
            alloc,
        }
    }

    // The positions of the names near a text, and maybe others.
    fn near(&self, kind: SecKind, text: &[u8]) -> Result<Vec<usize>, Memory>
        ensures { IfOk result (λ near. HoldNear near.items kind text.now 0 self.now) }
    {
        let near = self.marks.near(kind, text, self.names.len())?;
        Ok(near)
    }

    fn passes_at(&self, asked: Asked, text: &[u8], index: usize) -> bool
        ensures { result ≡ passes_at (passes asked text.now) self.now index }
    {
        if index >= self.names.len() {
            return false;
        }
        self.names[index].passes(asked, text)
    }

    // Whether a position is the least so far, from one on, of a name that passes.
    fn is_lesser(
        &self,
        asked: Asked,
        text: &[u8],
        from: usize,
        least: Option<usize>,
        index: usize,
    ) -> bool
        ensures { result ≡ is_lesser (passes asked text.now) self.now from least index }
    {
        from <= index && is_below(index, least) && self.passes_at(asked, text, index)
    }

    // The earliest name from a position on that passes, among those near a text.
    fn earliest_from(&self, asked: Asked, text: &[u8], near: &[usize], from: usize) -> Option<usize>
        requires near { HoldNear near.now (kind_asked asked) text.now 0 self.now }
        requires from { from ≤ length self.now }
        ensures value { result ≡
            option_map (λ more. from + more) (position (passes asked text.now) (drop from self.now)) }
        ensures within { IfSome result (λ next. next < length self.now) }
        ensures fits { length self.now < 2 ^ 64 }
    {
        let mut least = None;
        for index in near {
            let lesser = self.is_lesser(asked, text, from, least, *index);
            least = chosen(lesser, *index, least);
        }
        // By its type the list holds fewer than 2^64 names.
        let _ = &self.names; // (for the proof)
        least
    }

    fn earliest(&self, asked: Asked, text: &[u8], near: &[usize]) -> Option<usize>
        requires { HoldNear near.now (kind_asked asked) text.now 0 self.now }
        ensures value { result ≡ position (passes asked text.now) self.now }
        ensures within { IfSome result (λ k. k < length self.now) }
    {
        self.earliest_from(asked, text, near, 0)
    }

    fn with_text(&self, kind: SecKind, text: &[u8], near: &[usize]) -> Option<usize>
        requires { HoldNear near.now kind text.now 0 self.now }
        ensures value { result ≡ position (has_text kind text.now) self.now }
        ensures within { IfSome result (λ k. k < length self.now) }
    {
        self.earliest(Asked::Whole(kind), text, near)
    }

    fn growing(&self, kind: SecKind, text: &[u8], near: &[usize]) -> Option<usize>
        requires { HoldNear near.now kind text.now 0 self.now }
        ensures value { result ≡ position (grows_to kind text.now) self.now }
        ensures within { IfSome result (λ k. k < length self.now) }
    {
        self.earliest(Asked::Growing(kind), text, near)
    }

    fn conflicting(&self, kind: SecKind, text: &[u8], near: &[usize]) -> Option<usize>
        requires { HoldNear near.now kind text.now 0 self.now }
        ensures value { result ≡ position (conflicts_with kind text.now) self.now }
        ensures within { IfSome result (λ k. k < length self.now) }
    {
        self.earliest(Asked::Conflicting(kind), text, near)
    }

    fn candidates(&self, prefix: &[u8], near: &[usize]) -> Earliest
        requires { HoldNear near.now Named prefix.now 0 self.now }
        ensures value { result ≡ earliest (positions_from 0 (is_candidate prefix.now) self.now) }
        ensures within { IsWithin result (length self.now) }
    {
        match self.earliest_from(Asked::Candidate, prefix, near, 0) {
            None => Earliest::Nobody,
            Some(first) => match self.earliest_from(Asked::Candidate, prefix, near, first + 1) {
                None => Earliest::One(first),
                Some(next) => Earliest::Several(first, next),
            },
        }
    }

    // A name more, to which nothing refers.
    fn add(&mut self, kind: SecKind, text: &[u8], complete: bool) -> Result<SecId, Memory>
        ensures id { IfOk result (λ added. added ≡ id (length self.old)) }
        ensures ok { OnOk result (self.new ≡ self.old ++ unreferred kind text.now complete ∷ []) }
        ensures within { IfOk result (λ added. added.index < length self.new) }
        ensures grows { OnOk result (length self.old ≤ length self.new) }
        ensures one { OnOk result (length self.new ≤ length self.old + 1) }
        ensures err { OnErr result (self.new ≡ self.old) }
    {
        let index = self.names.len();
        self.marks.enter(kind, text, index)?;
        let text = Vec::from_slice(self.alloc, text)?;
        self.names.push(KeptName {
            kind,
            text,
            complete,
            referrers: NameReferrers::Nobody,
        })?;
        Ok(SecId { index })
    }

    // Gives a name another text.
    fn set_text(&mut self, index: usize, text: &[u8], complete: bool) -> Result<(), Memory>
        requires { index < length self.old }
        ensures ok { OnOk result (self.new ≡ with_text index text.now complete self.old) }
        ensures len { OnOk result (length self.new ≡ length self.old) }
        ensures err { OnErr result (self.new ≡ self.old) }
    {
        let kind = self.names[index].kind;
        self.marks.enter(kind, text, index)?;
        let text = Vec::from_slice(self.alloc, text)?;
        let name = &mut self.names[index];
        name.text = text;
        name.complete = complete;
        Ok(())
    }

    // An incomplete name that is shorter than a prefix gets its text.
    fn grow(&mut self, index: usize, prefix: &[u8]) -> Result<(), Memory>
        requires { index < length self.old }
        ensures ok { OnOk result (self.new ≡ grown prefix.now index self.old) }
        ensures len { OnOk result (length self.new ≡ length self.old) }
        ensures err { OnErr result (self.new ≡ self.old) }
    {
        let name = &self.names[index];
        if name.complete || name.text.len() >= prefix.len() {
            return Ok(());
        }
        self.set_text(index, prefix, false)?;
        Ok(())
    }

    /// Enters a full name. After `Memory` the names are as before.
    pub fn enter(&mut self, kind: SecKind, full: &[u8]) -> Result<Entered, Memory>
        requires { 0 < length full.now }
        ensures answer { IfOk result (λ answer. answer ≡ (enter kind full.now self.old).answer) }
        ensures kept { OnOk result (self.new ≡ (enter kind full.now self.old).kept) }
        ensures within { IfOk result (λ answer. AreKept answer (length self.new)) }
        ensures grows { OnOk result (length self.old ≤ length self.new) }
        ensures one { OnOk result (length self.new ≤ length self.old + 1) }
        ensures err { OnErr result (self.new ≡ self.old) }
    {
        let near = self.near(kind, full)?;
        if let Some(index) = self.with_text(kind, full, &near) {
            return Ok(Entered::Known(SecId { index }));
        }
        if let Some(index) = self.growing(kind, full, &near) {
            self.set_text(index, full, true)?;
            return Ok(Entered::Known(SecId { index }));
        }
        if let Some(index) = self.conflicting(kind, full, &near) {
            return Ok(Entered::Conflict(SecId { index }));
        }
        let id = self.add(kind, full, true)?;
        Ok(Entered::New(id))
    }

    /// Enters a prefix of a name of `@<`. After `Memory` the names are as before.
    pub fn enter_prefix(&mut self, prefix: &[u8]) -> Result<Entered, Memory>
        requires { 0 < length prefix.now }
        ensures answer { IfOk result (λ answer. answer ≡ (enter_prefix prefix.now self.old).answer) }
        ensures kept { OnOk result (self.new ≡ (enter_prefix prefix.now self.old).kept) }
        ensures within { IfOk result (λ answer. AreKept answer (length self.new)) }
        ensures grows { OnOk result (length self.old ≤ length self.new) }
        ensures one { OnOk result (length self.new ≤ length self.old + 1) }
        ensures err { OnErr result (self.new ≡ self.old) }
    {
        let near = self.near(SecKind::Named, prefix)?;
        match self.candidates(prefix, &near) {
            Earliest::Nobody => {
                let id = self.add(SecKind::Named, prefix, false)?;
                Ok(Entered::New(id))
            }
            Earliest::One(index) => {
                self.grow(index, prefix)?;
                Ok(Entered::Known(SecId { index }))
            }
            Earliest::Several(first, next) => {
                Ok(Entered::Ambiguous(SecId { index: first }, SecId { index: next }))
            }
        }
    }

    /// Adds a section that refers to a name. Those that refer to it in one way ascend, each once, in whatever order
    /// they come; ascending ones cost the least. After `Memory` the names are as before.
    pub fn add_ref(&mut self, id: SecId, how: RefKind, section: u32) -> Result<(), Memory>
        requires { id.index < length self.old }
        ensures ok { OnOk result (self.new ≡ with_reference id.index how section self.old) }
        ensures len { OnOk result (length self.new ≡ length self.old) }
        ensures err { OnErr result (self.new ≡ self.old) }
    {
        self.names[id.index].add_ref(self.alloc, how, section)?;
        Ok(())
    }

    /// Gives the memory back that only entering needs, where it is much: for when all names came. Entering stays
    /// possible, and then takes time with the number of names.
    pub fn release(&mut self)
        ensures { self.new ≡ self.old }
    {
        if self.names.len() >= MANY {
            self.marks.release();
        }
    }

    /// How many names are kept.
    pub fn len(&self) -> usize
        ensures { result ≡ length self.now }
    {
        self.names.len()
    }

    /// The text of a name: its whole name where it is complete, else the longest prefix of it that came.
    pub fn text(&self, id: SecId) -> &[u8]
        requires { id.index < length self.now }
        ensures { shown (λ n. n.text) id.index self.now ≡ Some result.now }
    {
        self.names[id.index].text.as_slice()
    }

    /// Whether the whole name came.
    pub fn complete(&self, id: SecId) -> bool
        requires { id.index < length self.now }
        ensures { shown (λ n. n.complete) id.index self.now ≡ Some result }
    {
        self.names[id.index].complete
    }

    pub fn kind(&self, id: SecId) -> SecKind
        requires { id.index < length self.now }
        ensures { shown (λ n. n.kind) id.index self.now ≡ Some result }
    {
        self.names[id.index].kind
    }

    /// The sections that define a name, ascending.
    pub fn defined_in(&self, id: SecId) -> &[u32]
        requires { id.index < length self.now }
        ensures value { shown (λ n. n.defined) id.index self.now ≡ Some result.now }
        ensures ascending { Ascend result.now }
    {
        self.names[id.index].listed(RefKind::Defined)
    }

    /// The sections that use a name, ascending.
    pub fn used_in(&self, id: SecId) -> &[u32]
        requires { id.index < length self.now }
        ensures value { shown (λ n. n.used) id.index self.now ≡ Some result.now }
        ensures ascending { Ascend result.now }
    {
        self.names[id.index].listed(RefKind::Used)
    }

    /// The sections that cite a name in their TeX parts, ascending.
    pub fn cited_in(&self, id: SecId) -> &[u32]
        requires { id.index < length self.now }
        ensures value { shown (λ n. n.cited) id.index self.now ≡ Some result.now }
        ensures ascending { Ascend result.now }
    {
        self.names[id.index].listed(RefKind::Cited)
    }
}
