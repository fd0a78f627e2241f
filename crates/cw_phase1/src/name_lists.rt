//! For which names the section names in a web stand, and how their sections refer to them.
ghost use Rattle.std.specs.Prelude.{◌≡◌, ◌<◌, ◌^◌, [], ◌∷◌, ◌++◌, All, IfOk, IfSome, OnOk, map};
ghost use Rattle.cw_secnames.specs.References.{Reference};
ghost use Rattle.cw_phase1.specs.model.Placing.{placed_of};
ghost use Rattle.cw_phase1.specs.model.Referring.{referring_of};
ghost use Rattle.cw_phase1.specs.model.Telling.{named_told};

use crate::Role;
use crate::packed::short;
use crate::placing::Placement;
use cw_base::Memory;
use cw_secnames::{NameUses, RefKind, SecId};
use std::alloc::Global;
use std::marker::Model;

/// A section refers to the name at a position.
#[derive(Clone, Copy)]
pub(crate) struct Referring {
    name: u32,
    pub section: u32,
    pub how: RefKind,
}

/// References in the order of the web.
#[derive(Drop)]
pub(crate) struct References {
    items: Vec<Referring>,
}

impl Model for References {
    ghost use Rattle.std.specs.Prelude.{List, map};
    ghost use Rattle.cw_secnames.specs.References.{Reference};
    ghost use Rattle.cw_phase1.specs.model.Referring.{referring_of};

    ghost Value = { List Reference };

    ghost view = { λ r. map referring_of r.items.items };
}

/// The names that section names stand for, and the references to them.
#[derive(Drop)]
pub(crate) struct NameLists {
    pub uses: NameUses,
    pub references: References,
}

impl Referring {
    fn to(id: SecId, how: RefKind, section: u32) -> Result<Referring, Memory>
        ensures { IfOk result (λ r. referring_of r ≡ record { name = id.index; how = how; section = section }) }
    {
        let name = short(id.index)?;
        Ok(Referring { name, section, how })
    }

    pub(crate) fn id(&self) -> SecId
        ensures { result.index ≡ self.now.name }
    {
        SecId {
            index: self.name as usize,
        }
    }
}

impl References {
    fn new_in(alloc: Global) -> References
        ensures { result ≡ [] }
    {
        References {
            items: Vec::new(alloc),
        }
    }

    pub(crate) fn as_slice(&self) -> &[Referring]
        ensures { map referring_of result.now ≡ self.now }
    {
        self.items.as_slice()
    }

    fn add(&mut self, reference: Referring) -> Result<(), Memory>
        ensures { OnOk result (self.new ≡ self.old ++ referring_of reference ∷ []) }
    {
        self.items.push(reference)?;
        Ok(())
    }
}

impl NameLists {
    pub(crate) fn new_in(alloc: Global) -> NameLists
        ensures { result ≡ record { uses = []; references = [] } }
    {
        NameLists {
            uses: NameUses::new_in(alloc),
            references: References::new_in(alloc),
        }
    }

    /// One token more.
    #[inline(always)]
    pub(crate) fn tell(&mut self, p: &Placement) -> Result<(), Memory>
        requires place { p.now.token.span.start < 2 ^ 32 }
        requires order { IfSome p.now.name (λ _. All (λ u. u.place < p.now.token.span.start) self.old.uses) }
        ensures { OnOk result (self.new ≡ named_told (placed_of p.now) self.old) }
    {
        if let Some(id) = p.name {
            self.uses.add(p.token.span.start as u32, id)?;
            if let Role::Name(how) = p.role {
                let reference = Referring::to(id, how, p.section)?;
                self.references.add(reference)?;
            }
        }
        Ok(())
    }
}
