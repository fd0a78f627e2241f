//! What is known of the tokens that came.
ghost use Rattle.std.specs.Prelude.{◌≡◌, ◌<◌, ◌^◌, All, IfOk, IfSome, List, None, OnOk, length};
ghost use Rattle.cw_base.specs.Web.{MergedLine};
ghost use Rattle.cw_phase1.specs.model.Placing.{placed_of};
ghost use Rattle.cw_phase1.specs.model.Telling.{IsKnown, told_step, told_start};

use crate::Role;
use crate::name_lists::NameLists;
use crate::placing::Placement;
use crate::sections::Sections;
use crate::words::Words;
use cw_base::{Memory, Web};
use std::alloc::Global;

/// The words, the section names and the sections of the tokens that came.
#[derive(Drop)]
pub(crate) struct TokenLists {
    pub words: Words,
    pub named: NameLists,
    pub sections: Sections,
}

impl TokenLists {
    pub(crate) fn new_in(alloc: Global) -> Result<TokenLists, Memory>
        ensures { IfOk result (λ t. t ≡ told_start) }
    {
        Ok(TokenLists {
            words: Words::new_in(alloc)?,
            named: NameLists::new_in(alloc),
            sections: Sections::new_in(alloc),
        })
    }

    /// A word in no head.
    #[inline(always)]
    pub(crate) fn tell_word(&mut self, p: &Placement) -> Result<(), Memory>
        requires known { IsKnown self.old.words }
        requires role { p.now.role ≡ Role.Word }
        requires name { p.now.name ≡ None }
        ensures told { (lines : List MergedLine) → OnOk result (self.new ≡ told_step lines (placed_of p.now) self.old) }
        ensures known { OnOk result (IsKnown self.new.words) }
    {
        self.words.tell_word(p)?;
        self.sections.meet(p);
        Ok(())
    }

    /// A token that tells nothing of words and names.
    #[inline(always)]
    pub(crate) fn tell_plain(&mut self, p: &Placement)
        requires role { p.now.role ≡ Role.Plain }
        requires name { p.now.name ≡ None }
        ensures told { (lines : List MergedLine) → self.new ≡ told_step lines (placed_of p.now) self.old }
    {
        self.sections.meet(p);
    }

    /// One token more.
    #[inline(always)]
    pub(crate) fn tell(
        &mut self,
        web: &Web,
        p: &Placement,
        buffer: &mut Vec<u8>,
    ) -> Result<(), Memory>
        requires known { IsKnown self.old.words }
        requires place { p.now.token.span.start < 2 ^ 32 }
        requires text { length p.now.token.text.now < 2 ^ 32 }
        requires order { IfSome p.now.name (λ _. All (λ u. u.place < p.now.token.span.start) self.old.named.uses) }
        ensures told { OnOk result (self.new ≡ told_step web.now.lines (placed_of p.now) self.old) }
        ensures known { OnOk result (IsKnown self.new.words) }
    {
        self.words.tell(p, buffer)?;
        self.named.tell(p)?;
        self.sections.tell(web, p)?;
        Ok(())
    }
}
