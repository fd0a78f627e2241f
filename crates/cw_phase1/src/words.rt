//! The identifiers and index entries that came, and where they occur.
ghost use Rattle.std.specs.Prelude.{◌≡◌, ◌<◌, ◌++◌, [], ◌∷◌, false, None, Some, length, IfOk, OnOk};
ghost use Rattle.cw_names.specs.Names.{with_entry};
ghost use Rattle.cw_names.specs.Words.{built_in_words};
ghost use Rattle.cw_phase1.specs.model.Placing.{placed_of};
ghost use Rattle.cw_rules.specs.ControlTexts.{text_behind_code};
ghost use Rattle.cw_phase1.specs.Words.{name_id, with_format, occurrence};
ghost use Rattle.cw_phase1.specs.model.Telling.{IsKnown, word_occurrence, word_told};

use crate::Role;
use crate::placing::Placement;
use crate::texts::entry_text;
use cw_base::Memory;
use cw_names::{EntryKind, NameId, Names, Xrefs};
use std::alloc::Global;

/// The names, the first name of the last format definition, whether an `@!` waits for what it underlines, and the
/// occurrences.
#[derive(Drop)]
pub(crate) struct Words {
    pub names: Names,
    pub first: Option<NameId>,
    pub waits: bool,
    pub xrefs: Xrefs,
}

impl Words {
    pub(crate) fn new_in(alloc: Global) -> Result<Words, Memory>
        ensures { IfOk result (λ w. w ≡ record { names = built_in_words; first = None; waits = false; xrefs = [] }) }
    {
        Ok(Words {
            names: Names::with_words(alloc)?,
            first: None,
            waits: false,
            xrefs: Xrefs::new_in(alloc),
        })
    }

    // A name that is no occurrence. It uses an `@!` up.
    fn silent(&mut self, text: &[u8]) -> Result<NameId, Memory>
        ensures id { IfOk result (λ id. id ≡ name_id EntryKind.Ident text.now self.old.names) }
        ensures within { IfOk result (λ id. id.index < length self.new.names) }
        ensures ok { OnOk result (self.new ≡ record self.old {
          names = with_entry EntryKind.Ident text.now self.old.names;
          waits = false;
        }) }
    {
        self.waits = false;
        self.names.find_or_add(EntryKind::Ident, text)
    }

    // An occurrence in a section. It uses an `@!` up.
    #[inline(always)]
    fn occur(
        &mut self,
        kind: EntryKind,
        text: &[u8],
        section: u32,
        underlined: bool,
    ) -> Result<NameId, Memory>
        ensures id { IfOk result (λ id. id ≡ name_id kind text.now self.old.names) }
        ensures within { IfOk result (λ id. id.index < length self.new.names) }
        ensures ok { OnOk result (self.new ≡ record self.old {
          names = with_entry kind text.now self.old.names;
          waits = false;
          xrefs = self.old.xrefs ++
              record { name = name_id kind text.now self.old.names; section = section; underlined = underlined } ∷ [];
        }) }
    {
        self.waits = false;
        let id = self.names.find_or_add(kind, text)?;
        self.xrefs.note(id, section, underlined)?;
        Ok(id)
    }

    // An identifier, which occurs unless it is silent.
    #[inline(always)]
    fn word(&mut self, p: &Placement, silent: bool) -> Result<NameId, Memory>
        ensures id { IfOk result (λ id. id ≡ name_id EntryKind.Ident p.now.token.text.now self.old.names) }
        ensures within { IfOk result (λ id. id.index < length self.new.names) }
        ensures first { OnOk result (self.new.first ≡ self.old.first) }
        ensures names { OnOk result (self.new.names ≡ with_entry EntryKind.Ident p.now.token.text.now self.old.names) }
        ensures waits { OnOk result (self.new.waits ≡ false) }
        ensures xrefs { OnOk result (self.new.xrefs ≡
            self.old.xrefs ++ word_occurrence silent self.old.waits (placed_of p.now) self.old.names) }
    {
        if silent {
            self.silent(p.token.text)
        } else {
            let underlined = self.waits;
            self.occur(EntryKind::Ident, p.token.text, p.section, underlined)
        }
    }

    // Gives the first name of a format definition the category of the second.
    fn format(&mut self, second: NameId)
        requires first { IsKnown self.old }
        requires second { second.index < length self.old.names }
        ensures names { self.new ≡ record self.old { names = with_format self.old.first second self.old.names } }
        ensures first { IsKnown self.new }
    {
        if let Some(first) = self.first {
            let category = self.names.category(second);
            self.names.set_category(first, category);
        }
    }

    /// A word in no head.
    #[inline(always)]
    pub(crate) fn tell_word(&mut self, p: &Placement) -> Result<(), Memory>
        requires known { IsKnown self.old }
        requires role { p.now.role ≡ Role.Word }
        ensures told { OnOk result (self.new ≡ word_told (placed_of p.now) self.old) }
        ensures first { OnOk result (IsKnown self.new) }
    {
        self.word(p, false)?;
        Ok(())
    }

    /// One token more.
    #[inline(always)]
    pub(crate) fn tell(&mut self, p: &Placement, buffer: &mut Vec<u8>) -> Result<(), Memory>
        requires { IsKnown self.old }
        ensures told { OnOk result (self.new ≡ word_told (placed_of p.now) self.old) }
        ensures first { OnOk result (IsKnown self.new) }
    {
        match p.role {
            Role::MacroName => {
                self.occur(EntryKind::Ident, p.token.text, p.section, true)?;
            }
            Role::Parameter | Role::Word => {
                self.word(p, false)?;
            }
            Role::FirstName(silent) => {
                let first = self.word(p, silent)?;
                self.first = Some(first);
            }
            Role::SecondName(silent) => {
                let second = self.word(p, silent)?;
                self.format(second);
            }
            Role::Entry(kind) => {
                entry_text(buffer, p.token.text)?;
                let underlined = self.waits;
                self.occur(kind, buffer.as_slice(), p.section, underlined)?;
            }
            Role::Underline => self.waits = true,
            Role::SectionCode | Role::Name(_) | Role::Plain => {}
        }
        Ok(())
    }
}
