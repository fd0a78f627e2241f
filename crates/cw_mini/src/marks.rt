//! Marks of names, each in a section.
ghost use Rattle.std.specs.Prelude.{◌≡◌, [], ◌∷◌, ◌++◌, OnErr, OnOk};

use cw_base::Memory;
use cw_names::NameId;
use std::alloc::Global;
use std::marker::Model;

/// A name that is marked as defined in a section.
#[derive(Clone, Copy, PartialEq, Eq, Debug)]
pub struct SectionMark {
    pub section: u32,
    pub name: NameId,
}

/// Marks, in the order in which they were added.
#[derive(Drop)]
pub struct SectionMarks {
    marks: Vec<SectionMark>,
}

impl Model for SectionMarks {
    ghost use Rattle.std.specs.Prelude.{List};
    ghost use Rattle.cw_mini.specs.declared.marks.SectionMark.{SectionMark};

    ghost Value = { List SectionMark };

    ghost view = { λ m. m.marks.items };
}

impl SectionMarks {
    /// No marks. It takes no memory.
    pub fn new_in(alloc: Global) -> SectionMarks
        ensures { result ≡ [] }
    {
        SectionMarks {
            marks: Vec::new(alloc),
        }
    }

    /// Adds a mark. After `Memory` the marks are as before.
    pub fn add(&mut self, section: u32, name: NameId) -> Result<(), Memory>
        ensures ok { OnOk result (self.new ≡ self.old ++ record { section = section; name = name } ∷ []) }
        ensures err { OnErr result (self.new ≡ self.old) }
    {
        self.marks.push(SectionMark { section, name })?;
        Ok(())
    }

    /// The marks.
    pub(crate) fn as_slice(&self) -> &[SectionMark]
        ensures { result.now ≡ self.now }
    {
        self.marks.as_slice()
    }
}
