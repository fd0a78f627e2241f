//! Notes in a row.
ghost use Rattle.std.specs.Prelude.{◌≡◌, [], ◌∷◌, ◌++◌, OnOk};
ghost use Rattle.cw_rules.specs.Answers.{Note as NoteAnswer};
ghost use Rattle.cw_phase1.specs.Notes.{scanned_note};

use crate::places::place_of;
use cw_base::{Memory, Note, NoteKind, Web};
use std::alloc::Global;
use std::marker::Model;

#[derive(Drop)]
pub(crate) struct NoteList {
    items: Vec<Note>,
}

impl Model for NoteList {
    ghost use Rattle.std.specs.Prelude.{List};
    ghost use Rattle.cw_base.specs.declared.notes.Note.{Note};

    ghost Value = { List Note };

    ghost view = { λ n. n.items.items };
}

impl NoteList {
    pub(crate) fn new_in(alloc: Global) -> NoteList
        ensures { result ≡ [] }
    {
        NoteList {
            items: Vec::new(alloc),
        }
    }

    pub(crate) fn push(&mut self, note: Note) -> Result<(), Memory>
        ensures { OnOk result (self.new ≡ self.old ++ note ∷ []) }
    {
        self.items.push(note)?;
        Ok(())
    }

    // A note of scanning, about a byte of the web.
    pub(crate) fn add(&mut self, web: &Web, kind: NoteKind, byte: usize) -> Result<(), Memory>
        ensures { OnOk result (self.new ≡ self.old ++ scanned_note web.now.lines (NoteAnswer kind byte)) }
    {
        self.push(Note {
            kind,
            value: 0,
            place: place_of(web, byte),
        })
    }

    pub(crate) fn as_slice(&self) -> &[Note]
        ensures { result.now ≡ self.now }
    {
        self.items.as_slice()
    }
}
