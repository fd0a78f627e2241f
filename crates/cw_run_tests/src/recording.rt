//! A desk that keeps what the desk below it answers.
ghost use Rattle.std.specs.Prelude.{◌≡◌};

use cw_base::Out;
use cw_desk::{Desk, Fetched, FileId, MadeOut, Opened, Taken};
use std::alloc::Global;

/// What kind of answer about files it is.
#[derive(Debug, PartialEq, Clone, Copy)]
pub(crate) enum Kind {
    Opened(usize),
    Missing,
    Read(usize),
    End(usize),
}

/// An answer about files, with the name or the bytes of which it tells.
#[derive(Debug, PartialEq, Drop)]
pub(crate) struct Heard {
    kind: Kind,
    bytes: Vec<u8>,
}

/// A desk, and what it has answered about files so far. Answers of Memory are left out.
#[derive(Drop)]
pub(crate) struct Recording<D: Desk + Drop> {
    alloc: Global,
    desk: D,
    heard: Vec<Heard>,
}

impl<D: Desk + Drop> Recording<D> {
    /// Nothing was asked of the desk yet.
    pub(crate) fn of(alloc: Global, desk: D) -> Recording<D> {
        Recording {
            alloc,
            desk,
            heard: Vec::new(alloc),
        }
    }

    /// Gives the desk back, and what it answered.
    pub(crate) fn into_parts(self) -> (D, Vec<Heard>) {
        let Recording {
            alloc: _,
            desk,
            heard,
        } = self;
        (desk, heard)
    }

    fn note(&mut self, kind: Kind, bytes: &[u8])
        ensures { self.new.desk ≡ self.old.desk }
    {
        if let Ok(bytes) = Vec::from_slice(self.alloc, bytes) {
            let _ = self.heard.push(Heard { kind, bytes });
        }
    }
}

impl<D: Desk + Drop> Desk for Recording<D> {
    ghost told = { λ recording. D.told recording.desk };

    fn open(&mut self, name: &[u8]) -> Opened {
        let answer = self.desk.open(name);
        match answer {
            Opened::File(id) => self.note(Kind::Opened(id.index), name),
            Opened::Missing => self.note(Kind::Missing, name),
            Opened::Failed | Opened::Memory => {}
        }
        answer
    }

    fn read(&mut self, id: FileId, buffer: &mut [u8]) -> Fetched {
        let answer = self.desk.read(id, buffer);
        match answer {
            Fetched::Got(count) => self.note(Kind::Read(id.index), &buffer[..count]),
            Fetched::End => self.note(Kind::End(id.index), b""),
            Fetched::Failed | Fetched::Memory => {}
        }
        answer
    }

    fn make(&mut self, out: Out, name: &[u8]) -> MadeOut {
        self.desk.make(out, name)
    }

    fn draft(&mut self, out: Out, name: &[u8]) -> MadeOut {
        self.desk.draft(out, name)
    }

    fn keep(&mut self, out: Out) -> MadeOut {
        self.desk.keep(out)
    }

    fn replace(&mut self, out: Out) -> MadeOut {
        self.desk.replace(out)
    }

    fn put(&mut self, out: Out, bytes: &[u8]) -> Taken {
        self.desk.put(out, bytes)
    }
}
