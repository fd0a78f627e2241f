//! The system's calls: its files and outputs, and a note of each answer. What no proof can know stands here and in
//! the files below, and nowhere else: that the system was asked, which file was meant, that the note says what was
//! answered, and which words and variables the process was given. No other file can reach the notes.
ghost use Rattle.std.specs.Prelude.{◌≡◌, ◌<◌, length};
ghost use Rattle.cw_desk.specs.Open.{OpensNext};
ghost use Rattle.cw_desk.specs.Put.{TakesSome};
ghost use Rattle.cw_desk.specs.Read.{ReadsSome};
ghost use Rattle.cw_desk.specs.model.System.{after_draft, after_keep, after_make, after_open, after_put, after_read};
ghost use Rattle.cw_desk.specs.model.System.{after_replace, untouched};

mod calls;
mod drafts;
mod environment;
mod failure;
mod folders;
mod inputs;
mod output;

use crate::desk::{Fetched, FileId, MadeOut, Opened, Taken};
use crate::note::Note;
use calls::{Calls, FoundPlace};
use cw_base::{Bytes, Memory, Out};
pub use environment::command_line;
use inputs::{OpenedFile, OpenedFiles};
use output::Output;
use std::alloc::Global;
use std::marker::Model;

/// The files and outputs of the system, by their numbers and kinds.
#[derive(Drop)]
pub(crate) struct System {
    calls: Calls,
    opened: OpenedFiles,
    tex: Output,
    idx: Output,
    scn: Output,
}

impl Model for System {
    ghost use Rattle.std.specs.Prelude.{is_some, vec_len};
    ghost use Rattle.cw_desk.specs.model.System.{SystemState};

    ghost Value = { SystemState };

    ghost view = { λ s. record {
      opened = vec_len s.opened.list;
      outputs = record {
        made = record { tex = is_some s.tex.made; idx = is_some s.idx.made; scn = is_some s.scn.made };
        drafts = record { tex = is_some s.tex.draft; idx = is_some s.idx.draft; scn = is_some s.scn.draft };
      };
      noted = s.calls.trail.noted;
    } };
}

impl System {
    /// Nothing was asked of it. It takes no memory.
    pub(crate) fn new(rt: HostRuntime, alloc: Global) -> System
        ensures { result ≡ untouched }
    {
        System {
            calls: Calls::new(rt, alloc),
            opened: OpenedFiles::new(alloc),
            tex: Output::new(),
            idx: Output::new(),
            scn: Output::new(),
        }
    }

    /// From now on files are looked for in the folders of a list, and no longer in those of the variable.
    pub(crate) fn look_in(&mut self, list: &[u8]) -> Result<(), Memory>
        ensures { self.new ≡ self.old }
    {
        let list = self.calls.owned(list)?;
        self.calls.look_in(list);
        Ok(())
    }

    /// Where a call has failed, tells on standard error which file it was about and what the system said, behind the
    /// program's name.
    pub(crate) fn tell_failure(&self, program: &str) {
        self.calls.tell_failure(program);
    }

    /// Opens the file of a name, in the folders of files that are looked for too.
    pub(crate) fn open(&mut self, name: &[u8]) -> Opened
        ensures next { OpensNext self.old.opened self.new.opened result }
        ensures noted { self.new ≡ after_open name.now result self.old }
    {
        let index = self.opened.list.len();
        let Ok(kept) = self.calls.owned(name) else {
            return Opened::Memory;
        };
        if self.opened.list.reserve(1).is_err() {
            return Opened::Memory;
        }
        let (found, is_elsewhere) = match self.calls.open(index, name) {
            FoundPlace::Here(found) => (found, false),
            FoundPlace::Elsewhere(found) => (found, true),
            FoundPlace::Missing => return Opened::Missing,
            FoundPlace::Failed => return Opened::Failed,
            FoundPlace::Memory => return Opened::Memory,
        };
        let opened = OpenedFile::new(kept, found, is_elsewhere);
        match self.opened.list.push(opened) {
            Ok(()) => Opened::File(FileId { index }),
            Err(_) => Opened::Memory,
        }
    }

    /// Reads the next bytes of an opened file into the front of the buffer. A file that has ended stays at its end.
    pub(crate) fn read(&mut self, id: FileId, buffer: &mut [u8]) -> Fetched
        requires given { id.index < self.old.opened }
        requires room { 0 < length buffer.old }
        ensures some { ReadsSome buffer.new result }
        ensures noted { self.new ≡ after_read id.index buffer.new result self.old }
    {
        let opened = &mut self.opened.list[id.index];
        let Some(file) = &mut opened.file else {
            self.calls.trail.note(Note::End(id.index));
            return Fetched::End;
        };
        let answer = self.calls.read(file, &opened.name, id.index, buffer);
        if answer == Fetched::End {
            opened.file = None;
        }
        answer
    }

    /// Makes a file, or empties the one that is there. Standard output is there from the start.
    pub(crate) fn make(&mut self, out: Out, name: &[u8]) -> MadeOut
        ensures noted { self.new ≡ after_make out name.now result self.old }
    {
        match out {
            Out::Term => {
                self.calls.trail.note(Note::Made(out, name));
                MadeOut::Done
            }
            Out::Tex => self.tex.make(&mut self.calls, &self.opened, out, name),
            Out::Idx => self.idx.make(&mut self.calls, &self.opened, out, name),
            Out::Scn => self.scn.make(&mut self.calls, &self.opened, out, name),
        }
    }

    /// Makes a file for a draft. Standard output takes bytes as they come.
    pub(crate) fn draft(&mut self, out: Out, name: &[u8]) -> MadeOut
        ensures noted { self.new ≡ after_draft out name.now result self.old }
    {
        if self.add_drafted(name).is_err() {
            return MadeOut::Memory;
        }
        match out {
            Out::Term => {
                self.calls.trail.note(Note::Drafted(out, name));
                MadeOut::Done
            }
            Out::Tex => self.tex.draft(&mut self.calls, &self.opened, out, name),
            Out::Idx => self.idx.draft(&mut self.calls, &self.opened, out, name),
            Out::Scn => self.scn.draft(&mut self.calls, &self.opened, out, name),
        }
    }

    // Takes down that an output of this name is drafted.
    fn add_drafted(&mut self, name: &[u8]) -> Result<(), Memory>
        ensures { self.new ≡ self.old }
    {
        let name = self.calls.owned(name)?;
        self.opened.add_drafted(name)
    }

    /// Gives a draft up: the named file stays as it is.
    pub(crate) fn keep(&mut self, out: Out) -> MadeOut
        ensures noted { self.new ≡ after_keep out result self.old }
    {
        match out {
            Out::Term => MadeOut::Failed,
            Out::Tex => self.tex.keep(&mut self.calls, &self.opened, out),
            Out::Idx => self.idx.keep(&mut self.calls, &self.opened, out),
            Out::Scn => self.scn.keep(&mut self.calls, &self.opened, out),
        }
    }

    /// Puts a draft in the place of the file that it is for.
    pub(crate) fn replace(&mut self, out: Out) -> MadeOut
        ensures noted { self.new ≡ after_replace out result self.old }
    {
        match out {
            Out::Term => MadeOut::Failed,
            Out::Tex => self.tex.replace(&mut self.calls, &self.opened, out),
            Out::Idx => self.idx.replace(&mut self.calls, &self.opened, out),
            Out::Scn => self.scn.replace(&mut self.calls, &self.opened, out),
        }
    }

    /// Writes a first part of the bytes, to the draft where there is one, and tells how much.
    pub(crate) fn put(&mut self, out: Out, bytes: &[u8]) -> Taken
        ensures some { TakesSome bytes.now result }
        ensures noted { self.new ≡ after_put out bytes.now result self.old }
    {
        match out {
            Out::Term => self.calls.print(bytes),
            Out::Tex => self.tex.put(&mut self.calls, out, bytes),
            Out::Idx => self.idx.put(&mut self.calls, out, bytes),
            Out::Scn => self.scn.put(&mut self.calls, out, bytes),
        }
    }
}
