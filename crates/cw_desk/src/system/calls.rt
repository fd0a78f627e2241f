//! The calls of the system, with the note behind each.
ghost use Rattle.std.specs.Prelude.{◌≡◌, ◌≤◌, IfOk, length};
ghost use Rattle.cw_base.specs.declared.event.Out.TheVariants.{Term};
ghost use Rattle.cw_desk.specs.Calls.{after_creating, after_found, after_look, after_reading, after_turn};
ghost use Rattle.cw_desk.specs.Calls.{after_writing};
ghost use Rattle.cw_desk.specs.Put.{TakesSome};
ghost use Rattle.cw_desk.specs.Read.{ReadsSome};
ghost use Rattle.cw_desk.specs.model.Trail.{nothing};

use super::drafts::DraftPlaces;
use super::failure::Failure;
use super::folders::Folders;
use super::inputs::{FoundFile, OpenedFiles, is_missing};
use crate::desk::{Fetched, MadeOut, Taken};
use crate::note::Note;
use crate::places::path_of;
use crate::trail::Trail;
use cw_base::{Bytes, Memory, Out};
use std::alloc::Global;
use std::fs::{self, File};
use std::io::{self, ErrorKind, Read, Write};

/// What standard output is called where it fails.
const TERMINAL: &[u8] = b"standard output";

/// What is at a place.
pub(super) enum Look {
    File(FoundFile),
    Nothing,
    Failed,
}

/// What is found by a name: its file, at its own place or in a folder in which files are looked for.
pub(super) enum FoundPlace {
    Here(FoundFile),
    Elsewhere(FoundFile),
    Missing,
    Failed,
    Memory,
}

/// The calls, where files are looked for, the trail of what the calls answered, and why the last one failed that did.
#[derive(Drop)]
pub(super) struct Calls {
    pub(super) rt: HostRuntime,
    pub(super) alloc: Global,
    pub(super) trail: Trail,
    folders: Folders,
    failure: Option<Failure>,
}

impl Calls {
    /// Nothing was asked.
    pub(super) fn new(rt: HostRuntime, alloc: Global) -> Calls
        ensures { result.trail.noted ≡ nothing }
    {
        Calls {
            rt,
            alloc,
            trail: Trail::new(),
            folders: Folders::OfVariable,
            failure: None,
        }
    }

    /// From now on files are looked for in the folders of a list, and no longer in those of the variable.
    pub(super) fn look_in(&mut self, list: Bytes)
        ensures { self.new.trail ≡ self.old.trail }
    {
        self.folders = Folders::Listed(list);
    }

    /// Tells on standard error why the last call failed that did.
    pub(super) fn tell_failure(&self, program: &str) {
        if let Some(failure) = &self.failure {
            failure.tell(&self.rt, self.alloc, program);
        }
    }

    /// The bytes of a name, to be kept.
    pub(super) fn owned(&self, name: &[u8]) -> Result<Bytes, Memory> {
        Bytes::from_slice(self.alloc, name)
    }

    // A call failed for the file of this name.
    fn fail(&mut self, name: &[u8], error: io::Error)
        ensures { self.new.trail ≡ self.old.trail }
    {
        self.failure = Some(Failure::new(self.alloc, name, error));
    }

    // Opens the file of a name at a place.
    fn look(&mut self, number: usize, name: &[u8], place: &[u8]) -> Look
        ensures { self.new.trail.noted ≡ after_look number name.now result self.old.trail.noted }
    {
        match open_at(&self.rt, place) {
            Ok(file) => {
                self.trail.note(Note::Opened(number, name));
                Look::File(file)
            }
            Err(error) if is_missing(error) => Look::Nothing,
            Err(error) => {
                self.fail(name, error);
                Look::Failed
            }
        }
    }

    /// Opens the file of a name: at its own place, or else in the first folder that has it.
    pub(super) fn open(&mut self, number: usize, name: &[u8]) -> FoundPlace
        ensures { self.new.trail.noted ≡ after_found number name.now result self.old.trail.noted }
    {
        match self.look(number, name, name) {
            Look::File(file) => FoundPlace::Here(file),
            Look::Failed => FoundPlace::Failed,
            Look::Nothing => self.open_elsewhere(number, name),
        }
    }

    // Opens the file of a name that has none at its own place.
    fn open_elsewhere(&mut self, number: usize, name: &[u8]) -> FoundPlace
        ensures { self.new.trail.noted ≡ after_found number name.now result self.old.trail.noted }
    {
        let Ok(places) = self.folders.places_of(&self.rt, self.alloc, name) else {
            return FoundPlace::Memory;
        };
        for place in places.iter() {
            match self.look(number, name, place.as_slice()) {
                Look::Nothing => {}
                Look::File(file) => return FoundPlace::Elsewhere(file),
                Look::Failed => return FoundPlace::Failed,
            }
        }
        self.trail.note(Note::Missing(name));
        FoundPlace::Missing
    }

    /// Reads the next bytes of the file of a name into the front of the buffer.
    pub(super) fn read(
        &mut self,
        file: &mut File,
        name: &Bytes,
        number: usize,
        buffer: &mut [u8],
    ) -> Fetched
        ensures some { ReadsSome buffer.new result }
        ensures noted { self.new.trail.noted ≡ after_reading number buffer.new result self.old.trail.noted }
    {
        match file.read(buffer) {
            Ok(0) => {
                self.trail.note(Note::End(number));
                Fetched::End
            }
            Ok(count) => {
                self.trail.note(Note::Read(number, &buffer[..count]));
                Fetched::Got(count)
            }
            Err(error) => {
                self.fail(name.as_slice(), error);
                Fetched::Failed
            }
        }
    }

    /// Makes the file at a place, or empties the one that is there, unless that is an input.
    pub(super) fn create(
        &mut self,
        opened: &OpenedFiles,
        place: &[u8],
        beginning: Note<'_>,
    ) -> Option<File>
        ensures { self.new.trail.noted ≡ after_creating beginning.entry result self.old.trail.noted }
    {
        match create_at(&self.rt, opened, place) {
            Ok(file) => {
                self.trail.note(beginning);
                Some(file)
            }
            Err(error) => {
                self.fail(place, error);
                None
            }
        }
    }

    /// Makes the file of a draft, unless it would be an input, or be put in the place of one.
    pub(super) fn create_draft(
        &mut self,
        opened: &OpenedFiles,
        places: &DraftPlaces,
        beginning: Note<'_>,
    ) -> Option<File>
        ensures { self.new.trail.noted ≡ after_creating beginning.entry result self.old.trail.noted }
    {
        let place = places.of_file();
        match spare_at(&self.rt, opened, place) {
            Ok(()) => self.create(opened, places.of_draft(), beginning),
            Err(error) => {
                self.fail(place, error);
                None
            }
        }
    }

    /// Removes the file at a place.
    pub(super) fn remove(&mut self, place: &[u8], end: Note<'_>) -> MadeOut
        ensures { self.new.trail.noted ≡ after_turn end.entry result self.old.trail.noted }
    {
        match remove_at(&self.rt, place) {
            Ok(()) => {
                self.trail.note(end);
                MadeOut::Done
            }
            Err(error) => {
                self.fail(place, error);
                MadeOut::Failed
            }
        }
    }

    /// Puts the file of a draft in the place of the named one, unless that is an input.
    pub(super) fn replace(
        &mut self,
        opened: &OpenedFiles,
        places: &DraftPlaces,
        end: Note<'_>,
    ) -> MadeOut
        ensures { self.new.trail.noted ≡ after_turn end.entry result self.old.trail.noted }
    {
        match replace_at(&self.rt, opened, places) {
            Ok(()) => {
                self.trail.note(end);
                MadeOut::Done
            }
            Err(error) => {
                self.fail(places.of_file(), error);
                MadeOut::Failed
            }
        }
    }

    /// Writes a first part of the bytes to the file of a name.
    pub(super) fn write(&mut self, file: &mut File, name: &Bytes, out: Out, bytes: &[u8]) -> Taken
        ensures some { TakesSome bytes.now result }
        ensures noted { self.new.trail.noted ≡ after_writing out bytes.now result self.old.trail.noted }
    {
        let answer = file.write(bytes);
        self.taken(answer, name.as_slice(), out, bytes)
    }

    /// Writes a first part of the bytes to standard output.
    pub(super) fn print(&mut self, bytes: &[u8]) -> Taken
        ensures some { TakesSome bytes.now result }
        ensures noted { self.new.trail.noted ≡ after_writing Term bytes.now result self.old.trail.noted }
    {
        let answer = io::writer(&self.rt).write(bytes);
        self.taken(answer, TERMINAL, Out::Term, bytes)
    }

    // What a call answered that writes. That nothing was taken counts as a failure.
    fn taken(&mut self, answer: io::Result<usize>, name: &[u8], out: Out, bytes: &[u8]) -> Taken
        requires { IfOk answer (λ n. n ≤ length bytes.now) }
        ensures some { TakesSome bytes.now result }
        ensures noted { self.new.trail.noted ≡ after_writing out bytes.now result self.old.trail.noted }
    {
        match answer {
            Ok(0) => {
                self.fail(name, io::Error::from(ErrorKind::WriteZero));
                Taken::Failed
            }
            Ok(count) => {
                self.trail.note(Note::Took(out, &bytes[..count]));
                Taken::Bytes(count)
            }
            Err(error) => {
                self.fail(name, error);
                Taken::Failed
            }
        }
    }
}

// ## The calls by the bytes of a path

fn no_path() -> io::Error {
    io::Error::from(ErrorKind::InvalidFilename)
}

fn open_at(rt: &HostRuntime, place: &[u8]) -> io::Result<FoundFile> {
    FoundFile::open(rt, path_of(place).ok_or(no_path())?)
}

// An error where the file at a place is an input.
fn spare_at(rt: &HostRuntime, opened: &OpenedFiles, place: &[u8]) -> io::Result<()> {
    opened.spare_input(rt, path_of(place).ok_or(no_path())?)
}

fn create_at(rt: &HostRuntime, opened: &OpenedFiles, place: &[u8]) -> io::Result<File> {
    spare_at(rt, opened, place)?;
    File::create(rt, path_of(place).ok_or(no_path())?)
}

fn remove_at(rt: &HostRuntime, place: &[u8]) -> io::Result<()> {
    fs::remove_file(rt, path_of(place).ok_or(no_path())?)
}

fn replace_at(rt: &HostRuntime, opened: &OpenedFiles, places: &DraftPlaces) -> io::Result<()> {
    let place = places.of_file();
    spare_at(rt, opened, place)?;
    let draft = path_of(places.of_draft()).ok_or(no_path())?;
    fs::rename(rt, draft, path_of(place).ok_or(no_path())?)
}
