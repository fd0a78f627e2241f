//! The files that were opened, and which of them are inputs of the run: no input is opened for writing.
ghost use Rattle.std.specs.Prelude.{◌≡◌, vec_len};

use crate::places::path_of;
use cw_base::{Bytes, Memory};
use std::alloc::Global;
use std::fs::{self, File, Metadata};
use std::io::{self, ErrorKind};
use std::os::unix::fs::MetadataExt;

/// What is said of a file that isn't written, since the run has read it.
const IS_INPUT: &str = "Is an input of this run";

/// By what the system tells a file from all others, however it is called: its device, and its number there.
#[derive(Clone, Copy, Debug, PartialEq, Eq)]
struct Identity {
    device: u64,
    number: u64,
}

impl Identity {
    fn of(metadata: &Metadata) -> Identity {
        Identity {
            device: metadata.dev(),
            number: metadata.ino(),
        }
    }
}

/// A file that the system has opened.
#[derive(Drop)]
pub(super) struct FoundFile {
    file: File,
    identity: Identity,
}

impl FoundFile {
    /// Opens the file of a path.
    pub(super) fn open(rt: &HostRuntime, path: &str) -> io::Result<FoundFile> {
        let file = File::open(rt, path)?;
        let identity = Identity::of(&file.metadata()?);
        Ok(FoundFile { file, identity })
    }
}

/// A file that was opened by its name, until its end was read.
#[derive(Drop)]
pub(super) struct OpenedFile {
    pub(super) name: Bytes,
    pub(super) file: Option<File>,
    identity: Identity,
    is_elsewhere: bool,
}

impl OpenedFile {
    /// The file of this name, which was found at its own place or elsewhere.
    pub(super) fn new(name: Bytes, found: FoundFile, is_elsewhere: bool) -> OpenedFile {
        OpenedFile {
            name,
            file: Some(found.file),
            identity: found.identity,
            is_elsewhere,
        }
    }
}

/// The files that were opened, by their numbers, and the names of the outputs that were drafted: a file that was opened
/// by such a name is an old output, and each other one is an input.
#[derive(Drop)]
pub(super) struct OpenedFiles {
    pub(super) list: Vec<OpenedFile>,
    drafted: Vec<Bytes>,
}

impl OpenedFiles {
    /// None was opened, and no output was drafted.
    pub(super) fn new(alloc: Global) -> OpenedFiles
        ensures { vec_len result.list ≡ 0 }
    {
        OpenedFiles {
            list: Vec::new(alloc),
            drafted: Vec::new(alloc),
        }
    }

    /// Takes down that an output of this name is drafted.
    pub(super) fn add_drafted(&mut self, name: Bytes) -> Result<(), Memory>
        ensures { self.new.list ≡ self.old.list }
    {
        self.drafted.push(name)?;
        Ok(())
    }

    /// Whether a file was opened by this name and found in another folder.
    pub(super) fn is_elsewhere(&self, name: &[u8]) -> bool {
        self.list.iter().any(|opened| opened.is_elsewhere && opened.name.as_slice() == name)
    }

    // Whether a file was opened by its name as an old output.
    fn is_old_output(&self, opened: &OpenedFile) -> bool {
        self.drafted
            .iter()
            .any(|name| name.as_slice() == opened.name.as_slice())
    }

    // Whether a file is an input.
    fn has_input(&self, identity: Identity) -> bool {
        for opened in &self.list {
            if opened.identity == identity && !self.is_old_output(opened) {
                return true;
            }
        }
        false
    }

    /// An error where the file to which a path leads is an input. A device or a pipe that was read loses nothing where
    /// it is written.
    pub(super) fn spare_input(&self, rt: &HostRuntime, path: &str) -> io::Result<()> {
        match fs::metadata(rt, path) {
            Ok(metadata) if metadata.is_file() && self.has_input(Identity::of(&metadata)) => {
                Err(io::Error::new(ErrorKind::ResourceBusy, IS_INPUT))
            }
            Ok(_) => Ok(()),
            Err(error) if is_missing(error) => Ok(()),
            Err(error) => Err(error),
        }
    }
}

/// Whether there is no such file: none of that name, a path through a file that is no folder, or a name that no file
/// can have.
pub(super) fn is_missing(error: io::Error) -> bool {
    matches!(
        error.kind(),
        ErrorKind::NotFound
            | ErrorKind::NotADirectory
            | ErrorKind::InvalidInput
            | ErrorKind::InvalidFilename
    )
}
