//! The merged web: its lines, the names of its files, and the notes of reading.
ghost use Rattle.std.specs.Prelude.{
  ◌≡◌,
  ◌≢◌,
  ◌+◌,
  ◌<◌,
  ◌≤◌,
  [],
  ◌∷◌,
  ◌++◌,
  length,
  All,
  OnOk,
  OnErr,
  IfOk,
  slice_index_or,
};

use crate::{Bytes, Memory, Note, Place, TEXT_LIMIT};
use std::alloc::Global;
use std::marker::Model;

/// Where a merged line lies in the text of its web: the bytes from `start` on, up to and without
/// `end`, where its byte 10 stands. `place` is the file and the line where it was read, and
/// `changed` is set where a change file put it there.
#[derive(Clone, Copy, Debug, PartialEq, Eq)]
pub struct LineInfo {
    pub start: usize,
    pub end: usize,
    pub place: Place,
    pub changed: bool,
}

/// The merged lines of a web file, its included files and its change file, with the names of all
/// these files and the notes that reading them made.
#[derive(Drop)]
pub struct Web {
    alloc: Global,
    text: Vec<u8>,
    lines: Vec<LineInfo>,
    files: Vec<Bytes>,
    notes: Vec<Note>,
}

impl Model for Web {
    ghost use Rattle.std.specs.Prelude.{length};
    ghost use Rattle.cw_base.specs.Web.{WebState};

    ghost Value = { WebState };

    ghost use Rattle.cw_base.specs.model.WebLayout.{read_lines, IsLaidOut};

    ghost view = { λ w. record {
      lines = read_lines w.text.items w.lines.items;
      files = w.files.items;
      notes = w.notes.items;
    } };

    ghost invariant = { λ w. IsLaidOut w.text.items w.lines.items w.notes.items (length w.files.items) };
}

impl Web {
    ghost use Rattle.std.specs.Prelude.{bytes_eq};
    ghost use Rattle.std.specs.List.{list_any};
    ghost use Rattle.cw_base.specs.Web.{WebState, empty_web, text_of, infos_of};
    ghost use Rattle.cw_base.specs.declared.web.LineInfo.{LineInfo};

    /// A web without lines, files and notes. It takes no memory.
    pub fn new_in(alloc: Global) -> Web
        ensures { result ≡ empty_web }
    {
        Web {
            alloc,
            text: Vec::new(alloc),
            lines: Vec::new(alloc),
            files: Vec::new(alloc),
            notes: Vec::new(alloc),
        }
    }

    /// Appends the name of a file, and answers the file's number, which is its position.
    pub fn add_file(&mut self, name: &[u8]) -> Result<u32, Memory>
        requires { length self.old.files < 4294967295 }
        ensures number { IfOk result (λ file. file ≡ length self.old.files) }
        ensures ok { OnOk result (self.new ≡ record self.old { files = self.old.files ++ name.now ∷ [] }) }
        ensures err { OnErr result (self.new ≡ self.old) }
    {
        let file = self.files.len() as u32;
        let name = Bytes::from_slice(self.alloc, name)?;
        self.files.push(name)?;
        Ok(file)
    }

    /// Appends a merged line.
    pub fn add_line(&mut self, line: &[u8], place: Place, changed: bool) -> Result<(), Memory>
        requires whole { All (λ byte. byte ≢ 10) line.now }
        requires place { place.file < length self.old.files }
        requires room { length (text_of self.old.lines) + length line.now + 1 ≤ TEXT_LIMIT }
        ensures ok { OnOk result (self.new ≡ record self.old {
          lines = self.old.lines ++ record { text = line.now; place = place; changed = changed } ∷ [];
        }) }
        ensures err { OnErr result (self.new ≡ self.old) }
    {
        let start = self.text.len();
        let end = start + line.len();
        self.lines.push(LineInfo {
            start,
            end,
            place,
            changed,
        })?;
        match append_line(&mut self.text, line) {
            Ok(()) => Ok(()),
            Err(memory) => {
                self.lines.pop();
                Err(memory)
            }
        }
    }

    /// Appends a note.
    pub fn add_note(&mut self, note: Note) -> Result<(), Memory>
        requires { note.place.file < length self.old.files }
        ensures ok { OnOk result (self.new ≡ record self.old { notes = self.old.notes ++ note ∷ [] }) }
        ensures err { OnErr result (self.new ≡ self.old) }
    {
        self.notes.push(note)?;
        Ok(())
    }

    /// The merged lines, each ended by byte 10.
    pub fn text(&self) -> &[u8]
        ensures lines { result.now ≡ text_of self.now.lines }
        ensures limit { length result.now ≤ TEXT_LIMIT }
    {
        self.text.as_slice()
    }

    /// How many lines there are.
    pub fn line_count(&self) -> usize
        ensures { result ≡ length self.now.lines }
    {
        self.lines.len()
    }

    /// Where the line at position `i`, counted from 0, lies in the text.
    pub fn line(&self, i: usize) -> LineInfo
        requires { i < length self.now.lines }
        ensures info { (other : LineInfo) → result ≡ slice_index_or (infos_of 0 self.now.lines) i other }
        ensures place { result.place.file < length self.now.files }
    {
        self.lines[i]
    }

    /// How many files there are.
    pub fn file_count(&self) -> usize
        ensures { result ≡ length self.now.files }
    {
        self.files.len()
    }

    /// The name of the file of this number.
    pub fn file_name(&self, file: u32) -> &[u8]
        requires { file < length self.now.files }
        ensures { result.now ≡ slice_index_or self.now.files file [] }
    {
        self.files[file as usize].as_slice()
    }

    /// Whether one of the files has this name.
    pub fn has_file(&self, name: &[u8]) -> bool
        ensures { result ≡ list_any (λ file. bytes_eq file name.now) self.now.files }
    {
        for file in &self.files {
            if file.as_slice() == name {
                return true;
            }
        }
        false
    }

    /// The notes of reading, in the order in which they were made.
    pub fn notes(&self) -> &[Note]
        ensures notes { result.now ≡ self.now.notes }
        ensures places { All (λ note. note.place.file < length self.now.files) result.now }
    {
        self.notes.as_slice()
    }
}

// Appends a line and the byte 10 that ends it.
fn append_line(text: &mut Vec<u8>, line: &[u8]) -> Result<(), Memory>
    ensures ok { OnOk result (text.new.items ≡ text.old.items ++ line.now ++ 10 ∷ []) }
    ensures err { OnErr result (text.new.items ≡ text.old.items) }
{
    let before = text.len();
    text.extend_from_slice(line)?;
    if text.push(10).is_err() {
        text.truncate(before);
        return Err(Memory);
    }
    Ok(())
}
