//! An output on the system: the file that was made, and a draft beside it.
ghost use Rattle.std.specs.Prelude.{◌≡◌, false, is_some, true};
ghost use Rattle.cw_base.specs.declared.event.Event.TheVariants.{Drafted, Kept, Made, Replaced};
ghost use Rattle.cw_desk.specs.Calls.{after_event, after_writing};
ghost use Rattle.cw_desk.specs.Make.{if_done};
ghost use Rattle.cw_desk.specs.Put.{TakesSome};

use super::calls::Calls;
use super::drafts::DraftPlaces;
use super::inputs::OpenedFiles;
use crate::desk::{MadeOut, Taken};
use crate::note::Note;
use cw_base::{Bytes, Out};
use std::fs::File;

/// The file that was made, and the draft that is neither kept nor replaced.
#[derive(Drop)]
pub(super) struct Output {
    pub(super) made: Option<MadeFile>,
    pub(super) draft: Option<Draft>,
}

/// A file that was made under a name.
#[derive(Drop)]
pub(super) struct MadeFile {
    file: File,
    name: Bytes,
}

/// A draft of a named file.
#[derive(Drop)]
pub(super) struct Draft {
    file: File,
    name: Bytes,
    places: DraftPlaces,
}

impl Draft {
    // The named file has the draft's bytes. Where it was found in another folder, the draft is put in its own place.
    fn keep(&self, calls: &mut Calls, opened: &OpenedFiles, out: Out) -> MadeOut
        ensures { calls.new.trail.noted ≡ after_event (Kept out) result calls.old.trail.noted }
    {
        match &self.places {
            DraftPlaces::Beside { draft, .. } => {
                if opened.is_elsewhere(self.name.as_slice()) {
                    return calls.replace(opened, &self.places, Note::Kept(out));
                }
                calls.remove(draft.as_slice(), Note::Kept(out))
            }
            DraftPlaces::Device(_) => {
                calls.trail.note(Note::Kept(out));
                MadeOut::Done
            }
        }
    }

    fn replace(&self, calls: &mut Calls, opened: &OpenedFiles, out: Out) -> MadeOut
        ensures { calls.new.trail.noted ≡ after_event (Replaced out) result calls.old.trail.noted }
    {
        match &self.places {
            DraftPlaces::Beside { .. } => {
                calls.replace(opened, &self.places, Note::Replaced(out))
            }
            DraftPlaces::Device(_) => {
                calls.trail.note(Note::Replaced(out));
                MadeOut::Done
            }
        }
    }
}

impl Output {
    /// Nothing was made or drafted.
    pub(super) fn new() -> Output
        ensures made { is_some result.made ≡ false }
        ensures draft { is_some result.draft ≡ false }
    {
        Output {
            made: None,
            draft: None,
        }
    }

    /// Makes the file, or empties the one that is there, unless that is an input.
    pub(super) fn make(
        &mut self,
        calls: &mut Calls,
        opened: &OpenedFiles,
        out: Out,
        name: &[u8],
    ) -> MadeOut
        ensures made { is_some self.new.made ≡ if_done result true (is_some self.old.made) }
        ensures draft { self.new.draft ≡ self.old.draft }
        ensures noted { calls.new.trail.noted ≡ after_event (Made out name.now) result calls.old.trail.noted }
    {
        let Ok(kept) = calls.owned(name) else {
            return MadeOut::Memory;
        };
        match calls.create(opened, name, Note::Made(out, name)) {
            Some(file) => {
                self.made = Some(MadeFile { file, name: kept });
                MadeOut::Done
            }
            None => MadeOut::Failed,
        }
    }

    /// Makes a file for a draft, unless the named file is an input.
    pub(super) fn draft(
        &mut self,
        calls: &mut Calls,
        opened: &OpenedFiles,
        out: Out,
        name: &[u8],
    ) -> MadeOut
        ensures made { self.new.made ≡ self.old.made }
        ensures draft { is_some self.new.draft ≡ if_done result true (is_some self.old.draft) }
        ensures noted { calls.new.trail.noted ≡ after_event (Drafted out name.now) result calls.old.trail.noted }
    {
        let Ok(kept) = calls.owned(name) else {
            return MadeOut::Memory;
        };
        let Ok(places) = DraftPlaces::of(&calls.rt, calls.alloc, name) else {
            return MadeOut::Memory;
        };
        match calls.create_draft(opened, &places, Note::Drafted(out, name)) {
            Some(file) => {
                self.draft = Some(Draft {
                    file,
                    name: kept,
                    places,
                });
                MadeOut::Done
            }
            None => MadeOut::Failed,
        }
    }

    /// Gives the draft up: the named file stays as it is. One that stands in another folder gets the same bytes at its
    /// own place.
    pub(super) fn keep(&mut self, calls: &mut Calls, opened: &OpenedFiles, out: Out) -> MadeOut
        ensures made { self.new.made ≡ self.old.made }
        ensures draft { is_some self.new.draft ≡ if_done result false (is_some self.old.draft) }
        ensures noted { calls.new.trail.noted ≡ after_event (Kept out) result calls.old.trail.noted }
    {
        let ended = match &self.draft {
            Some(draft) => draft.keep(calls, opened, out),
            None => MadeOut::Failed,
        };
        if ended == MadeOut::Done {
            self.draft = None;
        }
        ended
    }

    /// Puts the draft in the place of the file that it is for.
    pub(super) fn replace(&mut self, calls: &mut Calls, opened: &OpenedFiles, out: Out) -> MadeOut
        ensures made { self.new.made ≡ self.old.made }
        ensures draft { is_some self.new.draft ≡ if_done result false (is_some self.old.draft) }
        ensures noted { calls.new.trail.noted ≡ after_event (Replaced out) result calls.old.trail.noted }
    {
        let ended = match &self.draft {
            Some(draft) => draft.replace(calls, opened, out),
            None => MadeOut::Failed,
        };
        if ended == MadeOut::Done {
            self.draft = None;
        }
        ended
    }

    /// Writes a first part of the bytes, to the draft where there is one.
    pub(super) fn put(&mut self, calls: &mut Calls, out: Out, bytes: &[u8]) -> Taken
        ensures made { is_some self.new.made ≡ is_some self.old.made }
        ensures draft { is_some self.new.draft ≡ is_some self.old.draft }
        ensures some { TakesSome bytes.now result }
        ensures noted { calls.new.trail.noted ≡ after_writing out bytes.now result calls.old.trail.noted }
    {
        if let Some(draft) = &mut self.draft {
            return calls.write(&mut draft.file, &draft.name, out, bytes);
        }
        match &mut self.made {
            Some(made) => calls.write(&mut made.file, &made.name, out, bytes),
            None => Taken::Failed,
        }
    }
}
