//! The outputs of a run, and the events that a journal records.
use crate::Bytes;

/// An output of the program: the terminal, the TeX file, the index and the file of section names.
#[derive(Clone, Copy, Debug, PartialEq, Eq)]
pub enum Out {
    Term,
    Tex,
    Idx,
    Scn,
}

/// What a journal records: an output was made under a name, or one byte was written to it; or a draft of it was begun
/// for a name, and then given up, since the named file stays as it is, or put in that file's place.
#[derive(Drop)]
pub enum Event {
    Made(Out, Bytes),
    Byte(Out, u8),
    Drafted(Out, Bytes),
    Kept(Out),
    Replaced(Out),
}
