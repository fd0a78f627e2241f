//! The greatest sizes: of all that is read, and of a merged text.

/// How many bytes the web file, the files that it includes and the change file may have together.
pub const INPUT_LIMIT: usize = 8_388_608;

/// How many bytes the text of a web may have. A byte that is read is worth at most two bytes of text,
/// itself and a byte 10 behind it, so this is twice `INPUT_LIMIT`.
pub const TEXT_LIMIT: usize = 16_777_216;
