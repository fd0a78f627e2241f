//! Laws of the files that a run writes.
ghost use Rattle.cw_laws.specs.Files.{FilesAreWhole};

/// The law of files: of each file that a run over a web writes, all bytes are written, since the last of them ends a
/// line. What is written ends with a line's end, if it isn't empty, as the TeX file never is; and it is just the bytes
/// of the file where no line of these has more than 80. With flag k, where each file is there already with just the
/// bytes that are written, the run keeps them all: it makes none and replaces none. It does nothing: what it ensures is
/// for proofs.
pub fn files_law()
    ensures { FilesAreWhole }
{}
