//! Laws of files that agree with a desk's answers.
ghost use Rattle.cw_desk.specs.Reader.{FilesAgreeWithThemselves, SomeAgreeOrNone, WhatWasReadIsThere};
ghost use Rattle.cw_desk.specs.Reader.{WhatWasMissingIsNotThere};

/// The law of agreement: files that don't change agree with whatever is read off them, in any order of calls and in
/// pieces of any sizes, so over them a run has files that agree. And files that agree have under the name of a file
/// that was read to its end just the bytes that came, and no file of a name that was missing. Whatever was answered,
/// some files agree with it, or none do. It does nothing: what it ensures is for proofs.
pub fn agreement_law()
    ensures themselves { FilesAgreeWithThemselves }
    ensures read { WhatWasReadIsThere }
    ensures missing { WhatWasMissingIsNotThere }
    ensures some { SomeAgreeOrNone }
{}
