//! Laws of the scanner's answers.
ghost use Rattle.cw_laws.specs.Ends.{TextsGoToTheirEnds};
ghost use Rattle.cw_laws.specs.Longest.{TokensAreLongest};
ghost use Rattle.cw_laws.specs.NotePlaces.{NotesLieInTheirText};
ghost use Rattle.cw_laws.specs.WhiteSpace.{BackslashesContinueHashLines};

/// The law of notes: each note is about a byte of the text that was scanned. It does nothing: what it ensures is for
/// proofs.
pub fn notes_law()
    ensures { NotesLieInTheirText }
{}

/// The law of white space: between the bytes of the answers stand only blanks and line ends, and in a `#` line a
/// backslash before a line's end. It does nothing: what it ensures is for proofs.
pub fn white_space_law()
    ensures { BackslashesContinueHashLines }
{}

/// The law of longest tokens: an identifier, a constant, a sign and the sign of a head has as many bytes as can belong
/// to one, a string goes up to its end, an include name to the first `>` of its line, and a section code over its depth
/// and the blanks behind it. A sign stands where neither a constant nor a comment begins, and an other byte where
/// nothing else begins. The `#` of a `#` line is the first byte of its line but for blanks, and what ends one is a
/// line's end with no backslash before it. In a C part no identifier begins a string; outside its comments and `#`
/// lines no `#` that is first on its line is a sign; the tokens of `#` lines alone are marked; and include names stand
/// behind their word `include`, as no `<` does that a `>` follows on its line. It does nothing: what it ensures is for
/// proofs.
pub fn longest_law()
    ensures { TokensAreLongest }
{}

/// The law of ends: a control text goes to the first `@>` of its line, a section name to the first `@>`, the string of
/// `@'` to its end, a long comment's text to the first `*/`, and that of a short one to the first line's end, with `@@`
/// and what a backslash takes along passed over. A code that is dropped has its control text with it, except in limbo.
/// Inner texts stand in comments and in TeX text between bars; a bar begins one exactly where fewer than twenty are
/// around it. What ends is always the innermost that is open. Where a line's end comes first in a control text, or a
/// section code in a name, a comment or an inner text, it ends there with a note, as it does with the end of the text.
/// So nothing is open at a section code and at the end. It does nothing: what it ensures is for proofs.
pub fn ends_law()
    ensures { TextsGoToTheirEnds }
{}
