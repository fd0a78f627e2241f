//! Laws of plain text.
ghost use Rattle.cw_plain_laws.specs.OwnLaws.{PlainAddsLittle, PlainHasEachToken};
ghost use Rattle.cw_plain_laws.specs.PlainLaws.{PlainScansAgain};

/// The law of tokens: the plain text of a translation has the bytes of each token of its text that is shown, once and
/// in order, and of no other; what is added to them is white space, bars and ends of comments. It does nothing: what it
/// ensures is for proofs.
pub fn tokens_law()
    ensures each { PlainHasEachToken }
    ensures added { PlainAddsLittle }
{}

/// The law of plain text that is scanned again: that of a C part of simple tokens is scanned as these tokens. It does
/// nothing: what it ensures is for proofs.
pub fn again_law()
    ensures { PlainScansAgain }
{}
