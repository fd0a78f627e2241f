//! Laws of the book.
ghost use Rattle.cw_laws.specs.Pieces.{BooksAreWhole};

/// The law of the book: limbo, and of each section its code, its TeX part, its definitions and its C part lie end to
/// end, from the first byte of a web to its last. So no byte of a web is lost, and none stands in two parts. A section
/// begins with its code, and its definitions and its C part, where they aren't empty, with codes of theirs. It does
/// nothing: what it ensures is for proofs.
pub fn book_law()
    ensures { BooksAreWhole }
{}
