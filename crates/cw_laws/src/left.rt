//! The laws of the book that C texts leave, and of the small indexes that are made of it.
ghost use Rattle.cw_laws.specs.Left.{EachLeavesTheBook, LeavesTheWovenBook};
ghost use Rattle.cw_laws.specs.MiniBooks.{SmallIndexesAreOfTheIndex};

use crate::texts::texts_law;
use cw_mini::mini_law;

/// The law of what is left: the book of which `cwmini` makes small indexes has the names, with their categories, and
/// the occurrences of that from which `cweave` prints the index, if flags i, o and f are as at the start. It is what
/// texts leave that are translated one after another, as `cwplain` and `cwlog` do. It does nothing: what it ensures is
/// for proofs.
pub fn left_law()
    ensures woven { LeavesTheWovenBook }
    ensures each { EachLeavesTheBook }
{
    texts_law();
}

/// The law of a web's small indexes: each section that is listed for a name is another one than the row's own, and in
/// the index that `cweave` writes of the same web it is underlined for the same name, if flags i, o and f are as at the
/// start. It does nothing: what it ensures is for proofs.
pub fn mini_book_law()
    ensures { SmallIndexesAreOfTheIndex }
{
    left_law();
    mini_law();
}
