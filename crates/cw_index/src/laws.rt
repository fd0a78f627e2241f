//! Laws of the index and of the section list.
ghost use Rattle.cw_index.specs.Completeness.{IndexIsComplete, RowsAreOfNames};
ghost use Rattle.cw_index.specs.WholeNames.{NamesAreWhole};

/// The law of the index: it lists a section for a name exactly where the name occurs there (`complete`). Each row has
/// the entry of its name, no name has two, and they stand in the order of their entries; each lists a section, and its
/// sections ascend, each once, underlined just where the name is (`rows`). It does nothing: what it ensures is for
/// proofs.
pub fn index_law()
    ensures complete { IndexIsComplete }
    ensures rows { RowsAreOfNames }
{}

/// The law of whole names: each name of the section list of every book is whole, scanned by itself. It does nothing:
/// what it ensures is for proofs.
pub fn whole_names_law()
    ensures { NamesAreWhole }
{}
