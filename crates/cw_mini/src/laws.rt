//! The law of small indexes.
ghost use Rattle.cw_mini.specs.MiniLaws.{NamesOtherSections};

/// The law of small indexes: each section that is listed for a name is another one than the row's own, and in the index
/// it is underlined for the same name. It does nothing: what it ensures is for proofs.
pub fn mini_law()
    ensures { NamesOtherSections }
{}
