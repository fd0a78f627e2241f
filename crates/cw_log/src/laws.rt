//! Laws of the lines that are told.
ghost use Rattle.cw_log.specs.model.Telling.{ItemsSayProductions, LinesSayScraps};

/// The laws of what is told. The line told of a scrap spells the scrap's leaf line, over every list of names
/// (`lines`), and the item told of a production says it (`items`). It does nothing: what it ensures is for proofs.
pub fn line_law()
    ensures lines { LinesSayScraps }
    ensures items { ItemsSayProductions }
{}
