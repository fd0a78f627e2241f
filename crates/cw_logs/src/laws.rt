//! Laws of logs.
ghost use Rattle.cw_logs.specs.LogLaws.{BlocksAreTold, InsideIsFault, LogIsRead, ReadIsLog, StuckIsFault};
ghost use Rattle.cw_logs.specs.LogLaws.{TextHasLines, TextIsLog, TextTellsBlocks};

/// The laws of logs. What is read line by line from between two blocks to between two blocks is a log (`read`), and
/// every log is read so (`logs`). Where reading can't go on, or ends inside a block, is the fault (`stuck`, `inside`).
/// The text of blocks has their lines (`lines`) and so is a log (`text`), and no other blocks have these lines (`told`)
/// or this text (`alone`). It does nothing: what it ensures is for proofs.
pub fn log_laws()
    ensures read { ReadIsLog }
    ensures logs { LogIsRead }
    ensures stuck { StuckIsFault }
    ensures inside { InsideIsFault }
    ensures lines { TextHasLines }
    ensures text { TextIsLog }
    ensures told { BlocksAreTold }
    ensures alone { TextTellsBlocks }
{}
