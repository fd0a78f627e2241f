//! Laws of the logs of C texts.
ghost use Rattle.cw_log_laws.specs.AcceptedLogs.{RightBlocksAreAccepted};
ghost use Rattle.cw_log_laws.specs.LoggedTexts.{TextsAreLogged, TextsKeepNames};
ghost use Rattle.cw_log_laws.specs.WrittenLogs.{CommandsAccept, WrittenLogsAreAccepted};

/// The laws of the logs of C texts. A text of a book leaves names that are names, each at its place and with its text
/// (`names`). Of all texts whose reductions end in it, inner ones and those of section names too, what is told may
/// stand in a log, spelled with whatever later names, and the productions are just those that follow from the leaf
/// lines (`texts`). It does nothing: what it ensures is for proofs.
pub fn logged_law()
    ensures names { TextsKeepNames }
    ensures texts { TextsAreLogged }
{}

/// The laws of logs that are accepted. A file of blocks that may stand in a log, and whose productions follow from
/// their leaf lines, is accepted, if it isn't too long (`right`); and so is the log of every web (`written`), also
/// by the words of a command line (`command`). It does nothing: what it ensures is for proofs.
pub fn accepted_law()
    ensures right { RightBlocksAreAccepted }
    ensures written { WrittenLogsAreAccepted }
    ensures command { CommandsAccept }
{}
