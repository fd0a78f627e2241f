//! The laws of leaf lines.
ghost use Rattle.cw_leaves.specs.LogLaws.{LinesHaveLog, SameLinesSameLog, SightsHaveLog};

/// The laws of leaf lines. A production sees no more of a scrap than its category, the identifier that it is, if it is
/// one, and the identifiers up to what ends a search for the first (`sights`). A leaf line tells all of that, so the
/// log of scraps is that of their leaf lines (`lines`), and scraps with the same leaf lines have the same log, though
/// they stand over other names (`same`). It does nothing: what it ensures is for proofs.
pub fn leaf_line_law()
    ensures sights { SightsHaveLog }
    ensures lines { LinesHaveLog }
    ensures same { SameLinesSameLog }
{}
