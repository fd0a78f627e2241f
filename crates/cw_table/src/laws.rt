//! The laws of rewriting, of safe distances, and of the walk with a pointer.
ghost use Rattle.cw_table.specs.Braces.{OperatorsStandInThree, RowsAreBraced};
ghost use Rattle.cw_table.specs.Reserving.{OneReserves, ThreeSetBold};
ghost use Rattle.cw_table.specs.SourceNumbers.{NormalKeepsNumbers, StepsKeepNumbers};
ghost use Rattle.cw_table.specs.NormalLaws.{CountAtMostEight, CountAtMostWeight, LeastIsSafe, NormalIsDone};
ghost use Rattle.cw_table.specs.NormalLaws.{NormalStays, SafeReachesFar, StaysFine, TicksAtMost, TurnsAtMost};
ghost use Rattle.cw_table.specs.NormalLaws.{WalkEndsNormal, WalkHasLog, WalkIsLeftmost, WeightFalls, WeightTellsNumber};

/// The laws of leftmost-first rewriting, for every table of sound rows. It does nothing: what it ensures is for
/// proofs.
pub fn rewriting_laws()
    ensures weight { WeightFalls }
    ensures fine { StaysFine }
    ensures normal { NormalStays }
    ensures done { NormalIsDone }
    ensures count { CountAtMostWeight }
    ensures eight { CountAtMostEight }
    ensures number { WeightTellsNumber }
    ensures numbers { StepsKeepNumbers }
    ensures all_numbers { NormalKeepsNumbers }
{}

/// The law of the safe distance, for every table of sound rows and every list of scraps. It does nothing: what it
/// ensures is for proofs.
pub fn distance_laws()
    ensures safe { SafeReachesFar }
    ensures least { LeastIsSafe }
{}

/// The law of the walk with a pointer, for every table of sound rows. It does nothing: what it ensures is for
/// proofs.
pub fn walk_laws()
    ensures log { WalkHasLog }
    ensures normal { WalkEndsNormal }
    ensures leftmost { WalkIsLeftmost }
    ensures turns { TurnsAtMost }
    ensures ticks { TicksAtMost }
{}

/// The law of braces: in each production the braces that it puts in pair, and what stands between them needs no text
/// mode, in which TeX would refuse it there; but for the operators that three productions put between braces, of which
/// no production can say that they hold no text. It does nothing: what it ensures is for proofs.
pub fn braces_law()
    ensures rows { RowsAreBraced }
    ensures operators { OperatorsStandInThree }
{}

/// The law of reserved words: one production makes a name a type from then on, and three print a tag as a reserved
/// word and reserve nothing. It does nothing: what it ensures is for proofs.
pub fn reserving_law()
    ensures one { OneReserves }
    ensures bold { ThreeSetBold }
{}
