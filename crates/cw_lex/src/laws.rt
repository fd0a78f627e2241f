//! Laws of the scanner's answers.
ghost use Rattle.cw_lex.specs.model.Limbo.{LimboHasNoNames};
ghost use Rattle.cw_lex.specs.NestLaws.{NestedAnswersMakeOneNest, NestsAreWell, HeadsLeaveNests};
ghost use Rattle.cw_lex.specs.Parts.{PartsEndAtSections, PartsEndAtCodes, LastPartsEndWithTheText, PartsAreAnswered};
ghost use Rattle.cw_lex.specs.Parts.{InnerTextsEndAtBars};
ghost use Rattle.cw_lex.specs.Openings.{TextsEndAtOpenings, TextsEndAtSections};
ghost use Rattle.cw_lex.specs.model.TexTexts.{TexTextsGoOn};
ghost use Rattle.cw_lex.specs.Nested.{CTextsAreNested, CTextsNestUpToSections, TexTextsAreNested};

/// The law of parts: the scan of a part of a text is the scan of the whole there, and so is the scan of the bytes
/// between the two bars of inner C text. It does nothing: what it ensures is for proofs.
pub fn parts_law()
    ensures sections { PartsEndAtSections }
    ensures codes { PartsEndAtCodes }
    ensures last { LastPartsEndWithTheText }
    ensures answered { PartsAreAnswered }
    ensures inner { InnerTextsEndAtBars }
{}

/// The law of nesting: over C text the answers are nested, up to a section code that cuts it, and over TeX text inner C
/// texts are. It does nothing: what it ensures is for proofs.
pub fn nesting_law()
    ensures c_texts { CTextsAreNested }
    ensures up_to_sections { CTextsNestUpToSections }
    ensures tex_texts { TexTextsAreNested }
{}

/// The law of nests: nested answers are those of one nest, in which all stands where it may, and so are the answers
/// behind a head. It does nothing: what it ensures is for proofs.
pub fn nest_law()
    ensures one { NestedAnswersMakeOneNest }
    ensures well { NestsAreWell }
    ensures heads { HeadsLeaveNests }
{}

/// The law of limbo: no section name stands in it. It does nothing: what it ensures is for proofs.
pub fn limbo_law()
    ensures { LimboHasNoNames }
{}

/// The law of openings: a text ends before the code with which a section or another part begins, and goes on from there
/// as that part. It does nothing: what it ensures is for proofs.
pub fn openings_law()
    ensures sections { TextsEndAtSections }
    ensures openings { TextsEndAtOpenings }
{}

/// The law of TeX text: where no other part begins in it, it goes on token by token, and each inner C text and each
/// name in it is whole by itself. It does nothing: what it ensures is for proofs.
pub fn tex_texts_law()
    ensures { TexTextsGoOn }
{}
