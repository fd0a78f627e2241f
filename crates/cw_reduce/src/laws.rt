//! Laws of translations.
ghost use Rattle.cw_reduce.specs.TranslationLaws.{ShowsEachToken, StandsInText, StaysWithinLimit};

/// The laws of translations, with section names and heads. Each token that is shown stands in the tree once and in
/// order, and no other does; read from text, the tree ends in text, and so does each inner text in it; and the steps
/// are at most the limit of the texts. It does nothing: what it ensures is for proofs.
pub fn translation_laws()
    ensures shown { ShowsEachToken }
    ensures modes { StandsInText }
    ensures limit { StaysWithinLimit }
{}
