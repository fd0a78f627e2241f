//! Laws of C texts: no section code cuts one.
ghost use Rattle.cw_texts.specs.model.WholeDefinitions.{DefinitionsAreWhole, RestsAreWhole};
ghost use Rattle.cw_texts.specs.model.WholePieces.{PiecesAreWhole, TexPartsAreWhole};

use cw_lex::{nesting_law, openings_law, tex_texts_law};

/// The law of whole pieces: each C text in the TeX part of a section is whole. It does nothing: what it ensures is for
/// proofs.
pub fn whole_pieces_law()
    ensures pieces { PiecesAreWhole }
    ensures tex_parts { TexPartsAreWhole }
{
    nesting_law();
    tex_texts_law();
}

/// The law of whole definitions: what stands behind the TeX part of a whole section is whole. It does nothing: what it
/// ensures is for proofs.
pub fn whole_rest_law()
    ensures definitions { DefinitionsAreWhole }
    ensures rests { RestsAreWhole }
{
    openings_law();
}
