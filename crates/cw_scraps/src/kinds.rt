//! Which kinds of tokens make a scrap of their own.
ghost use Rattle.std.specs.Prelude.{◌↔◌, IsTrue};
ghost use Rattle.cw_rules.specs.declared.tokens.TokKind.TheVariants as kinds;
ghost use Rattle.cw_scraps.specs.Leaves.{MakesLeaf};

use cw_rules::{Code, TokKind};

/// Whether a token makes a scrap of its own, so that `scrap_of` may be asked for it. What only holds or heads others
/// makes none: comments, inner texts, the signs of heads, and codes that say something of a name or to the index.
pub fn makes_leaf(kind: TokKind) -> bool
    ensures { IsTrue result ↔ MakesLeaf kind }
{
    match kind {
        TokKind::Identifier
        | TokKind::Constant
        | TokKind::Quoted
        | TokKind::IncludeName
        | TokKind::Sign(_)
        | TokKind::HashLine
        | TokKind::HashLineEnd
        | TokKind::OtherByte => true,
        TokKind::Code(code) => is_laid_out(code),
        TokKind::Dropped
        | TokKind::HeadSign
        | TokKind::Text
        | TokKind::LongComment
        | TokKind::ShortComment
        | TokKind::InnerText => false,
    }
}

/// Whether a code makes a scrap of its own.
fn is_laid_out(code: Code) -> bool
    ensures { IsTrue result ↔ MakesLeaf (kinds.Code code) }
{
    matches!(
        code,
        Code::TexBox
            | Code::Verbatim
            | Code::Quote
            | Code::Join
            | Code::ThinSpace
            | Code::LineBreak
            | Code::BigBreak
            | Code::OptionalBreak
            | Code::NoBreak
            | Code::HeaderFile
            | Code::InvisibleSemicolon
            | Code::BeginArgument
            | Code::EndArgument
    )
}
