//! Kinds of tokens.
ghost use Rattle.std.specs.Prelude.{◌≡◌};
ghost use Rattle.cw_lex.specs.Limbo.{is_name_kind};

use cw_rules::{Code, TokKind};

/// Whether a token is a section name, of whatever kind.
pub fn is_section_name(kind: TokKind) -> bool
    ensures { result ≡ is_name_kind kind }
{
    matches!(kind, TokKind::Code(Code::SectionName | Code::FileName))
}
