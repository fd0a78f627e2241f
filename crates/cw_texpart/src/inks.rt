//! What a token of limbo or of TeX text prints.
ghost use Rattle.cw_rules.specs.Answers.{seen};
ghost use Rattle.cw_lines.specs.Sheets.{CanPrint, Prints};
ghost use Rattle.cw_press.specs.Inks.{token_inks};
ghost use Rattle.cw_texpart.specs.model.Laying.{holds_bytes, inked};

use crate::copying::copy;
use cw_desk::Desk;
use cw_lex::Tok;
use cw_lines::{PutError, Sheet};
use cw_press::{is_text, kind_bytes};

/// Puts what a token prints.
pub(crate) fn put_token<D: Desk>(
    text: &[u8],
    token: &Tok,
    sheet: &mut Sheet<D>,
) -> Result<(), PutError>
    requires can { CanPrint D.told sheet.old }
    ensures { Prints D.told
        (inked (holds_bytes sheet.old.line.now) (token_inks text.now token.now.kind (seen token.now)))
        sheet.old sheet.new result }
{
    let copies = is_text(token.kind);
    if copies {
        return copy(text, token.span, sheet);
    }
    sheet.put_all(kind_bytes(token.kind))
}
