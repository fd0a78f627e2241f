//! Pieces of bytes that are put to a line.
ghost use Rattle.std.specs.Prelude.{◌≡◌};
ghost use Rattle.cw_lines.specs.Sheets.{CanPrint, Prints};
ghost use Rattle.cw_join.specs.Tokens.{control_bytes};

use cw_desk::Desk;
use cw_lines::{PutError, Sheet};
use cw_trees::Control;

/// Puts bytes, if there are any.
pub(crate) fn put_some<D: Desk>(bytes: &[u8], sheet: &mut Sheet<D>) -> Result<(), PutError>
    requires can { CanPrint D.told sheet.old }
    ensures { Prints D.told bytes.now sheet.old sheet.new result }
{
    if bytes.is_empty() {
        return Ok(());
    }
    sheet.put_all(bytes)
}

/// What a control prints that is in no run.
pub(crate) fn sign(control: Control, given: &[u8]) -> &[u8]
    ensures { result.now ≡ control_bytes control given.now }
{
    match control {
        Control::CommentEnd | Control::NameText | Control::NameEnd => given,
        Control::OptionalLineBreak0 => b"\\30",
        Control::OptionalLineBreak9 => b"\\39",
        Control::ThinSpace => b"\\,",
        Control::OpenBrace => b"{",
        Control::CloseBrace => b"}",
        Control::OpenRelation => b"\\MRL{",
        Control::ToMath => b"${}",
        Control::ToText => b"{}$",
        Control::Dollar => b"$",
        _ => b"",
    }
}
