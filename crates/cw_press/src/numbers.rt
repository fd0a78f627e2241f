//! The numbers of sections.
ghost use Rattle.cw_lines.specs.Sheets.{CanPrint, Prints};
ghost use Rattle.cw_print.specs.Walk.{changed_mark, section_number};

use cw_desk::Desk;
use cw_lines::{PutError, Sheet};
use itoa::Buffer;

/// Puts the number of a section, with `\*` behind it where the section holds a changed line.
pub fn put_number<D: Desk>(number: u32, changed: bool, sheet: &mut Sheet<D>) -> Result<(), PutError>
    requires can { CanPrint D.told sheet.old }
    ensures { Prints D.told (section_number number changed) sheet.old sheet.new result }
{
    let mut buffer = Buffer::new();
    sheet.put_all(buffer.format(number).as_bytes())?;
    put_changed_mark(changed, sheet)
}

// Puts what stands behind the number of a section.
fn put_changed_mark<D: Desk>(changed: bool, sheet: &mut Sheet<D>) -> Result<(), PutError>
    requires can { CanPrint D.told sheet.old }
    ensures { Prints D.told (changed_mark changed) sheet.old sheet.new result }
{
    if changed {
        return sheet.put_all(b"\\*");
    }
    Ok(())
}
