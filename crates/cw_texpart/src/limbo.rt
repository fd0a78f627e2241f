//! Limbo.
ghost use Rattle.std.specs.Prelude.{◌≡◌, false, IfOk};
ghost use Rattle.cw_base.specs.Web.{text_of};
ghost use Rattle.cw_lines.specs.Sheets.{CanPrint, Prints};
ghost use Rattle.cw_texpart.specs.model.Laying.{holds_bytes};
ghost use Rattle.cw_texpart.specs.Limbo.{limbo_bytes, printed_limbo};

use crate::copying::{end_line_if, holds_bytes};
use crate::inks::put_token;
use cw_base::{Span, Web};
use cw_desk::Desk;
use cw_lex::{Lexed, Mode};
use cw_lines::{PutError, Sheet};
use cw_phase1::Book;
use cw_press::Counts;
use cw_texts::scan;

// Puts limbo, at the beginning of a line.
fn put_limbo<D: Desk>(text: &[u8], span: Span, sheet: &mut Sheet<D>) -> Result<(), PutError>
    requires can { CanPrint D.told sheet.old }
    requires begins { holds_bytes sheet.old.line.now ≡ false }
    ensures { Prints D.told (printed_limbo text.now span) sheet.old sheet.new result }
{
    let mut lexer = scan(text, span, Mode::Limbo);
    'answers: loop {
        match lexer.next() {
            Lexed::Token(token) => put_token(text, &token, sheet)?,
            Lexed::Begin(_token) => {}
            Lexed::Finish(_token) => {}
            Lexed::Note(_kind, _place) => {}
            Lexed::End => {
                let holds = holds_bytes(sheet.line);
                return end_line_if(holds, sheet);
            }
        }
    }
}

/// Prints the first line of the TeX file and limbo. It translates nothing.
pub fn print_limbo<D: Desk>(
    web: &Web,
    book: &Book,
    sheet: &mut Sheet<D>,
) -> Result<Counts, PutError>
    requires can { CanPrint D.told sheet.old }
    ensures prints { Prints D.told (limbo_bytes (text_of web.now.lines) book.now.outline.limbo)
        sheet.old sheet.new result }
    ensures scraps { IfOk result (λ counts. counts.scraps ≡ 0) }
    ensures productions { IfOk result (λ counts. counts.productions ≡ 0) }
{
    sheet.put_all(b"\\input cwebmac\n")?;
    put_limbo(web.text(), book.limbo(), sheet)?;
    Ok(Counts::none())
}
