//! Whether the C part of a section is printed.
ghost use Rattle.std.specs.Prelude.{◌≡◌, IfOk};
ghost use Rattle.cw_rules.specs.declared.tokens.Mode.TheVariants.{CPart};
ghost use Rattle.cw_texts.specs.Printed.{group_makes, has_scrap, is_kept, is_printed, token_makes};
ghost use Rattle.cw_texts.specs.Scans.{scanned};

use crate::definitions::begun_by;
use crate::scans::scan;
use cw_base::{Memory, Span};
use cw_lex::{Lexed, Mode, TokKind, is_section_name};
use cw_phase1::Section;
use cw_scraps::makes_leaf;
use cw_secnames::NameUses;

/// Whether the C part of a section is printed.
pub fn is_printed(text: &[u8], uses: &NameUses, section: &Section) -> Result<bool, Memory>
    ensures { IfOk result (λ printed. printed ≡ is_printed text.now uses.now section.now) }
{
    if section.name.is_some() {
        return Ok(true);
    }
    has_scrap(text, uses, section.c_part)
}

// Whether the C part at a span has a scrap.
fn has_scrap(text: &[u8], uses: &NameUses, part: Span) -> Result<bool, Memory>
    ensures { IfOk result (λ has. has ≡ has_scrap uses.now (scanned CPart text.now part)) }
{
    let mut lexer = scan(text, part, Mode::CPart);
    'answers: loop {
        match lexer.next() {
            Lexed::Token(token) => {
                if token_makes(uses, token.kind, token.span.start)? {
                    return Ok(true);
                }
            }
            Lexed::Begin(token) => {
                if group_makes(token.kind) {
                    return Ok(true);
                }
            }
            Lexed::Finish(_token) => {}
            Lexed::Note(_kind, _place) => {}
            Lexed::End => return Ok(false),
        }
    }
}

// Whether a token without nested text makes a scrap.
fn token_makes(uses: &NameUses, kind: TokKind, place: usize) -> Result<bool, Memory>
    ensures { IfOk result (λ makes. makes ≡ token_makes uses.now kind place) }
{
    if is_section_name(kind) {
        return is_kept(uses, place);
    }
    Ok(begun_by(kind, place).is_some() || makes_leaf(kind))
}

fn group_makes(kind: TokKind) -> bool
    ensures { result ≡ group_makes kind }
{
    matches!(kind, TokKind::LongComment | TokKind::ShortComment)
}

/// Whether the book has a name for the section name at a place; `Memory` where the place takes more than 32 bits, for
/// which there is no capacity.
pub(crate) fn is_kept(uses: &NameUses, place: usize) -> Result<bool, Memory>
    ensures { IfOk result (λ kept. kept ≡ is_kept uses.now place) }
{
    if place > 4294967295 {
        return Err(Memory);
    }
    Ok(uses.at(place as u32).is_some())
}
