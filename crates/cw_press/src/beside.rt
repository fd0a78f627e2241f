//! What stands beside the number of a section, on its line.
ghost use Rattle.std.specs.Prelude.{◌≡◌, IfOk};
ghost use Rattle.cw_rules.specs.Answers.{seen};
ghost use Rattle.cw_press.specs.Beside.{code_beside, has_definition, has_prose, is_nothing, is_prose, ranged_code};
ghost use Rattle.cw_texts.specs.PieceForms.{piece_is};

use crate::inks::prints_nothing;
use cw_base::{Flags, Memory, Span};
use cw_phase1::{Book, Section};
use cw_texts::{Definitions, Piece, Pieces, is_printed};

/// The code that stands on the line of a section's number, directly behind it.
#[derive(Clone, Copy)]
pub enum Beside {
    /// None does.
    Nothing,
    /// The first definition that is printed.
    Definition,
    /// The C part.
    CPart,
}

impl Beside {
    /// Whether the number's line ends before any code.
    pub fn is_nothing(self) -> bool
        ensures { result ≡ is_nothing self }
    {
        matches!(self, Beside::Nothing)
    }
}

// Whether a piece of a TeX part is prose.
fn is_prose(text: &[u8], piece: &Piece) -> bool
    ensures { result ≡ is_prose text.now (piece_is piece.now) }
{
    match piece {
        Piece::Copied(token) => !prints_nothing(text, token),
        Piece::InnerText(_) | Piece::Cited(_) => true,
    }
}

// Whether the TeX part at a span has prose.
fn has_prose(text: &[u8], tex: Span) -> Result<bool, Memory>
    ensures { IfOk result (λ prose. prose ≡ has_prose text.now tex) }
{
    let mut pieces = Pieces::over(text, tex);
    'all: loop {
        let next = pieces.next()?;
        match next {
            Some(piece) => {
                if is_prose(text, &piece) {
                    return Ok(true);
                }
            }
            None => return Ok(false),
        }
    }
}

// Whether a definition is printed of those at a span.
fn has_definition(text: &[u8], part: Span) -> bool
    ensures { result ≡ has_definition text.now part }
{
    Definitions::over(text, part).next_printed().is_some()
}

// The first code that a section prints, where it has no prose.
#[cold]
#[inline(never)]
fn ranged_code(text: &[u8], book: &Book, section: &Section) -> Result<Beside, Memory>
    ensures { IfOk result (λ b. b ≡ ranged_code text.now book.now.name_uses section.now) }
{
    if has_prose(text, section.tex)? {
        return Ok(Beside::Nothing);
    }
    if has_definition(text, section.definitions) {
        return Ok(Beside::Definition);
    }
    if is_printed(text, &book.name_uses, section)? {
        return Ok(Beside::CPart);
    }
    Ok(Beside::Nothing)
}

/// What stands beside the number of a section: with flag r, where it has no prose, the first code that it prints.
#[inline(always)]
pub(crate) fn code_beside(
    text: &[u8],
    flags: &Flags,
    book: &Book,
    section: &Section,
) -> Result<Beside, Memory>
    ensures { IfOk result (λ b. b ≡ code_beside text.now flags.now book.now.name_uses section.now) }
{
    if !flags.ranged {
        return Ok(Beside::Nothing);
    }
    // A copy, so that no section needs a place in memory without the flag.
    let copy = *section;
    ranged_code(text, book, &copy)
}
