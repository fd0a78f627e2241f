//! Whether the C texts of a section are whole: no section code cuts them.
ghost use Rattle.std.specs.Prelude.{◌≡◌, ◌≤◌, All, length, true};
ghost use Rattle.cw_texts.specs.Definitions.{definitions_in};
ghost use Rattle.cw_texts.specs.WholeTexts.{IsWholeDefinition, IsWholeIn, IsWholeRest};

use cw_base::Span;
use cw_lex::Mode;
use cw_phase1::Section;
use cw_reduce::is_uncut;
use cw_texts::Definitions;

/// Whether the definitions of a section and its C part are whole. It scans them; who knows it from elsewhere needs no
/// look.
pub fn is_whole_rest(text: &[u8], section: &Section) -> bool
    ensures whole { result ≡ true → IsWholeRest text.now section.now }
    ensures only { IsWholeRest text.now section.now → result ≡ true }
{
    if !is_whole(text, section.definitions, Mode::Definition) {
        return false;
    }
    are_whole(text, section.definitions) && is_whole(text, section.c_part, Mode::CPart)
}

// Whether each definition that stands at a span is whole.
fn are_whole(text: &[u8], part: Span) -> bool
    requires order { part.start ≤ part.end }
    requires within { part.end ≤ length text.now }
    ensures whole { result ≡ true → All (IsWholeDefinition text.now) (definitions_in text.now part) }
    ensures only { All (IsWholeDefinition text.now) (definitions_in text.now part) → result ≡ true }
{
    let mut definitions = Definitions::over(text, part);
    while let Some(definition) = definitions.next() {
        if !is_whole(text, definition.span, Mode::Definition) {
            return false;
        }
    }
    true
}

fn is_whole(text: &[u8], part: Span, mode: Mode) -> bool
    ensures whole { result ≡ true → IsWholeIn mode text.now part }
    ensures only { IsWholeIn mode text.now part → result ≡ true }
{
    if part.start > part.end || part.end > text.len() {
        return false;
    }
    is_uncut(text, part, mode)
}
