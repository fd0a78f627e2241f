//! A span scanned, and its list printed. No program calls it, users of the
//! library do: a thin call of what programs run.
ghost use Rattle.std.specs.Prelude.{◌≡◌, ◌≤◌, ◌<◌, false, length};
ghost use Rattle.cw_lex.specs.Lexing.{tokens_of};
ghost use Rattle.cw_lex.specs.Nested.{begins_section_in};
ghost use Rattle.cw_tokens.specs.Shapes.{unfolded};
ghost use Rattle.cw_scraps.specs.Lines.{IsNamedBelow};
ghost use Rattle.cw_lines.specs.Writes.{CanWrite, Puts};
ghost use Rattle.cw_print.specs.Sources.{source_at};
ghost use Rattle.cw_print.specs.Walk.{tree_bytes};

use crate::printing::{KeptText, print_answers};
use crate::scan::scanned;
use cw_base::{Flags, Span};
use cw_desk::Desk;
use cw_lex::Mode;
use cw_lines::{LineOut, PutError, Sheet};
use cw_phase1::Book;
use cw_tokens::{ListId, TokenStore};
use std::alloc::Global;

/// Prints as `print_answers` does a C text that has to be scanned first. `section` is the present section, or 0 in the
/// section list; with `inner` the text is itself inner C text.
pub fn print_list<D: Desk>(
    alloc: Global,
    text: &[u8],
    span: Span,
    mode: Mode,
    book: &Book,
    section: u32,
    flags: &Flags,
    store: &TokenStore,
    id: ListId,
    inner: bool,
    out: &mut LineOut,
    desk: &mut D,
) -> Result<(), PutError>
    requires can { CanWrite (D.told desk.old) out.old }
    requires order { span.start ≤ span.end }
    requires within { span.end ≤ length text.now }
    requires uncut { begins_section_in (tokens_of text.now span.start span.end mode) ≡ false }
    requires list { id.index < length store.now.lists }
    requires named { IsNamedBelow (length book.now.names) (unfolded store.now.lists id.index) }
    ensures puts { Puts (tree_bytes inner (source_at text.now span mode book.now section flags.now)
        (unfolded store.now.lists id.index))
        out.old out.new (D.told desk.old) (D.told desk.new) result }
{
    let answers = scanned(alloc, text, span, mode)?;
    let c = KeptText {
        answers: &answers,
        book,
        section,
        flags,
        inner,
    };
    let mut sheet = Sheet { line: out, desk };
    print_answers(alloc, c, store, id, &mut sheet)
}
