//! Whether the C texts of the section list are whole: no section code cuts them.
ghost use Rattle.std.specs.Prelude.{◌≡◌, ◌≤◌, All, IfOk, length, true};
ghost use Rattle.cw_base.specs.Web.{text_of};
ghost use Rattle.cw_index.specs.NameList.{IsWholeName};
ghost use Rattle.cw_index.specs.Standing.{listed_names};

use crate::names::name_span;
use crate::standing::{Listed, listed_names};
use cw_base::{Memory, Web};
use cw_lex::Mode;
use cw_phase1::Book;
use cw_reduce::is_uncut;
use std::alloc::Global;

fn is_whole_name(text: &[u8], listed: Listed) -> bool
    ensures whole { result ≡ true → IsWholeName text.now listed }
    ensures only { IsWholeName text.now listed → result ≡ true }
{
    if listed.place as usize > text.len() {
        return false;
    }
    let span = name_span(text, listed.place);
    if span.start > span.end || span.end > text.len() {
        return false;
    }
    is_uncut(text, span, Mode::Inner)
}

fn are_whole(text: &[u8], listed: &[Listed]) -> bool
    ensures whole { result ≡ true → All (IsWholeName text.now) listed.now }
    ensures only { All (IsWholeName text.now) listed.now → result ≡ true }
{
    for one in listed {
        if !is_whole_name(text, *one) {
            return false;
        }
    }
    true
}

/// Whether the C text of each name of the section list is whole. It scans them; who knows it from elsewhere needs no
/// look.
pub fn are_names_whole(alloc: Global, web: &Web, book: &Book) -> Result<bool, Memory>
    ensures whole { IfOk result (λ whole. whole ≡ true → All (IsWholeName (text_of web.now.lines))
        (listed_names book.now.sec_names book.now.name_uses)) }
    ensures only { IfOk result (λ whole. All (IsWholeName (text_of web.now.lines))
        (listed_names book.now.sec_names book.now.name_uses) → whole ≡ true) }
{
    let text = web.text();
    let listed = listed_names(alloc, &book.sec_names, &book.name_uses)?;
    Ok(are_whole(text, &listed))
}
