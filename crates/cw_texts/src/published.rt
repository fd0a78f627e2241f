//! All C texts of a book at once. No program calls it, users of the library do: a thin call of what programs run.
ghost use Rattle.std.specs.Prelude.{◌≡◌, ◌<◌, IfOk};
ghost use Rattle.cw_base.specs.Web.{text_of};
ghost use Rattle.cw_texts.specs.Texts.{texts_of};

use crate::text_list::{TextList, add_section};
use cw_base::{Memory, Web};
use cw_phase1::Book;
use std::alloc::Global;

/// The C texts of a web's sections, in the order in which they are woven: of each section the inner texts and the
/// citations of its TeX part, then its definitions but those of `@s`, then its C part where it is printed.
pub fn texts(alloc: Global, web: &Web, book: &Book) -> Result<TextList, Memory>
    ensures { IfOk result
        (λ list. list ≡ texts_of (text_of web.now.lines) book.now.name_uses book.now.outline.sections) }
{
    let text = web.text();
    let mut list = TextList::new_in(alloc);
    for before in 0..book.section_count() {
        let section = book.section(before + 1);
        add_section(text, &book.name_uses, before + 1, section, &mut list)?;
    }
    Ok(list)
}
