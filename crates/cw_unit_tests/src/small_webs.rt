//! The books of small webs.
ghost use Rattle.std.specs.Prelude.{IfOk};
ghost use Rattle.cw_translator.specs.NameParts.{AreNamesOf};

use cw_base::{Memory, Web};
use cw_phase1::{Book, phase_one};
use std::alloc::Global;

/// The book of a web.
pub(crate) fn book_of(alloc: Global, web: &Web) -> Result<Book, Memory>
    ensures { IfOk result (λ book. AreNamesOf book.sec_names book.name_uses) }
{
    let _text = web.text();
    let book = phase_one(alloc, web)?;
    Ok(book)
}
