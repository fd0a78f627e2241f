//! Section names as they are printed.
ghost use Rattle.std.specs.Prelude.{◌≡◌, ◌++◌, OnOk};
ghost use Rattle.std.specs.List.{flat_map};
ghost use Rattle.cw_print.specs.Walk.{front, later_number, section_number};
ghost use Rattle.cw_print.specs.model.Titles.{title_of};

use crate::book_titles::is_changed;
use cw_base::{Bytes, Memory};
use cw_phase1::Book;
use itoa::Buffer;

/// A section name as it is printed.
#[derive(Clone, Copy)]
pub(crate) struct SectionTitle<'a> {
    /// The name's text, as it is kept.
    pub text: &'a [u8],
    /// Whether it is the name of a file.
    pub is_file: bool,
    /// The first section that defines it, or 0 where none does.
    pub number: u32,
    /// Whether that section holds a changed line.
    pub is_changed: bool,
    /// The later sections that define it.
    pub later: &'a [u32],
    /// The book, whose sections these are.
    pub book: &'a Book,
}

/// Appends a section number, with `\*` behind that of a changed section.
#[inline(always)]
pub(crate) fn put_section_number(
    out: &mut Bytes,
    number: u32,
    is_changed: bool,
) -> Result<(), Memory>
    ensures { OnOk result (out.new ≡ out.old ++ section_number number is_changed) }
{
    out.append(Buffer::new().format(number).as_bytes())?;
    if is_changed {
        out.append(b"\\*")?;
    }
    Ok(())
}

// Appends the numbers of the later sections that define a name. It stands apart, since few names list them.
#[inline(never)]
fn put_later(out: &mut Bytes, title: &SectionTitle) -> Result<(), Memory>
    ensures { OnOk result (out.new ≡ out.old ++ flat_map later_number (title_of title.now).later) }
{
    for number in title.later {
        out.append(b", ")?;
        put_section_number(out, *number, is_changed(title.book, *number))?;
    }
    Ok(())
}

/// Appends what a section name prints before its text, with `lists` all sections that define it.
pub(crate) fn put_front(out: &mut Bytes, title: &SectionTitle, lists: bool) -> Result<(), Memory>
    ensures { OnOk result (out.new ≡ out.old ++ front lists (title_of title.now)) }
{
    out.append(b"\\X")?;
    put_section_number(out, title.number, title.is_changed)?;
    if lists {
        put_later(out, title)?;
    }
    out.push(b':')
}
