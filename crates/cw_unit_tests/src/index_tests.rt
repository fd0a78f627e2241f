//! Indexes and section lists of small webs, by calls.
ghost use Rattle.cw_lines.specs.Writes.{CanWrite};
ghost use Rattle.cw_translator.specs.NameParts.{AreNamesOf};

use crate::pieces::{Expected, Piece, expect_printed};
use cw_base::{Flags, Kept, Memory, Out, Steps, Web};
use cw_desk::Desk;
use cw_index::{are_names_whole, compare_entries, write_closing, write_index, write_names};
use cw_lines::{LineOut, PutError};
use cw_names::{EntryKind, Names};
use cw_phase1::Book;
use cw_press::Counts;
use std::alloc::Global;
use std::cmp::Ordering;
use std::test::Fail;

// How three pairs of entries stand: a capital and a small letter, a digit and that, and that and itself.
fn compared(names: &mut Names) -> Result<Option<[Ordering; 3]>, Memory> {
    let capital = names.find_or_add(EntryKind::Ident, b"Ab")?;
    let small = names.find_or_add(EntryKind::Roman, b"ab")?;
    let digit = names.find_or_add(EntryKind::Ident, b"a1")?;
    if capital.index < names.len() && small.index < names.len() && digit.index < names.len() {
        return Ok(Some([
            compare_entries(names, capital, small),
            compare_entries(names, digit, small),
            compare_entries(names, small, small),
        ]));
    }
    Ok(None)
}

#[test]
fn an_entry_stands_before_another(rt: HostRuntime) -> Result<(), Fail> {
    let wanted = [Ordering::Less, Ordering::Greater, Ordering::Equal];
    let mut names = Names::with_words(rt.alloc())?;
    let seen = compared(&mut names)?;
    assert_eq!(rt; seen, Some(wanted));
    Ok(())
}

// Puts the index and what closes the book. The scraps are those of the index, and the productions those of what closes.
pub(crate) fn put_index<D: Desk>(
    alloc: Global,
    web: &Web,
    book: &Book,
    out: &mut LineOut,
    desk: &mut D,
) -> Result<Counts, PutError>
    requires can { CanWrite (D.told desk.old) out.old }
{
    let index = write_index(alloc, web, book, out, desk)?;
    let closing = write_closing(book, &Flags::start(), out, desk)?;
    Ok(Counts {
        scraps: index.scraps,
        productions: closing.productions,
    })
}

// The section list, once its C texts were found whole.
pub(crate) fn list_names<D: Desk>(
    alloc: Global,
    web: &Web,
    book: &mut Book,
    out: &mut LineOut,
    desk: &mut D,
) -> Result<Counts, PutError>
    requires can { CanWrite (D.told desk.old) out.old }
    requires kept { AreNamesOf book.old.sec_names book.old.name_uses }
{
    let whole = are_names_whole(alloc, web, book)?;
    if !whole {
        return Err(PutError::Memory);
    }
    let mut steps: Steps<Kept> = Steps::new();
    write_names(alloc, web, book, &Flags::start(), out, desk, &mut steps)
}

/// Webs, and their index or section list.
static ROWS: [Expected; 2] = [
    Expected {
        name: "an index is written",
        lines: &[
            b"@* One. |main|",
            b"@d EOF n",
            b"@ Two.",
            b"@c x1=main; @.t_t@>",
        ],
        piece: Piece::Index,
        output: Out::Idx,
        text: b"\\I\\.{EOF}, \\[1].\n\\I\\\\{main}, 1, 2.\n\\I\\.{t_t}, 2.\n\\I\\\\{x1}, 2.\n\\inx\n\\fin\n\\con\n",
        scraps: Some(0),
        productions: Some(0),
    },
    Expected {
        name: "a section list is written",
        lines: &[
            b"@ One, @<b|n|@>.",
            b"@ Two.",
            b"@<b|n|@>=@<B@>; @<B@>",
            b"@ Three.",
            b"@(B@>=x; @<b|n|@>",
        ],
        piece: Piece::SectionList,
        output: Out::Idx,
        text: b"\\I\\X0:B\\X\n\\U2.\n\\I\\X3:\\.{B}\\X\n\\I\\X2:b\\PB{\\|n}\\X\n\\Q1.\n\\U3.\n",
        scraps: Some(4),
        productions: None,
    },
];

#[test]
fn an_index_and_a_section_list_are_written(rt: HostRuntime) -> Result<(), Fail> {
    expect_printed(&rt, rt.alloc(), &ROWS)
}
