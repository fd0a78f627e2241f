//! Limbo, and the heads and TeX parts of small webs, by calls.
ghost use Rattle.cw_lines.specs.Writes.{CanWrite};
ghost use Rattle.cw_translator.specs.NameParts.{AreNamesOf};

use crate::pieces::{Expected, Piece, expect_printed};
use cw_base::{Flags, Kept, Out, Steps, Web};
use cw_desk::Desk;
use cw_lines::{LineOut, PutError};
use cw_phase1::Book;
use cw_press::Counts;
use cw_texpart::{copy_tex, is_whole};
use std::alloc::Global;
use std::test::Fail;

// Puts the head and the TeX part of the first section, where the C texts in it are whole.
pub(crate) fn put_first<D: Desk>(
    alloc: Global,
    web: &Web,
    book: &mut Book,
    out: &mut LineOut,
    desk: &mut D,
) -> Result<Counts, PutError>
    requires can { CanWrite (D.told desk.old) out.old }
    requires kept { AreNamesOf book.old.sec_names book.old.name_uses }
{
    if book.section_count() == 0 {
        return Err(PutError::Memory);
    }
    let section = book.section(1);
    let whole = is_whole(web.text(), section.tex)?;
    if !whole {
        return Err(PutError::Memory);
    }
    let mut steps: Steps<Kept> = Steps::new();
    copy_tex(alloc, web, book, 1, &Flags::start(), out, desk, &mut steps)
}

/// Webs, and their limbo or the start of their first section.
static ROWS: [Expected; 2] = [
    Expected {
        name: "limbo is copied",
        lines: &[b"% a@@b", b"@l", b"@q c@>", b"", b"@ A"],
        piece: Piece::Limbo,
        output: Out::Tex,
        text: b"\\input cwebmac\n% a@b\n\\ATL\n\n",
        scraps: Some(0),
        productions: None,
    },
    Expected {
        name: "a section is copied",
        lines: &[
            b"@*07 Deep@@.",
            b"@^a@>",
            b"",
            b"See |f(n)|",
            b"and @<A|n|@>.",
        ],
        piece: Piece::Start,
        output: Out::Tex,
        text: b"\\N{7}{1}Deep@.\n\nSee \\PB{\\|f(\\|n)}\nand \\PB{\\X0:A\\PB{\\|n}\\X}.\n",
        scraps: Some(6),
        productions: Some(3),
    },
];

#[test]
fn limbo_and_a_section_are_copied(rt: HostRuntime) -> Result<(), Fail> {
    expect_printed(&rt, rt.alloc(), &ROWS)
}
