//! What stands behind the TeX parts of small webs, by calls.
ghost use Rattle.cw_lines.specs.Writes.{CanWrite};
ghost use Rattle.cw_translator.specs.NameParts.{AreNamesOf};

use crate::pieces::{Expected, Piece, expect_printed};
use cw_base::{Flags, Kept, Out, Steps, Web};
use cw_desk::Desk;
use cw_lines::{LineOut, PutError};
use cw_part::{is_whole_rest, weave_section};
use cw_phase1::Book;
use cw_press::Counts;
use std::alloc::Global;
use std::test::Fail;

// Prints the first section behind its TeX part, where its C texts are whole.
pub(crate) fn put_rest<D: Desk>(
    alloc: Global,
    web: &Web,
    book: &mut Book,
    out: &mut LineOut,
    desk: &mut D,
) -> Result<Counts, PutError>
    requires can { CanWrite (D.told desk.old) out.old }
    requires kept { AreNamesOf book.old.sec_names book.old.name_uses }
{
    if book.section_count() == 0 {
        return Err(PutError::Memory);
    }
    let found = book.section(1);
    let whole = is_whole_rest(web.text(), &found);
    if !whole {
        return Err(PutError::Memory);
    }
    let mut steps: Steps<Kept> = Steps::new();
    weave_section(alloc, web, book, 1, &Flags::start(), out, desk, &mut steps)
}

/// Webs, and what stands behind the TeX part of their first section.
static ROWS: [Expected; 2] = [
    Expected {
        name: "parts are printed",
        lines: &[
            b"@ @d n 3",
            b"@s foo int",
            b"@f foo int",
            b"@<A@>= foo x;",
            b"@ @<A@>= y;",
            b"@ @c @<A@>;",
        ],
        piece: Piece::Rest,
        output: Out::Tex,
        text: b"\\Y\\B\\4\\D$\\|n$\\5\\T{3}\\par\n\
        \\B\\4\\F\\&{foo}\\5\\&{int}\\par\n\
        \\Y\\B\\X1:A\\X${}\\E{}$\\6\n\
        \\&{foo} \\|x;\\par\n\\A2.\n\\U3.\n\\fi\n\n",
        scraps: None,
        productions: None,
    },
    Expected {
        name: "a section without parts ends",
        lines: &[b"@ A.", b"@c @^b@>"],
        piece: Piece::Rest,
        output: Out::Tex,
        text: b"\\fi\n\n",
        scraps: None,
        productions: None,
    },
];

#[test]
fn parts_are_printed(rt: HostRuntime) -> Result<(), Fail> {
    expect_printed(&rt, rt.alloc(), &ROWS)
}
