//! Pieces of the books of small webs, and what each prints.
ghost use Rattle.std.specs.Prelude.{IsTrue};
ghost use Rattle.cw_desk.specs.Meaning.{is_open};
ghost use Rattle.cw_lines.specs.Writes.{CanWrite};
ghost use Rattle.cw_translator.specs.NameParts.{AreNamesOf};

use crate::index_tests::{list_names, put_index};
use crate::part_tests::put_rest;
use crate::small_webs::book_of;
use crate::tex_part_tests::put_first;
use cw_base::{Bytes, Out, Web};
use cw_desk::Desk;
use cw_lines::{LineOut, PutError};
use cw_phase1::Book;
use cw_press::Counts;
use cw_test_desks::{desk_making, web_of, written};
use cw_texpart::copy_limbo;
use std::alloc::Global;
use std::process::Abort;
use std::test::Fail;

/// A piece of a book.
#[derive(Clone, Copy)]
pub(crate) enum Piece {
    /// What stands before the first section.
    Limbo,
    /// The head and the TeX part of the first section.
    Start,
    /// What stands behind the TeX part of that section.
    Rest,
    /// The index, and what closes the book.
    Index,
    /// The section list.
    SectionList,
}

// Puts a piece on a line.
fn put_piece<D: Desk>(
    alloc: Global,
    web: &Web,
    book: &mut Book,
    piece: Piece,
    out: &mut LineOut,
    desk: &mut D,
) -> Result<Counts, PutError>
    requires can { CanWrite (D.told desk.old) out.old }
    requires kept { AreNamesOf book.old.sec_names book.old.name_uses }
{
    match piece {
        Piece::Limbo => copy_limbo(alloc, web, book, out, desk),
        Piece::Start => put_first(alloc, web, book, out, desk),
        Piece::Rest => put_rest(alloc, web, book, out, desk),
        Piece::Index => put_index(alloc, web, book, out, desk),
        Piece::SectionList => list_names(alloc, web, book, out, desk),
    }
}

// Puts a piece on a new line of an output that is made.
fn put_on<D: Desk>(
    alloc: Global,
    web: &Web,
    book: &mut Book,
    piece: Piece,
    output: Out,
    desk: &mut D,
) -> Result<Counts, PutError>
    requires made { IsTrue (is_open (D.told desk.old).outputs output) }
    requires kept { AreNamesOf book.old.sec_names book.old.name_uses }
{
    let mut out = LineOut::new_in(alloc, output);
    put_piece(alloc, web, book, piece, &mut out, desk)
}

// What a piece of a book prints on an output, and the scraps and productions that are counted for it. The web and its
// book are borrowed: a way out is the dearer to prove the more is let go on it.
fn printed_of(
    alloc: Global,
    web: &Web,
    book: &mut Book,
    piece: Piece,
    output: Out,
) -> Result<(Bytes, (u64, u64)), Fail>
    requires kept { AreNamesOf book.old.sec_names book.old.name_uses }
{
    let mut desk = desk_making(alloc, output)?;
    let counts = put_on(alloc, web, book, piece, output, &mut desk)?;
    let text = written(alloc, desk.journal())?;
    Ok((text, (counts.scraps, counts.productions)))
}

/// The same of the book of a web.
fn printed(
    alloc: Global,
    lines: &[&[u8]],
    piece: Piece,
    output: Out,
) -> Result<(Bytes, (u64, u64)), Fail> {
    let web = web_of(alloc, lines)?;
    let mut book = book_of(alloc, &web)?;
    printed_of(alloc, &web, &mut book, piece, output)
}

/// A web, a piece of its book, and what that has to print.
pub(crate) struct Expected {
    /// What it shows.
    pub(crate) name: &'static str,
    /// The lines of the web.
    pub(crate) lines: &'static [&'static [u8]],
    pub(crate) piece: Piece,
    /// Where it is put.
    pub(crate) output: Out,
    pub(crate) text: &'static [u8],
    /// The scraps that are counted for it, where they are known.
    pub(crate) scraps: Option<u64>,
    /// And the productions.
    pub(crate) productions: Option<u64>,
}

/// Each piece has to print what is expected of it.
pub(crate) fn expect_printed(
    rt: &impl Abort,
    alloc: Global,
    rows: &[Expected],
) -> Result<(), Fail> {
    for row in rows {
        let (text, (scraps, productions)) = printed(alloc, row.lines, row.piece, row.output)?;
        let seen = (text.as_slice(), scraps, productions);
        let scraps = row.scraps.unwrap_or(scraps);
        let productions = row.productions.unwrap_or(productions);
        assert_eq!(rt; seen, (row.text, scraps, productions), "{}", row.name);
    }
    Ok(())
}
