//! The small indexes of a book's sections, by the public calls.
use cw_base::{Bytes, Memory};
use cw_index::index_order;
use cw_mini::{MiniRows, SectionMarks, mini_rows};
use cw_names::NameId;
use cw_phase1::{Book, phase_one};
use cw_run::append_number;
use cw_test_desks::web_of;
use std::alloc::Global;
use std::test::Fail;

/// The book of a web of these lines.
fn book_of(alloc: Global, lines: &[&[u8]]) -> Result<Book, Memory> {
    let web = web_of(alloc, lines)?;
    phase_one(alloc, &web)
}

const TWO: [&[u8]; 2] = [b"@ @c int i;", b"@ @c i;"];

/// Marks of all names of a book in its first section.
fn marks_of(alloc: Global, book: &Book) -> Result<SectionMarks, Memory> {
    let mut marks = SectionMarks::new_in(alloc);
    for index in 0..book.names.len() {
        marks.add(1, NameId { index })?;
    }
    Ok(marks)
}

/// Appends a row: its name, and behind it each of its sections.
fn append_row(text: &mut Bytes, book: &Book, rows: &MiniRows, i: usize) -> Result<(), Memory> {
    if i >= rows.len() {
        return Ok(());
    }
    let id = rows.name(i);
    if id.index < book.names.len() {
        text.append(book.names.text(id))?;
    }
    for section in rows.sections(i) {
        text.push(b' ')?;
        append_number(text, u64::from(*section))?;
    }
    text.push(b'\n')
}

/// Appends the rows of a section, where the book has the section.
fn append_rows(
    alloc: Global,
    book: &Book,
    marks: &SectionMarks,
    section: u32,
    text: &mut Bytes,
) -> Result<(), Memory> {
    if section == 0 || section > book.section_count() {
        return Ok(());
    }
    let rows = mini_rows(alloc, book, marks, section)?;
    for i in 0..rows.len() {
        append_row(text, book, &rows, i)?;
    }
    Ok(())
}

/// The rows of each section of a book as a text, in which an `@` stands before those of each.
fn rows_by(alloc: Global, book: &Book, marks: &SectionMarks) -> Result<Bytes, Memory> {
    let mut text = Bytes::new_in(alloc);
    for before in 0..book.section_count() {
        text.push(b'@')?;
        append_rows(alloc, book, marks, before + 1, &mut text)?;
    }
    Ok(text)
}

/// The same with marks of all names in the first section.
fn rows_marked(alloc: Global, book: &Book) -> Result<Bytes, Memory> {
    let marks = marks_of(alloc, book)?;
    rows_by(alloc, book, &marks)
}

/// The rows of each section of a web, with these marks or none.
fn rows_of(alloc: Global, lines: &[&[u8]], marked: bool) -> Result<Bytes, Memory> {
    let book = book_of(alloc, lines)?;
    if marked {
        return rows_marked(alloc, &book);
    }
    rows_by(alloc, &book, &SectionMarks::new_in(alloc))
}

#[test]
fn rows_of_two_sections(rt: HostRuntime) -> Result<(), Fail> {
    let rows = rows_of(rt.alloc(), &TWO, true)?;
    assert_eq!(rt; rows.as_slice(), b"@@i 1\n".as_slice());
    Ok(())
}

#[test]
fn nothing_is_listed_without_marks(rt: HostRuntime) -> Result<(), Fail> {
    let rows = rows_of(rt.alloc(), &TWO, false)?;
    assert_eq!(rt; rows.as_slice(), b"@@".as_slice());
    Ok(())
}

/// The names of a book's index, one behind the other.
fn order_by(alloc: Global, book: &Book) -> Result<Bytes, Memory> {
    let mut text = Bytes::new_in(alloc);
    for id in index_order(alloc, &book.names, &book.xrefs)? {
        if id.index < book.names.len() {
            text.append(book.names.text(id))?;
        }
    }
    Ok(text)
}

/// The names of the index of a web.
fn order_of(alloc: Global, lines: &[&[u8]]) -> Result<Bytes, Memory> {
    let book = book_of(alloc, lines)?;
    order_by(alloc, &book)
}

// Letters stand before digits, and no definition is needed: these names have two bytes.
#[test]
fn names_stand_in_the_order_of_the_index(rt: HostRuntime) -> Result<(), Fail> {
    let order = order_of(rt.alloc(), &[b"@ @c a1; aB;"])?;
    assert_eq!(rt; order.as_slice(), b"aBa1".as_slice());
    Ok(())
}
