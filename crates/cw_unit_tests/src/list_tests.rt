//! A C part's translation, printed and made plain by calls that scan its text.
ghost use Rattle.std.specs.Prelude.{◌≡◌, IfOk, IfSome, IsTrue, None, OnOk, length};
ghost use Rattle.cw_base.specs.Web.{text_of};
ghost use Rattle.cw_base.specs.declared.event.Out.TheVariants.{Tex};
ghost use Rattle.cw_desk.specs.Meaning.{is_open};
ghost use Rattle.cw_desk.specs.model.Mem.{tell_mem};
ghost use Rattle.cw_lines.specs.Writes.{CanWrite};
ghost use Rattle.cw_plain.specs.Conditions.{IsPartTree};
ghost use Rattle.cw_reduce.specs.WholeTexts.{IsCText};
ghost use Rattle.cw_rules.specs.declared.tokens.Mode.TheVariants.{CPart};
ghost use Rattle.cw_scraps.specs.Lines.{IsNamedBelow};
ghost use Rattle.cw_tokens.specs.Shapes.{unfolded};
ghost use Rattle.cw_translator.specs.NameParts.{AreNamesOf};

use crate::small_webs::book_of;
use cw_base::{Bytes, Flags, Kept, Memory, Out, Span, Steps, Web};
use cw_desk::MemDesk;
use cw_lex::Mode;
use cw_lines::{LineOut, PutError};
use cw_phase1::Book;
use cw_plain::plain_text;
use cw_print::print_list;
use cw_reduce::{is_uncut, translate};
use cw_scraps::Marks;
use cw_test_desks::{desk_making, web_of, written};
use cw_tokens::{ListId, TokenStore};
use std::alloc::Global;
use std::test::Fail;

/// The C part of a book's first section, where it can be translated.
fn part_of(web: &Web, book: &Book) -> Option<Span>
    ensures { IfSome result (λ span. IsCText (text_of web.now.lines) span CPart) }
{
    if book.section_count() == 0 {
        return None;
    }
    let span = book.section(1).c_part;
    let text = web.text();
    if span.start > span.end || span.end > text.len() || !is_uncut(text, span, Mode::CPart) {
        return None;
    }
    Some(span)
}

/// Translates it.
fn translated(
    alloc: Global,
    web: &Web,
    book: &mut Book,
    span: Span,
    store: &mut TokenStore,
    marks: &mut Marks,
) -> Result<ListId, Memory>
    requires c_text { IsCText (text_of web.now.lines) span CPart }
    requires kept { AreNamesOf book.old.sec_names book.old.name_uses }
    requires idle { store.old.building ≡ None }
    ensures named { IfOk result (λ id. IsNamedBelow (length book.new.names) (unfolded store.new.lists id.index)) }
    ensures part { IfOk result (λ id. IsPartTree (text_of web.now.lines) span book.new.sec_names book.new.name_uses
        store.new.lists id.index) }
{
    let text = web.text();
    let mut steps: Steps<Kept> = Steps::new();
    let done = translate(
        alloc,
        text,
        span,
        Mode::CPart,
        &mut book.names,
        &book.sec_names,
        &book.name_uses,
        store,
        marks,
        &Flags::start(),
        &mut steps,
    )?;
    Ok(done.list)
}

/// Prints it on a line, which can be written on afterwards.
fn put_part(
    alloc: Global,
    web: &Web,
    book: &Book,
    span: Span,
    store: &TokenStore,
    id: ListId,
    out: &mut LineOut,
    desk: &mut MemDesk,
) -> Result<(), PutError>
    requires can { CanWrite (tell_mem desk.old) out.old }
    requires named { IsNamedBelow (length book.now.names) (unfolded store.now.lists id.index) }
    requires part { IsPartTree (text_of web.now.lines) span book.now.sec_names book.now.name_uses store.now.lists
        id.index }
    ensures again { OnOk result (CanWrite (tell_mem desk.new) out.new) }
{
    let text = web.text();
    print_list(
        alloc,
        text,
        span,
        Mode::CPart,
        book,
        1,
        &Flags::start(),
        store,
        id,
        false,
        out,
        desk,
    )?;
    Ok(())
}

/// Prints it on a new line of the TeX file, and ends that.
fn put_line(
    alloc: Global,
    web: &Web,
    book: &Book,
    span: Span,
    store: &TokenStore,
    id: ListId,
    desk: &mut MemDesk,
) -> Result<(), PutError>
    requires made { IsTrue (is_open desk.old.outputs Tex) }
    requires named { IsNamedBelow (length book.now.names) (unfolded store.now.lists id.index) }
    requires part { IsPartTree (text_of web.now.lines) span book.now.sec_names book.now.name_uses store.now.lists
        id.index }
{
    let mut out = LineOut::new_in(alloc, Out::Tex);
    put_part(alloc, web, book, span, store, id, &mut out, desk)?;
    out.end_line(desk)
}

/// What it prints, and its plain text.
fn texts_of(
    alloc: Global,
    web: &Web,
    book: &Book,
    span: Span,
    store: &TokenStore,
    id: ListId,
) -> Result<(Bytes, Bytes), Fail>
    requires named { IsNamedBelow (length book.now.names) (unfolded store.now.lists id.index) }
    requires part { IsPartTree (text_of web.now.lines) span book.now.sec_names book.now.name_uses store.now.lists
        id.index }
{
    let mut desk = desk_making(alloc, Out::Tex)?;
    put_line(alloc, web, book, span, store, id, &mut desk)?;
    let printed = written(alloc, desk.journal())?;
    let names = &book.names;
    let sec_names = &book.sec_names;
    let plain = plain_text(
        alloc,
        store,
        id,
        web,
        names,
        sec_names,
        &book.name_uses,
        span,
    )?;
    Ok((printed, plain))
}

/// The same once it is translated.
fn texts_by(
    alloc: Global,
    web: &Web,
    book: &mut Book,
    store: &mut TokenStore,
    marks: &mut Marks,
) -> Result<(Bytes, Bytes), Fail>
    requires kept { AreNamesOf book.old.sec_names book.old.name_uses }
    requires idle { store.old.building ≡ None }
{
    let Some(span) = part_of(web, book) else {
        return Err(Fail::from("the first section has no such part"));
    };
    let id = translated(alloc, web, book, span, store, marks)?;
    texts_of(alloc, web, book, span, store, id)
}

/// The same of a web.
fn texts(alloc: Global, lines: &[&[u8]]) -> Result<(Bytes, Bytes), Fail> {
    let web = web_of(alloc, lines)?;
    let mut book = book_of(alloc, &web)?;
    let mut store = TokenStore::new_in(alloc);
    let mut marks = Marks::new_in(alloc);
    texts_by(alloc, &web, &mut book, &mut store, &mut marks)
}

/// A web, what the C part of its first section prints, and its plain text.
const ROWS: [(&[&[u8]], &[u8], &[u8]); 3] = [
    (&[b"@ @c i=i+1;"], b"$\\|i\\K\\|i+\\T{1};$\n", b"i=i+1;"),
    (
        &[b"@ @<A@>= x;"],
        b"\\X1:A\\X${}\\E{}$\\6\n\\|x;\n",
        b"<A>=\nx;",
    ),
    // A comment with inner C text, and a declaration, which leaves a mark.
    (
        &[b"@ @c int a; /* |a| */"],
        b"\\&{int} \\|a;\\C{ \\PB{\\|a} }\n",
        b"int a;/* |a| */",
    ),
];

#[test]
fn a_part_is_printed_and_made_plain(rt: HostRuntime) -> Result<(), Fail> {
    for (lines, printed, plain) in &ROWS {
        let seen = texts(rt.alloc(), lines)?;
        let seen = (seen.0.as_slice(), seen.1.as_slice());
        assert_eq!(rt; seen, (*printed, *plain));
    }
    Ok(())
}
