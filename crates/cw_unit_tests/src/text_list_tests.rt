//! The C texts of a small web, in order, by calls.
use cw_base::{Memory, Span};
use cw_lex::Mode;
use cw_phase1::phase_one;
use cw_test_desks::web_of;
use cw_texts::{TextList, TextRef, texts};
use std::alloc::Global;
use std::test::Fail;

fn text_at(list: &TextList, i: usize) -> Option<TextRef> {
    if i < list.len() {
        return Some(list.text_ref(i));
    }
    None
}

fn text(section: u32, start: usize, end: usize, mode: Mode) -> Option<TextRef> {
    Some(TextRef {
        section,
        span: Span { start, end },
        mode,
    })
}

/// The first texts of three sections. One of their definitions is silent, and
/// the last C part has no scrap.
fn first_texts(alloc: Global) -> Result<[Option<TextRef>; 6], Memory> {
    let lines: &[&[u8]] = &[
        b"@ See |x| and @<N@>.",
        b"@d n 3",
        b"@s a b",
        b"@c /*|y|*/",
        b"@ @<N@>=z;",
        b"@ @c",
    ];
    let web = web_of(alloc, lines)?;
    let book = phase_one(alloc, &web)?;
    let list = texts(alloc, &web, &book)?;
    Ok([
        text_at(&list, 0),
        text_at(&list, 1),
        text_at(&list, 2),
        text_at(&list, 3),
        text_at(&list, 4),
        text_at(&list, 5),
    ])
}

#[test]
fn texts_in_order(rt: HostRuntime) -> Result<(), Fail> {
    let found = first_texts(rt.alloc())?;
    let inner = text(1, 7, 8, Mode::Inner);
    let cited = text(1, 14, 19, Mode::Inner);
    let definition = text(1, 21, 28, Mode::Definition);
    let comment = text(1, 35, 46, Mode::CPart);
    let named = text(2, 48, 57, Mode::CPart);
    assert_eq!(rt; found, [inner, cited, definition, comment, named, None]);
    Ok(())
}
