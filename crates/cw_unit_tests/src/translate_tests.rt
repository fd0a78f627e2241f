//! Worked C texts, translated by calls.
ghost use Rattle.std.specs.Prelude.{◌≡◌, ◌<◌, length, IfOk};
ghost use Rattle.cw_translator.specs.NameParts.{AreNamesOf};

use crate::test_printing::{put_run, put_sign, run_control, trimmed};
use cw_base::{Bytes, Flags, Kept, Memory, Span, Steps};
use cw_lex::Mode;
use cw_names::{NameId, Names};
use cw_reduce::{Translated, is_plain_c, is_uncut, translate};
use cw_scraps::Marks;
use cw_secnames::{NameUses, SecNames};
use cw_tokens::{FlatItem, FlatTokens, TokenStore};
use cw_trees::Control;
use std::alloc::{AllocError, Global};
use std::process::Abort;
use std::test::Fail;

// All that a text is translated with.
#[derive(Drop)]
pub(crate) struct Desk {
    pub(crate) names: Names,
    pub(crate) sec_names: SecNames,
    pub(crate) uses: NameUses,
    pub(crate) store: TokenStore,
    pub(crate) marks: Marks,
    pub(crate) steps: Steps<Kept>,
}

// The names of the start, and nothing else.
pub(crate) fn desk_of(alloc: Global) -> Result<Desk, Memory>
    ensures kept { IfOk result (λ desk. AreNamesOf desk.sec_names desk.uses) }
    ensures idle { IfOk result (λ desk. desk.store.building ≡ None) }
{
    let names = Names::with_words(alloc)?;
    Ok(Desk {
        names,
        sec_names: SecNames::new_in(alloc),
        uses: NameUses::new_in(alloc),
        store: TokenStore::new_in(alloc),
        marks: Marks::new_in(alloc),
        steps: Steps::new(),
    })
}

// The translation of a text, with the flags of the start.
fn translated(alloc: Global, desk: &mut Desk, text: &[u8], mode: Mode) -> Result<Translated, Memory>
    requires kept { AreNamesOf desk.old.sec_names desk.old.uses }
    requires idle { desk.old.store.building ≡ None }
    ensures list { IfOk result (λ done. done.list.index < length desk.new.store.lists) }
{
    if text.len() > 16777216 {
        return Err(Memory);
    }
    let span = Span {
        start: 0,
        end: text.len(),
    };
    if !is_plain_c(mode) || !is_uncut(text, span, mode) {
        return Err(Memory);
    }
    translate(
        alloc,
        text,
        span,
        mode,
        &mut desk.names,
        &desk.sec_names,
        &desk.uses,
        &mut desk.store,
        &mut desk.marks,
        &Flags::start(),
        &mut desk.steps,
    )
}

// A piece of a comment's text goes on up to a bar or the comment's end.
fn put_piece(out: &mut Bytes, text: &[u8]) -> Result<(), Memory> {
    for (i, byte) in text.iter().enumerate() {
        if *byte == b'|' || text[i..].starts_with(b"*/") {
            return Ok(());
        }
        out.push(*byte)?;
    }
    Ok(())
}

// The token at the beginning of a text.
fn put_source(out: &mut Bytes, text: &[u8]) -> Result<(), Memory> {
    if text.starts_with(b"/*") {
        return out.append(b"\\C{");
    }
    match text.first() {
        Some(b'=') => out.append(b"\\K"),
        Some(b'?') => out.append(b"\\?"),
        Some(b'{') => out.append(b"\\{"),
        Some(b'}') => out.append(b"\\}"),
        Some(b' ') => put_piece(out, text),
        Some(digit @ b'0'..=b'9') => {
            out.append(b"\\T{")?;
            out.push(*digit)?;
            out.push(b'}')
        }
        Some(byte) => out.push(*byte),
        None => Ok(()),
    }
}

fn put_name(out: &mut Bytes, begin: &[u8], names: &Names, name: NameId) -> Result<(), Memory> {
    out.append(begin)?;
    if name.index < names.len() {
        for byte in names.text(name) {
            if *byte == b'_' {
                out.push(b'\\')?;
            }
            out.push(*byte)?;
        }
    }
    Ok(())
}

fn put_item(out: &mut Bytes, item: FlatItem, text: &[u8], names: &Names) -> Result<(), Memory> {
    match item {
        FlatItem::Source(number) => match text.get(number as usize..) {
            Some(rest) => put_source(out, rest),
            None => Ok(()),
        },
        FlatItem::Ident(name, _) => put_name(out, b"\\|", names, name),
        FlatItem::Reserved(name, _) => {
            put_name(out, b"\\&{", names, name)?;
            out.push(b'}')
        }
        FlatItem::Control(control) => put_sign(out, control),
        FlatItem::Open => out.append(b"\\PB{"),
        FlatItem::Close => out.push(b'}'),
    }
}

// How many inner texts are open behind an item.
fn depth_after(depth: usize, item: FlatItem) -> usize {
    match item {
        FlatItem::Open => depth.saturating_add(1),
        FlatItem::Close => depth.saturating_sub(1),
        _ => depth,
    }
}

// An item goes into the run, or is printed behind it. In the inner texts here no run prints anything.
fn print_item(
    out: &mut Bytes,
    run: &mut Vec<Control>,
    depth: usize,
    item: FlatItem,
    text: &[u8],
    names: &Names,
) -> Result<(), Memory> {
    if let Some(control) = run_control(item) {
        run.push(control)?;
        return Ok(());
    }
    if depth == 0 {
        put_run(out, run)?;
    }
    run.clear();
    put_item(out, item, text, names)
}

fn print_items(
    alloc: Global,
    out: &mut Bytes,
    items: &[FlatItem],
    text: &[u8],
    names: &Names,
) -> Result<(), Memory> {
    let mut run = Vec::new(alloc);
    let mut depth = 0;
    for item in items {
        print_item(out, &mut run, depth, *item, text, names)?;
        depth = depth_after(depth, *item);
    }
    put_run(out, &run)
}

// The bytes of a translation.
fn printed(alloc: Global, text: &[u8], items: &FlatTokens, names: &Names) -> Result<Bytes, Memory> {
    let items = trimmed(alloc, items)?;
    let mut out = Bytes::new_in(alloc);
    print_items(alloc, &mut out, &items, text, names)?;
    Ok(out)
}

// A text with what it is printed as, how many scraps it has, and in how many productions it is reduced.
struct Sample {
    text: &'static [u8],
    mode: Mode,
    bytes: &'static [u8],
    scraps: u64,
    productions: Option<u64>,
}

static SAMPLES: [Sample; 15] = [
    Sample {
        text: b"a; /* |b| */",
        mode: Mode::CPart,
        bytes: b"\\|a;\\C{ \\PB{\\|b} }",
        scraps: 4,
        productions: Some(2),
    },
    Sample {
        text: b"int a=b+c, *d;",
        mode: Mode::CPart,
        bytes: b"\\&{int} \\|a${}\\K\\|b+\\|c,{}$ ${}{*}\\|d;$",
        scraps: 10,
        productions: Some(10),
    },
    Sample {
        text: b"if(a)b;else if(c){d;}else e;",
        mode: Mode::CPart,
        bytes: b"\\&{if} (\\|a)\\1\\5\\|b;\\2\\6\n\\&{else} \
            \\&{if} (\\|c)\\5${}\\{\\1{}$\\6\n\\|d;\\6\n\\4${}\\}\\2{}$\\6\n\\&{else}\\1\\5\\|e;\\2",
        scraps: 18,
        productions: Some(12),
    },
    Sample {
        text: b"typedef struct foo{int x;} bar; bar y;",
        mode: Mode::CPart,
        bytes: b"\\&{typedef} \\&{struct} \\&{foo} ${}\\{\\1{}$\\6\n\\&{int} \\|x;\\2\\6\n\
            ${}\\}{}$ \\&{bar};\\6\n\\&{bar} \\|y;",
        scraps: 13,
        productions: None,
    },
    Sample {
        text: b"if(a)b; /* c */ else d;",
        mode: Mode::CPart,
        bytes: b"\\&{if} (\\|a)\\1\\5\\|b;\\C{ c }\\2\\6\n\\&{else}\\1\\5\\|d;\\2",
        scraps: 10,
        productions: None,
    },
    Sample {
        text: b") } ; @;",
        mode: Mode::CPart,
        bytes: b") $\\}{}$\\6\n;",
        scraps: 4,
        productions: None,
    },
    Sample {
        text: b"a; /* b |x /* c |y| */| */",
        mode: Mode::CPart,
        bytes: b"\\|a;\\C{ b \\PB{\\|x\\C{ c \\PB{\\|y} }} }",
        scraps: 6,
        productions: Some(3),
    },
    Sample {
        text: b"x /* c |y| */",
        mode: Mode::Inner,
        bytes: b"\\|x\\C{ c \\PB{\\|y} }",
        scraps: 3,
        productions: Some(1),
    },
    Sample {
        text: b"@[int@]=x; @]",
        mode: Mode::CPart,
        bytes: b"$\\&{int}\\K\\|x;$",
        scraps: 7,
        productions: None,
    },
    Sample {
        text: b"x=a?b:c;",
        mode: Mode::CPart,
        bytes: b"$\\|x\\K\\|a\\?\\|b:\\|c;$",
        scraps: 8,
        productions: None,
    },
    Sample {
        text: b"struct s p={.x=1,.y=2};",
        mode: Mode::CPart,
        bytes: b"\\&{struct} \\&{s} \\|p${}\\K\\{{.}\\|x\\K\\T{1},\\39{.}\\|y\\K\\T{2}\\};$",
        scraps: 16,
        productions: Some(11),
    },
    Sample {
        text: b"x=(int){1};",
        mode: Mode::CPart,
        bytes: b"$\\|x\\K(\\&{int})\\{\\T{1}\\};$",
        scraps: 9,
        productions: Some(5),
    },
    Sample {
        text: b"_Generic(x,default:2);",
        mode: Mode::CPart,
        bytes: b"\\&{\\_Generic} ${}(\\|x,\\39{}$\\&{default}: \\T{2});",
        scraps: 9,
        productions: Some(6),
    },
    Sample {
        text: b"a.b;",
        mode: Mode::CPart,
        bytes: b"$\\|a.\\|b;$",
        scraps: 4,
        productions: Some(3),
    },
    Sample {
        text: b"",
        mode: Mode::CPart,
        bytes: b"",
        scraps: 0,
        productions: Some(0),
    },
];

// What a sample prints, how many scraps it has, and in how many productions it is reduced.
fn told_on(alloc: Global, desk: &mut Desk, sample: &Sample) -> Result<(Bytes, u64, u64), Memory>
    requires kept { AreNamesOf desk.old.sec_names desk.old.uses }
    requires idle { desk.old.store.building ≡ None }
{
    let done = translated(alloc, desk, sample.text, sample.mode)?;
    let items = desk.store.flat(alloc, done.list)?;
    let bytes = printed(alloc, sample.text, &items, &desk.names)?;
    Ok((bytes, done.scraps, done.productions))
}

fn told(alloc: Global, sample: &Sample) -> Result<(Bytes, u64, u64), Memory> {
    let mut desk = desk_of(alloc)?;
    told_on(alloc, &mut desk, sample)
}

// The bytes have to be those of a sample.
fn expect(rt: &impl Abort, bytes: &Bytes, sample: &Sample, i: usize) {
    assert_eq!(rt; bytes.as_slice(), sample.bytes, "text {i}");
}

// A sample has to print its bytes. The answer is how many scraps it has, and in how many productions it is reduced.
fn expect_bytes(
    rt: &impl Abort,
    alloc: Global,
    sample: &Sample,
    i: usize,
) -> Result<(u64, u64), Memory> {
    let (bytes, scraps, productions) = told(alloc, sample)?;
    expect(rt, &bytes, sample, i);
    Ok((scraps, productions))
}

#[test]
fn worked_texts_have_their_bytes_and_counts(rt: HostRuntime) -> Result<(), Fail> {
    for (i, sample) in SAMPLES.iter().enumerate() {
        let (scraps, productions) = expect_bytes(&rt, rt.alloc(), sample, i)?;
        let wanted = (sample.scraps, sample.productions.unwrap_or(productions));
        assert_eq!(rt; (scraps, productions), wanted, "counts of text {i}");
    }
    Ok(())
}

// The marks of a C part.
fn marks_on(alloc: Global, desk: &mut Desk, text: &[u8]) -> Result<usize, Memory>
    requires kept { AreNamesOf desk.old.sec_names desk.old.uses }
    requires idle { desk.old.store.building ≡ None }
{
    translated(alloc, desk, text, Mode::CPart)?;
    Ok(desk.marks.len())
}

fn marks_of(alloc: Global, text: &[u8]) -> Result<usize, Memory> {
    let mut desk = desk_of(alloc)?;
    marks_on(alloc, &mut desk, text)
}

#[test]
fn a_declaration_has_two_marks(rt: HostRuntime) -> Result<(), Fail> {
    assert_eq!(rt; marks_of(rt.alloc(), b"int a=b+c, *d;")?, 2);
    Ok(())
}

// The first piece so many times, and then the second.
fn repeated(
    alloc: Global,
    first: &[u8],
    first_times: usize,
    second: &[u8],
    second_times: usize,
) -> Result<Vec<u8>, AllocError> {
    let mut text = Vec::new(alloc);
    for _first in 0..first_times {
        text.extend_from_slice(first)?;
    }
    for _second in 0..second_times {
        text.extend_from_slice(second)?;
    }
    Ok(text)
}

fn blanks(items: &FlatTokens) -> u64 {
    let mut blanks = 0u64;
    for i in 0..items.len() {
        if items.item(i) == FlatItem::Control(Control::Blank) {
            blanks = blanks.wrapping_add(1);
        }
    }
    blanks
}

// The scraps of a C part, its productions and steps, and the blanks of its translation.
fn counts_on(alloc: Global, desk: &mut Desk, text: &[u8]) -> Result<[u64; 4], Memory>
    requires kept { AreNamesOf desk.old.sec_names desk.old.uses }
    requires idle { desk.old.store.building ≡ None }
{
    let done = translated(alloc, desk, text, Mode::CPart)?;
    let items = desk.store.flat(alloc, done.list)?;
    let steps = desk.steps.count();
    Ok([done.scraps, done.productions, steps, blanks(&items)])
}

fn counts(alloc: Global, text: &[u8]) -> Result<[u64; 4], Memory> {
    let mut desk = desk_of(alloc)?;
    counts_on(alloc, &mut desk, text)
}

// The counts of 200 parentheses and then 200 statements.
fn counts_with_parentheses(alloc: Global) -> Result<[u64; 4], Memory> {
    let text = repeated(alloc, b")", 200, b"a;", 200)?;
    counts(alloc, &text)
}

#[test]
fn what_stays_at_the_left_is_not_looked_at_again(rt: HostRuntime) -> Result<(), Fail> {
    // With 200 blanks between them, 201 scraps are left.
    assert_eq!(rt; counts_with_parentheses(rt.alloc())?, [600, 399, 4796, 200]);
    Ok(())
}

// The counts of half a million statements.
fn counts_of_statements(alloc: Global) -> Result<[u64; 4], Memory> {
    let text = repeated(alloc, b"", 0, b"a;", 500000)?;
    counts(alloc, &text)
}

#[test]
fn a_text_of_a_million_scraps_is_one_scrap(rt: HostRuntime) -> Result<(), Fail> {
    let [scraps, productions, ..] = counts_of_statements(rt.alloc())?;
    assert_eq!(rt; (scraps, productions), (1000000, 999999));
    Ok(())
}
