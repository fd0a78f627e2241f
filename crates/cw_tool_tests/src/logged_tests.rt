//! C texts that are translated by a call, one behind the other, and the log that is kept of them.
ghost use Rattle.std.specs.Prelude.{◌≡◌, None, IfOk};
ghost use Rattle.cw_translator.specs.NameParts.{AreNamesOf};

use cw_base::{Bytes, Flags, Kept, Memory, Span, Steps};
use cw_lex::Mode;
use cw_log::{ProductionLog, translate_logged};
use cw_logs::append_block;
use cw_names::Names;
use cw_reduce::{Translated, is_plain_c, is_uncut};
use cw_scraps::Marks;
use cw_secnames::{NameUses, SecNames};
use cw_tokens::TokenStore;
use std::alloc::Global;
use std::test::Fail;

// All that texts are translated with, and their log.
#[derive(Drop)]
struct Desk {
    names: Names,
    sec_names: SecNames,
    uses: NameUses,
    store: TokenStore,
    marks: Marks,
    log: ProductionLog,
    steps: Steps<Kept>,
}

// The names of the start, and nothing else.
fn desk_of(alloc: Global) -> Result<Desk, Memory>
    ensures kept { IfOk result (λ desk. AreNamesOf desk.sec_names desk.uses) }
    ensures idle { IfOk result (λ desk. desk.store.building ≡ None) }
{
    let names = Names::with_words(alloc)?;
    Ok(Desk {
        names,
        sec_names: SecNames::new_in(alloc),
        uses: NameUses::new_in(alloc),
        store: TokenStore::new_in(alloc),
        marks: Marks::new_in(alloc),
        log: ProductionLog::new_in(alloc),
        steps: Steps::new(),
    })
}

// Translates a text with the flags of the start.
fn logged(alloc: Global, desk: &mut Desk, text: &[u8], mode: Mode) -> Result<Translated, Memory>
    requires kept { AreNamesOf desk.old.sec_names desk.old.uses }
    requires idle { desk.old.store.building ≡ None }
    ensures kept { AreNamesOf desk.new.sec_names desk.new.uses }
    ensures idle { desk.new.store.building ≡ None }
{
    if text.len() > 16777216 {
        return Err(Memory);
    }
    let span = Span {
        start: 0,
        end: text.len(),
    };
    if !is_plain_c(mode) || !is_uncut(text, span, mode) {
        return Err(Memory);
    }
    translate_logged(
        alloc,
        text,
        span,
        mode,
        &mut desk.names,
        &desk.sec_names,
        &desk.uses,
        &mut desk.store,
        &mut desk.marks,
        &Flags::start(),
        &mut desk.log,
        &mut desk.steps,
    )
}

// The blocks of all texts that were logged.
fn blocks(alloc: Global, desk: &Desk) -> Result<Bytes, Memory> {
    let mut blocks = Bytes::new_in(alloc);
    for i in 0..desk.log.len() {
        append_block(&mut blocks, &desk.names, desk.log.text_log(i))?;
    }
    Ok(blocks)
}

// The blocks of two texts, one behind the other, and how many scraps and productions each has.
fn told_of(
    alloc: Global,
    desk: &mut Desk,
    first: &[u8],
    second: &[u8],
) -> Result<(Bytes, [u64; 4]), Memory>
    requires kept { AreNamesOf desk.old.sec_names desk.old.uses }
    requires idle { desk.old.store.building ≡ None }
{
    let first = logged(alloc, desk, first, Mode::CPart)?;
    let second = logged(alloc, desk, second, Mode::CPart)?;
    let written = blocks(alloc, desk)?;
    let counts = [
        first.scraps,
        first.productions,
        second.scraps,
        second.productions,
    ];
    Ok((written, counts))
}

fn told(alloc: Global, first: &[u8], second: &[u8]) -> Result<(Bytes, [u64; 4]), Memory> {
    let mut desk = desk_of(alloc)?;
    told_of(alloc, &mut desk, first, second)
}

const STATEMENT: &[u8] = b"i=i+1;";

const NESTED: &[u8] = b"a; /* b |x /* c |y| */| */";

const BLOCKS: &[u8] =
    b"text 6\nb exp i\ns binop\nb exp i\ns ubinop\ns exp\ns semi\nP6 0\nP6 0\nP8 0\nend\n\
    text 1\nb exp y\nend\ntext 2\nb exp x\ns insert\nP1 0\nend\n\
    text 3\nb exp a\ns semi\ns insert\nP8 0\nP1 0\nend\n";

#[test]
fn a_text_stands_behind_its_inner_texts_and_those_before_it(rt: HostRuntime) -> Result<(), Fail> {
    let (written, counts) = told(rt.alloc(), STATEMENT, NESTED)?;
    assert_eq!(rt; (written.as_slice(), counts), (BLOCKS, [6, 3, 6, 3]));
    Ok(())
}
