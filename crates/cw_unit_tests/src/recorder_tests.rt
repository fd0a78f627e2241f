//! Tests of what a recorder hears of a translation: each text that ends, with its scraps and productions.
ghost use Rattle.std.specs.Prelude.{◌≡◌, None, false, [], refl};
ghost use Rattle.cw_translator.specs.NameParts.{AreNamesOf};

use crate::translate_tests::{Desk, desk_of};
use cw_base::{Flags, Memory, Span};
use cw_lex::Mode;
use cw_reduce::{Context, Recorder, Work, is_plain_c, is_uncut, translate_recorded};
use cw_rewrite::Watch;
use cw_scraps::{Leaf, ScrapLine};
use cw_table::RowNo;
use cw_tokens::TokenStore;
use std::alloc::Global;
use std::test::Fail;

// How many scraps and productions each text had that ended, and those of the one at hand.
#[derive(Drop)]
struct Sizes {
    ended: Vec<(usize, usize)>,
    scraps: usize,
    productions: usize,
}

impl Watch for Sizes {
    ghost told = { λ s. None };

    ghost refuses = { λ s p. false };

    ghost basis = { λ s. [] };

    fn hear(&mut self, _row: RowNo, _place: usize) -> Result<bool, Memory> {
        self.productions = self.productions.saturating_add(1);
        Ok(true)
    }
}

impl Recorder for Sizes {
    ghost goes_on = { λ s p. refl };

    fn begin(&mut self, line: &ScrapLine, _store: &TokenStore) -> Result<(), Memory> {
        self.scraps = line.len();
        self.productions = 0;
        Ok(())
    }

    fn begin_alone(&mut self, _leaf: &Leaf, _store: &TokenStore) -> Result<(), Memory> {
        self.scraps = 1;
        self.productions = 0;
        Ok(())
    }

    fn end(&mut self) -> Result<(), Memory> {
        self.ended.push((self.scraps, self.productions))?;
        Ok(())
    }
}

// What is heard of a text, with the flags of the start.
fn heard_over(
    alloc: Global,
    desk: &mut Desk,
    text: &[u8],
    mode: Mode,
) -> Result<Vec<(usize, usize)>, Memory>
    requires kept { AreNamesOf desk.old.sec_names desk.old.uses }
    requires idle { desk.old.store.building ≡ None }
{
    if text.len() > 16777216 {
        return Err(Memory);
    }
    let span = Span {
        start: 0,
        end: text.len(),
    };
    if !is_plain_c(mode) || !is_uncut(text, span, mode) {
        return Err(Memory);
    }
    let flags = Flags::start();
    let context = Context {
        sec_names: &desk.sec_names,
        uses: &desk.uses,
        flags: &flags,
        alloc,
    };
    let mut work = Work {
        names: &mut desk.names,
        store: &mut desk.store,
        marks: &mut desk.marks,
        steps: &mut desk.steps,
        recorder: Sizes {
            ended: Vec::new(alloc),
            scraps: 0,
            productions: 0,
        },
    };
    translate_recorded(text, span, mode, &context, &mut work)?;
    let Work { recorder, .. } = work;
    Ok(recorder.ended)
}

// The same with the names of the start.
fn heard(alloc: Global, text: &[u8], mode: Mode) -> Result<Vec<(usize, usize)>, Memory> {
    let mut desk = desk_of(alloc)?;
    heard_over(alloc, &mut desk, text, mode)
}

#[test]
fn inner_texts_are_heard_before_the_text_around_them(rt: HostRuntime) -> Result<(), Fail> {
    let sizes = heard(rt.alloc(), b"a; /* b |x /* c |y| */| */", Mode::CPart)?;
    assert_eq!(rt; sizes.as_slice(), [(1, 0), (2, 1), (3, 2)].as_slice());
    Ok(())
}

#[test]
fn a_text_of_one_scrap_is_heard(rt: HostRuntime) -> Result<(), Fail> {
    let sizes = heard(rt.alloc(), b"y", Mode::Inner)?;
    assert_eq!(rt; sizes.as_slice(), [(1, 0)].as_slice());
    Ok(())
}
