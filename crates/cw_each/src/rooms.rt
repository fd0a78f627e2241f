//! The store, reader and marks in which one C text after another is translated.
ghost use Rattle.std.specs.Prelude.{◌≡◌, ◌<◌, IfOk, OnOk, length};
ghost use Rattle.cw_reduce.specs.WholeTexts.{IsTranslated};
ghost use Rattle.cw_texts.specs.Scans.{scanned};
ghost use Rattle.cw_translator.specs.NameParts.{AreNamesOf};
ghost use Rattle.cw_each.specs.EachText.{text_ended};
ghost use Rattle.cw_each.specs.EachForms.{IsWholeRef, source_in};

use cw_answers::{Answers, Reader};
use cw_base::{Ledger, Memory, Span, Steps};
use cw_lex::Mode;
use cw_names::Names;
use cw_reduce::{Context, Translated, Unrecorded, Work, translate_read};
use cw_scraps::Marks;
use cw_texts::TextRef;
use cw_tokens::TokenStore;
use std::alloc::Global;
use std::mem;

/// What is kept of the text that was translated last: its tree, the answers of its scan, and its marks.
#[derive(Drop)]
pub(crate) struct Rooms<'a> {
    pub store: TokenStore,
    pub answers: Answers<'a>,
    pub marks: Marks,
    reader: Reader<'a>,
}

impl<'a> Rooms<'a> {
    /// Nothing is kept yet. It takes no memory.
    pub(crate) fn new_in(alloc: Global) -> Rooms<'a> {
        Rooms {
            store: TokenStore::new_in(alloc),
            answers: Answers::new_in(alloc),
            marks: Marks::new_in(alloc),
            reader: Reader::over(alloc, b"", Span { start: 0, end: 0 }, Mode::Inner),
        }
    }

    /// Translates a part of a web's text, in the place of the last one.
    pub(crate) fn translate<L: Ledger>(
        &mut self,
        text: &'a [u8],
        context: &Context,
        part: TextRef,
        names: &mut Names,
        steps: &mut Steps<L>,
    ) -> Result<Translated, Memory>
        requires kept { AreNamesOf context.now.sec_names.now context.now.uses.now }
        requires whole { IsWholeRef text.now part }
        ensures ended { IfOk result (λ done. IsTranslated context.now.flags.now self.new.store.lists names.new
            self.new.marks done steps.old steps.new (text_ended (source_in text.now context.now) part names.old)) }
        ensures list { IfOk result (λ done. done.list.index < length self.new.store.lists) }
        ensures answers { OnOk result (self.new.answers ≡ scanned part.mode text.now part.span) }
    {
        self.store.reset();
        self.marks = Marks::new_in(context.alloc);
        let room = mem::replace(&mut self.answers, Answers::new_in(context.alloc));
        self.reader.restart(room, text, part.span, part.mode);
        let mut work = Work {
            names,
            store: &mut self.store,
            marks: &mut self.marks,
            steps,
            recorder: Unrecorded,
        };
        let done = translate_read(&mut self.reader, context, &mut work)?;
        self.answers = self.reader.take_answers(context.alloc)?;
        Ok(done)
    }
}
