//! The texts of a book, each of which is translated with the names that the one before it leaves.
ghost use Rattle.std.specs.Prelude.{◌≡◌, ◌++◌, [], All, IfOk, None, OnErr, OnOk};
ghost use Rattle.std.specs.Option.{option_to_list};
ghost use Rattle.cw_translator.specs.NameParts.{AreNamesOf};
ghost use Rattle.cw_each.specs.EachForms.{GivesText, IsWholeRef, source_in};

use crate::rooms::Rooms;
use cw_answers::Answers;
use cw_base::{Ledger, Memory, Steps};
use cw_names::Names;
use cw_reduce::{Context, Translated};
use cw_scraps::Marks;
use cw_secnames::{NameUses, SecNames};
use cw_texts::{BookTexts, TextRef};
use cw_tokens::TokenStore;
use std::marker::Model;

/// A C text that is translated: the list of its tree, and what was counted.
#[derive(Clone, Copy)]
pub struct NextText {
    pub text: TextRef,
    pub translated: Translated,
}

/// The C texts of a book, which are translated one after another in one store. They are seen as what stays, the texts
/// that are still to come, and what is kept of the last one.
#[derive(Drop)]
pub struct EachText<'a> {
    text: &'a [u8],
    context: Context<'a>,
    texts: BookTexts<'a>,
    // The next text, if it was found and isn't translated yet.
    found: Option<TextRef>,
    rooms: Rooms<'a>,
}

impl<'a> Model for EachText<'a> {
    ghost use Rattle.std.specs.Prelude.{◌++◌};
    ghost use Rattle.std.specs.Option.{option_to_list};
    ghost use Rattle.cw_each.specs.EachForms.{Each, source_in};

    ghost Value = { Each };

    ghost view = { λ e. record {
      source = source_in e.text.now e.context;
      coming = option_to_list e.found ++ e.texts;
      answers = e.rooms.answers;
      lists = e.rooms.store.lists;
      marks = e.rooms.marks;
    } };
}

impl<'a> EachText<'a> {
    /// Texts none of which is translated yet. It takes no memory.
    pub fn over(text: &'a [u8], context: Context<'a>, texts: BookTexts<'a>) -> EachText<'a>
        ensures coming { result.coming ≡ texts.entry }
        ensures source { result.source ≡ source_in text.now context.entry }
    {
        EachText {
            text,
            context,
            texts,
            found: None,
            rooms: Rooms::new_in(context.alloc),
        }
    }

    /// Translates the next text, and keeps of it the answers of its scan, the store with its tree, and its marks. After
    /// `Memory` the text is still to come, and the names may have other categories.
    pub fn next<L: Ledger>(
        &mut self,
        names: &mut Names,
        steps: &mut Steps<L>,
    ) -> Result<Option<NextText>, Memory>
        requires kept { AreNamesOf self.old.source.sec_names self.old.source.name_uses }
        requires whole { All (IsWholeRef self.old.source.text) self.old.coming }
        ensures gives { IfOk result
            (λ next. GivesText self.old next self.new names.old names.new steps.old steps.new) }
        ensures source { self.new.source ≡ self.old.source }
        ensures memory { OnErr result (self.new.coming ≡ self.old.coming) }
    {
        find_next(&mut self.texts, &mut self.found)?;
        let Some(text) = self.found else {
            return Ok(None);
        };
        let translated = self
            .rooms
            .translate(self.text, &self.context, text, names, steps)?;
        self.found = None;
        Ok(Some(NextText { text, translated }))
    }

    /// The store that has the tree of the last text.
    pub fn store(&self) -> &TokenStore
        ensures { result.now.lists ≡ self.now.lists }
    {
        &self.rooms.store
    }

    /// The answers of its scan.
    pub fn answers(&self) -> &Answers<'a>
        ensures { result.now ≡ self.now.answers }
    {
        &self.rooms.answers
    }

    /// The names that its productions marked.
    pub fn marks(&self) -> &Marks
        ensures { result.now ≡ self.now.marks }
    {
        &self.rooms.marks
    }

    /// The section names that are kept.
    pub fn sec_names(&self) -> &'a SecNames
        ensures { result.now ≡ self.now.source.sec_names }
    {
        self.context.sec_names
    }

    /// Which of them stands where.
    pub fn name_uses(&self) -> &'a NameUses
        ensures { result.now ≡ self.now.source.name_uses }
    {
        self.context.uses
    }
}

// Finds the next text, if none is found.
fn find_next(texts: &mut BookTexts, found: &mut Option<TextRef>) -> Result<(), Memory>
    ensures same { option_to_list found.new ++ texts.new ≡ option_to_list found.old ++ texts.old }
    ensures none { OnOk result (found.new ≡ None → texts.new ≡ []) }
{
    if found.is_none() {
        *found = texts.next()?;
    }
    Ok(())
}
