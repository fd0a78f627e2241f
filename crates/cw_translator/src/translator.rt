//! A translation on its way: its answers one after another, and the end of its text.
ghost use Rattle.std.specs.Prelude.{◌≡◌, ◌+◌, ◌*◌, ◌^◌, ◌<◌, ◌≤◌, ◌⊎◌, List, [], ◌∷◌, length, IfOk};
ghost use Rattle.std.specs.Prelude.{OnOk, OnErr, None};
ghost use Rattle.cw_table.specs.Productions.{productions};
ghost use Rattle.cw_table.specs.Rewriting.{State};
ghost use Rattle.cw_table.specs.WalkCounts.{reservings};
ghost use Rattle.cw_rules.specs.Answers.{Finish, Seen, seen};
ghost use Rattle.cw_scraps.specs.Applying.{state_of};
ghost use Rattle.cw_scraps.specs.Changing.{Keeps};
ghost use Rattle.cw_scraps.specs.Leaves.{MakesLeaf, names_with};
ghost use Rattle.cw_scraps.specs.Lines.{IsSoundLine};
ghost use Rattle.cw_scraps.specs.Marking.{MarkList};
ghost use Rattle.cw_translator.specs.declared.nesting.Open.TheVariants as CTexts;
ghost use Rattle.cw_translator.specs.model.LinesDone.{LineDone};
ghost use Rattle.cw_translator.specs.Opening.{IsTranslating, StartsBelow, all_roots, answers_in, progress_of};
ghost use Rattle.cw_translator.specs.model.Opening.{begun_by};
ghost use Rattle.cw_translator.specs.Reading.{after_token};
ghost use Rattle.cw_translator.specs.Recording.{HasRecorded};
ghost use Rattle.cw_translator.specs.Retyping.{Retypes};
ghost use Rattle.cw_translator.specs.Working.{IsSameWork, Advances, EndsIn, over, progress_over, to_end};

use crate::comments::CommentPart;
use crate::holders::{Holder, held_list};
use crate::nesting::{CommentText, Nesting, Open};
use crate::recorder::Recorder;
use crate::work::{Context, Work};
use cw_base::{Ledger, Memory};
use cw_lex::{Lexed, Tok, TokKind};
use cw_names::Names;
use cw_rewrite::{put_together, reduce_watched};
use cw_scraps::{ScrapLine, makes_leaf, scrap_of};
use cw_tokens::{ListId, TokenStore};
use std::alloc::Global;

/// The translation of a C text.
#[derive(Clone, Copy, Debug, PartialEq, Eq)]
pub struct Translated {
    /// Its list.
    pub list: ListId,
    /// How many scraps the text and its inner texts were made into.
    pub scraps: u64,
    /// How many productions were applied to them.
    pub productions: u64,
}

/// Reduces the scraps of a C text and puts together what is left.
fn translate_line<L: Ledger, R: Recorder>(
    mut line: ScrapLine,
    context: &Context,
    work: &mut Work<L, R>,
) -> Result<Translated, Memory>
    requires sound { IsSoundLine work.old.store.now work.old.names.now line }
    ensures done { IfOk result (λ done. LineDone context.now.flags.now work.old.store.now work.new.store.now
        work.old.names.now work.new.names.now work.old.marks.now work.new.marks.now line done work.old.steps.now
        work.new.steps.now) }
    ensures retypes { Retypes context.now.flags.now (state_of work.old.store.now.lists line work.old.marks.now
        work.old.names.now) work.old.names.now work.new.names.now }
    ensures bound { work.new.steps.now ≤ work.old.steps.now + (132 * length line + length line * reservings productions
        context.now.flags.now (state_of work.old.store.now.lists line work.old.marks.now work.old.names.now)) }
    ensures same { IsSameWork work.old work.new }
    ensures idle { work.new.store.now.building ≡ None }
    ensures recorded { HasRecorded context.now.flags.now (state_of work.old.store.now.lists line work.old.marks.now
        work.old.names.now ∷ []) (R.told work.old.recorder) (R.told work.new.recorder) result }
{
    let done = end_line(&mut line, context, work);
    drop(line);
    done
}

// The same in a line that the caller drops.
fn end_line<L: Ledger, R: Recorder>(
    line: &mut ScrapLine,
    context: &Context,
    work: &mut Work<L, R>,
) -> Result<Translated, Memory>
    requires sound { IsSoundLine work.old.store.now work.old.names.now line.old }
    ensures done { IfOk result (λ done. LineDone context.now.flags.now work.old.store.now work.new.store.now
        work.old.names.now work.new.names.now work.old.marks.now work.new.marks.now line.old done work.old.steps.now
        work.new.steps.now) }
    ensures retypes { Retypes context.now.flags.now (state_of work.old.store.now.lists line.old work.old.marks.now
        work.old.names.now) work.old.names.now work.new.names.now }
    ensures bound { work.new.steps.now ≤ work.old.steps.now + (132 * length line.old + length line.old *
        reservings productions context.now.flags.now (state_of work.old.store.now.lists line.old work.old.marks.now
        work.old.names.now)) }
    ensures same { IsSameWork work.old work.new }
    ensures idle { work.new.store.now.building ≡ None }
    ensures recorded { HasRecorded context.now.flags.now (state_of work.old.store.now.lists line.old work.old.marks.now
        work.old.names.now ∷ []) (R.told work.old.recorder) (R.told work.new.recorder) result }
{
    let scraps = line.len() as u64;
    work.recorder.begin(line, work.store)?;
    let reduced = reduce_watched(
        line,
        work.store,
        work.names,
        work.marks,
        context.flags,
        &mut work.recorder,
        work.steps,
    )?;
    let Some(reduced) = reduced else {
        // A recorder refuses no production.
        unreachable!()
    };
    work.recorder.end()?;
    work.store.tied_law();
    let list = put_together(line, work.store)?;
    Ok(Translated {
        list,
        scraps,
        productions: reduced.productions,
    })
}

/// A translation on its way: what is open, and how many scraps were reduced in how many productions.
#[derive(Drop)]
pub struct Translator {
    /// What is open, the innermost first.
    pub nesting: Nesting,
    /// How many scraps were reduced so far.
    pub scraps: u64,
    /// In how many productions.
    pub productions: u64,
}

impl Translator {
    /// A C text begins with these scraps, and nothing is counted yet.
    pub fn over(line: ScrapLine, alloc: Global) -> Translator
        ensures { result ≡ record { nesting = CTexts.CText line ∷ []; scraps = 0; productions = 0 } }
    {
        Translator {
            nesting: Nesting::of(Open::CText(line), alloc),
            scraps: 0,
            productions: 0,
        }
    }

    /// A token without parts: a scrap of the innermost C text, or a piece of the innermost comment.
    #[inline(always)]
    fn token(
        &mut self,
        token: &Tok,
        names: &mut Names,
        store: &mut TokenStore,
    ) -> Result<(), Memory>
        requires translating { IsTranslating store.old names.old self.old }
        requires start { token.now.span.start < 2 ^ 32 }
        ensures translating { OnOk result (IsTranslating store.new names.new self.new) }
        ensures progress { OnOk result ((marks : MarkList) (ended : List State) →
            progress_of store.new.lists names.new marks self.new ended ≡ after_token token.now.kind (seen token.now)
            (progress_of store.old.lists names.old marks self.old ended)) }
        ensures scraps { self.new.scraps ≡ self.old.scraps }
        ensures productions { self.new.productions ≡ self.old.productions }
        ensures keeps { OnOk result (Keeps store.old.lists store.new.lists (all_roots self.old.nesting)
            (all_roots self.new.nesting)) }
        ensures names { (names.new ≡ names.old) ⊎ (names.new ≡ names_with token.now.kind token.now.text.now names.old) }
        ensures idle { store.new.building ≡ None }
    {
        if token.kind == TokKind::Text {
            let number = token.span.start as u32;
            return self.nesting.add_part(CommentPart::Piece(number));
        }
        if makes_leaf(token.kind) {
            return self.leaf(token, names, store);
        }
        Ok(())
    }

    /// A token that makes a scrap of its own.
    #[inline(always)]
    fn leaf(&mut self, token: &Tok, names: &mut Names, store: &mut TokenStore) -> Result<(), Memory>
        requires translating { IsTranslating store.old names.old self.old }
        requires start { token.now.span.start < 2 ^ 32 }
        requires makes { MakesLeaf token.now.kind }
        ensures translating { OnOk result (IsTranslating store.new names.new self.new) }
        ensures progress { OnOk result ((marks : MarkList) (ended : List State) →
            progress_of store.new.lists names.new marks self.new ended ≡ after_token token.now.kind (seen token.now)
            (progress_of store.old.lists names.old marks self.old ended)) }
        ensures scraps { self.new.scraps ≡ self.old.scraps }
        ensures productions { self.new.productions ≡ self.old.productions }
        ensures keeps { OnOk result (Keeps store.old.lists store.new.lists (all_roots self.old.nesting)
            (all_roots self.new.nesting)) }
        ensures names { (names.new ≡ names.old) ⊎ (names.new ≡ names_with token.now.kind token.now.text.now names.old) }
        ensures idle { store.new.building ≡ None }
    {
        store.tied_law(); // (for the proof)
        let leaf = scrap_of(token, names, store)?;
        self.nesting.add_scrap(leaf)
    }

    /// A comment, a section name or an inner text begins.
    fn begin(&mut self, token: &Tok, alloc: Global) -> Result<(), Memory>
        requires start { token.now.span.start < 2 ^ 32 }
        ensures begins { OnOk result (self.new ≡ record self.old
            { nesting = begun_by token.now.kind token.now.span.start self.old.nesting }) }
    {
        let number = token.span.start as u32;
        match token.kind {
            TokKind::InnerText => self.open_text(alloc),
            TokKind::LongComment | TokKind::ShortComment => {
                self.hold(Holder::Comment(number), alloc)
            }
            TokKind::Code(_) => self.hold(Holder::Name(number), alloc),
            _ => Ok(()),
        }
    }

    /// An inner text begins. After `Memory` the translation is as before.
    pub fn open_text(&mut self, alloc: Global) -> Result<(), Memory>
        ensures begins { OnOk result (self.new ≡ record self.old { nesting = CTexts.CText [] ∷ self.old.nesting }) }
        ensures refused { OnErr result (self.new ≡ self.old) }
    {
        self.nesting.begin(Open::CText(ScrapLine::new_in(alloc)))
    }

    /// What holds inner texts begins. After `Memory` the translation is as before.
    pub fn hold(&mut self, holder: Holder, alloc: Global) -> Result<(), Memory>
        ensures begins { OnOk result (self.new ≡ record self.old
            { nesting = CTexts.Comment holder [] ∷ self.old.nesting }) }
        ensures refused { OnErr result (self.new ≡ self.old) }
    {
        self.nesting
            .begin(Open::Comment(holder, CommentText::new_in(alloc)))
    }

    /// Counts what was done for one text; `Memory` where no memory could hold so many scraps.
    fn count(&mut self, done: &Translated) -> Result<(), Memory>
        ensures counted { OnOk result (self.new ≡ record self.old {
          scraps = self.old.scraps + done.now.scraps;
          productions = self.old.productions + done.now.productions;
        }) }
    {
        self.scraps = self.scraps.checked_add(done.scraps).ok_or(Memory)?;
        self.productions = self
            .productions
            .checked_add(done.productions)
            .ok_or(Memory)?;
        Ok(())
    }

    /// The innermost text, comment or section name ends.
    pub fn finish<L: Ledger, R: Recorder>(
        &mut self,
        context: &Context,
        work: &mut Work<L, R>,
    ) -> Result<(), Memory>
        requires translating { IsTranslating work.old.store.now work.old.names.now self.old }
        ensures { (token : Seen) → Advances R.told (over context.now.flags.now (Finish token ∷ []) (progress_over
            work.old self.old)) self.old work.old self.new work.new result }
    {
        work.store.tied_law();
        match self.nesting.end() {
            Some(Open::CText(line)) => {
                let done = translate_line(line, context, work)?;
                self.count(&done)?;
                self.nesting.add_part(CommentPart::InnerText(done.list))
            }
            Some(Open::Comment(holder, text)) => {
                let list = held_list(holder, text.parts(), work.store)?;
                self.nesting.add_scrap(holder.leaf(list))
            }
            None => Ok(()),
        }
    }

    /// One answer of the scanner, in which section names stand for nothing.
    #[inline(always)]
    pub fn answer<L: Ledger, R: Recorder>(
        &mut self,
        answer: &Lexed,
        context: &Context,
        work: &mut Work<L, R>,
    ) -> Result<(), Memory>
        requires translating { IsTranslating work.old.store.now work.old.names.now self.old }
        requires start { StartsBelow (2 ^ 32) (answers_in answer.now) }
        ensures { Advances R.told (over context.now.flags.now (answers_in answer.now) (progress_over work.old
            self.old)) self.old work.old self.new work.new result }
    {
        match answer {
            Lexed::Token(token) => self.token(token, work.names, work.store),
            Lexed::Begin(token) => self.begin(token, context.alloc),
            Lexed::Finish(_) => self.finish(context, work),
            Lexed::Note(..) | Lexed::End => Ok(()),
        }
    }

    /// The text ends: its scraps are reduced, and what is left is put together.
    pub fn end<L: Ledger, R: Recorder>(
        mut self,
        context: &Context,
        work: &mut Work<L, R>,
    ) -> Result<Translated, Memory>
        requires translating { IsTranslating work.old.store.now work.old.names.now self }
        ensures { EndsIn R.told (to_end context.now.flags.now [] (progress_over work.old self)) self work.old work.new
            result }
    {
        let done = self.close(context, work);
        drop(self);
        done
    }

    // The same of a translation that the caller drops.
    fn close<L: Ledger, R: Recorder>(
        &mut self,
        context: &Context,
        work: &mut Work<L, R>,
    ) -> Result<Translated, Memory>
        requires translating { IsTranslating work.old.store.now work.old.names.now self.old }
        ensures { EndsIn R.told (to_end context.now.flags.now [] (progress_over work.old self.old)) self.old work.old
            work.new result }
    {
        let line = self.nesting.take_line(context.alloc);
        let done = translate_line(line, context, work)?;
        self.count(&done)?;
        Ok(Translated {
            list: done.list,
            scraps: self.scraps,
            productions: self.productions,
        })
    }
}
