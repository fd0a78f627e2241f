//! A text behind its head, where the head is read.
ghost use Rattle.std.specs.Prelude.{◌≡◌, ◌≢◌, ◌^◌, ◌++◌, IfOk, OnOk, None};
ghost use Rattle.cw_base.specs.declared.category.Cat.TheVariants as Cats;
ghost use Rattle.cw_rules.specs.Answers.{Gives};
ghost use Rattle.cw_lex.specs.Nested.{IsNested};
ghost use Rattle.cw_scraps.specs.Lines.{IsSoundLine};
ghost use Rattle.cw_scraps.specs.Marking.{marked_names};
ghost use Rattle.cw_answers.specs.Reading.{IsReadUp};
ghost use Rattle.cw_translator.specs.declared.holders.Holder.TheVariants as Holders;
ghost use Rattle.cw_reduce.specs.HeadReading.{head_line};
ghost use Rattle.cw_reduce.specs.model.HeadReading.{answers_ahead, name_ahead, without_notes};
ghost use Rattle.cw_reduce.specs.model.Heading.{of_head, over_head, over_headed, over_held, to_headed};
ghost use Rattle.cw_translator.specs.NameParts.{AreNamesOf};
ghost use Rattle.cw_reduce.specs.Naming.{with_texts};
ghost use Rattle.cw_reduce.specs.WholeTexts.{to_text};
ghost use Rattle.cw_translator.specs.Opening.{IsTranslating, StartsBelow, answers_in, of_nothing};
ghost use Rattle.cw_translator.specs.model.Opening.{of_leaf};
ghost use Rattle.cw_translator.specs.Translating.{begin};
ghost use Rattle.cw_translator.specs.Working.{Advances, EndsIn, over, progress_over, texts_in};

use crate::heads::{Beginning, HeadRead, read_head};
use crate::naming::{kept_name, named_answer, read_named};
use cw_answers::Reader;
use cw_base::{Cat, Ledger, MathMode, Memory};
use cw_lex::Lexed;
use cw_scraps::{Leaf, ScrapLine};
use cw_translator::{Context, Holder, Recorder, Translated, Translator, Work};
use std::alloc::Global;

// For how many scraps a text's line has capacity at first, so that those of most texts are never moved.
const FIRST_SCRAPS: usize = 64;

/// The scrap of a head, where it has one.
fn line_of(head: HeadRead, alloc: Global) -> Result<ScrapLine, Memory>
    ensures { IfOk result (λ line. line ≡ head_line head) }
{
    let mut line = ScrapLine::with_room(alloc, FIRST_SCRAPS)?;
    match head {
        HeadRead::Dead(list) => {
            line.add(Cat::Dead, list, MathMode::Text, MathMode::Text)?;
            Ok(line)
        }
        HeadRead::Named(..) | HeadRead::None => Ok(line),
    }
}

/// Nothing is counted yet, and the text begins with the scrap of this head, where the head has one.
fn with_head(head: HeadRead, alloc: Global) -> Result<Translator, Memory>
    ensures { IfOk result (λ t. t ≡ of_head head) }
{
    let line = line_of(head, alloc)?;
    Ok(Translator::over(line, alloc))
}

/// Nothing is counted yet, and the text begins with this scrap.
pub(crate) fn with_leaf(leaf: Leaf, alloc: Global) -> Result<Translator, Memory>
    requires { leaf.cat ≢ Cats.End }
    ensures { IfOk result (λ t. t ≡ of_leaf leaf) }
{
    let mut line = ScrapLine::with_room(alloc, FIRST_SCRAPS)?;
    line.add(leaf.cat, leaf.list, leaf.left, leaf.right)?;
    Ok(Translator::over(line, alloc))
}

/// The name at the head of a C part, with its inner texts and its sign. Without a pair it stands for nothing.
fn name_with_sign<L: Ledger, R: Recorder>(
    translator: &mut Translator,
    number: u32,
    sign: u32,
    context: &Context,
    work: &mut Work<L, R>,
) -> Result<(), Memory>
    requires kept { AreNamesOf context.now.sec_names.now context.now.uses.now }
    requires translating { IsTranslating work.old.store.now work.old.names.now translator.old }
    ensures { Advances R.told (over_held context.now.flags.now (texts_in context.now number) (Holders.Head number sign)
        (progress_over work.old translator.old)) translator.old work.old translator.new work.new result }
{
    match context.uses.at(number) {
        None => Ok(()),
        Some(id) => {
            let kind = context.sec_names.kind(id);
            let text = context.sec_names.text(id);
            kept_name(
                translator,
                Holder::Head(number, sign),
                kind,
                text,
                context,
                work,
            )
        }
    }
}

/// What the head of a text makes beside a scrap that was made while it was read.
fn head_name<L: Ledger, R: Recorder>(
    translator: &mut Translator,
    head: HeadRead,
    context: &Context,
    work: &mut Work<L, R>,
) -> Result<(), Memory>
    requires kept { AreNamesOf context.now.sec_names.now context.now.uses.now }
    requires translating { IsTranslating work.old.store.now work.old.names.now translator.old }
    ensures { Advances R.told (over_head context.now.flags.now (texts_in context.now) head (progress_over work.old
        translator.old)) translator.old work.old translator.new work.new result }
{
    match head {
        HeadRead::Named(number, sign) => name_with_sign(translator, number, sign, context, work),
        HeadRead::Dead(_) | HeadRead::None => Ok(()),
    }
}

/// A section name that was read because its sign might have stood behind it.
fn name_ahead<L: Ledger, R: Recorder>(
    translator: &mut Translator,
    begun: &Beginning,
    context: &Context,
    work: &mut Work<L, R>,
) -> Result<(), Memory>
    requires start { StartsBelow (2 ^ 32) (name_ahead begun.now.name) }
    requires kept { AreNamesOf context.now.sec_names.now context.now.uses.now }
    requires translating { IsTranslating work.old.store.now work.old.names.now translator.old }
    ensures { Advances R.told (over context.now.flags.now (with_texts (texts_in context.now)
        (name_ahead begun.now.name)) (progress_over work.old translator.old)) translator.old work.old translator.new
        work.new result }
{
    match begun.name {
        None => Ok(()),
        Some(token) => named_answer(translator, &Lexed::Token(token), context, work),
    }
}

/// The answers behind a head: those that were read beyond it, and then all others.
pub(crate) fn read_behind<L: Ledger, R: Recorder>(
    translator: &mut Translator,
    begun: &Beginning,
    reader: &mut Reader,
    context: &Context,
    work: &mut Work<L, R>,
) -> Result<(), Memory>
    requires start { StartsBelow (2 ^ 32) (answers_ahead begun.now ++ reader.old.coming) }
    requires kept { AreNamesOf context.now.sec_names.now context.now.uses.now }
    requires translating { IsTranslating work.old.store.now work.old.names.now translator.old }
    ensures read { OnOk result (IsReadUp reader.old reader.new) }
    ensures reads { Advances R.told (over context.now.flags.now (with_texts (texts_in context.now) (answers_ahead
        begun.now ++ reader.old.coming)) (progress_over work.old translator.old)) translator.old work.old translator.new
        work.new result }
{
    name_ahead(translator, begun, context, work)?;
    named_answer(translator, &begun.next, context, work)?;
    read_named(translator, reader, context, work)
}

/// A text with its head.
fn read_headed<L: Ledger, R: Recorder>(
    translator: &mut Translator,
    begun: &Beginning,
    reader: &mut Reader,
    context: &Context,
    work: &mut Work<L, R>,
) -> Result<(), Memory>
    requires start { StartsBelow (2 ^ 32) (answers_ahead begun.now ++ reader.old.coming) }
    requires kept { AreNamesOf context.now.sec_names.now context.now.uses.now }
    requires translating { IsTranslating work.old.store.now work.old.names.now translator.old }
    ensures read { OnOk result (IsReadUp reader.old reader.new) }
    ensures reads { Advances R.told (over_headed context.now.flags.now (texts_in context.now) begun.now.head
        (answers_ahead begun.now ++ reader.old.coming) (progress_over work.old translator.old)) translator.old work.old
        translator.new work.new result }
{
    head_name(translator, begun.head, context, work)?;
    read_behind(translator, begun, reader, context, work)
}

/// Ends a text that begins with this head.
pub(crate) fn translate_headed<L: Ledger, R: Recorder>(
    begun: &Beginning,
    reader: &mut Reader,
    context: &Context,
    work: &mut Work<L, R>,
) -> Result<Translated, Memory>
    requires sound { IsSoundLine work.old.store.now work.old.names.now (head_line begun.now.head) }
    requires start { StartsBelow (2 ^ 32) (answers_ahead begun.now ++ reader.old.coming) }
    requires nested { IsNested (answers_ahead begun.now ++ reader.old.coming) }
    requires kept { AreNamesOf context.now.sec_names.now context.now.uses.now }
    ensures read { OnOk result (IsReadUp reader.old reader.new) }
    ensures text { EndsIn R.told (to_headed context.now.flags.now (texts_in context.now) work.old.store.now.lists
        begun.now.head (answers_ahead begun.now ++ reader.old.coming) (begin work.old.names.now
        (marked_names work.old.marks.now))) (of_head begun.now.head) work.old work.new result }
{
    let mut translator = with_head(begun.head, context.alloc)?;
    read_headed(&mut translator, begun, reader, context, work)?;
    translator.end(context, work)
}

/// Ends a text that has this first answer, with its head.
#[inline(never)]
pub(crate) fn translate_with_head<'a, L: Ledger, R: Recorder>(
    first: Lexed<'a>,
    reader: &mut Reader<'a>,
    context: &Context,
    work: &mut Work<L, R>,
) -> Result<Translated, Memory>
    requires gives { Gives (without_notes (answers_in first ++ reader.old.coming)) first reader.old.coming }
    requires nested { IsNested (answers_in first ++ reader.old.coming) }
    requires start { StartsBelow (2 ^ 32) (answers_in first ++ reader.old.coming) }
    requires kept { AreNamesOf context.now.sec_names.now context.now.uses.now }
    requires idle { work.old.store.now.building ≡ None }
    ensures read { OnOk result (IsReadUp reader.old reader.new) }
    ensures text { EndsIn R.told (to_text context.now (answers_in first.entry ++ reader.old.coming) work.old) of_nothing
        work.old work.new result }
{
    let begun = read_head(first, reader, context.alloc, work.names, work.store)?;
    translate_headed(&begun, reader, context, work)
}
