//! A text that begins with a token which makes a scrap. Where that is all of it, no line of scraps is made.
ghost use Rattle.std.specs.Prelude.{◌≡◌, ◌≢◌, ◌^◌, [], ◌∷◌, ◌++◌, true, IfSome, OnOk, None};
ghost use Rattle.cw_base.specs.declared.category.Cat.TheVariants as Cats;
ghost use Rattle.cw_base.specs.declared.flags.Flags.{Flags as FlagsSeen};
ghost use Rattle.cw_table.specs.Fitting.{first_of};
ghost use Rattle.cw_table.specs.Productions.{productions};
ghost use Rattle.cw_rules.specs.Answers.{Token as TokenAnswer, seen};
ghost use Rattle.cw_rules.specs.declared.tokens.Lexed.TheVariants as Lexes;
ghost use Rattle.cw_lex.specs.Nested.{IsNested};
ghost use Rattle.cw_scraps.specs.Leaves.{MakesLeaf, entry_of};
ghost use Rattle.cw_scraps.specs.Lines.{IsSoundLine};
ghost use Rattle.cw_answers.specs.Reading.{IsReadUp};
ghost use Rattle.cw_translator.specs.NameParts.{AreNamesOf};
ghost use Rattle.cw_reduce.specs.Naming.{with_texts};
ghost use Rattle.cw_reduce.specs.WholeTexts.{to_text};
ghost use Rattle.cw_translator.specs.Opening.{IsTranslating, StartsBelow, answers_in, of_nothing};
ghost use Rattle.cw_translator.specs.model.Opening.{of_leaf};
ghost use Rattle.cw_translator.specs.Working.{EndsIn, progress_over, texts_in, to_end};

use crate::headed::{read_behind, with_leaf};
use crate::heads::headless;
use cw_answers::Reader;
use cw_base::{Cat, Ledger, Memory};
use cw_lex::{Lexed, Tok};
use cw_rewrite::put_alone;
use cw_scraps::{Leaf, makes_leaf, scrap_of};
use cw_table::may_fit;
use cw_translator::{Context, Recorder, Translated, Work, record_alone};

/// The token with which a text begins that has this first answer, where it makes a scrap of its own.
#[inline(always)]
pub(crate) fn first_leaf<'s, 'a>(first: &'s Lexed<'a>) -> Option<&'s Tok<'a>>
    ensures is { IfSome result (λ token. first.now ≡ Lexes.Token token.now) }
    ensures makes { IfSome result (λ token. MakesLeaf token.now.kind) }
{
    match first {
        Lexed::Token(token) => {
            if makes_leaf(token.kind) {
                return Some(token);
            }
            None
        }
        Lexed::Begin(_) | Lexed::Finish(_) | Lexed::Note(..) | Lexed::End => None,
    }
}

/// Whether no row fits at a scrap that stands alone.
#[inline(always)]
fn stays_alone(cat: Cat) -> bool
    ensures { result ≡ true → first_of productions (cat ∷ []) ≡ None }
{
    !may_fit(cat, Cat::End)
}

/// Whether this is the end of a text.
#[inline(always)]
fn is_end(answer: &Lexed) -> bool
    ensures { result ≡ true → answer.now ≡ Lexes.End }
{
    matches!(answer, Lexed::End)
}

/// The text ends whose only scrap this is, at which no row fits: it is put together as it is. That counts four steps,
/// like each look for a row.
#[inline(always)]
fn end_alone<L: Ledger, R: Recorder>(
    leaf: Leaf,
    work: &mut Work<L, R>,
) -> Result<Translated, Memory>
    requires sound { IsSoundLine work.old.store.now work.old.names.now (entry_of leaf ∷ []) }
    requires alone { first_of productions (leaf.cat ∷ []) ≡ None }
    ensures { (flags : FlagsSeen) → EndsIn R.told (to_end flags [] (progress_over work.old (of_leaf leaf)))
        (of_leaf leaf) work.old work.new result }
{
    record_alone(&mut work.recorder, &leaf, work.store)?;
    work.store.tied_law();
    work.steps.tick();
    work.steps.tick();
    work.steps.tick();
    work.steps.tick();
    let list = put_alone(leaf, work.store)?;
    Ok(Translated {
        list,
        scraps: 1,
        productions: 0,
    })
}

/// Ends a text that begins with this scrap, and goes on with this answer and all others.
#[inline(never)]
fn translate_on<L: Ledger, R: Recorder>(
    leaf: Leaf,
    next: &Lexed,
    reader: &mut Reader,
    context: &Context,
    work: &mut Work<L, R>,
) -> Result<Translated, Memory>
    requires real { leaf.cat ≢ Cats.End }
    requires translating { IsTranslating work.old.store.now work.old.names.now (of_leaf leaf) }
    requires start { StartsBelow (2 ^ 32) (answers_in next.now ++ reader.old.coming) }
    requires kept { AreNamesOf context.now.sec_names.now context.now.uses.now }
    ensures read { OnOk result (IsReadUp reader.old reader.new) }
    ensures text { EndsIn R.told (to_end context.now.flags.now (with_texts (texts_in context.now) (answers_in next.now
        ++ reader.old.coming)) (progress_over work.old (of_leaf leaf))) (of_leaf leaf) work.old work.new result }
{
    let mut translator = with_leaf(leaf, context.alloc)?;
    match read_behind(&mut translator, &headless(*next), reader, context, work) {
        Ok(()) => translator.end(context, work),
        Err(memory) => {
            drop(translator);
            Err(memory)
        }
    }
}

/// Ends a text that begins with this scrap.
#[inline(always)]
fn translate_rest<L: Ledger, R: Recorder>(
    leaf: Leaf,
    reader: &mut Reader,
    context: &Context,
    work: &mut Work<L, R>,
) -> Result<Translated, Memory>
    requires real { leaf.cat ≢ Cats.End }
    requires translating { IsTranslating work.old.store.now work.old.names.now (of_leaf leaf) }
    requires sound { IsSoundLine work.old.store.now work.old.names.now (entry_of leaf ∷ []) }
    requires start { StartsBelow (2 ^ 32) reader.old.coming }
    requires kept { AreNamesOf context.now.sec_names.now context.now.uses.now }
    ensures read { OnOk result (IsReadUp reader.old reader.new) }
    ensures text { EndsIn R.told (to_end context.now.flags.now (with_texts (texts_in context.now) reader.old.coming)
        (progress_over work.old (of_leaf leaf))) (of_leaf leaf) work.old work.new result }
{
    let next = reader.next();
    if is_end(&next) && stays_alone(leaf.cat) {
        return end_alone(leaf, work);
    }
    translate_on(leaf, &next, reader, context, work)
}

/// Ends a text that begins with a token which makes a scrap.
pub(crate) fn translate_from<L: Ledger, R: Recorder>(
    token: &Tok,
    reader: &mut Reader,
    context: &Context,
    work: &mut Work<L, R>,
) -> Result<Translated, Memory>
    requires makes { MakesLeaf token.now.kind }
    requires nested { IsNested (TokenAnswer (seen token.now) ∷ reader.old.coming) }
    requires start { StartsBelow (2 ^ 32) (TokenAnswer (seen token.now) ∷ reader.old.coming) }
    requires kept { AreNamesOf context.now.sec_names.now context.now.uses.now }
    requires idle { work.old.store.now.building ≡ None }
    ensures read { OnOk result (IsReadUp reader.old reader.new) }
    ensures text { EndsIn R.told (to_text context.now (TokenAnswer (seen token.now) ∷ reader.old.coming) work.old)
        of_nothing work.old work.new result }
{
    work.store.tied_law();
    let leaf = scrap_of(token, work.names, work.store)?;
    translate_rest(leaf, reader, context, work)
}
