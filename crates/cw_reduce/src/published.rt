//! The translation of a span of a text. No program calls it, users of the library do: a thin call of what programs run.
ghost use Rattle.std.specs.Prelude.{◌≡◌, ◌+◌, ◌≤◌, length, IfOk, OnErr, None};
ghost use Rattle.cw_lex.specs.Lexing.{tokens_of};
ghost use Rattle.cw_scraps.specs.Marking.{marked_names};
ghost use Rattle.cw_tokens.specs.Shapes.{unfolded};
ghost use Rattle.cw_trees.specs.Flat.{struck};
ghost use Rattle.cw_translator.specs.Counting.{limit_in};
ghost use Rattle.cw_translator.specs.NameParts.{AreNamesOf, name_texts};
ghost use Rattle.cw_reduce.specs.Heading.{NamesOfText};
ghost use Rattle.cw_reduce.specs.TranslationLaws.{ReadsInText};
ghost use Rattle.cw_reduce.specs.WholeTexts.{IsCText, IsNewList, IsTranslated, shown_in_text, translation_of};

use crate::translating::translate_recorded;
use cw_base::{Flags, Ledger, Memory, Span, Steps};
use cw_lex::Mode;
use cw_names::Names;
use cw_scraps::Marks;
use cw_secnames::{NameUses, SecNames};
use cw_tokens::TokenStore;
use cw_translator::{Context, Translated, Unrecorded, Work};
use std::alloc::Global;

/// Translates a C text, whose first byte stands at `span.start`: its head is read, its tokens become scraps, the inner
/// texts of its comments are translated in the same store where they end, and those of its section names where the
/// names stand, the scraps are reduced, and what no production joins stands side by side. Tokens have the place of
/// their first byte as their number, in a section name that of the name's own text. Codes that make no scrap are passed
/// over, and so are section names without a pair. Each token that is shown stands in the tree once and in order, and
/// read from text, the tree ends in text, as each inner text in it does. Whatever it answers, the steps are within the
/// limit of the texts. `Memory` is the only refusal: then the names are those at a word of the head or at an answer, or
/// those after some productions of a text that has ended, and lists may have been added to the store.
pub fn translate<L: Ledger>(
    alloc: Global,
    text: &[u8],
    span: Span,
    mode: Mode,
    names: &mut Names,
    sec_names: &SecNames,
    uses: &NameUses,
    store: &mut TokenStore,
    marks: &mut Marks,
    flags: &Flags,
    steps: &mut Steps<L>,
) -> Result<Translated, Memory>
    requires c_text { IsCText text.now span mode }
    requires kept { AreNamesOf sec_names.now uses.now }
    requires idle { store.old.building ≡ None }
    ensures text { IfOk result (λ it. IsTranslated flags.now store.new.lists names.new marks.new it steps.old steps.new
        (translation_of flags.now (name_texts sec_names.now uses.now) text.now span mode names.old marks.old)) }
    ensures shown { IfOk result (λ done. struck (unfolded store.new.lists done.list.index) ≡
        shown_in_text (name_texts sec_names.now uses.now) text.now span mode) }
    ensures mode { IfOk result (λ done. ReadsInText (unfolded store.new.lists done.list.index)) }
    ensures bound { steps.new ≤ steps.old + limit_in flags.now (translation_of flags.now
        (name_texts sec_names.now uses.now) text.now span mode names.old marks.old).known.ended }
    ensures list { IfOk result (λ done. IsNewList store.old.lists store.new.lists (length names.new) done.list.index) }
    ensures idle { store.new.building ≡ None }
    ensures refused { OnErr result (NamesOfText flags.now (name_texts sec_names.now uses.now)
        (tokens_of text.now span.start span.end mode) names.old (marked_names marks.old) names.new) }
{
    let context = Context {
        sec_names,
        uses,
        flags,
        alloc,
    };
    let mut work = Work {
        names,
        store,
        marks,
        steps,
        recorder: Unrecorded,
    };
    translate_recorded(text, span, mode, &context, &mut work)
}
