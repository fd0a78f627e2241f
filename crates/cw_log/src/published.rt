//! A span translated, and its logs added to a log. No program calls it, users of the library do: a thin call of what
//! programs run.
ghost use Rattle.std.specs.Prelude.{◌≡◌, ◌+◌, ◌≤◌, length, IfOk, OnErr, None};
ghost use Rattle.cw_lex.specs.Lexing.{tokens_of};
ghost use Rattle.cw_scraps.specs.Marking.{marked_names};
ghost use Rattle.cw_tokens.specs.Shapes.{unfolded};
ghost use Rattle.cw_trees.specs.Flat.{struck};
ghost use Rattle.cw_translator.specs.Counting.{limit_in};
ghost use Rattle.cw_translator.specs.NameParts.{AreNamesOf, name_texts};
ghost use Rattle.cw_reduce.specs.Heading.{NamesOfText};
ghost use Rattle.cw_reduce.specs.TranslationLaws.{ReadsInText};
ghost use Rattle.cw_reduce.specs.WholeTexts.{IsCText, IsNewList, IsTranslated, shown_in_text, translation_of};
ghost use Rattle.cw_log.specs.Logged.{HasLogged};

use crate::logs::ProductionLog;
use cw_base::{Flags, Ledger, Memory, Span, Steps};
use cw_lex::Mode;
use cw_names::Names;
use cw_reduce::{Context, Recorder, Translated, Work, translate_recorded};
use cw_scraps::Marks;
use cw_secnames::{NameUses, SecNames};
use cw_tokens::TokenStore;
use std::alloc::Global;
use std::mem;

/// Translates a C text as `translate` does, and adds to a log each text that is translated, inner texts included, in
/// the order in which their reductions end. After `Memory` the first of them have been added, each whole.
pub fn translate_logged<L: Ledger>(
    alloc: Global,
    text: &[u8],
    span: Span,
    mode: Mode,
    names: &mut Names,
    sec_names: &SecNames,
    uses: &NameUses,
    store: &mut TokenStore,
    marks: &mut Marks,
    flags: &Flags,
    log: &mut ProductionLog,
    steps: &mut Steps<L>,
) -> Result<Translated, Memory>
    requires c_text { IsCText text.now span mode }
    requires kept { AreNamesOf sec_names.now uses.now }
    requires idle { store.old.building ≡ None }
    ensures text { IfOk result (λ it. IsTranslated flags.now store.new.lists names.new marks.new it steps.old steps.new
        (translation_of flags.now (name_texts sec_names.now uses.now) text.now span mode names.old marks.old)) }
    ensures logged { HasLogged flags.now (translation_of flags.now (name_texts sec_names.now uses.now) text.now span
        mode names.old marks.old).known.ended log.old.ended log.new.ended result }
    ensures shown { IfOk result (λ done. struck (unfolded store.new.lists done.list.index) ≡
        shown_in_text (name_texts sec_names.now uses.now) text.now span mode) }
    ensures mode { IfOk result (λ done. ReadsInText (unfolded store.new.lists done.list.index)) }
    ensures bound { steps.new ≤ steps.old + limit_in flags.now (translation_of flags.now
        (name_texts sec_names.now uses.now) text.now span mode names.old marks.old).known.ended }
    ensures list { IfOk result (λ done. IsNewList store.old.lists store.new.lists (length names.new) done.list.index) }
    ensures idle { store.new.building ≡ None }
    ensures refused { OnErr result (NamesOfText flags.now (name_texts sec_names.now uses.now)
        (tokens_of text.now span.start span.end mode) names.old (marked_names marks.old) names.new) }
{
    let context = Context {
        sec_names,
        uses,
        flags,
        alloc,
    };
    let recorder = mem::replace(log, ProductionLog::new_in(alloc));
    let mut work = Work {
        names,
        store,
        marks,
        steps,
        recorder,
    };
    let done = translate_recorded(text, span, mode, &context, &mut work);
    *log = recorder_of(work);
    done
}

// Takes a work apart. What it borrowed is as it left it.
fn recorder_of<L: Ledger, R: Recorder>(work: Work<L, R>) -> R
    ensures recorder { result ≡ work.entry.recorder }
    ensures names { work.exit.0.now ≡ work.entry.names.now }
    ensures store { work.exit.1.0.now ≡ work.entry.store.now }
    ensures marks { work.exit.1.1.0.now ≡ work.entry.marks.now }
    ensures steps { work.exit.1.1.1.0.now ≡ work.entry.steps.now }
{
    let Work {
        names: _names,
        store: _store,
        marks: _marks,
        steps: _steps,
        recorder,
    } = work;
    recorder
}
