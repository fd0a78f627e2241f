//! The translation of a C text.
ghost use Rattle.std.specs.Prelude.{◌≡◌, ◌^◌, IfOk, OnOk, None};
ghost use Rattle.cw_answers.specs.Reading.{IsReadUp};
ghost use Rattle.cw_lex.specs.Lexing.{tokens_of};
ghost use Rattle.cw_lex.specs.Nested.{IsNested};
ghost use Rattle.cw_tokens.specs.Shapes.{unfolded};
ghost use Rattle.cw_trees.specs.Flat.{struck};
ghost use Rattle.cw_translator.specs.NameParts.{AreNamesOf};
ghost use Rattle.cw_translator.specs.Opening.{StartsBelow, of_nothing};
ghost use Rattle.cw_translator.specs.Working.{EndsIn, texts_in};
ghost use Rattle.cw_reduce.specs.TranslationLaws.{ReadsInText};
ghost use Rattle.cw_reduce.specs.WholeTexts.{IsCText, shown_in_text, to_text};

use crate::alone::{first_leaf, translate_from};
use crate::headed::translate_with_head;
use crate::heads::next_answer;
use cw_answers::Reader;
use cw_base::{Ledger, Memory, Span};
use cw_lex::Mode;
use cw_translator::{Context, Recorder, Translated, Work};

/// Translates a C text by the answers of its scan, which are read to the end, and kept where the reader keeps them: the
/// same as `translate` of a text that has these answers. No section code may cut the text.
pub fn translate_read<L: Ledger, R: Recorder>(
    reader: &mut Reader,
    context: &Context,
    work: &mut Work<L, R>,
) -> Result<Translated, Memory>
    requires nested { IsNested reader.old.coming }
    requires start { StartsBelow (2 ^ 32) reader.old.coming }
    requires kept { AreNamesOf context.now.sec_names.now context.now.uses.now }
    requires idle { work.old.store.now.building ≡ None }
    // No answer is still to come, and all are kept that could be.
    ensures read { OnOk result (IsReadUp reader.old reader.new) }
    // The list, the names, the marks and the counts are those of the definition; after `Memory` the names are as those
    // of `translate`.
    ensures text { EndsIn R.told (to_text context.now reader.old.coming work.old) of_nothing work.old work.new result }
{
    let first = next_answer(reader);
    match first_leaf(&first) {
        Some(token) => translate_from(token, reader, context, work),
        None => translate_with_head(first, reader, context, work),
    }
}

/// Translates as `translate` does, and a recorder receives each text that ends, inner texts included: in the order in
/// which their reductions end, each with the leaf lines of the scraps with which it began and with all its productions.
/// After `Memory` it has received the first of them, each whole.
pub fn translate_recorded<L: Ledger, R: Recorder>(
    text: &[u8],
    span: Span,
    mode: Mode,
    context: &Context,
    work: &mut Work<L, R>,
) -> Result<Translated, Memory>
    requires c_text { IsCText text.now span mode }
    requires kept { AreNamesOf context.now.sec_names.now context.now.uses.now }
    requires idle { work.old.store.now.building ≡ None }
    ensures text { EndsIn R.told (to_text context.now (tokens_of text.now span.start span.end mode) work.old)
        of_nothing work.old work.new result }
    ensures shown { IfOk result (λ done. struck (unfolded work.new.store.now.lists done.list.index) ≡
        shown_in_text (texts_in context.now) text.now span mode) }
    ensures mode { IfOk result (λ done. ReadsInText (unfolded work.new.store.now.lists done.list.index)) }
{
    let mut reader = Reader::over(context.alloc, text, span, mode);
    translate_read(&mut reader, context, work)
}
