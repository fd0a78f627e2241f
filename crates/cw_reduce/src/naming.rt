//! Section names in a text: what a name stands for is translated where the name stands.
ghost use Rattle.std.specs.Prelude.{◌≡◌, ◌≤◌, ◌<◌, ◌^◌, length, true, OnOk};
ghost use Rattle.cw_rules.specs.Answers.{seen};
ghost use Rattle.cw_rules.specs.declared.tokens.Mode.TheVariants.{Inner};
ghost use Rattle.cw_lex.specs.Limbo.{is_name_kind};
ghost use Rattle.cw_lex.specs.Lexing.{tokens_of};
ghost use Rattle.cw_lex.specs.Nested.{until_section};
ghost use Rattle.cw_answers.specs.Reading.{IsReadUp};
ghost use Rattle.cw_translator.specs.NameParts.{AreNamesOf, parts_by_kind, parts_of_name};
ghost use Rattle.cw_reduce.specs.Naming.{held_answers, is_name_answer, text_answers, texts_answers};
ghost use Rattle.cw_reduce.specs.Naming.{token_answers, with_texts};
ghost use Rattle.cw_translator.specs.Opening.{IsTranslating, StartsBelow, answers_in};
ghost use Rattle.cw_translator.specs.Reading.{with_held};
ghost use Rattle.cw_translator.specs.Working.{Advances, over, progress_over, texts_in};

use crate::uncut::ends_text;
use cw_answers::Reader;
use cw_base::{Ledger, Memory, Span};
use cw_lex::{Lexed, Lexer, Mode, Tok, is_section_name};
use cw_secnames::{SecKind, next_part};
use cw_translator::{Context, Holder, Recorder, Translator, Work};

/// Whether an answer is a section name.
fn is_name(answer: &Lexed) -> bool
    ensures { result ≡ is_name_answer answer.now }
{
    match answer {
        Lexed::Token(token) => is_section_name(token.kind),
        Lexed::Begin(_) | Lexed::Finish(_) | Lexed::Note(..) | Lexed::End => false,
    }
}

/// All answers of a scanner up to a section code.
fn read_until_section<L: Ledger, R: Recorder>(
    translator: &mut Translator,
    lexer: &mut Lexer,
    context: &Context,
    work: &mut Work<L, R>,
) -> Result<(), Memory>
    requires translating { IsTranslating work.old.store.now work.old.names.now translator.old }
    requires start { StartsBelow (2 ^ 32) lexer.old }
    ensures { Advances R.told (over context.now.flags.now (until_section lexer.old) (progress_over work.old
        translator.old)) translator.old work.old translator.new work.new result }
{
    loop {
        let answer = lexer.next();
        if ends_text(&answer) {
            return Ok(());
        }
        translator.answer(&answer, context, work)?;
    }
}

/// An inner text of a section name, up to a section code. It lies in the name's own text.
fn inner_text<L: Ledger, R: Recorder>(
    translator: &mut Translator,
    text: &[u8],
    span: Span,
    context: &Context,
    work: &mut Work<L, R>,
) -> Result<(), Memory>
    requires order { span.start ≤ span.end }
    requires within { span.end ≤ length text.now }
    requires short { length text.now ≤ 2 ^ 24 }
    requires translating { IsTranslating work.old.store.now work.old.names.now translator.old }
    ensures { Advances R.told (over context.now.flags.now (text_answers (until_section (tokens_of text.now span.start
        span.end Inner))) (progress_over work.old translator.old)) translator.old work.old translator.new work.new
        result }
{
    translator.open_text(context.alloc)?;
    let mut lexer = Lexer::over(text, span.start, span.end, Mode::Inner);
    read_until_section(translator, &mut lexer, context, work)?;
    translator.finish(context, work)
}

/// The inner texts of a section name, one after another.
fn inner_texts<L: Ledger, R: Recorder>(
    translator: &mut Translator,
    text: &[u8],
    context: &Context,
    work: &mut Work<L, R>,
) -> Result<(), Memory>
    requires short { length text.now ≤ 2 ^ 24 }
    requires translating { IsTranslating work.old.store.now work.old.names.now translator.old }
    ensures { Advances R.told (over context.now.flags.now (texts_answers (parts_of_name text.now)) (progress_over
        work.old translator.old)) translator.old work.old translator.new work.new result }
{
    let mut from = 0;
    loop {
        match next_part(text, from) {
            None => return Ok(()),
            Some(span) => {
                inner_text(translator, text, span, context, work)?;
                from = span.end + 1;
            }
        }
    }
}

/// The inner texts of a name of `@<`. A name of `@(` has none.
fn texts_by_kind<L: Ledger, R: Recorder>(
    translator: &mut Translator,
    kind: SecKind,
    text: &[u8],
    context: &Context,
    work: &mut Work<L, R>,
) -> Result<(), Memory>
    requires short { length text.now ≤ 2 ^ 24 }
    requires translating { IsTranslating work.old.store.now work.old.names.now translator.old }
    ensures { Advances R.told (over context.now.flags.now (texts_answers (parts_by_kind kind text.now)) (progress_over
        work.old translator.old)) translator.old work.old translator.new work.new result }
{
    match kind {
        SecKind::Named => inner_texts(translator, text, context, work),
        SecKind::File => Ok(()),
    }
}

/// A section name with the text that is kept of it: it begins, its inner texts are translated, and it ends.
pub(crate) fn kept_name<L: Ledger, R: Recorder>(
    translator: &mut Translator,
    holder: Holder,
    kind: SecKind,
    text: &[u8],
    context: &Context,
    work: &mut Work<L, R>,
) -> Result<(), Memory>
    requires short { length text.now ≤ 2 ^ 24 }
    requires translating { IsTranslating work.old.store.now work.old.names.now translator.old }
    ensures { Advances R.told (over context.now.flags.now (held_answers (parts_by_kind kind text.now)) (with_held holder
        (progress_over work.old translator.old))) translator.old work.old translator.new work.new result }
{
    translator.hold(holder, context.alloc)?;
    texts_by_kind(translator, kind, text, context, work)?;
    translator.finish(context, work)
}

/// A section name in C text. Without a pair it stands for nothing.
fn section_name<L: Ledger, R: Recorder>(
    translator: &mut Translator,
    token: &Tok,
    context: &Context,
    work: &mut Work<L, R>,
) -> Result<(), Memory>
    requires kind { is_name_kind token.now.kind ≡ true }
    requires start { token.now.span.start < 2 ^ 32 }
    requires kept { AreNamesOf context.now.sec_names.now context.now.uses.now }
    requires translating { IsTranslating work.old.store.now work.old.names.now translator.old }
    ensures { Advances R.told (over context.now.flags.now (token_answers (texts_in context.now) token.now.kind
        (seen token.now)) (progress_over work.old translator.old)) translator.old work.old translator.new work.new
        result }
{
    let number = token.span.start as u32;
    match context.uses.at(number) {
        None => Ok(()),
        Some(id) => {
            let kind = context.sec_names.kind(id);
            let text = context.sec_names.text(id);
            kept_name(translator, Holder::Name(number), kind, text, context, work)
        }
    }
}

/// One answer of the scanner, in which section names stand for their texts.
#[inline(always)]
pub(crate) fn named_answer<L: Ledger, R: Recorder>(
    translator: &mut Translator,
    answer: &Lexed,
    context: &Context,
    work: &mut Work<L, R>,
) -> Result<(), Memory>
    requires start { StartsBelow (2 ^ 32) (answers_in answer.now) }
    requires kept { AreNamesOf context.now.sec_names.now context.now.uses.now }
    requires translating { IsTranslating work.old.store.now work.old.names.now translator.old }
    ensures { Advances R.told (over context.now.flags.now (with_texts (texts_in context.now) (answers_in answer.now))
        (progress_over work.old translator.old)) translator.old work.old translator.new work.new result }
{
    if !is_name(answer) {
        return translator.answer(answer, context, work);
    }
    match answer {
        Lexed::Token(token) => section_name(translator, token, context, work),
        _ => Ok(()),
    }
}

/// All answers, in which section names stand for their texts.
pub(crate) fn read_named<L: Ledger, R: Recorder>(
    translator: &mut Translator,
    reader: &mut Reader,
    context: &Context,
    work: &mut Work<L, R>,
) -> Result<(), Memory>
    requires start { StartsBelow (2 ^ 32) reader.old.coming }
    requires kept { AreNamesOf context.now.sec_names.now context.now.uses.now }
    requires translating { IsTranslating work.old.store.now work.old.names.now translator.old }
    ensures read { OnOk result (IsReadUp reader.old reader.new) }
    ensures reads { Advances R.told (over context.now.flags.now (with_texts (texts_in context.now) reader.old.coming)
        (progress_over work.old translator.old)) translator.old work.old translator.new work.new result }
{
    loop {
        let answer = reader.next();
        if matches!(answer, Lexed::End) {
            return Ok(());
        }
        named_answer(translator, &answer, context, work)?;
    }
}
