//! The head with which a definition or a named C part begins, as it is read.
ghost use Rattle.std.specs.Prelude.{◌≡◌, ◌+◌, ◌*◌, ◌^◌, ◌<◌, ◌≤◌, [], ◌∷◌, ◌++◌, length, true};
ghost use Rattle.std.specs.Prelude.{option_map, IsSome, None};
ghost use Rattle.std.specs.Prelude.{Some, IfOk, OnOk, OnErr};
ghost use Rattle.cw_rules.specs.Answers.{Gives, Token as TokenAnswer, seen};
ghost use Rattle.cw_answers.specs.Reading.{Stays};
ghost use Rattle.cw_lex.specs.Heads.{headed, headed_by, named_headed, wanted_by, without_words};
ghost use Rattle.cw_rules.specs.Answers.{is_head_sign};
ghost use Rattle.cw_lex.specs.Nest.{nest};
ghost use Rattle.cw_lex.specs.Nested.{IsNested};
ghost use Rattle.cw_base.specs.declared.mode.MathMode.TheVariants as Modes;
ghost use Rattle.cw_trees.specs.declared.Control.TheVariants as Controls;
ghost use Rattle.cw_tokens.specs.declared.token.Token.TheVariants as Tokens;
ghost use Rattle.cw_reduce.specs.declared.heads.HeadRead.TheVariants as Heads;
ghost use Rattle.cw_rewrite.specs.Gathering.{refs_in};
ghost use Rattle.cw_reduce.specs.HeadReading.{NamesWithin};
ghost use Rattle.cw_reduce.specs.model.HeadReading.{HasTokens, IsLast, answer_words, answers_ahead};
ghost use Rattle.cw_reduce.specs.HeadReading.{head_line};
ghost use Rattle.cw_reduce.specs.model.HeadReading.{format_tokens, head_named, is_definition};
ghost use Rattle.cw_reduce.specs.model.HeadReading.{macro_tokens, without_notes, words_tokens};
ghost use Rattle.cw_reduce.specs.model.HeadsRead.{HeadIsRead};
ghost use Rattle.cw_translator.specs.Opening.{StartsBelow, answers_in};
ghost use Rattle.cw_tokens.specs.Shapes.{ref_of, shape};
ghost use Rattle.cw_translator.specs.Translating.{dollared, is_macro, name_in_text, names_in_text, spelled};

use cw_answers::Reader;
use cw_base::{Cat, MathMode, Memory};
use cw_lex::{Code, Expectation, Lexed, Tok, TokKind, is_section_name};
use cw_names::Names;
use cw_scraps::word_token;
use cw_tokens::{ListId, Token, TokenStore};
use cw_trees::Control;
use std::alloc::Global;

/// The head of a text.
#[derive(Clone, Copy)]
pub(crate) enum HeadRead {
    /// None, or one that makes no scrap.
    None,
    /// That of a definition, which is a dead scrap in text.
    Dead(ListId),
    /// That of a named C part, whose name and sign begin at these places.
    Named(u32, u32),
}

/// What a text begins with.
#[derive(Clone, Copy)]
pub(crate) struct Beginning<'a> {
    pub(crate) head: HeadRead,
    /// The section name with which the text begins, where it heads no C part.
    pub(crate) name: Option<Tok<'a>>,
    /// The first answer behind the head, or behind that name.
    pub(crate) next: Lexed<'a>,
}

/// Reads the head with which a text begins, where it has one: this is its first answer, and notes are passed over.
pub(crate) fn read_head<'a>(
    first: Lexed<'a>,
    reader: &mut Reader<'a>,
    alloc: Global,
    names: &mut Names,
    store: &mut TokenStore,
) -> Result<Beginning<'a>, Memory>
    requires gives { Gives (without_notes (answers_in first ++ reader.old.coming)) first reader.old.coming }
    requires nested { IsNested (answers_in first ++ reader.old.coming) }
    requires start { StartsBelow (2 ^ 32) (answers_in first ++ reader.old.coming) }
    requires idle { store.old.building ≡ None }
    ensures head { HeadIsRead (headed (nest (answers_in first.entry ++ reader.old.coming))) store.old names.old
        store.new names.new reader.new.coming result }
    ensures all { Stays reader.old.all reader.new.all }
{
    let Lexed::Token(token) = first else {
        return Ok(headless(first));
    };
    if is_definition(token.kind) {
        return definition_head(token, reader, alloc, names, store);
    }
    if is_section_name(token.kind) {
        return Ok(read_sign(token, reader));
    }
    Ok(headless(first))
}

/// Whether a token is the code of a definition.
fn is_definition(kind: TokKind) -> bool
    ensures { result ≡ is_definition kind }
{
    matches!(
        kind,
        TokKind::Code(Code::Define | Code::Format | Code::SilentFormat)
    )
}

/// What the head of a definition wants behind its code.
fn wanted_by(kind: TokKind) -> Expectation
    ensures { result ≡ wanted_by kind }
{
    match kind {
        TokKind::Code(Code::Define) => Expectation::Macro,
        TokKind::Code(Code::Format) => Expectation::First(false),
        TokKind::Code(Code::SilentFormat) => Expectation::First(true),
        _ => Expectation::Nothing,
    }
}

/// No head, before this answer.
pub(crate) fn headless<'a>(next: Lexed<'a>) -> Beginning<'a>
    ensures head { result.head ≡ Heads.None }
    ensures name { result.name ≡ None }
    ensures next { result.next ≡ next.entry }
{
    Beginning {
        head: HeadRead::None,
        name: None,
        next,
    }
}

/// The next answer that is no note.
pub(crate) fn next_answer<'a>(reader: &mut Reader<'a>) -> Lexed<'a>
    ensures gives { Gives (without_notes reader.old.coming) result reader.new.coming }
    ensures all { Stays reader.old.all reader.new.all }
{
    loop {
        let answer = reader.next();
        if !matches!(answer, Lexed::Note(..)) {
            return answer;
        }
    }
}

/// Reads the sign behind a section name, where it stands there.
fn read_sign<'a>(name: Tok<'a>, reader: &mut Reader<'a>) -> Beginning<'a>
    requires nested { IsNested (TokenAnswer (seen name) ∷ reader.old.coming) }
    requires start { StartsBelow (2 ^ 32) (TokenAnswer (seen name) ∷ reader.old.coming) }
    ensures head { (named_headed (seen name.entry) (nest reader.old.coming)).head ≡ head_named result.head }
    ensures line { head_line result.head ≡ [] }
    ensures rest { nest (answers_ahead result ++ reader.new.coming) ≡
        (named_headed (seen name.entry) (nest reader.old.coming)).rest }
    ensures nested { IsNested (answers_ahead result ++ reader.new.coming) }
    ensures start { StartsBelow (2 ^ 32) (answers_ahead result ++ reader.new.coming) }
    ensures all { Stays reader.old.all reader.new.all }
{
    let next = next_answer(reader);
    let Lexed::Token(sign) = next else {
        return unsigned(name, next);
    };
    if !is_head_sign(sign.kind) {
        return unsigned(name, next);
    }
    Beginning {
        head: HeadRead::Named(name.span.start as u32, sign.span.start as u32),
        name: None,
        next: next_answer(reader),
    }
}

/// Whether a token is the sign of a named C part.
fn is_head_sign(kind: TokKind) -> bool
    ensures { result ≡ is_head_sign kind }
{
    matches!(kind, TokKind::HeadSign)
}

/// A section name that heads no C part, before this answer.
fn unsigned<'a>(name: Tok<'a>, next: Lexed<'a>) -> Beginning<'a>
    ensures head { result.head ≡ Heads.None }
    ensures name { result.name ≡ Some name.entry }
    ensures next { result.next ≡ next.entry }
{
    Beginning {
        head: HeadRead::None,
        name: Some(name),
        next,
    }
}

/// Reads the head of a definition behind its code.
fn definition_head<'a>(
    code: Tok<'a>,
    reader: &mut Reader<'a>,
    alloc: Global,
    names: &mut Names,
    store: &mut TokenStore,
) -> Result<Beginning<'a>, Memory>
    requires code { is_definition code.kind ≡ true }
    requires nested { IsNested (TokenAnswer (seen code) ∷ reader.old.coming) }
    requires start { StartsBelow (2 ^ 32) (TokenAnswer (seen code) ∷ reader.old.coming) }
    requires idle { store.old.building ≡ None }
    ensures head { HeadIsRead (headed_by code.entry.kind (seen code.entry) (nest reader.old.coming)) store.old names.old
        store.new names.new reader.new.coming result }
    ensures all { Stays reader.old.all reader.new.all }
{
    store.tied_law(); // (for the proof)
    let wanted = wanted_by(code.kind);
    let mut words = Vec::new(alloc);
    let next = read_words(wanted, reader, &mut words, names)?;
    let head = words_head(wanted, code.span.start as u32, &words, store)?;
    Ok(Beginning {
        head,
        name: None,
        next,
    })
}

/// Reads the words of a head that wants this, up to the first answer behind them.
fn read_words<'a>(
    wanted: Expectation,
    reader: &mut Reader<'a>,
    words: &mut Vec<Token>,
    names: &mut Names,
) -> Result<Lexed<'a>, Memory>
    requires start { StartsBelow (2 ^ 32) reader.old.coming }
    ensures words { OnOk result (words.new.items ≡ words.old.items ++
        (spelled (answer_words wanted reader.old.coming) names.old).tokens) }
    ensures names { OnOk result (names.new ≡ (spelled (answer_words wanted reader.old.coming) names.old).names) }
    ensures rest { IfOk result (λ next. answers_in next ++ reader.new.coming ≡ without_words wanted reader.old.coming) }
    ensures start { IfOk result (λ next. StartsBelow (2 ^ 32) (answers_in next ++ reader.new.coming)) }
    ensures all { Stays reader.old.all reader.new.all }
    ensures no_names { OnErr result (NamesWithin (answer_words wanted reader.old.coming) names.old names.new) }
{
    let mut wanted = wanted;
    loop {
        let answer = next_answer(reader);
        let Lexed::Token(word) = answer else {
            return Ok(answer);
        };
        let Some(next) = wanted.behind(word.kind, word.span) else {
            return Ok(answer);
        };
        wanted = next;
        words.push(word_token(&word, names)?)?;
    }
}

/// Makes the head of a definition with these words.
fn words_head(
    wanted: Expectation,
    number: u32,
    words: &[Token],
    store: &mut TokenStore,
) -> Result<HeadRead, Memory>
    requires plain { refs_in words.now ≡ [] }
    requires idle { store.old.building ≡ None }
    ensures lists { IfOk result (λ head. HasTokens (words_tokens wanted number words.now) head store.old.lists
        store.new.lists) }
    ensures idle { store.new.building ≡ None }
    ensures no_lists { OnErr result (store.new.lists ≡ store.old.lists) }
{
    match wanted {
        Expectation::Macro => Ok(HeadRead::Dead(macro_list(number, words, store)?)),
        Expectation::First(false) => Ok(HeadRead::Dead(format_list(number, words, store)?)),
        _ => Ok(HeadRead::None),
    }
}

/// Puts the head of a macro into a new list: its words stand between dollars.
fn macro_list(number: u32, words: &[Token], store: &mut TokenStore) -> Result<ListId, Memory>
    requires plain { refs_in words.now ≡ [] }
    requires idle { store.old.building ≡ None }
    ensures last { IfOk result (λ list. IsLast (macro_tokens number words.now) list.index store.old.lists
        store.new.lists) }
    ensures idle { store.new.building ≡ None }
    ensures no_lists { OnErr result (store.new.lists ≡ store.old.lists) }
{
    begin_head(number, words.len() + 3, store)?;
    push_dollared(words, store);
    store.push(Token::Control(Control::OptionalBreak));
    Ok(store.finish())
}

/// Puts the head of a format definition into a new list: a break stands behind its first name.
fn format_list(number: u32, words: &[Token], store: &mut TokenStore) -> Result<ListId, Memory>
    requires plain { refs_in words.now ≡ [] }
    requires idle { store.old.building ≡ None }
    ensures last { IfOk result (λ list. IsLast (format_tokens number words.now) list.index store.old.lists
        store.new.lists) }
    ensures idle { store.new.building ≡ None }
    ensures no_lists { OnErr result (store.new.lists ≡ store.old.lists) }
{
    begin_head(number, 3 * words.len() + 1, store)?;
    let first = words.len().min(1);
    push_names(&words[..first], store);
    store.push(Token::Control(Control::OptionalBreak));
    push_names(&words[first..], store);
    Ok(store.finish())
}

/// Begins the list of a definition's head, with capacity for so many tokens behind that of its code.
fn begin_head(number: u32, room: usize, store: &mut TokenStore) -> Result<(), Memory>
    requires room { room + 3 < 2 ^ 64 }
    requires idle { store.old.building ≡ None }
    ensures building { OnOk result (store.new.building ≡ Some (Tokens.Control Controls.Backup ∷
        Tokens.Source number Modes.Text ∷ [])) }
    ensures room { OnOk result (room ≤ store.new.spare) }
    ensures lists { store.new.lists ≡ store.old.lists }
    ensures idle { OnErr result (store.new.building ≡ None) }
{
    store.reserve(room + 3)?;
    store.begin();
    store.push(Token::Control(Control::Backup));
    store.push(Token::Source(number, MathMode::Text));
    Ok(())
}

/// Puts words between dollars into the list that is being built, where there are any.
fn push_dollared(words: &[Token], store: &mut TokenStore)
    requires plain { refs_in words.now ≡ [] }
    requires building { IsSome store.old.building }
    requires room { length words.now + 3 ≤ store.old.spare }
    ensures building { store.new.building ≡ option_map (λ tokens. tokens ++ dollared words.now) store.old.building }
    ensures lists { store.new.lists ≡ store.old.lists }
    ensures room { 0 < store.new.spare }
{
    if words.is_empty() {
        return;
    }
    store.push(Token::Control(Control::Dollar));
    push_words(words, store);
    store.push(Token::Control(Control::Dollar));
}

/// Puts the names of a format definition into the list that is being built.
fn push_names(words: &[Token], store: &mut TokenStore)
    requires plain { refs_in words.now ≡ [] }
    requires building { IsSome store.old.building }
    requires room { 3 * length words.now ≤ store.old.spare }
    ensures building { store.new.building ≡
        option_map (λ tokens. tokens ++ names_in_text words.now) store.old.building }
    ensures lists { store.new.lists ≡ store.old.lists }
    ensures spare { store.old.spare ≤ store.new.spare + 3 * length words.now }
{
    for word in words {
        push_name(*word, store);
    }
}

/// Puts a name into it: a macro of TeX between dollars.
fn push_name(word: Token, store: &mut TokenStore)
    requires plain { ref_of (shape word) ≡ None }
    requires building { IsSome store.old.building }
    requires room { 3 ≤ store.old.spare }
    ensures building { store.new.building ≡ option_map (λ tokens. tokens ++ name_in_text word) store.old.building }
    ensures lists { store.new.lists ≡ store.old.lists }
    ensures spare { store.old.spare ≤ store.new.spare + 3 }
{
    if is_macro(word) {
        store.push(Token::Control(Control::Dollar));
        store.push(word);
        store.push(Token::Control(Control::Dollar));
    } else {
        store.push(word);
    }
}

/// Whether a word is a macro of TeX.
fn is_macro(word: Token) -> bool
    ensures { result ≡ is_macro word }
{
    matches!(word, Token::Reserved(_, _, Cat::TexLike))
}

/// Puts words into the list that is being built.
fn push_words(words: &[Token], store: &mut TokenStore)
    requires plain { refs_in words.now ≡ [] }
    requires building { IsSome store.old.building }
    requires room { length words.now ≤ store.old.spare }
    ensures building { store.new.building ≡ option_map (λ tokens. tokens ++ words.now) store.old.building }
    ensures lists { store.new.lists ≡ store.old.lists }
    ensures spare { store.new.spare + length words.now ≡ store.old.spare }
{
    for word in words {
        store.push(*word);
    }
}
