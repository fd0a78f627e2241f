//! The scrap of a token without nested text.
ghost use Rattle.std.specs.Prelude.{◌≡◌, ◌≢◌, ◌+◌, ◌^◌, ◌<◌, ◌≤◌, ◌++◌, ◌∷◌, [], List, length, IsSome, IfSome, IfOk};
ghost use Rattle.std.specs.Prelude.{OnOk, OnErr, nat_eq};
ghost use Rattle.std.specs.Cmp.Lexicographic.{pointwise};
ghost use Rattle.std.specs.Option.{option_to_list};
ghost use Rattle.cw_names.specs.Words.{directive_category, hash_line_category};
ghost use Rattle.cw_base.specs.declared.category.Cat.TheVariants as Cats;
ghost use Rattle.cw_base.specs.declared.mode.MathMode.TheVariants as MathMode;
ghost use Rattle.cw_rules.specs.declared.codes.Code.TheVariants as Code;
ghost use Rattle.cw_tokens.specs.declared.token.Token.TheVariants as Token;
ghost use Rattle.cw_tokens.specs.Shapes.{ref_of, shape};
ghost use Rattle.cw_scraps.specs.declared.line.LineEntry.{LineEntry};
ghost use Rattle.cw_scraps.specs.Lines.{IsSoundLine};
ghost use Rattle.cw_scraps.specs.Leaves.{MakesLeaf, HasForm, entry_of, token_form, names_with, form_of, code_form};
ghost use Rattle.cw_scraps.specs.Leaves.{cat_in_line, sign_cat, sign_mode, word_cat, word_form, source};

use cw_base::{Cat, MathMode, Memory};
use cw_names::{EntryKind, NameId, Names};
use cw_rules::{Code, Directive, Sign, Tok, TokKind};
use cw_tokens::{ListId, Token, TokenStore};
use cw_trees::Control;

/// The scrap of one token: its category, its list, and the modes in which the list begins and ends.
#[derive(Clone, Copy, PartialEq, Eq, Debug)]
pub struct Leaf {
    pub list: ListId,
    pub cat: Cat,
    pub left: MathMode,
    pub right: MathMode,
}

/// The scrap of a token that makes one of its own and has no nested text: an identifier, a constant, a
/// string, a sign, the two ends of a `#` line, a code that is laid out or passed on, or any other byte.
/// The token's offset is the place of its first byte. After `Memory` the names and the lists are as
/// before, and the store has capacity for as many tokens or more.
#[inline(always)]
pub fn scrap_of(token: &Tok, names: &mut Names, store: &mut TokenStore) -> Result<Leaf, Memory>
    requires kind { MakesLeaf token.now.kind }
    requires start { token.now.span.start < 2 ^ 32 }
    requires idle { store.old.building ≡ None }
    ensures form { IfOk result (λ leaf. IfSome (token_form token.now.kind token.now.text.now
        token.now.hash_line token.now.directive token.now.span.start names.old)
        (λ form. HasForm form leaf store.old.lists store.new.lists)) }
    ensures real { IfOk result (λ leaf. leaf.cat ≢ Cats.End) }
    ensures names { OnOk result (names.new ≡ names_with token.now.kind token.now.text.now names.old) }
    ensures idle { store.new.building ≡ None }
    // A line that was sound stays so with this scrap behind it.
    ensures sound { (line : List LineEntry) → IsSoundLine store.old names.old line →
        IfOk result (λ leaf. IsSoundLine store.new names.new (line ++ entry_of leaf ∷ [])) }
    ensures no_names { OnErr result (names.new ≡ names.old) }
    ensures no_lists { OnErr result (store.new.lists ≡ store.old.lists) }
    ensures room { OnErr result (store.old.spare ≤ store.new.spare) }
{
    store.tied_law(); // (for the proof)
    let number = token.span.start as u32;
    match token.kind {
        TokKind::Identifier => {
            store.reserve(6)?;
            let name = names.find_or_add(EntryKind::Ident, token.text)?;
            let cat = word_cat(token, names.category(name));
            Ok(word_leaf(cat, name, number, store))
        }
        kind => {
            store.reserve(6)?;
            Ok(token_leaf(kind, number, store))
        }
    }
}

/// The category of an identifier that has a category of its own.
#[inline(always)]
pub(crate) fn word_cat(word: &Tok, own: Cat) -> Cat
    ensures cat { result ≡ word_cat word.now.hash_line word.now.directive word.now.text.now own }
    ensures real { own ≢ Cats.End → result ≢ Cats.End }
{
    match word.directive {
        Directive::No => cat_in_line(word.hash_line, word.text, own),
        Directive::Word => directive_category(word.text).unwrap_or(cat_in_line(
            word.hash_line,
            word.text,
            own,
        )),
        Directive::Macro => Cat::MdefineLike,
    }
}

/// The same of an identifier that doesn't stand directly behind the `#` of a `#` line.
#[inline(always)]
fn cat_in_line(hash_line: bool, text: &[u8], own: Cat) -> Cat
    ensures cat { result ≡ cat_in_line hash_line text.now own }
    ensures real { own ≢ Cats.End → result ≢ Cats.End }
{
    if hash_line {
        hash_line_category(text).unwrap_or(own)
    } else {
        own
    }
}

fn is_word(text: &[u8], word: &[u8]) -> bool
    ensures { result ≡ pointwise nat_eq text.now word.now }
{
    text == word
}

/// The category that a word has anywhere in a `#` line, whatever it has elsewhere.
fn hash_line_category(text: &[u8]) -> Option<Cat>
    ensures cat { result ≡ hash_line_category text.now }
    ensures real { IfSome result (λ cat. cat ≢ Cats.End) }
{
    if is_word(text, b"defined") {
        Some(Cat::SizeofLike)
    } else {
        None
    }
}

/// The category that a word has directly behind the `#` of a `#` line, whatever it has elsewhere.
fn directive_category(text: &[u8]) -> Option<Cat>
    ensures cat { result ≡ directive_category text.now }
    ensures real { IfSome result (λ cat. cat ≢ Cats.End) }
{
    if is_word(text, b"elif")
        || is_word(text, b"elifdef")
        || is_word(text, b"elifndef")
        || is_word(text, b"else")
        || is_word(text, b"embed")
        || is_word(text, b"endif")
        || is_word(text, b"error")
        || is_word(text, b"if")
        || is_word(text, b"ifdef")
        || is_word(text, b"ifndef")
        || is_word(text, b"include")
        || is_word(text, b"line")
        || is_word(text, b"pragma")
        || is_word(text, b"undef")
        || is_word(text, b"warning")
    {
        Some(Cat::HashLike)
    } else if is_word(text, b"define") {
        Some(Cat::DefineLike)
    } else {
        None
    }
}

/// The token of an identifier of this category.
#[inline(always)]
pub(crate) fn token_of_word(cat: Cat, name: NameId, number: u32) -> Token
    ensures tokens { (word_form cat name number).tokens ≡ result ∷ [] }
    ensures plain { ref_of (shape result) ≡ None }
{
    if cat == Cat::Exp {
        Token::Ident(name, number)
    } else {
        Token::Reserved(name, number, cat)
    }
}

/// The scrap of an identifier.
#[inline(always)]
fn word_leaf(cat: Cat, name: NameId, number: u32, store: &mut TokenStore) -> Leaf
    requires idle { store.old.building ≡ None }
    requires room { 6 ≤ store.old.spare }
    ensures form { HasForm (word_form cat name number) result store.old.lists store.new.lists }
    ensures real { cat ≢ Cats.End → result.cat ≢ Cats.End }
    ensures idle { store.new.building ≡ None }
{
    store.begin();
    store.push(token_of_word(cat, name, number));
    match cat {
        Cat::TexLike => ended(Cat::TexLike, MathMode::Math, store),
        _ => ended(cat, MathMode::Maybe, store),
    }
}

/// The scrap of another token.
#[inline(always)]
fn token_leaf(kind: TokKind, number: u32, store: &mut TokenStore) -> Leaf
    requires kind { IsSome (form_of kind number) }
    requires idle { store.old.building ≡ None }
    requires room { 6 ≤ store.old.spare }
    ensures form { IfSome (form_of kind number) (λ form. HasForm form result store.old.lists store.new.lists) }
    ensures real { result.cat ≢ Cats.End }
    ensures idle { store.new.building ≡ None }
{
    match kind {
        TokKind::Sign(sign) => source_leaf(sign_cat(sign), sign_mode(sign), number, store),
        TokKind::HashLine => {
            store.begin();
            store.push(Token::Control(Control::Break));
            store.push(Token::Source(number, MathMode::Text));
            ended(Cat::Lproc, MathMode::Text, store)
        }
        TokKind::HashLineEnd => control_leaf(Cat::Rproc, MathMode::Text, Control::Break, store),
        TokKind::Code(code) => code_leaf(code, number, store),
        _ => source_leaf(Cat::Exp, MathMode::Maybe, number, store),
    }
}

/// The scrap of a token that is printed as it is read.
fn source_leaf(cat: Cat, mode: MathMode, number: u32, store: &mut TokenStore) -> Leaf
    requires idle { store.old.building ≡ None }
    requires room { 6 ≤ store.old.spare }
    ensures form { HasForm (source cat mode number) result store.old.lists store.new.lists }
    ensures cat { result.cat ≡ cat }
    ensures idle { store.new.building ≡ None }
{
    store.begin();
    store.push(Token::Source(number, mode));
    ended(cat, mode, store)
}

/// The scrap of a control.
fn control_leaf(cat: Cat, mode: MathMode, control: Control, store: &mut TokenStore) -> Leaf
    requires idle { store.old.building ≡ None }
    requires room { 6 ≤ store.old.spare }
    ensures form { HasForm (record { cat = cat; mode = mode; tokens = Token.Control control ∷ [] }) result
        store.old.lists store.new.lists }
    ensures cat { result.cat ≡ cat }
    ensures idle { store.new.building ≡ None }
{
    store.begin();
    store.push(Token::Control(control));
    ended(cat, mode, store)
}

/// The scrap that prints nothing.
fn empty_leaf(cat: Cat, store: &mut TokenStore) -> Leaf
    requires idle { store.old.building ≡ None }
    requires room { 6 ≤ store.old.spare }
    ensures form { HasForm (record { cat = cat; mode = MathMode.Maybe; tokens = [] }) result store.old.lists
        store.new.lists }
    ensures cat { result.cat ≡ cat }
    ensures idle { store.new.building ≡ None }
{
    store.begin();
    ended(cat, MathMode::Maybe, store)
}

/// The scrap of the list that is being built, which is ended.
fn ended(cat: Cat, mode: MathMode, store: &mut TokenStore) -> Leaf
    requires building { IsSome store.old.building }
    ensures cat { result.cat ≡ cat }
    ensures left { result.left ≡ mode }
    ensures right { result.right ≡ mode }
    ensures list { result.list.index ≡ length store.old.lists }
    ensures lists { store.new.lists ≡ store.old.lists ++ option_to_list store.old.building }
    ensures idle { store.new.building ≡ None }
{
    let list = store.finish();
    Leaf {
        cat,
        list,
        left: mode,
        right: mode,
    }
}

/// The scrap of a code.
fn code_leaf(code: Code, number: u32, store: &mut TokenStore) -> Leaf
    requires code { IsSome (code_form code number) }
    requires idle { store.old.building ≡ None }
    requires room { 6 ≤ store.old.spare }
    ensures form { IfSome (code_form code number) (λ form. HasForm form result store.old.lists store.new.lists) }
    ensures real { result.cat ≢ Cats.End }
    ensures idle { store.new.building ≡ None }
{
    match code {
        Code::TexBox | Code::Verbatim => source_leaf(Cat::Box, MathMode::Maybe, number, store),
        Code::Quote => source_leaf(Cat::Exp, MathMode::Maybe, number, store),
        Code::Join => source_leaf(Cat::Insert, MathMode::Maybe, number, store),
        Code::ThinSpace => control_leaf(Cat::Insert, MathMode::Maybe, Control::ThinSpace, store),
        Code::LineBreak => control_leaf(Cat::Insert, MathMode::Text, Control::Break, store),
        Code::BigBreak => control_leaf(Cat::Insert, MathMode::Text, Control::BigBreak, store),
        Code::OptionalBreak => control_leaf(
            Cat::Insert,
            MathMode::Maybe,
            Control::OptionalLineBreak0,
            store,
        ),
        Code::NoBreak => no_break_leaf(store),
        Code::HeaderFile => header_leaf(number, store),
        Code::InvisibleSemicolon => empty_leaf(Cat::Semi, store),
        Code::BeginArgument => empty_leaf(Cat::BeginArg, store),
        Code::EndArgument => empty_leaf(Cat::EndArg, store),
        _ => unreachable!(),
    }
}

/// The scrap that keeps a line from being broken.
fn no_break_leaf(store: &mut TokenStore) -> Leaf
    requires idle { store.old.building ≡ None }
    requires room { 6 ≤ store.old.spare }
    ensures form { IfSome (code_form Code.NoBreak 0) (λ form. HasForm form result store.old.lists store.new.lists) }
    ensures real { result.cat ≢ Cats.End }
    ensures idle { store.new.building ≡ None }
{
    store.begin();
    store.push(Token::Control(Control::Cancel));
    store.push(Token::Control(Control::Wall));
    store.push(Token::Control(Control::OptionalBreak));
    store.push(Token::Control(Control::Wall));
    store.push(Token::Control(Control::Cancel));
    ended(Cat::Insert, MathMode::Text, store)
}

/// The scrap of the place where the header file is put in.
fn header_leaf(number: u32, store: &mut TokenStore) -> Leaf
    requires idle { store.old.building ≡ None }
    requires room { 6 ≤ store.old.spare }
    ensures form { IfSome (code_form Code.HeaderFile number) (λ form. HasForm form result store.old.lists
        store.new.lists) }
    ensures real { result.cat ≢ Cats.End }
    ensures idle { store.new.building ≡ None }
{
    store.begin();
    store.push(Token::Control(Control::Break));
    store.push(Token::Source(number, MathMode::Text));
    store.push(Token::Control(Control::Break));
    ended(Cat::Insert, MathMode::Text, store)
}

fn sign_cat(sign: Sign) -> Cat
    ensures cat { result ≡ sign_cat sign }
    ensures real { result ≢ Cats.End }
{
    match sign {
        Sign::Slash
        | Sign::Less
        | Sign::Greater
        | Sign::Bar
        | Sign::Assign
        | Sign::Caret
        | Sign::Percent
        | Sign::Arrow
        | Sign::ShiftLeft
        | Sign::ShiftRight
        | Sign::Equal
        | Sign::NotEqual
        | Sign::AtMost
        | Sign::AtLeast
        | Sign::AndAnd
        | Sign::OrOr
        | Sign::QuestionColon => Cat::Binop,
        Sign::Dot => Cat::Dot,
        Sign::Not | Sign::Tilde | Sign::PlusPlus | Sign::MinusMinus => Cat::Unop,
        Sign::Plus | Sign::Minus | Sign::Hash => Cat::Ubinop,
        Sign::Star | Sign::Ampersand => Cat::RawUbin,
        Sign::Question => Cat::Question,
        Sign::LeftParen | Sign::LeftBracket => Cat::Lpar,
        Sign::RightParen | Sign::RightBracket => Cat::Rpar,
        Sign::LeftBrace => Cat::Lbrace,
        Sign::RightBrace => Cat::Rbrace,
        Sign::Comma => Cat::Comma,
        Sign::Semicolon => Cat::Semi,
        Sign::Colon => Cat::Colon,
        Sign::Ellipsis => Cat::Dots,
        Sign::DoubleColon => Cat::Colcol,
        Sign::DoubleBracket => Cat::AttrHead,
    }
}

/// Brackets, the semicolon and the colon need no mode; every other sign is in math.
pub(crate) fn sign_mode(sign: Sign) -> MathMode
    ensures { result ≡ sign_mode sign }
{
    match sign {
        Sign::LeftParen
        | Sign::LeftBracket
        | Sign::RightParen
        | Sign::RightBracket
        | Sign::DoubleBracket
        | Sign::Semicolon
        | Sign::Colon => MathMode::Maybe,
        _ => MathMode::Math,
    }
}
