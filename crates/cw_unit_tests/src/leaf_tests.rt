//! Tests that make the scrap of each kind of token once.
ghost use Rattle.std.specs.Prelude.{◌≡◌, ◌^◌, ◌<◌, true};
ghost use Rattle.cw_rules.specs.declared.tokens.TokKind.TheVariants as TokKind;
ghost use Rattle.cw_scraps.specs.Leaves.{MakesLeaf};
ghost use Rattle.cw_scraps.specs.model.Words.{is_word};

use crate::store_tests::is_flat;
use cw_base::{Cat, MathMode, Memory, Span};
use cw_lex::{Code, Directive, Sign, Tok, TokKind};
use cw_names::Names;
use cw_scraps::{scrap_of, word_token};
use cw_tokens::{FlatItem, Token, TokenStore};
use cw_trees::Control;
use std::alloc::Global;
use std::test::Fail;

// The category and the mode of the scrap of a token, and whether its list has these items.
fn leaf_in(
    alloc: Global,
    names: &mut Names,
    store: &mut TokenStore,
    token: &Tok,
    items: &[FlatItem],
) -> Result<(Cat, MathMode, bool), Memory>
    requires kind { MakesLeaf token.now.kind }
    requires start { token.now.span.start < 2 ^ 32 }
    requires idle { store.old.building ≡ None }
{
    let leaf = scrap_of(token, names, store)?;
    let is_flat = is_flat(alloc, store, leaf.list, items)?;
    Ok((leaf.cat, leaf.left, is_flat))
}

// The same of a token at place 3, with the names of the start.
fn leaf(
    alloc: Global,
    kind: TokKind,
    text: &[u8],
    place: (bool, Directive),
    items: &[FlatItem],
) -> Result<(Cat, MathMode, bool), Memory>
    requires { MakesLeaf kind }
{
    let (hash_line, directive) = place;
    let mut names = Names::with_words(alloc)?;
    let mut store = TokenStore::new_in(alloc);
    let token = Tok {
        kind,
        text,
        span: Span { start: 3, end: 4 },
        hash_line,
        directive,
    };
    leaf_in(alloc, &mut names, &mut store, &token, items)
}

// Whether that scrap has this category and mode, and its list these items.
fn is_leaf(
    alloc: Global,
    kind: TokKind,
    text: &[u8],
    hash_line: bool,
    wanted: (Cat, MathMode, &[FlatItem]),
) -> Result<bool, Memory>
    requires { MakesLeaf kind }
{
    let (cat, mode, items) = wanted;
    let found = leaf(alloc, kind, text, (hash_line, Directive::No), items)?;
    Ok(found == (cat, mode, true))
}

const SOURCE: FlatItem = FlatItem::Source(3);

static SIGNS: [(Sign, Cat, MathMode); 40] = [
    (Sign::Slash, Cat::Binop, MathMode::Math),
    (Sign::Dot, Cat::Dot, MathMode::Math),
    (Sign::Less, Cat::Binop, MathMode::Math),
    (Sign::Greater, Cat::Binop, MathMode::Math),
    (Sign::Bar, Cat::Binop, MathMode::Math),
    (Sign::Assign, Cat::Binop, MathMode::Math),
    (Sign::Caret, Cat::Binop, MathMode::Math),
    (Sign::Percent, Cat::Binop, MathMode::Math),
    (Sign::Arrow, Cat::Binop, MathMode::Math),
    (Sign::ShiftLeft, Cat::Binop, MathMode::Math),
    (Sign::ShiftRight, Cat::Binop, MathMode::Math),
    (Sign::Equal, Cat::Binop, MathMode::Math),
    (Sign::NotEqual, Cat::Binop, MathMode::Math),
    (Sign::AtMost, Cat::Binop, MathMode::Math),
    (Sign::AtLeast, Cat::Binop, MathMode::Math),
    (Sign::AndAnd, Cat::Binop, MathMode::Math),
    (Sign::OrOr, Cat::Binop, MathMode::Math),
    (Sign::Not, Cat::Unop, MathMode::Math),
    (Sign::Tilde, Cat::Unop, MathMode::Math),
    (Sign::PlusPlus, Cat::Unop, MathMode::Math),
    (Sign::MinusMinus, Cat::Unop, MathMode::Math),
    (Sign::Plus, Cat::Ubinop, MathMode::Math),
    (Sign::Minus, Cat::Ubinop, MathMode::Math),
    (Sign::Hash, Cat::Ubinop, MathMode::Math),
    (Sign::Star, Cat::RawUbin, MathMode::Math),
    (Sign::Ampersand, Cat::RawUbin, MathMode::Math),
    (Sign::Question, Cat::Question, MathMode::Math),
    (Sign::LeftParen, Cat::Lpar, MathMode::Maybe),
    (Sign::LeftBracket, Cat::Lpar, MathMode::Maybe),
    (Sign::RightParen, Cat::Rpar, MathMode::Maybe),
    (Sign::RightBracket, Cat::Rpar, MathMode::Maybe),
    (Sign::LeftBrace, Cat::Lbrace, MathMode::Math),
    (Sign::RightBrace, Cat::Rbrace, MathMode::Math),
    (Sign::Comma, Cat::Comma, MathMode::Math),
    (Sign::Semicolon, Cat::Semi, MathMode::Maybe),
    (Sign::Colon, Cat::Colon, MathMode::Maybe),
    (Sign::Ellipsis, Cat::Dots, MathMode::Math),
    (Sign::DoubleColon, Cat::Colcol, MathMode::Math),
    (Sign::QuestionColon, Cat::Binop, MathMode::Math),
    (Sign::DoubleBracket, Cat::AttrHead, MathMode::Maybe),
];

// The first sign with another scrap.
fn first_other_sign(alloc: Global) -> Result<Option<Sign>, Memory> {
    for (sign, cat, mode) in &SIGNS {
        let wanted: (_, _, &[FlatItem]) = (*cat, *mode, &[SOURCE]);
        if !is_leaf(alloc, TokKind::Sign(*sign), b"", false, wanted)? {
            return Ok(Some(*sign));
        }
    }
    Ok(None)
}

#[test]
fn each_sign_has_its_category_and_mode(rt: HostRuntime) -> Result<(), Fail> {
    assert_eq!(rt; first_other_sign(rt.alloc())?, None);
    Ok(())
}

// The scrap holds the place of the token alone: prefixes, exponents, suffixes and escapes are printed from there.
const CONSTANTS: [&[u8]; 11] = [
    b"0", b"12", b"017", b"0x1F", b"0XaL", b"1.5e-3", b"2E9f", b"7ul", b"0b1'0", b"1'000",
    b"0x1.8p3",
];

const STRINGS: [&[u8]; 11] = [
    b"L\"a\"",
    b"u8'a'",
    b"\"\"",
    b"'a'",
    b"\" #%$^{}~&_\"",
    b"\"\\\\\"",
    b"\"\\\"\"",
    b"'\\''",
    b"\"a\\n\"",
    b"\"a\\\nb\"",
    b"\"\xC3\xA9\"",
];

const EXPRESSION: (Cat, MathMode, &[FlatItem]) = (Cat::Exp, MathMode::Maybe, &[SOURCE]);

// The first of the texts of such tokens that isn't an expression.
fn first_other_text(
    alloc: Global,
    kind: TokKind,
    texts: &[&[u8]],
    hash_line: bool,
) -> Result<Option<usize>, Memory>
    requires { MakesLeaf kind }
{
    for (i, text) in texts.iter().enumerate() {
        if !is_leaf(alloc, kind, text, hash_line, EXPRESSION)? {
            return Ok(Some(i));
        }
    }
    Ok(None)
}

#[test]
fn constants_and_strings_are_expressions(rt: HostRuntime) -> Result<(), Fail> {
    let others = [
        first_other_text(rt.alloc(), TokKind::Constant, &CONSTANTS, false)?,
        first_other_text(rt.alloc(), TokKind::Quoted, &STRINGS, false)?,
        first_other_text(rt.alloc(), TokKind::IncludeName, &[b"<stdio.h>"], true)?,
        first_other_text(rt.alloc(), TokKind::OtherByte, &[b"$"], false)?,
    ];
    assert_eq!(rt; others, [None; 4]);
    Ok(())
}

// The codes by the byte behind `@`.
fn code_of(byte: u8) -> Code
    ensures { MakesLeaf (TokKind.Code result) }
{
    match byte {
        b'=' => Code::Verbatim,
        b't' => Code::TexBox,
        b'\'' => Code::Quote,
        b';' => Code::InvisibleSemicolon,
        b'[' => Code::BeginArgument,
        b']' => Code::EndArgument,
        b',' => Code::ThinSpace,
        b'/' => Code::LineBreak,
        b'#' => Code::BigBreak,
        b'|' => Code::OptionalBreak,
        b'+' => Code::NoBreak,
        b'&' => Code::Join,
        _ => Code::HeaderFile,
    }
}

const BREAK: FlatItem = FlatItem::Control(Control::Break);

const CANCEL: FlatItem = FlatItem::Control(Control::Cancel);

const WALL: FlatItem = FlatItem::Control(Control::Wall);

static CODES: [(u8, Cat, MathMode, &[FlatItem]); 13] = [
    (b'=', Cat::Box, MathMode::Maybe, &[SOURCE]),
    (b't', Cat::Box, MathMode::Maybe, &[SOURCE]),
    (b'\'', Cat::Exp, MathMode::Maybe, &[SOURCE]),
    (b';', Cat::Semi, MathMode::Maybe, &[]),
    (b'[', Cat::BeginArg, MathMode::Maybe, &[]),
    (b']', Cat::EndArg, MathMode::Maybe, &[]),
    (
        b',',
        Cat::Insert,
        MathMode::Maybe,
        &[FlatItem::Control(Control::ThinSpace)],
    ),
    (b'/', Cat::Insert, MathMode::Text, &[BREAK]),
    (
        b'#',
        Cat::Insert,
        MathMode::Text,
        &[FlatItem::Control(Control::BigBreak)],
    ),
    (
        b'|',
        Cat::Insert,
        MathMode::Maybe,
        &[FlatItem::Control(Control::OptionalLineBreak0)],
    ),
    (
        b'+',
        Cat::Insert,
        MathMode::Text,
        &[
            CANCEL,
            WALL,
            FlatItem::Control(Control::OptionalBreak),
            WALL,
            CANCEL,
        ],
    ),
    (b'&', Cat::Insert, MathMode::Maybe, &[SOURCE]),
    (b'h', Cat::Insert, MathMode::Text, &[BREAK, SOURCE, BREAK]),
];

// The byte of the first code with another scrap.
fn first_other_code(alloc: Global) -> Result<Option<u8>, Memory> {
    for (byte, cat, mode, items) in &CODES {
        let kind = TokKind::Code(code_of(*byte));
        if !is_leaf(alloc, kind, b"", false, (*cat, *mode, items))? {
            return Ok(Some(*byte));
        }
    }
    Ok(None)
}

#[test]
fn each_code_is_laid_out_or_passed_on(rt: HostRuntime) -> Result<(), Fail> {
    assert_eq!(rt; first_other_code(rt.alloc())?, None);
    Ok(())
}

#[test]
fn a_line_of_the_preprocessor_is_put_on_a_line_of_its_own(rt: HostRuntime) -> Result<(), Fail> {
    let begin: (_, _, &[FlatItem]) = (Cat::Lproc, MathMode::Text, &[BREAK, SOURCE]);
    let end: (_, _, &[FlatItem]) = (Cat::Rproc, MathMode::Text, &[BREAK]);
    let are_right = [
        is_leaf(rt.alloc(), TokKind::HashLine, b"#", true, begin)?,
        is_leaf(rt.alloc(), TokKind::HashLineEnd, b"\n", true, end)?,
    ];
    assert_eq!(rt; are_right, [true; 2]);
    Ok(())
}

// Words that have one category wherever they stand.
static WORDS: [(&[u8], Cat); 25] = [
    (b"n", Cat::Exp),
    (b"size_t", Cat::RawInt),
    (b"_Bool", Cat::RawInt),
    (b"bool", Cat::RawInt),
    (b"uint8_t", Cat::RawInt),
    (b"_Complex", Cat::RawInt),
    (b"static", Cat::IntLike),
    (b"constexpr", Cat::IntLike),
    (b"inline", Cat::IntLike),
    (b"const", Cat::ConstLike),
    (b"restrict", Cat::ConstLike),
    (b"enum", Cat::StructLike),
    (b"return", Cat::CaseLike),
    (b"while", Cat::ForLike),
    (b"do", Cat::DoLike),
    (b"sizeof", Cat::SizeofLike),
    (b"_Generic", Cat::SizeofLike),
    (b"_Static_assert", Cat::SizeofLike),
    (b"typedef", Cat::TypedefLike),
    (b"typeof", Cat::TypeofLike),
    (b"_Atomic", Cat::TypeofLike),
    (b"alignas", Cat::AlignasLike),
    (b"_Pragma", Cat::AlignasLike),
    (b"true", Cat::Exp),
    (b"nullptr", Cat::Exp),
];

// Words with their categories where they stand directly behind the `#` of a `#` line, and elsewhere.
static DIRECTIVES: [(&[u8], Cat, Cat); 16] = [
    (b"elif", Cat::HashLike, Cat::Exp),
    (b"elifdef", Cat::HashLike, Cat::Exp),
    (b"elifndef", Cat::HashLike, Cat::Exp),
    (b"embed", Cat::HashLike, Cat::Exp),
    (b"endif", Cat::HashLike, Cat::Exp),
    (b"error", Cat::HashLike, Cat::Exp),
    (b"ifdef", Cat::HashLike, Cat::Exp),
    (b"ifndef", Cat::HashLike, Cat::Exp),
    (b"include", Cat::HashLike, Cat::Exp),
    (b"line", Cat::HashLike, Cat::Exp),
    (b"pragma", Cat::HashLike, Cat::Exp),
    (b"undef", Cat::HashLike, Cat::Exp),
    (b"warning", Cat::HashLike, Cat::Exp),
    (b"if", Cat::HashLike, Cat::IfLike),
    (b"else", Cat::HashLike, Cat::ElseLike),
    (b"define", Cat::DefineLike, Cat::Exp),
];

// The category and the mode of a word's scrap: outside `#` lines, in one, and directly behind its `#`.
fn word_leaves(alloc: Global, word: &[u8]) -> Result<[(Cat, MathMode); 3], Memory> {
    Ok([
        word_leaf(alloc, word, (false, Directive::No))?,
        word_leaf(alloc, word, (true, Directive::No))?,
        word_leaf(alloc, word, (true, Directive::Word))?,
    ])
}

// The same in one of these places.
fn word_leaf(
    alloc: Global,
    word: &[u8],
    place: (bool, Directive),
) -> Result<(Cat, MathMode), Memory> {
    let (cat, mode, _) = leaf(alloc, TokKind::Identifier, word, place, &[])?;
    Ok((cat, mode))
}

// The first word with another category or mode.
fn first_other_word(alloc: Global) -> Result<Option<usize>, Memory> {
    for (i, (word, cat)) in WORDS.iter().enumerate() {
        if word_leaves(alloc, word)? != [(*cat, MathMode::Maybe); 3] {
            return Ok(Some(i));
        }
    }
    Ok(None)
}

// The first of the other words.
fn first_other_directive(alloc: Global) -> Result<Option<usize>, Memory> {
    for (i, (word, directly, elsewhere)) in DIRECTIVES.iter().enumerate() {
        let wanted = [*elsewhere, *elsewhere, *directly].map(|cat| (cat, MathMode::Maybe));
        if word_leaves(alloc, word)? != wanted {
            return Ok(Some(i));
        }
    }
    Ok(None)
}

#[test]
fn a_word_is_reserved_in_its_place_only(rt: HostRuntime) -> Result<(), Fail> {
    let others = [
        first_other_word(rt.alloc())?,
        first_other_directive(rt.alloc())?,
    ];
    assert_eq!(rt; others, [None; 2]);
    Ok(())
}

#[test]
fn defined_is_reserved_in_hash_lines(rt: HostRuntime) -> Result<(), Fail> {
    let wanted = [Cat::Exp, Cat::SizeofLike, Cat::SizeofLike].map(|cat| (cat, MathMode::Maybe));
    assert_eq!(rt; word_leaves(rt.alloc(), b"defined")?, wanted);
    Ok(())
}

#[test]
fn a_macro_with_parameters_is_told_apart(rt: HostRuntime) -> Result<(), Fail> {
    let leaf = word_leaf(rt.alloc(), b"define", (true, Directive::Macro))?;
    assert_eq!(rt; leaf, (Cat::MdefineLike, MathMode::Maybe));
    Ok(())
}

#[test]
fn a_macro_of_tex_is_in_math(rt: HostRuntime) -> Result<(), Fail> {
    let leaves = [
        word_leaves(rt.alloc(), b"NULL")?,
        word_leaves(rt.alloc(), b"TeX")?,
    ];
    assert_eq!(rt; leaves, [[(Cat::TexLike, MathMode::Math); 3]; 2]);
    Ok(())
}

// The token of a sign or a word, by itself.
fn token_of(alloc: Global, kind: TokKind, text: &[u8], span: Span) -> Result<Token, Memory>
    requires kind { is_word kind ≡ true }
    requires start { span.start < 2 ^ 32 }
{
    let mut names = Names::with_words(alloc)?;
    let token = Tok {
        kind,
        text,
        span,
        hash_line: false,
        directive: Directive::No,
    };
    word_token(&token, &mut names)
}

#[test]
fn words_are_tokens_by_themselves(rt: HostRuntime) -> Result<(), Fail> {
    let sign = TokKind::Sign(Sign::Comma);
    let comma = token_of(rt.alloc(), sign, b",", Span { start: 3, end: 4 })?;
    let word = token_of(
        rt.alloc(),
        TokKind::Identifier,
        b"int",
        Span { start: 5, end: 8 },
    )?;
    assert_eq!(rt; comma, Token::Source(3, MathMode::Math));
    assert!(rt; matches!(word, Token::Reserved(_, 5, Cat::RawInt)));
    Ok(())
}
