//! Tokens, the answers of the scanner, and the modes in which it begins.
use crate::{Code, Sign};
use cw_base::{NoteKind, Span};

/// What a token is.
#[derive(Clone, Copy, Debug, PartialEq, Eq)]
pub enum TokKind {
    /// A letter, then letters and digits.
    Identifier,
    /// A number in any of C's forms, with its suffix letters.
    Constant,
    /// From `"` or `'` to the same byte, with the prefix `L`, `u`, `U` or `u8` that stands directly before.
    Quoted,
    /// In a `#` line, `<` up to `>` directly behind the word `include`.
    IncludeName,
    /// One of the signs of C.
    Sign(Sign),
    /// The `#` that begins a `#` line.
    HashLine,
    /// The line's end that ends a `#` line.
    HashLineEnd,
    /// A byte of C text that begins nothing else.
    OtherByte,
    /// A control code with all that belongs to it, where it may stand. A section name of each kind
    /// and the string of `@'` are codes.
    Code(Code),
    /// A control code that may not stand in its place, with the control text that it may have. It is
    /// dropped, and a note follows it.
    Dropped,
    /// The `=`, `==` or `+=` behind the section name that begins a C part.
    HeadSign,
    /// A piece of limbo, of TeX text or of a comment's text.
    Text,
    /// A comment from `/*` to `*/`.
    LongComment,
    /// A comment from `//` to the line's end.
    ShortComment,
    /// C text between bars.
    InnerText,
}

/// Whether an identifier is a word of a directive.
#[derive(Clone, Copy, Debug, PartialEq, Eq)]
pub enum Directive {
    /// It doesn't stand directly behind the `#` of a `#` line.
    No,
    /// It stands there.
    Word,
    /// It stands there and is the `define` of a macro with parameters: behind it follow white space, an identifier and,
    /// directly behind that, `(`.
    Macro,
}

/// One token.
#[derive(Clone, Copy)]
pub struct Tok<'a> {
    /// What it is.
    pub kind: TokKind,
    /// The bytes of the token.
    pub text: &'a [u8],
    /// Where they stand.
    pub span: Span,
    /// Whether the token stands in a `#` line.
    pub hash_line: bool,
    /// Whether it is a word of a directive, as identifiers alone are.
    pub directive: Directive,
}

/// One answer of the scanner.
#[derive(Clone, Copy)]
pub enum Lexed<'a> {
    /// A token without parts.
    Token(Tok<'a>),
    /// A comment or inner C text begins; its parts follow.
    Begin(Tok<'a>),
    /// The innermost comment or inner C text ends. The token is empty where no byte of its own ends it.
    Finish(Tok<'a>),
    /// A note, and the place of the byte that it is about.
    Note(NoteKind, usize),
    /// All is answered.
    End,
}

/// What kind of text is scanned.
#[derive(Clone, Copy, Debug, PartialEq, Eq)]
pub enum Mode {
    /// What stands before the first section.
    Limbo,
    /// The TeX part of a section.
    TexText,
    /// A C part, from its code or head on.
    CPart,
    /// The C text of a definition.
    Definition,
    /// C text between bars, without its bars.
    Inner,
}
