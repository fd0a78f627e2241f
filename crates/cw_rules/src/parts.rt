//! The parts of a text in which the scanner may stand.
ghost use Rattle.std.specs.Prelude.{◌≡◌, true};
ghost use Rattle.cw_rules.specs.Tokens.{in_hash_line, behind_hash, behind_include, passed, first_depth};
ghost use Rattle.cw_rules.specs.Tokens.{is_code_part};

use crate::{Code, Sign};

/// What stands directly before a place of a C part, where that matters.
#[derive(Clone, Copy, PartialEq, Eq)]
pub enum Behind {
    /// The `#` that begins a `#` line.
    Hash,
    /// The word `include` of a `#` line, behind which the name of a file may follow.
    Include,
    /// Anything else.
    Other,
}

/// What is scanned where no comment is open, with what the head of a definition still wants.
#[derive(Clone, Copy)]
pub enum Part {
    /// Limbo.
    Limbo,
    /// TeX text.
    Tex,
    /// Inner C text of TeX text.
    TexInner,
    /// The first byte of a C part, where its code or its head may stand.
    Begin,
    /// A C part: in a `#` line or not, and what stands directly before.
    Plain {
        hash_line: bool,
        behind: Behind,
    },
    /// The C text of a definition.
    Definition,
    /// C text between bars, scanned by itself.
    Inner,
    /// Behind the name that begins a C part, whose sign is wanted.
    Head,
    /// Behind a `@d` at this place, whose name is wanted.
    MacroName {
        code: usize,
    },
    /// Behind that name, where a `(` stands.
    MacroParen {
        code: usize,
    },
    /// Behind that `(`.
    Parameters {
        code: usize,
    },
    /// Behind an `@f` or `@s` at this place, whose first or second name is wanted.
    FormatName {
        code: usize,
        second: bool,
        limbo: bool,
    },
}

/// A comment that is open.
#[derive(Clone, Copy)]
pub struct Opened {
    /// The place of its first byte.
    pub start: usize,
    /// Whether it began with `/*`.
    pub long: bool,
    /// How many braces are open in its text.
    pub braces: usize,
    /// Whether inner C text is open in it.
    pub inner: bool,
}

/// What begins at a byte of C text, but for white space, the `#` of a `#` line and an include name.
#[derive(Clone, Copy)]
pub enum Start {
    /// An identifier.
    Identifier,
    /// A constant.
    Constant,
    /// A string with this quote, behind the prefix that it may have.
    Quoted(u8),
    /// A comment with `/*`.
    LongComment,
    /// A comment with `//`.
    ShortComment,
    /// A control code.
    Code(Code),
    /// The bar that ends inner C text.
    EndOfInner,
    /// A sign.
    Sign(Sign),
    /// A byte that begins nothing else.
    OtherByte,
}

impl Part {
    /// Whether C text goes on where no comment is open.
    pub fn is_code(self) -> bool
        ensures { result ≡ is_code_part self }
    {
        matches!(
            self,
            Part::Begin | Part::Plain { .. } | Part::Definition | Part::TexInner | Part::Inner
        )
    }

    /// Whether a `#` line goes on.
    pub fn in_hash_line(self) -> bool
        ensures { result ≡ in_hash_line self }
    {
        match self {
            Part::Plain { hash_line, .. } => hash_line,
            _ => false,
        }
    }

    /// Whether the `#` of a `#` line stands directly before.
    pub fn behind_hash(self) -> bool
        ensures { result ≡ behind_hash self }
    {
        matches!(
            self,
            Part::Plain {
                behind: Behind::Hash,
                ..
            }
        )
    }

    /// Whether the word `include` of a `#` line stands directly before.
    pub fn behind_include(self) -> bool
        ensures { result ≡ behind_include self }
    {
        matches!(
            self,
            Part::Plain {
                behind: Behind::Include,
                ..
            }
        )
    }

    // Whether the part stays the same behind a token of C text.
    #[inline(always)]
    fn is_passed(self) -> bool
        ensures { result ≡ true → passed self ≡ self }
    {
        match self {
            Part::Begin => false,
            Part::Plain { behind, .. } => matches!(behind, Behind::Other),
            _ => true,
        }
    }

    /// The part behind a token of C text.
    pub fn passed(self) -> Part
        ensures value { result ≡ passed self }
        ensures code { is_code_part result ≡ is_code_part self }
    {
        match self {
            Part::Begin => Part::Plain {
                hash_line: false,
                behind: Behind::Other,
            },
            Part::Plain { hash_line, .. } => Part::Plain {
                hash_line,
                behind: Behind::Other,
            },
            _ => self,
        }
    }

    /// Goes behind a token of C text. It writes only where the part changes, which is seldom.
    #[inline(always)]
    pub fn pass(&mut self)
        ensures value { self.new ≡ passed self.old }
        ensures code { is_code_part self.new ≡ is_code_part self.old }
    {
        if !self.is_passed() {
            *self = self.passed();
        }
    }

    /// The depth of C text in which no comment is open.
    pub fn first_depth(self) -> usize
        ensures { result ≡ first_depth self }
    {
        match self {
            Part::TexInner | Part::Inner => 1,
            _ => 0,
        }
    }
}
