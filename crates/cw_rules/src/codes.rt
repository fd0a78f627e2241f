//! The control codes, and what each does in each kind of text.
ghost use Rattle.std.specs.Prelude.{◌≡◌, true};
ghost use Rattle.cw_rules.specs.Codes.{code_of, code_at, is_section, begins_section, has_control_text, effect_in_limbo};
ghost use Rattle.cw_rules.specs.Codes.{effect_in_tex, effect_in_c, effect_in_definition, effect_at_begin};
ghost use Rattle.cw_rules.specs.Tokens.{is_name, is_quote};
ghost use Rattle.cw_rules.specs.model.Effects.{stays};

use crate::classes::{Class, is_letter_of};
use cw_base::NoteKind;

/// What the byte behind an `@` makes of it. Letters may be in either case.
#[derive(Clone, Copy, Debug, PartialEq, Eq)]
pub enum Code {
    /// `@@`, one `@`.
    At,
    /// `@` and a blank, or `@` at a line's end: a section begins.
    Section,
    /// `@*`: a starred section begins, perhaps with its depth.
    StarredSection,
    /// `@d`: a macro definition begins.
    Define,
    /// `@f`: a format definition begins.
    Format,
    /// `@s`: a format definition begins that prints nothing.
    SilentFormat,
    /// `@c` and `@p`: an unnamed C part begins.
    Program,
    /// `@<`: the name of a section, up to `@>`.
    SectionName,
    /// `@(`: the name of a section that is a file, up to `@>`.
    FileName,
    /// `@^`: an index entry in roman type.
    Roman,
    /// `@.`: an index entry in typewriter type.
    Typewriter,
    /// `@:`: an index entry by the user's own macro.
    UserEntry,
    /// `@!`: the next entry or identifier is underlined in the index.
    Underline,
    /// `@q`: a text that is dropped.
    Ignored,
    /// `@t`: TeX text in a box.
    TexBox,
    /// `@=`: a text that is passed on as it is.
    Verbatim,
    /// `@,`
    ThinSpace,
    /// `@/`
    LineBreak,
    /// `@|`
    OptionalBreak,
    /// `@#`
    BigBreak,
    /// `@+`
    NoBreak,
    /// `@;`
    InvisibleSemicolon,
    /// `@[`
    BeginArgument,
    /// `@]`
    EndArgument,
    /// `@h`
    HeaderFile,
    /// `@&`
    Join,
    /// `@'`: a string whose first bytes are these two.
    Quote,
    /// `@0`, `@1` and `@2`, which have no effect.
    Trace,
    /// `@l`: the macro of letters.
    Letters,
    /// An `@` before any other byte, or at the end of the text.
    Unknown,
}

/// What a code does where it stands.
#[derive(Clone, Copy)]
pub enum Effect {
    /// It is a token of its own.
    Stands,
    /// It is dropped, with this note.
    Drops(NoteKind),
    /// A macro definition begins.
    Defines,
    /// A format definition begins.
    Formats,
    /// A C part begins.
    BeginsC,
}

impl Code {
    fn of(byte: u8) -> Code
        ensures { result ≡ code_of byte }
    {
        match byte {
            b'@' => Code::At,
            b'*' => Code::StarredSection,
            b'<' => Code::SectionName,
            b'(' => Code::FileName,
            b'^' => Code::Roman,
            b'.' => Code::Typewriter,
            b':' => Code::UserEntry,
            b'!' => Code::Underline,
            b'=' => Code::Verbatim,
            b',' => Code::ThinSpace,
            b'/' => Code::LineBreak,
            b'|' => Code::OptionalBreak,
            b'#' => Code::BigBreak,
            b'+' => Code::NoBreak,
            b';' => Code::InvisibleSemicolon,
            b'[' => Code::BeginArgument,
            b']' => Code::EndArgument,
            b'&' => Code::Join,
            39 => Code::Quote,
            b'0' | b'1' | b'2' => Code::Trace,
            b'd' | b'D' => Code::Define,
            b'f' | b'F' => Code::Format,
            b's' | b'S' => Code::SilentFormat,
            b'c' | b'C' | b'p' | b'P' => Code::Program,
            b'q' | b'Q' => Code::Ignored,
            b't' | b'T' => Code::TexBox,
            b'h' | b'H' => Code::HeaderFile,
            b'l' | b'L' => Code::Letters,
            _ => {
                if Class::White.has(byte) {
                    Code::Section
                } else {
                    Code::Unknown
                }
            }
        }
    }

    /// The code of the bytes behind an `@`.
    pub fn at(bytes: &[u8]) -> Code
        ensures { result ≡ code_at bytes.now }
    {
        match bytes {
            [] => Code::Unknown,
            [byte, ..] => Code::of(*byte),
        }
    }

    fn is_section(self) -> bool
        ensures { result ≡ is_section self }
    {
        matches!(self, Code::Section | Code::StarredSection)
    }

    /// Whether a section name stands behind the code.
    pub fn is_name(self) -> bool
        ensures { result ≡ is_name self }
    {
        matches!(self, Code::SectionName | Code::FileName)
    }

    pub(crate) fn is_quote(self) -> bool
        ensures { result ≡ is_quote self }
    {
        matches!(self, Code::Quote)
    }

    pub(crate) fn has_control_text(self) -> bool
        ensures { result ≡ has_control_text self }
    {
        matches!(
            self,
            Code::Roman
                | Code::Typewriter
                | Code::UserEntry
                | Code::Ignored
                | Code::TexBox
                | Code::Verbatim
        )
    }

    /// What the code does in limbo.
    pub fn effect_in_limbo(self) -> Effect
        ensures { result ≡ effect_in_limbo self }
    {
        match self {
            Code::At | Code::Letters | Code::Ignored => Effect::Stands,
            Code::SilentFormat => Effect::Formats,
            _ => Effect::Drops(NoteKind::CodeInLimbo),
        }
    }

    /// What the code does in TeX text.
    pub fn effect_in_tex(self) -> Effect
        ensures { result ≡ effect_in_tex self }
    {
        match self {
            Code::At
            | Code::Roman
            | Code::Typewriter
            | Code::UserEntry
            | Code::Underline
            | Code::Ignored
            | Code::SectionName
            | Code::FileName
            | Code::Trace => Effect::Stands,
            Code::Define => Effect::Defines,
            Code::Format | Code::SilentFormat => Effect::Formats,
            Code::Program => Effect::BeginsC,
            Code::Letters | Code::Unknown => Effect::Drops(NoteKind::UnknownCode),
            _ => Effect::Drops(NoteKind::CodeInTexText),
        }
    }

    /// What the code does in C text.
    pub fn effect_in_c(self) -> Effect
        ensures value { result ≡ effect_in_c self }
        ensures stays { stays result ≡ true }
    {
        match self {
            Code::Define | Code::Format | Code::SilentFormat | Code::Program => {
                Effect::Drops(NoteKind::CodeInCText)
            }
            Code::At | Code::Letters | Code::Unknown => Effect::Drops(NoteKind::UnknownCode),
            _ => Effect::Stands,
        }
    }

    /// What the code does in the C text of a definition.
    pub fn effect_in_definition(self) -> Effect
        ensures { result ≡ effect_in_definition self }
    {
        match self {
            Code::Define => Effect::Defines,
            Code::Format | Code::SilentFormat => Effect::Formats,
            Code::Program => Effect::BeginsC,
            _ => self.effect_in_c(),
        }
    }

    /// What the code does where a C part begins.
    pub fn effect_at_begin(self) -> Effect
        ensures { result ≡ effect_at_begin self }
    {
        match self {
            Code::Program => Effect::BeginsC,
            _ => self.effect_in_c(),
        }
    }
}

/// Whether a section code stands behind an `@`.
pub fn begins_section(bytes: &[u8]) -> bool
    ensures { result ≡ begins_section bytes.now }
{
    Code::at(bytes).is_section()
}
