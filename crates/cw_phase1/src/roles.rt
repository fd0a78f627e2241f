//! What a token is in its place: its section, its part, and its role there.
ghost use Rattle.std.specs.Prelude.{◌≡◌, ◌<◌, true, false};
ghost use Rattle.cw_phase1.specs.Roles.{
  code_step,
  defining,
  free_step,
  head_role,
  name_step,
  reference_in,
  token_step,
  word_role,
};

use cw_base::Span;
use cw_lex::{Code, Expectation, TokKind};
use cw_names::EntryKind;
use cw_secnames::RefKind;

/// The parts of a web.
#[derive(Clone, Copy)]
pub enum Part {
    Limbo,
    Tex,
    Definitions,
    Program,
}

/// What a token is in its place.
#[derive(Clone, Copy)]
pub enum Role {
    SectionCode,
    MacroName,
    Parameter,
    FirstName(bool),
    SecondName(bool),
    /// Any other identifier.
    Word,
    Entry(EntryKind),
    Underline,
    Name(RefKind),
    Plain,
}

/// Where the text stands. Limbo is section 0.
#[derive(Clone, Copy)]
pub struct Standing {
    pub section: u32,
    pub part: Part,
    pub wanted: Expectation,
}

impl Part {
    // A definition in limbo leaves limbo as it is.
    fn defining(self) -> Part
        ensures { result ≡ defining self }
    {
        match self {
            Part::Limbo => Part::Limbo,
            Part::Tex | Part::Definitions | Part::Program => Part::Definitions,
        }
    }

    fn reference(self) -> RefKind
        ensures { result ≡ reference_in self }
    {
        match self {
            Part::Tex => RefKind::Cited,
            Part::Limbo | Part::Definitions | Part::Program => RefKind::Used,
        }
    }
}

// The role of a word in the head of a definition that wants it.
fn word_role(wanted: Expectation) -> Role
    ensures { result ≡ word_role wanted }
{
    match wanted {
        Expectation::Macro => Role::MacroName,
        Expectation::Parameters => Role::Parameter,
        Expectation::First(silent) => Role::FirstName(silent),
        Expectation::Second(silent) => Role::SecondName(silent),
        Expectation::Nothing | Expectation::Parenthesis(_) => Role::Word,
    }
}

fn head_role(wanted: Expectation, kind: TokKind) -> Role
    ensures { result ≡ head_role wanted kind }
{
    match kind {
        TokKind::Identifier => word_role(wanted),
        _ => Role::Plain,
    }
}

impl Standing {
    // A definition begins, with a head that wants this.
    fn define(&mut self, wanted: Expectation) -> Role
        ensures role { result ≡ Role.Plain }
        ensures next { self.new ≡ record self.old { part = defining self.old.part; wanted = wanted } }
    {
        self.part = self.part.defining();
        self.wanted = wanted;
        Role::Plain
    }

    /// The role of a section name, behind which the text stands then. `headed` says that the sign of a head stands
    /// behind it.
    pub fn name(&mut self, headed: bool) -> Role
        ensures role { result ≡ (name_step headed self.old).role }
        ensures next { self.new ≡ (name_step headed self.old).next }
    {
        if headed {
            self.part = Part::Program;
            Role::Name(RefKind::Defined)
        } else {
            Role::Name(self.part.reference())
        }
    }

    #[inline(never)]
    fn code(&mut self, code: Code) -> Role
        requires { self.old.section < 4294967295 }
        ensures role { result ≡ (code_step code false self.old).role }
        ensures next { self.new ≡ (code_step code false self.old).next }
    {
        match code {
            Code::Section | Code::StarredSection => {
                *self = Standing {
                    section: self.section + 1,
                    part: Part::Tex,
                    wanted: Expectation::Nothing,
                };
                Role::SectionCode
            }
            Code::Define => self.define(Expectation::Macro),
            Code::Format => self.define(Expectation::First(false)),
            Code::SilentFormat => self.define(Expectation::First(true)),
            Code::Program => {
                self.part = Part::Program;
                self.wanted = Expectation::Nothing;
                Role::Plain
            }
            Code::SectionName | Code::FileName => self.name(false),
            Code::Roman => Role::Entry(EntryKind::Roman),
            Code::Typewriter => Role::Entry(EntryKind::Typewriter),
            Code::UserEntry => Role::Entry(EntryKind::User),
            Code::Underline => Role::Underline,
            _ => Role::Plain,
        }
    }

    // The role of a token that belongs to no head.
    #[inline(always)]
    fn free(&mut self, kind: TokKind) -> Role
        requires { self.old.section < 4294967295 }
        ensures role { result ≡ (free_step kind false self.old).role }
        ensures next { self.new ≡ (free_step kind false self.old).next }
    {
        match kind {
            TokKind::Identifier => Role::Word,
            TokKind::Code(code) => self.code(code),
            _ => Role::Plain,
        }
    }

    /// The role of a token, behind which the text stands then, where no sign of a head stands behind it.
    #[inline(always)]
    pub fn token(&mut self, kind: TokKind, span: Span) -> Role
        requires { self.old.section < 4294967295 }
        ensures role { result ≡ (token_step kind false self.old span).role }
        ensures next { self.new ≡ (token_step kind false self.old span).next }
    {
        match self.wanted.behind(kind, span) {
            Some(next) => {
                let role = head_role(self.wanted, kind);
                self.wanted = next;
                role
            }
            None => {
                self.wanted = Expectation::Nothing;
                self.free(kind)
            }
        }
    }
}
