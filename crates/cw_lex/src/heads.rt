//! The heads of definitions: which tokens belong to one.
ghost use Rattle.std.specs.Prelude.{◌≡◌};
ghost use Rattle.cw_lex.specs.Heads.{head_behind, word_behind};

use crate::{Sign, TokKind};
use cw_base::Span;

/// What the head of a definition still wants.
#[derive(Clone, Copy, Debug, PartialEq, Eq)]
pub enum Expectation {
    /// Nothing: no head is open.
    Nothing,
    /// The name of a macro.
    Macro,
    /// A parenthesis directly behind that name, which ends at this place.
    Parenthesis(usize),
    /// Parameters, up to the parenthesis that ends them.
    Parameters,
    /// The first name of a format definition; whether the definition is one that prints nothing.
    First(bool),
    /// The second name.
    Second(bool),
}

impl Expectation {
    /// What the head wants behind a token of C text that belongs to it. None where the token doesn't
    /// belong to the head, which ends before it then.
    pub fn behind(self, kind: TokKind, span: Span) -> Option<Expectation>
        ensures { result ≡ head_behind self kind span }
    {
        match kind {
            TokKind::Identifier => self.behind_word(span.end),
            TokKind::Sign(Sign::LeftParen) => match self {
                Expectation::Parenthesis(place) if place == span.start => Some(
                    Expectation::Parameters,
                ),
                _ => None,
            },
            TokKind::Sign(Sign::Comma | Sign::Ellipsis) => match self {
                Expectation::Parameters => Some(Expectation::Parameters),
                _ => None,
            },
            TokKind::Sign(Sign::RightParen) => match self {
                Expectation::Parameters => Some(Expectation::Nothing),
                _ => None,
            },
            _ => None,
        }
    }

    // An identifier, which ends at this place.
    fn behind_word(self, end: usize) -> Option<Expectation>
        ensures { result ≡ word_behind self end }
    {
        match self {
            Expectation::Macro => Some(Expectation::Parenthesis(end)),
            Expectation::Parameters => Some(Expectation::Parameters),
            Expectation::First(silent) => Some(Expectation::Second(silent)),
            Expectation::Second(_) => Some(Expectation::Nothing),
            Expectation::Nothing | Expectation::Parenthesis(_) => None,
        }
    }
}
