//! Where the scanner stands.
ghost use Rattle.std.specs.Prelude.{◌≡◌, true, false, []};
ghost use Rattle.cw_rules.specs.Tokens.{takes_hash_line, ends_at_bar, may_head, effect_in};
ghost use Rattle.cw_rules.specs.Tokens.{is_code, is_head_part};
ghost use Rattle.cw_rules.specs.model.Effects.{stays};
ghost use Rattle.cw_lex.specs.model.Calm.{is_calm_part, is_calm, IsCalm};

use crate::Code;
use crate::comments::Comments;
use cw_rules::codes::Effect;
use cw_rules::parts::{Behind, Part};
use cw_rules::pending::Pending;

/// A stretch of the text without `>` and line ends, up to the next of them or the text's end.
#[derive(Clone, Copy)]
pub(crate) struct Clear {
    pub from: usize,
    pub to: usize,
}

/// Where a scanner stands.
#[derive(Drop)]
pub(crate) struct State {
    pub at: usize,
    pub part: Part,
    pub comments: Comments,
    pub pending: Pending,
    /// What was seen when an include name's `>` was looked for, so that no byte is looked at twice.
    pub clear: Clear,
}

/// Where a scanner stands, and whether the text is calm there.
#[derive(Drop)]
pub(crate) struct Stand {
    pub state: State,
    /// No note is left and calm C text goes on. Its tokens leave that so.
    pub calm: bool,
}

/// Whether a part is C text that stays as it is behind each token.
pub(crate) fn is_calm_part(part: Part) -> bool
    ensures { result ≡ is_calm_part part }
{
    matches!(
        part,
        Part::Plain {
            hash_line: false,
            behind: Behind::Other,
        } | Part::Definition
            | Part::TexInner
            | Part::Inner
    )
}

impl State {
    /// Whether no note is left and calm C text goes on.
    pub(crate) fn is_calm(&self) -> bool
        ensures { result ≡ true → IsCalm self.now }
    {
        self.is_calm_text() && self.pending.is_quiet()
    }

    // Whether C text goes on that stays as it is behind each token, and in which a line's end ends nothing.
    fn is_calm_text(&self) -> bool
        ensures { result ≡ is_calm self.now.part self.now.comments }
    {
        match self.comments.top() {
            Some(comment) => is_calm_part(self.part) && comment.inner && comment.long,
            None => is_calm_part(self.part),
        }
    }

    /// Whether C text goes on.
    pub(crate) fn is_code(&self) -> bool
        ensures { result ≡ is_code self.now.part self.now.comments }
    {
        match self.comments.top() {
            Some(comment) => comment.inner,
            None => self.part.is_code(),
        }
    }

    /// Whether the sign of a head is wanted.
    pub(crate) fn is_head(&self) -> bool
        ensures { result ≡ is_head_part self.now.part self.now.comments }
    {
        match self.comments.top() {
            Some(_comment) => false,
            None => matches!(self.part, Part::Head),
        }
    }

    /// Whether a `#` may begin a `#` line.
    pub(crate) fn takes_hash_line(&self) -> bool
        ensures value { result ≡ takes_hash_line self.now.part self.now.comments }
        ensures none { result ≡ true → self.now.comments ≡ [] }
    {
        match self.comments.top() {
            Some(_comment) => false,
            None => match self.part {
                Part::Begin => true,
                Part::Plain { hash_line, .. } => !hash_line,
                _ => false,
            },
        }
    }

    /// Whether a bar ends the C text.
    pub(crate) fn ends_at_bar(&self) -> bool
        ensures { result ≡ ends_at_bar self.now.part self.now.comments }
    {
        match self.comments.top() {
            Some(_comment) => true,
            None => matches!(self.part, Part::TexInner),
        }
    }

    /// Whether a section name may begin a C part here, in C text.
    pub(crate) fn may_head(&self) -> bool
        ensures value { result ≡ may_head self.now.part self.now.comments }
        ensures none { result ≡ true → self.now.comments ≡ [] }
    {
        match self.comments.top() {
            Some(_comment) => false,
            None => matches!(self.part, Part::Definition | Part::Begin),
        }
    }

    /// What a code does in C text.
    pub(crate) fn effect(&self, code: Code) -> Effect
        ensures value { result ≡ effect_in self.now.part self.now.comments code }
        ensures none { stays result ≡ false → self.now.comments ≡ [] }
    {
        match self.comments.top() {
            Some(_comment) => code.effect_in_c(),
            None => match self.part {
                Part::Definition => code.effect_in_definition(),
                Part::Begin => code.effect_at_begin(),
                _ => code.effect_in_c(),
            },
        }
    }
}
