//! The signs of C, and which one begins at a place.
ghost use Rattle.std.specs.Prelude.{◌≡◌, ◌≤◌, ◌<◌, ◌+◌, ◌∷◌, length, IfSome};
ghost use Rattle.cw_rules.specs.Signs.{all_signs, spelling, longest};

use crate::classes::begins;

/// The signs of C.
#[derive(Clone, Copy, Debug, PartialEq, Eq)]
pub enum Sign {
    /// `/`
    Slash,
    /// `.`
    Dot,
    /// `<`
    Less,
    /// `>`
    Greater,
    /// `|`
    Bar,
    /// `=`
    Assign,
    /// `^`
    Caret,
    /// `%`
    Percent,
    /// `->`
    Arrow,
    /// `<<`
    ShiftLeft,
    /// `>>`
    ShiftRight,
    /// `==`
    Equal,
    /// `!=`
    NotEqual,
    /// `<=`
    AtMost,
    /// `>=`
    AtLeast,
    /// `&&`
    AndAnd,
    /// `||`
    OrOr,
    /// `!`
    Not,
    /// `~`
    Tilde,
    /// `++`
    PlusPlus,
    /// `--`
    MinusMinus,
    /// `+`
    Plus,
    /// `-`
    Minus,
    /// `#`
    Hash,
    /// `*`
    Star,
    /// `&`
    Ampersand,
    /// `?`
    Question,
    /// `(`
    LeftParen,
    /// `[`
    LeftBracket,
    /// `)`
    RightParen,
    /// `]`
    RightBracket,
    /// `{`
    LeftBrace,
    /// `}`
    RightBrace,
    /// `,`
    Comma,
    /// `;`
    Semicolon,
    /// `:`
    Colon,
    /// `...`
    Ellipsis,
    /// `::`
    DoubleColon,
    /// `?:`
    QuestionColon,
    /// `[[`
    DoubleBracket,
}

/// The longest sign that a byte and the bytes behind it begin with.
#[inline(always)]
pub fn sign_at(byte: u8, rest: &[u8]) -> Option<Sign>
    ensures value { result ≡ longest all_signs (byte ∷ rest.now) }
    ensures within { IfSome result (λ sign. length (spelling sign) ≤ length rest.now + 1) }
{
    match byte {
        b'/' => Some(Sign::Slash),
        b'.' => {
            if rest.len() >= 2 && rest[0] == b'.' && rest[1] == b'.' {
                Some(Sign::Ellipsis)
            } else {
                Some(Sign::Dot)
            }
        }
        b'<' => Some(if begins(b'<', rest) {
            Sign::ShiftLeft
        } else if begins(b'=', rest) {
            Sign::AtMost
        } else {
            Sign::Less
        }),
        b'>' => Some(if begins(b'>', rest) {
            Sign::ShiftRight
        } else if begins(b'=', rest) {
            Sign::AtLeast
        } else {
            Sign::Greater
        }),
        b'|' => Some(if begins(b'|', rest) {
            Sign::OrOr
        } else {
            Sign::Bar
        }),
        b'=' => Some(if begins(b'=', rest) {
            Sign::Equal
        } else {
            Sign::Assign
        }),
        b'^' => Some(Sign::Caret),
        b'%' => Some(Sign::Percent),
        b'-' => Some(if begins(b'>', rest) {
            Sign::Arrow
        } else if begins(b'-', rest) {
            Sign::MinusMinus
        } else {
            Sign::Minus
        }),
        b'!' => Some(if begins(b'=', rest) {
            Sign::NotEqual
        } else {
            Sign::Not
        }),
        b'&' => Some(if begins(b'&', rest) {
            Sign::AndAnd
        } else {
            Sign::Ampersand
        }),
        b'~' => Some(Sign::Tilde),
        b'+' => Some(if begins(b'+', rest) {
            Sign::PlusPlus
        } else {
            Sign::Plus
        }),
        b'#' => Some(Sign::Hash),
        b'*' => Some(Sign::Star),
        b'?' => Some(if begins(b':', rest) {
            Sign::QuestionColon
        } else {
            Sign::Question
        }),
        b'(' => Some(Sign::LeftParen),
        b'[' => Some(if begins(b'[', rest) {
            Sign::DoubleBracket
        } else {
            Sign::LeftBracket
        }),
        b')' => Some(Sign::RightParen),
        b']' => Some(Sign::RightBracket),
        b'{' => Some(Sign::LeftBrace),
        b'}' => Some(Sign::RightBrace),
        b',' => Some(Sign::Comma),
        b';' => Some(Sign::Semicolon),
        b':' => Some(if begins(b':', rest) {
            Sign::DoubleColon
        } else {
            Sign::Colon
        }),
        _ => None,
    }
}

impl Sign {
    /// How many bytes its spelling has.
    pub fn size(self) -> usize
        ensures value { result ≡ length (spelling self) }
        ensures some { 0 < result }
    {
        match self {
            Sign::Ellipsis => 3,
            Sign::Arrow
            | Sign::ShiftLeft
            | Sign::ShiftRight
            | Sign::Equal
            | Sign::NotEqual
            | Sign::AtMost
            | Sign::AtLeast
            | Sign::AndAnd
            | Sign::OrOr
            | Sign::PlusPlus
            | Sign::MinusMinus
            | Sign::DoubleColon
            | Sign::QuestionColon
            | Sign::DoubleBracket => 2,
            _ => 1,
        }
    }
}
