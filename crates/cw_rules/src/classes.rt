//! Classes of bytes, and runs of bytes of one class.
ghost use Rattle.std.specs.Prelude.{◌≡◌, ◌≤◌, ◌+◌, length, drop};
ghost use Rattle.cw_rules.specs.Bytes.{is_in, is_letter, is_letter_of, is_mark, run, begins, begins_with};

/// A set of bytes, of which a token may take as many as stand in a row.
#[derive(Clone, Copy)]
pub enum Class {
    /// The blanks.
    Blank,
    /// Blanks and line ends.
    White,
    /// What an identifier goes on with: letters and digits.
    Word,
    /// The decimal digits.
    Digit,
    /// The hexadecimal digits, with letters in either case.
    HexDigit,
    /// The binary digits.
    BinaryDigit,
    /// The letters that may stand behind a constant.
    Suffix,
    /// What limbo copies: all but `@`.
    LimboText,
    /// What TeX text copies: all but `@` and bars.
    TexText,
    /// What an include name may hold: all but `>` and line ends.
    IncludeName,
}

impl Class {
    // Whether the byte is in the set.
    pub(crate) fn has(self, byte: u8) -> bool
        ensures { result ≡ is_in self byte }
    {
        match self {
            Class::Blank => is_blank(byte),
            Class::White => is_white(byte),
            Class::Word => is_word(byte),
            Class::Digit => is_digit(byte),
            Class::HexDigit => {
                is_digit(byte) || (97 <= byte && byte <= 102) || (65 <= byte && byte <= 70)
            }
            Class::BinaryDigit => 48 <= byte && byte <= 49,
            Class::Suffix => {
                is_letter_of(117, byte) || is_letter_of(108, byte) || is_letter_of(102, byte)
            }
            Class::LimboText => byte != b'@',
            Class::TexText => !(byte == b'@' || byte == b'|'),
            Class::IncludeName => !(byte == b'>' || byte == b'\n'),
        }
    }
}

// Whether a byte is a letter or a digit, for each byte: one look takes the place of five tests.
static WORD_BYTES: [bool; 256] = [
    false, false, false, false, false, false, false, false, false, false, false, false, false,
    false, false, false, false, false, false, false, false, false, false, false, false, false,
    false, false, false, false, false, false, false, false, false, false, true, false, false,
    false, false, false, false, false, false, false, false, false, true, true, true, true, true,
    true, true, true, true, true, false, false, false, false, false, false, false, true, true,
    true, true, true, true, true, true, true, true, true, true, true, true, true, true, true, true,
    true, true, true, true, true, true, true, true, false, false, false, false, true, false, true,
    true, true, true, true, true, true, true, true, true, true, true, true, true, true, true, true,
    true, true, true, true, true, true, true, true, true, false, false, false, false, false, true,
    true, true, true, true, true, true, true, true, true, true, true, true, true, true, true, true,
    true, true, true, true, true, true, true, true, true, true, true, true, true, true, true, true,
    true, true, true, true, true, true, true, true, true, true, true, true, true, true, true, true,
    true, true, true, true, true, true, true, true, true, true, true, true, true, true, true, true,
    true, true, true, true, true, true, true, true, true, true, true, true, true, true, true, true,
    true, true, true, true, true, true, true, true, true, true, true, true, true, true, true, true,
    true, true, true, true, true, true, true, true, true, true, true, true, true, true, true, true,
    true, true, true, true, true, true, true, true, true, true, true, true, true, true, true,
];

// The same of blanks and line ends.
static WHITE_BYTES: [bool; 256] = [
    false, false, false, false, false, false, false, false, false, true, true, true, true, true,
    false, false, false, false, false, false, false, false, false, false, false, false, false,
    false, false, false, false, false, true, false, false, false, false, false, false, false,
    false, false, false, false, false, false, false, false, false, false, false, false, false,
    false, false, false, false, false, false, false, false, false, false, false, false, false,
    false, false, false, false, false, false, false, false, false, false, false, false, false,
    false, false, false, false, false, false, false, false, false, false, false, false, false,
    false, false, false, false, false, false, false, false, false, false, false, false, false,
    false, false, false, false, false, false, false, false, false, false, false, false, false,
    false, false, false, false, false, false, false, false, false, false, false, false, false,
    false, false, false, false, false, false, false, false, false, false, false, false, false,
    false, false, false, false, false, false, false, false, false, false, false, false, false,
    false, false, false, false, false, false, false, false, false, false, false, false, false,
    false, false, false, false, false, false, false, false, false, false, false, false, false,
    false, false, false, false, false, false, false, false, false, false, false, false, false,
    false, false, false, false, false, false, false, false, false, false, false, false, false,
    false, false, false, false, false, false, false, false, false, false, false, false, false,
    false, false, false, false, false, false, false, false, false, false, false, false, false,
    false, false, false, false, false, false, false, false, false, false, false, false, false,
    false, false, false, false, false, false, false, false,
];

/// Whether an identifier may go on with the byte.
#[inline(always)]
pub fn is_word(byte: u8) -> bool
    ensures { result ≡ is_in Class.Word byte }
{
    WORD_BYTES[byte as usize]
}

// Whether the byte is a blank or a line's end.
#[inline(always)]
fn is_white(byte: u8) -> bool
    ensures { result ≡ is_in Class.White byte }
{
    WHITE_BYTES[byte as usize]
}

/// Whether the byte is a blank.
pub fn is_blank(byte: u8) -> bool
    ensures { result ≡ is_in Class.Blank byte }
{
    byte == 32 || byte == 9 || byte == 11 || byte == 12 || byte == 13
}

/// Whether the byte is a decimal digit.
pub fn is_digit(byte: u8) -> bool
    ensures { result ≡ is_in Class.Digit byte }
{
    48 <= byte && byte <= 57
}

/// Whether an identifier may begin with the byte.
pub fn is_letter(byte: u8) -> bool
    ensures { result ≡ is_letter byte }
{
    (97 <= byte && byte <= 122)
        || (65 <= byte && byte <= 90)
        || byte == 95
        || byte == 36
        || 128 <= byte
}

/// Whether a string may begin with the byte, behind the prefix that it may have.
#[inline(always)]
pub fn is_mark(byte: u8) -> bool
    ensures { result ≡ is_mark byte }
{
    byte == b'"' || byte == b'\''
}

/// Whether the byte is a letter in either case, given in lower case.
pub(crate) fn is_letter_of(small: u8, byte: u8) -> bool
    ensures { result ≡ is_letter_of small byte }
{
    byte == small || byte as u32 + 32 == small as u32
}

/// How many bytes of the class stand in a row at the beginning.
pub fn run(class: Class, bytes: &[u8]) -> usize
    ensures value { result ≡ run class bytes.now }
    ensures within { result ≤ length bytes.now }
{
    let mut n = 0;
    while n < bytes.len() && class.has(bytes[n]) {
        n += 1;
    }
    n
}

/// The bytes from a place on.
pub fn from(bytes: &[u8], at: usize) -> &[u8]
    requires { at ≤ length bytes.now }
    ensures value { result.now ≡ drop at bytes.now }
    ensures length { length result.now + at ≡ length bytes.now }
{
    &bytes[at..]
}

/// Whether the bytes begin with this one.
pub fn begins(wanted: u8, bytes: &[u8]) -> bool
    ensures { result ≡ begins wanted bytes.now }
{
    match bytes {
        [] => false,
        [byte, ..] => *byte == wanted,
    }
}

/// Whether the bytes begin with these.
pub fn begins_with(wanted: &[u8], bytes: &[u8]) -> bool
    ensures { result ≡ begins_with wanted.now bytes.now }
{
    let mut k = 0;
    while k < wanted.len() {
        if k >= bytes.len() {
            return false;
        }
        if bytes[k] != wanted[k] {
            return false;
        }
        k += 1;
    }
    true
}
