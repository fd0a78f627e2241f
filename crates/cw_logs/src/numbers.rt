//! Numbers in decimal digits.
ghost use Rattle.std.specs.Prelude.{◌≡◌, ◌&&◌, ◌==◌, nat_lt, slice_index_or, length, MatchOption};
ghost use Rattle.cw_logs.specs.model.LinePieces.{IsNumber, NoNumber};

use cw_rules::classes::is_digit;

// Whether a zero stands before other digits.
fn has_needless_zero(digits: &[u8]) -> bool
    ensures { result ≡ (nat_lt 1 (length digits.now) && slice_index_or digits.now 0 0 == 48) }
{
    digits.len() > 1 && digits[0] == b'0'
}

// The number that these digits write, if it is at most so much and no shorter digits write it.
pub(crate) fn number_in(digits: &[u8], most: u32) -> Option<u32>
    ensures { MatchOption result (NoNumber most digits.now) (λ number. IsNumber most digits.now number) }
{
    if digits.is_empty() {
        return None;
    }
    if has_needless_zero(digits) {
        return None;
    }
    let mut number = 0;
    for digit in digits {
        if !is_digit(*digit) {
            return None;
        }
        number = number * 10 + u64::from(*digit - b'0');
        if number > u64::from(most) {
            return None;
        }
    }
    Some(number as u32)
}
