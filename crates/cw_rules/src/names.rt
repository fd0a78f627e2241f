//! How far a section name goes.
ghost use Rattle.std.specs.Prelude.{◌≡◌, ◌<◌, ◌≤◌, false, length, drop, MatchOption};
ghost use Rattle.cw_rules.specs.Names.{uncoded, void_behind, is_void};

use crate::classes::{Class, from};

/// Whether a name is empty or only `...`, without its codes and the white space around it.
pub(crate) fn is_void(name: &[u8]) -> bool
    ensures { result ≡ is_void name.now }
{
    let mut dots: usize = 0;
    let mut at: usize = 0;
    while at < name.len() {
        match next_step(dots, from(name, at)) {
            Some(next) => {
                dots = next.dots;
                at += next.size;
            }
            None => return false,
        }
    }
    dots == 0 || dots == 3
}

// How many dots came, behind so many bytes more.
#[derive(Clone, Copy)]
struct Step {
    dots: usize,
    size: usize,
}

// A code, white space or a dot of a name that may still be void.
fn next_step(dots: usize, bytes: &[u8]) -> Option<Step>
    requires some { 0 < length bytes.now }
    requires dots { dots ≤ 3 }
    ensures value { MatchOption result (void_behind dots (uncoded bytes.now) ≡
        false) (λ s. void_behind dots (uncoded bytes.now) ≡ void_behind s.dots (uncoded (drop s.size bytes.now))) }
    ensures size { MatchOption result (Unit {0}) (λ s. (0 < s.size) × (s.size ≤ length bytes.now) × (s.dots ≤ 3)) }
{
    let byte = bytes[0];
    let rest = from(bytes, 1);
    if byte == b'@' {
        if rest.is_empty() {
            return Some(Step { dots, size: 1 });
        }
        if rest[0] == b'@' {
            return None;
        }
        return Some(Step { dots, size: 2 });
    }
    if Class::White.has(byte) {
        if dots == 1 || dots == 2 {
            return None;
        }
        return Some(Step { dots, size: 1 });
    }
    if byte != b'.' || dots == 3 {
        return None;
    }
    Some(Step {
        dots: dots + 1,
        size: 1,
    })
}
