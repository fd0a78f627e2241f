//! Scans ordinary C and hostile texts.
use crate::samples::{ORDINARY, SMALL, is_wanted, repeated};
use cw_lex::{Lexed, Lexer, Mode};
use std::io;

/// A text, which repeats its piece.
struct Sample {
    name: &'static str,
    piece: &'static [u8],
    mode: Mode,
}

const SAMPLES: [Sample; 6] = [
    Sample {
        name: "ordinary",
        piece: ORDINARY,
        mode: Mode::CPart,
    },
    Sample {
        name: "names",
        piece: b"@<",
        mode: Mode::TexText,
    },
    Sample {
        name: "strings",
        piece: b"\"\n",
        mode: Mode::CPart,
    },
    Sample {
        name: "comments",
        piece: b"/*",
        mode: Mode::CPart,
    },
    Sample {
        name: "includes",
        piece: b"\\\n#include<",
        mode: Mode::CPart,
    },
    Sample {
        name: "bars",
        piece: b"|/*|x*/",
        mode: Mode::TexText,
    },
];

// The number of answers.
#[inline(never)]
fn count(text: &[u8], mode: Mode) -> u64 {
    let mut lexer = Lexer::over(text, 0, text.len(), mode);
    let mut answers = 0u64;
    loop {
        match lexer.next() {
            Lexed::End => return answers,
            Lexed::Token(_) | Lexed::Begin(_) | Lexed::Finish(_) | Lexed::Note(_, _) => {
                answers = answers.wrapping_add(1);
            }
        }
    }
}

/// Scans each sample, or the one of a name, with a blank behind each piece.
pub(crate) fn run(rt: HostRuntime, size: Option<usize>, only: Option<&str>) -> io::Result<()> {
    let size = size.unwrap_or(SMALL);
    for sample in &SAMPLES {
        if is_wanted(only, sample.name) {
            let mut text = repeated(rt.alloc(), size, sample.piece, false, b" ")?;
            text.truncate(size);
            println!(rt; "{}: {} answers", sample.name, count(&text, sample.mode))?;
        }
    }
    Ok(())
}
