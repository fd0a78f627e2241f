//! Translates ordinary C, statements and type definitions.
ghost use Rattle.std.specs.Prelude.{◌≡◌, ◌≤◌, ◌^◌, false, length};
ghost use Rattle.cw_rules.specs.declared.tokens.Mode.TheVariants.{CPart};
ghost use Rattle.cw_lex.specs.Lexing.{tokens_of};
ghost use Rattle.cw_lex.specs.Nested.{begins_section_in};

use crate::samples::{LARGEST, ORDINARY, SMALL, is_wanted, repeated};
use cw_base::{Flags, Memory, Silent, Span, Steps};
use cw_lex::Mode;
use cw_names::Names;
use cw_reduce::{Translated, is_uncut, translate};
use cw_scraps::Marks;
use cw_secnames::{NameUses, SecNames};
use cw_tokens::TokenStore;
use std::alloc::Global;
use std::io;

/// A text, which repeats its piece, numbered or not.
struct Sample {
    name: &'static str,
    begin: &'static [u8],
    end: &'static [u8],
    numbered: bool,
}

const SAMPLES: [Sample; 3] = [
    Sample {
        name: "ordinary",
        begin: ORDINARY,
        end: b"",
        numbered: false,
    },
    Sample {
        name: "statements",
        begin: b"a;",
        end: b"",
        numbered: false,
    },
    Sample {
        name: "typedefs",
        begin: b"typedef int t",
        end: b"; ",
        numbered: true,
    },
];

// The translation alone, whose instructions are counted.
#[inline(never)]
fn measured(alloc: Global, text: &[u8], span: Span) -> Result<Translated, Memory>
    requires order { span.start ≤ span.end }
    requires within { span.end ≤ length text.now }
    requires short { length text.now ≤ 2 ^ 24 }
    requires uncut { begins_section_in (tokens_of text.now span.start span.end CPart) ≡ false }
{
    let mut names = Names::with_words(alloc)?;
    let mut store = TokenStore::new_in(alloc);
    let mut marks = Marks::new_in(alloc);
    let mut steps: Steps<Silent> = Steps::new();
    let sec_names = SecNames::new_in(alloc);
    let uses = NameUses::new_in(alloc);
    translate(
        alloc,
        text,
        span,
        Mode::CPart,
        &mut names,
        &sec_names,
        &uses,
        &mut store,
        &mut marks,
        &Flags::start(),
        &mut steps,
    )
}

// The same of a text of which nothing is known.
fn tested(alloc: Global, text: &[u8]) -> Result<Translated, Memory> {
    if text.len() > LARGEST {
        return Err(Memory);
    }
    let span = Span {
        start: 0,
        end: text.len(),
    };
    if !is_uncut(text, span, Mode::CPart) {
        return Err(Memory);
    }
    measured(alloc, text, span)
}

/// Translates each sample, or the one of a name.
pub(crate) fn run(rt: HostRuntime, size: Option<usize>, only: Option<&str>) -> io::Result<()> {
    let size = size.unwrap_or(SMALL);
    for sample in &SAMPLES {
        if is_wanted(only, sample.name) {
            let text = repeated(rt.alloc(), size, sample.begin, sample.numbered, sample.end)?;
            match tested(rt.alloc(), &text) {
                Ok(done) => println!(rt;
                    "{}: {} scraps, {} productions",
                    sample.name, done.scraps, done.productions
                )?,
                Err(Memory) => println!(rt; "{}: no memory", sample.name)?,
            }
        }
    }
    Ok(())
}
