//! Lines of scraps in which a byte stands for a token.
ghost use Rattle.std.specs.Prelude.{OnOk};
ghost use Rattle.cw_scraps.specs.Leaves.{MakesLeaf};
ghost use Rattle.cw_scraps.specs.Lines.{IsSoundLine};

use crate::kinds::kind_of;
use cw_base::{Memory, Span};
use cw_lex::{Directive, Tok, TokKind};
use cw_names::Names;
use cw_scraps::{ScrapLine, scrap_of};
use cw_tokens::TokenStore;

// Some letters stand for reserved words.
fn word_of(byte: &[u8]) -> &[u8] {
    match byte {
        b"I" => b"if",
        b"E" => b"else",
        b"T" => b"int",
        _ => byte,
    }
}

fn add(
    byte: &[u8],
    kind: TokKind,
    line: &mut ScrapLine,
    store: &mut TokenStore,
    names: &mut Names,
) -> Result<(), Memory>
    requires kind { MakesLeaf kind }
    requires sound { IsSoundLine store.old names.old line.old }
    ensures sound { OnOk result (IsSoundLine store.new names.new line.new) }
{
    let token = Tok {
        kind,
        text: byte,
        span: Span { start: 0, end: 0 },
        hash_line: false,
        directive: Directive::No,
    };
    let leaf = scrap_of(&token, names, store)?;
    line.add(leaf.cat, leaf.list, leaf.left, leaf.right)
}

/// Adds the scrap of each byte to a line.
pub(crate) fn add_all(
    bytes: &[u8],
    line: &mut ScrapLine,
    store: &mut TokenStore,
    names: &mut Names,
) -> Result<(), Memory>
    requires sound { IsSoundLine store.old names.old line.old }
    ensures sound { OnOk result (IsSoundLine store.new names.new line.new) }
{
    for byte in bytes {
        add(word_of(&[*byte]), kind_of(*byte), line, store, names)?;
    }
    Ok(())
}
