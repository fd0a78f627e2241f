//! What a token prints where comments are open.
ghost use Rattle.std.specs.Prelude.{◌≡◌, ◌++◌, OnOk, option_map};
ghost use Rattle.cw_rules.specs.Answers.{seen};
ghost use Rattle.cw_print.specs.Showing.{number_shown, head_sign, token_shown};

use crate::braces::OpenBraces;
use crate::comments::put_piece;
use crate::signs::put_sign;
use crate::tokens::put_token;
use cw_base::{Bytes, Memory};
use cw_lex::{Tok, TokKind};

fn head_sign(first: bool) -> &'static [u8]
    ensures { result.now ≡ head_sign first }
{
    if first {
        b"${}\\E{}$"
    } else {
        b"${}\\mathrel+\\E{}$"
    }
}

// It stands apart, since most tokens are signs, which are printed without it.
#[inline(never)]
fn put_shown(
    out: &mut Bytes,
    first: bool,
    kind: TokKind,
    text: &[u8],
    braces: &mut OpenBraces,
) -> Result<(), Memory>
    ensures bytes { OnOk result (out.new ≡ out.old ++ (token_shown first kind text.now braces.old).bytes) }
    ensures braces { OnOk result (braces.new ≡ (token_shown first kind text.now braces.old).braces) }
{
    match kind {
        TokKind::Text => {
            let open = put_piece(out, text, braces.innermost())?;
            braces.set_innermost(open)
        }
        TokKind::LongComment | TokKind::ShortComment => {
            put_token(out, kind, text)?;
            braces.begin()
        }
        TokKind::Sign(sign) => put_sign(out, sign),
        TokKind::HeadSign => out.append(head_sign(first)),
        _ => put_token(out, kind, text),
    }
}

/// Appends what a token prints where these braces are open, and counts those that it opens and closes. `first` says
/// that the present section is the first that defines its name. A number without a token prints nothing.
#[inline(always)]
pub(crate) fn put_found(
    out: &mut Bytes,
    first: bool,
    token: Option<Tok>,
    braces: &mut OpenBraces,
) -> Result<(), Memory>
    ensures bytes { OnOk result
        (out.new ≡ out.old ++ (number_shown first (option_map seen token.entry) braces.old).bytes) }
    ensures braces { OnOk result (braces.new ≡ (number_shown first (option_map seen token.entry) braces.old).braces) }
{
    match token {
        Some(token) => put_shown(out, first, token.kind, token.text, braces),
        None => Ok(()),
    }
}
