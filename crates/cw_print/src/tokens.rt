//! The bytes of tokens.
ghost use Rattle.std.specs.Prelude.{◌≡◌, ◌++◌, OnOk, drop};
ghost use Rattle.cw_rules.specs.ControlTexts.{text_behind_code};
ghost use Rattle.cw_print.specs.Tokens.{code_bytes, token_bytes};

use crate::constants::put_constant;
use crate::escaping::put_escaped;
use crate::signs::put_sign;
use crate::texts::{
    put_control_text, put_escaped_control_text, put_include_name, put_quote, put_string,
};
use cw_base::{Bytes, Memory};
use cw_lex::{Code, TokKind};

// The bytes behind the first two.
fn behind_code(text: &[u8]) -> &[u8]
    ensures { result.now ≡ drop 2 text.now }
{
    if text.len() < 2 { &[] } else { &text[2..] }
}

/// Appends what the control text of a code says.
pub fn put_code_text(out: &mut Bytes, text: &[u8]) -> Result<(), Memory>
    ensures { OnOk result (out.new ≡ out.old ++ text_behind_code text.now) }
{
    put_control_text(out, behind_code(text))
}

fn put_code(out: &mut Bytes, code: Code, text: &[u8]) -> Result<(), Memory>
    ensures { OnOk result (out.new ≡ out.old ++ code_bytes code text.now) }
{
    match code {
        Code::Verbatim => {
            out.append(b"\\vb{")?;
            put_escaped_control_text(out, behind_code(text))?;
            out.push(b'}')
        }
        Code::TexBox => {
            out.append(b"\\hbox{")?;
            put_code_text(out, text)?;
            out.push(b'}')
        }
        Code::Quote => {
            out.append(b"\\.{")?;
            put_quote(out, behind_code(text))?;
            out.push(b'}')
        }
        Code::Join => out.append(b"\\J"),
        Code::HeaderFile => out.append(b"\\ATH"),
        Code::Define => out.append(b"\\D"),
        Code::Format => out.append(b"\\F"),
        _ => Ok(()),
    }
}

/// Appends what a token prints that is known from its kind and its bytes alone. Pieces of comments, section names and
/// the signs behind them print by where they stand, and nothing here.
pub(crate) fn put_token(out: &mut Bytes, kind: TokKind, text: &[u8]) -> Result<(), Memory>
    ensures { OnOk result (out.new ≡ out.old ++ token_bytes kind text.now) }
{
    match kind {
        TokKind::Constant => {
            out.append(b"\\T{")?;
            put_constant(out, text)?;
            out.push(b'}')
        }
        TokKind::Quoted => {
            out.append(b"\\.{")?;
            put_string(out, text)?;
            out.push(b'}')
        }
        TokKind::IncludeName => {
            out.append(b"\\.{")?;
            put_include_name(out, text)?;
            out.push(b'}')
        }
        TokKind::OtherByte => {
            out.append(b"\\.{")?;
            put_escaped(out, text)?;
            out.push(b'}')
        }
        TokKind::Sign(sign) => put_sign(out, sign),
        TokKind::HashLine => out.append(b"\\8\\#"),
        TokKind::Code(code) => put_code(out, code, text),
        TokKind::LongComment => out.append(b"\\C{"),
        TokKind::ShortComment => out.append(b"\\SHC{"),
        _ => Ok(()),
    }
}
