//! Entering a section name.
ghost use Rattle.std.specs.Prelude.{◌≡◌, ℕ, ◌<◌, ◌≤◌, ◌+◌, length, IfOk, IfSome, OnOk};
ghost use Rattle.cw_secnames.specs.Kept.{AreKept};
ghost use Rattle.cw_secnames.specs.declared.kinds.SecKind.TheVariants.{File};
ghost use Rattle.cw_phase1.specs.Texts.{Full, name_text, named_text, naming, naming_by, unless_void};
ghost use Rattle.cw_phase1.specs.model.Texts.{is_reduced_void};
ghost use Rattle.cw_phase1.specs.Entering.{answer_of, entering, kept_by, kept_id};

use cw_base::Memory;
use cw_lex::{Code, Tok, TokKind};
use cw_secnames::{Entered, SecId, SecKind, SecNames};

const DOTS: &[u8] = b"...";

/// The name that the book uses for what was entered.
pub(crate) fn kept_id(entered: Entered) -> SecId
    ensures value { result ≡ kept_id entered }
    ensures within { (count : ℕ) → AreKept entered count → result.index < count }
{
    match entered {
        Entered::Known(id) | Entered::New(id) => id,
        Entered::Ambiguous(first, _) => first,
        Entered::Conflict(id) => id,
    }
}

// Whether a name with this reduced text is ignored.
fn is_ignored(text: &[u8]) -> bool
    ensures { result ≡ is_reduced_void text.now }
{
    text.is_empty() || text == DOTS
}

/// Enters the name of a token, of which this is the reduced text, unless it is ignored.
pub(crate) fn enter(
    names: &mut SecNames,
    token: Tok,
    text: &[u8],
) -> Result<Option<Entered>, Memory>
    requires { text.now ≡ name_text token.text.now }
    ensures answer { IfOk result
        (λ r. r ≡ answer_of (entering (naming token.entry.kind token.entry.text.now) names.old)) }
    ensures kept { OnOk result
        (names.new ≡ kept_by (entering (naming token.entry.kind token.entry.text.now) names.old) names.old) }
    ensures within { IfOk result (λ r. IfSome r (λ e. AreKept e (length names.new))) }
    ensures grows { OnOk result (length names.old ≤ length names.new) }
    ensures one { OnOk result (length names.new ≤ length names.old + 1) }
{
    enter_text(names, token.kind, text)
}

// The same by the kind of the token and the reduced text alone.
fn enter_text(names: &mut SecNames, kind: TokKind, text: &[u8]) -> Result<Option<Entered>, Memory>
    ensures answer { IfOk result
        (λ r. r ≡ answer_of (entering (naming_by (is_reduced_void text.now) kind text.now) names.old)) }
    ensures kept { OnOk result
        (names.new ≡ kept_by (entering (naming_by (is_reduced_void text.now) kind text.now) names.old) names.old) }
    ensures within { IfOk result (λ r. IfSome r (λ e. AreKept e (length names.new))) }
    ensures grows { OnOk result (length names.old ≤ length names.new) }
    ensures one { OnOk result (length names.new ≤ length names.old + 1) }
{
    match kind {
        TokKind::Code(Code::FileName) => enter_file(names, text),
        TokKind::Code(Code::SectionName) => enter_named(names, text),
        _ => Ok(None),
    }
}

// A name of `@(`.
fn enter_file(names: &mut SecNames, text: &[u8]) -> Result<Option<Entered>, Memory>
    ensures answer { IfOk result
        (λ r. r ≡ answer_of (entering (unless_void (is_reduced_void text.now) (Full File text.now)) names.old)) }
    ensures kept { OnOk result (names.new
        ≡ kept_by (entering (unless_void (is_reduced_void text.now) (Full File text.now)) names.old) names.old) }
    ensures within { IfOk result (λ r. IfSome r (λ e. AreKept e (length names.new))) }
    ensures grows { OnOk result (length names.old ≤ length names.new) }
    ensures one { OnOk result (length names.new ≤ length names.old + 1) }
{
    if is_ignored(text) {
        return Ok(None);
    }
    let entered = names.enter(SecKind::File, text)?;
    Ok(Some(entered))
}

// A name of `@<`, or a prefix of one.
fn enter_named(names: &mut SecNames, text: &[u8]) -> Result<Option<Entered>, Memory>
    ensures answer { IfOk result
        (λ r. r ≡ answer_of (entering (unless_void (is_reduced_void text.now) (named_text text.now)) names.old)) }
    ensures kept { OnOk result (names.new
        ≡ kept_by (entering (unless_void (is_reduced_void text.now) (named_text text.now)) names.old) names.old) }
    ensures within { IfOk result (λ r. IfSome r (λ e. AreKept e (length names.new))) }
    ensures grows { OnOk result (length names.old ≤ length names.new) }
    ensures one { OnOk result (length names.new ≤ length names.old + 1) }
{
    if is_ignored(text) {
        return Ok(None);
    }
    if text.ends_with(DOTS) {
        let entered = names.enter_prefix(&text[..text.len() - 3])?;
        return Ok(Some(entered));
    }
    let entered = names.enter(SecKind::Named, text)?;
    Ok(Some(entered))
}
