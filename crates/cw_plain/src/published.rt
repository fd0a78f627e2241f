//! A list printed as plain text. No program calls it, users of the library do: a thin call of what programs run.
ghost use Rattle.std.specs.Prelude.{◌≡◌, ◌<◌, IfOk};
ghost use Rattle.cw_base.specs.Web.{text_of};
ghost use Rattle.cw_rules.specs.declared.tokens.Mode.TheVariants.{CPart};
ghost use Rattle.cw_texts.specs.Scans.{scanned};
ghost use Rattle.cw_tokens.specs.Shapes.{unfolded};
ghost use Rattle.cw_plain.specs.Conditions.{IsPartTree};
ghost use Rattle.cw_plain.specs.Plain.{plain_tree};
ghost use Rattle.cw_plain.specs.Titles.{source_by};

use crate::plainer::BookNames;
use crate::translated::plain_answers;
use cw_answers::Answers;
use cw_base::{Bytes, Memory, Span, Web};
use cw_lex::Mode;
use cw_names::Names;
use cw_secnames::{NameUses, SecNames};
use cw_tokens::{ListId, TokenStore};
use std::alloc::Global;

/// The plain text of a C part from its translation, a list of the store. Tokens print their source bytes, also those
/// that the names say; a section name prints as the book keeps it. `Memory` is the only refusal.
pub fn plain_text(
    alloc: Global,
    store: &TokenStore,
    id: ListId,
    source: &Web,
    _names: &Names,
    sec_names: &SecNames,
    uses: &NameUses,
    first: Span,
) -> Result<Bytes, Memory>
    requires { IsPartTree (text_of source.now.lines) first sec_names.now uses.now store.now.lists id.index }
    ensures { IfOk result (λ bytes. bytes ≡ plain_tree
        (source_by (scanned CPart (text_of source.now.lines) first) sec_names.now uses.now)
        (unfolded store.now.lists id.index)) }
{
    let mut answers = Answers::new_in(alloc);
    answers.scan(source.text(), first, Mode::CPart)?;
    let names = BookNames {
        kept: sec_names,
        uses,
    };
    plain_answers(alloc, &answers, names, store, id)
}
