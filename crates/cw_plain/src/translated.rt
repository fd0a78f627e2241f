//! The plain text of a C text, from the list of its translation.
ghost use Rattle.std.specs.Prelude.{◌≡◌, ◌<◌, IfOk, length};
ghost use Rattle.cw_tokens.specs.Shapes.{unfolded};
ghost use Rattle.cw_plain.specs.Plain.{plain_tree};
ghost use Rattle.cw_plain.specs.Titles.{source_by};

use crate::plainer::{BookNames, Plainer};
use cw_answers::Answers;
use cw_base::{Bytes, Memory};
use cw_tokens::{ListId, TokenStore};
use std::alloc::Global;

/// The plain text of a list whose text has these answers. It scans nothing: tokens are found among the answers.
pub(crate) fn plain_answers(
    alloc: Global,
    answers: &Answers,
    names: BookNames,
    store: &TokenStore,
    id: ListId,
) -> Result<Bytes, Memory>
    requires { id.index < length store.now.lists }
    ensures { IfOk result (λ bytes. bytes ≡ plain_tree
        (source_by answers.now names.entry.kept.now names.entry.uses.now) (unfolded store.now.lists id.index)) }
{
    let flat = store.flat_trimmed(alloc, id)?;
    let mut plainer = Plainer::over(alloc, answers, names);
    let mut out = Bytes::new_in(alloc);
    plainer.items(flat.items(), &mut out)?;
    Ok(out)
}
