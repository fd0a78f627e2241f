//! Names as they stand in C text, behind other bytes in memory.
ghost use Rattle.std.specs.Prelude.{◌≡◌, ◌<◌, ◌++◌, [], OnOk, Some, length, slice_get};
ghost use Rattle.cw_index.specs.Index.{formula, word_bytes};
ghost use Rattle.cw_join.specs.Tokens.{item_bytes};
ghost use Rattle.cw_names.specs.Names.{Entry};
ghost use Rattle.cw_tokens.specs.declared.flat.FlatItem.TheVariants.{Reserved};
ghost use Rattle.cw_mini.specs.model.RowForms.{IsWordOf};

use cw_base::{Bytes, Memory};
use cw_index::{is_exp, is_tex_like};
use cw_join::Joiner;
use cw_names::{NameId, Names};
use cw_tokens::FlatItem;

/// Appends a name: by its category it is a macro of TeX, an identifier or a reserved word.
pub(crate) fn append_word(names: &Names, id: NameId, line: &mut Bytes) -> Result<(), Memory>
    requires { id.index < length names.now }
    ensures { (entry : Entry) → slice_get names.now id.index ≡ Some entry
        → OnOk result (line.new ≡ line.old ++ word_bytes entry.category entry.text) }
{
    let category = names.category(id);
    if is_tex_like(category) {
        return append_formula(names, id, line);
    }
    if is_exp(category) {
        return append_item(names, FlatItem::Ident(id, 0), line);
    }
    append_item(names, FlatItem::Reserved(id, 0), line)
}

// Appends a name between the dollars of a formula.
fn append_formula(names: &Names, id: NameId, line: &mut Bytes) -> Result<(), Memory>
    requires { id.index < length names.now }
    ensures { OnOk result (line.new ≡ line.old ++ formula (item_bytes names.now (Reserved id 0) [])) }
{
    line.push(b'$')?;
    append_item(names, FlatItem::Reserved(id, 0), line)?;
    line.push(b'$')
}

// Appends what an identifier or a reserved word prints where it stands alone.
fn append_item(names: &Names, item: FlatItem, line: &mut Bytes) -> Result<(), Memory>
    requires { IsWordOf (length names.now) item }
    ensures { OnOk result (line.new ≡ line.old ++ item_bytes names.now item []) }
{
    let mut joiner = Joiner::new(false);
    joiner.append(item, names, line)?;
    joiner.append_end(line)
}
