//! The leaf lines of scraps, made from the tokens of their lists.
ghost use Rattle.std.specs.Prelude.{◌≡◌, ◌<◌, IfOk, length, map, option_map, All};
ghost use Rattle.cw_leaves.specs.LeafLines.{kind_by, said};
ghost use Rattle.cw_leaves.specs.Sights.{told_by};
ghost use Rattle.cw_trees.specs.Tree.{search_word};
ghost use Rattle.cw_tokens.specs.model.Ahead.{RefersWithin};
ghost use Rattle.cw_tokens.specs.Shapes.{shape, unfolded};
ghost use Rattle.cw_scraps.specs.Lines.{scraps_of};
ghost use Rattle.cw_leaves.specs.Spelling.{line_by, line_of};
ghost use Rattle.cw_log.specs.model.Telling.{token_said, IsSaid};

use cw_base::{Cat, Memory, Silent, Steps};
use cw_leaves::{LeafKind, LeafLine, LeafLines, NameList};
use cw_names::NameId;
use cw_scraps::ScrapLine;
use cw_tokens::{ListId, Token, TokenStore};
use std::alloc::Global;

// Whether a reserved word of this category ends the names.
fn is_case_like(cat: Cat) -> bool
    ensures { result ≡ (told_by (search_word cat)).stops }
{
    matches!(cat, Cat::CaseLike)
}

// Puts the names that a token says behind others: whether it ends them. A reserved word has the category that its token
// was made with.
#[cycle(saying)]
fn say_token(token: Token, store: &TokenStore, names: &mut Vec<NameId>) -> Result<bool, Memory>
    requires { RefersWithin (length store.now.lists) token }
    ensures { IfOk result (λ stops.
        IsSaid (token_said store.now.lists (shape token)) names.old.items names.new.items stops) }
{
    match token {
        Token::Ident(name, _) => {
            names.push(name)?;
            Ok(false)
        }
        Token::Reserved(_, _, cat) => Ok(is_case_like(cat)),
        Token::List(below) => say(below, store, names),
        Token::Source(..) | Token::Control(_) | Token::Inner(_) => Ok(false),
    }
}

// The same of the tokens of a list, up to the first that ends the names.
#[cycle(saying)]
fn say(list: ListId, store: &TokenStore, names: &mut Vec<NameId>) -> Result<bool, Memory>
    requires { list.index < length store.now.lists }
    ensures { IfOk result (λ stops.
        IsSaid (said (unfolded store.now.lists list.index)) names.old.items names.new.items stops) }
{
    store.tied_law(); // (for the proof)
    for token in store.tokens(list) {
        if say_token(*token, store, names)? {
            return Ok(true);
        }
    }
    Ok(false)
}

// The kind of a scrap that is this identifier, or has these.
fn kind_of(bare: Option<NameId>, stops: bool, names: &[NameId]) -> LeafKind
    ensures { result ≡ kind_by (option_map (λ id. id.index) bare) stops (map (λ id. id.index) names.now) }
{
    if bare.is_some() {
        LeafKind::B
    } else if stops {
        LeafKind::C
    } else if names.is_empty() {
        LeafKind::S
    } else {
        LeafKind::I
    }
}

/// The leaf line of a scrap of this category and list. Its names stand in it by their places. A word like `case` is one
/// whose token was made so, whatever its name is now.
pub fn leaf_line(
    alloc: Global,
    cat: Cat,
    list: ListId,
    store: &TokenStore,
) -> Result<LeafLine, Memory>
    requires { list.index < length store.now.lists }
    ensures { IfOk result (λ line. line ≡ line_by cat (unfolded store.now.lists list.index)) }
{
    let mut names = Vec::new(alloc);
    let stops = say(list, store, &mut names)?;
    let kind = kind_of(store.bare_name(list), stops, names.as_slice());
    Ok(LeafLine {
        kind,
        cat,
        names: NameList::from_vec(names),
    })
}

/// The leaf lines of the scraps of a line.
pub fn leaf_lines(alloc: Global, line: &ScrapLine, store: &TokenStore) -> Result<LeafLines, Memory>
    requires { All (λ entry. entry.list.index < length store.now.lists) line.now }
    ensures { IfOk result (λ lines. lines ≡ map line_of (scraps_of store.now.lists line.now)) }
{
    let mut lines = Vec::new(alloc);
    let mut uncounted = Steps::<Silent>::new();
    for i in 0..line.len() {
        let cat = line.cat_at(i, &mut uncounted);
        let leaf = leaf_line(alloc, cat, line.part_at(i).list, store)?;
        lines.push(leaf)?;
    }
    Ok(LeafLines::from_vec(lines))
}
