//! Walks through a tree in its store: the lists and links that they read, and the search for an identifier.
ghost use Rattle.std.specs.Prelude.{◌≡◌, ◌+◌, ◌-◌, ◌<◌, ◌≤◌, [], ◌∷◌, length, slice_index_or, MatchOption, drop, take};
ghost use Rattle.std.specs.Prelude.{slice_get};
ghost use Rattle.cw_trees.specs.Tree.{first_ident};
ghost use Rattle.cw_tokens.specs.Shapes.{shape, unfolded};
ghost use Rattle.cw_tokens.specs.model.Stored.{cut, last_end, start_of, no_link, IsAscending, IsLinked};
ghost use Rattle.cw_tokens.specs.model.FlatItems.{IsPart};
ghost use Rattle.cw_tokens.specs.Walking.{found_name};
ghost use Rattle.cw_tokens.specs.model.Walking.{Shows, Finds, only_name_of};

use crate::flat::FlatItem;
use crate::store::Link;
use crate::token::Token;
use cw_base::Cat;
use cw_names::NameId;
use cw_trees::Control;

/// What a search for an identifier does at a token.
pub enum Sight {
    /// It has found one.
    Name(NameId, u32),
    /// It ends without one.
    Stop,
    /// It goes on in this list.
    Down(usize),
    /// It goes on behind the token.
    Pass,
}

/// Where an identifier stands.
#[derive(Clone, Copy)]
pub struct Spot {
    pub list: usize,
    pub place: usize,
    pub name: NameId,
    pub number: u32,
}

fn look(token: Token) -> Sight
    ensures { Shows token result }
{
    match token {
        Token::Ident(name, number) => Sight::Name(name, number),
        Token::Reserved(_, _, Cat::CaseLike) | Token::Control(Control::Inserted) => Sight::Stop,
        Token::List(below) => Sight::Down(below.index),
        Token::Source(..) | Token::Reserved(..) | Token::Control(_) | Token::Inner(_) =>
            Sight::Pass,
    }
}

/// Where a list begins.
pub fn start(ends: &[usize], list: usize) -> usize
    requires { list < length ends.now }
    ensures { result ≡ start_of 0 ends.now list }
{
    if list == 0 { 0 } else { ends[list - 1] }
}

fn between(tokens: &[Token], from: usize, to: usize) -> &[Token]
    requires order { from ≤ to }
    requires within { to ≤ length tokens.now }
    ensures { result.now ≡ take (to - from) (drop from tokens.now) }
{
    &tokens[from..to]
}

/// The tokens of a list.
pub fn list_at<'a>(tokens: &'a [Token], ends: &[usize], list: usize) -> &'a [Token]
    requires ascending { IsAscending 0 ends.now }
    requires within { last_end 0 ends.now ≤ length tokens.now }
    requires list { list < length ends.now }
    ensures { result.now ≡ slice_index_or (cut 0 ends.now tokens.now) list [] }
{
    between(tokens, start(ends, list), ends[list])
}

/// The name of the one token, if there is one and it is an identifier.
pub fn only_name(tokens: &[Token]) -> Option<NameId>
    ensures { result ≡ only_name_of tokens.now }
{
    if tokens.len() != 1 {
        return None;
    }
    name_of(tokens[0])
}

fn name_of(token: Token) -> Option<NameId>
    ensures { result ≡ only_name_of (token ∷ []) }
{
    match token {
        Token::Ident(name, _) => Some(name),
        Token::Source(..)
        | Token::Reserved(..)
        | Token::Control(_)
        | Token::Inner(_)
        | Token::List(_) => None,
    }
}

/// The link of a list.
pub fn link_at(links: &[Link], list: usize) -> Link
    requires { list < length links.now }
    ensures { result ≡ slice_index_or links.now list no_link }
{
    links[list]
}

/// Where the first identifier of a list's tree stands, if it has one.
pub fn find(tokens: &[Token], ends: &[usize], links: &[Link], root: usize) -> Option<Spot>
    requires ascending { IsAscending 0 ends.now }
    requires within { last_end 0 ends.now ≤ length tokens.now }
    requires linked { IsLinked (cut 0 ends.now tokens.now) links.now }
    requires links { length links.now ≡ length ends.now }
    requires root { root < length ends.now }
    ensures { MatchOption result (found_name (first_ident (unfolded (cut 0 ends.now tokens.now) root)) ≡
        None) (Finds (cut 0 ends.now tokens.now) root) }
{
    let mut list = root;
    let mut place = 0;
    loop {
        let items = list_at(tokens, ends, list);
        if place < items.len() {
            match look(items[place]) {
                Sight::Name(name, number) => {
                    return Some(Spot {
                        list,
                        place,
                        name,
                        number,
                    });
                }
                Sight::Stop => return None,
                Sight::Pass => place += 1,
                Sight::Down(below) => {
                    list = below;
                    place = 0;
                }
            }
        } else if list == root {
            return None;
        } else {
            let up = link_at(links, list);
            list = up.list;
            place = up.place;
        }
    }
}

/// What a token is in a flat list: an item of its own, or a list below it.
pub enum FlatPart {
    Leaf(FlatItem),
    Below(usize),
    InnerBelow(usize),
}

pub fn part_of(token: Token) -> FlatPart
    ensures { IsPart (shape token) result }
{
    match token {
        Token::Source(number, _) => FlatPart::Leaf(FlatItem::Source(number)),
        Token::Ident(name, number) => FlatPart::Leaf(FlatItem::Ident(name, number)),
        Token::Reserved(name, number, _) => FlatPart::Leaf(FlatItem::Reserved(name, number)),
        Token::Control(control) => FlatPart::Leaf(FlatItem::Control(control)),
        Token::Inner(below) => FlatPart::InnerBelow(below.index),
        Token::List(below) => FlatPart::Below(below.index),
    }
}

/// The token before the place to which a link leads.
pub fn token_before(tokens: &[Token], ends: &[usize], up: Link) -> Token
    requires ascending { IsAscending 0 ends.now }
    requires within { last_end 0 ends.now ≤ length tokens.now }
    requires list { up.list < length ends.now }
    requires some { 0 < up.place }
    requires place { up.place ≤ length (slice_index_or (cut 0 ends.now tokens.now) up.list []) }
    ensures { slice_get (slice_index_or (cut 0 ends.now tokens.now) up.list []) (up.place - 1) ≡ Some result }
{
    let items = list_at(tokens, ends, up.list);
    items[up.place - 1]
}
