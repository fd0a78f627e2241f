//! The store of lists of tokens, with a link from each list to the one token that refers to it.
ghost use Rattle.std.specs.Prelude.{◌≡◌, ℕ, ◌+◌, ◌-◌, ◌<◌, ◌≤◌, [], ◌∷◌, ◌++◌, length, IsSome, IfSome, IfNone, IfOk};
ghost use Rattle.std.specs.Prelude.{OnOk, OnErr, slice_index_or, option_map, vec_capacity, vec_len};
ghost use Rattle.std.specs.Option.{option_to_list};
ghost use Rattle.cw_trees.specs.Tree.{first_ident, bare_name};
ghost use Rattle.cw_trees.specs.Flat.{flat, trimmed_items};
ghost use Rattle.cw_tokens.specs.Shapes.{shape, ref_of, unfolded};
ghost use Rattle.cw_tokens.specs.FlatItems.{items_are};
ghost use Rattle.cw_tokens.specs.Walking.{found_name};
ghost use Rattle.cw_tokens.specs.Reserving.{Reserves, ReservesToken};
ghost use Rattle.cw_tokens.specs.Stored.{StoredLists, MayBePushed, all_lists};
ghost use Rattle.cw_tokens.specs.model.Stored.{linked};
ghost use Rattle.cw_tokens.specs.References.{IsTied};

use crate::flat::{FlatTokens, flatten, flatten_trimmed};
use crate::token::{ListId, Token};
use crate::walk::{find, list_at, only_name, start};
use cw_base::{Cat, Memory};
use cw_names::{NameId, Names};
use std::alloc::Global;
use std::marker::Model;

/// The token that refers to a list: the list in which it stands, and the place behind it there.
#[derive(Clone, Copy, PartialEq, Eq, Debug)]
pub struct Link {
    pub list: usize,
    pub place: usize,
}

/// Lists of tokens in one vector, one behind another. A list refers to earlier lists alone, and to
/// each list at most one token refers; so a list and all below it are a tree, and joining lists copies
/// none of them.
#[derive(Drop)]
pub struct TokenStore {
    tokens: Vec<Token>,
    ends: Vec<usize>,
    links: Vec<Link>,
    // Where the list that is being built begins.
    from: usize,
    spare: usize,
    building: bool,
}

impl Model for TokenStore {
    ghost use Rattle.std.specs.Prelude.{vec_capacity};
    ghost use Rattle.cw_tokens.specs.Stored.{StoredLists};
    ghost use Rattle.cw_tokens.specs.model.Stored.{cut, built, IsStored};

    ghost Value = { StoredLists };

    ghost view = { λ s. record {
      lists = cut 0 s.ends.items s.tokens.items;
      building = built s.building s.ends.items s.tokens.items;
      spare = s.spare;
    } };

    ghost invariant = { λ s. IsStored s.building s.from s.ends.items s.tokens.items s.links.items s.spare
        (vec_capacity s.tokens) (vec_capacity s.ends) (vec_capacity s.links) };
}

impl TokenStore {
    /// A store without lists.
    pub fn new_in(alloc: Global) -> TokenStore
        ensures lists { result.lists ≡ [] }
        ensures idle { result.building ≡ None }
        ensures spare { result.spare ≡ 0 }
    {
        TokenStore {
            tokens: Vec::new(alloc),
            ends: Vec::new(alloc),
            links: Vec::new(alloc),
            from: 0,
            spare: 0,
            building: false,
        }
    }

    /// How many times `begin` and `push` can be called before the next `reserve`.
    pub fn spare(&self) -> usize
        ensures { result ≡ self.now.spare }
    {
        self.spare
    }

    /// The law of references: a list refers only to earlier lists, and to each list at most one token refers. It does
    /// nothing: what it ensures is for proofs.
    #[inline(always)]
    pub fn tied_law(&self)
        ensures { IsTied (all_lists self.now) }
    {
        let _building = self.building; // (for the proof)
    }

    /// Makes capacity for `n` calls of `begin` and `push`.
    #[inline]
    pub fn reserve(&mut self, n: usize) -> Result<(), Memory>
        ensures lists { self.new.lists ≡ self.old.lists }
        ensures building { self.new.building ≡ self.old.building }
        ensures room { OnOk result (n ≤ self.new.spare) }
        ensures grows { self.old.spare ≤ self.new.spare }
        ensures refused { OnErr result (self.new ≡ self.old) }
    {
        if n <= self.spare {
            return Ok(());
        }
        self.make_room(n)
    }

    /// The same where there is less capacity. Then there is as much as the three vectors have.
    #[inline(never)]
    fn make_room(&mut self, n: usize) -> Result<(), Memory>
        requires less { self.old.spare < n }
        ensures lists { self.new.lists ≡ self.old.lists }
        ensures building { self.new.building ≡ self.old.building }
        ensures room { OnOk result (n ≤ self.new.spare) }
        ensures grows { self.old.spare ≤ self.new.spare }
        ensures refused { OnErr result (self.new ≡ self.old) }
    {
        let Some(lists) = n.checked_add(usize::from(self.building)) else {
            return Err(Memory);
        };
        self.tokens.reserve(n)?;
        self.ends.reserve(lists)?;
        self.links.reserve(lists)?;
        let for_lists = free(&self.ends).min(free(&self.links)) - usize::from(self.building);
        self.spare = free(&self.tokens).min(for_lists);
        Ok(())
    }

    /// Begins a list.
    #[inline]
    pub fn begin(&mut self)
        requires idle { self.old.building ≡ None }
        requires room { 0 < self.old.spare }
        ensures lists { self.new.lists ≡ self.old.lists }
        ensures building { self.new.building ≡ Some [] }
        ensures spare { self.new.spare + 1 ≡ self.old.spare }
    {
        self.from = self.tokens.len();
        self.building = true;
        self.spare -= 1;
    }

    /// Puts a token behind those of the list that is being built.
    #[inline]
    pub fn push(&mut self, token: Token)
        requires building { IsSome self.old.building }
        requires room { 0 < self.old.spare }
        requires reference { MayBePushed self.old token }
        ensures lists { self.new.lists ≡ self.old.lists }
        ensures building { self.new.building ≡ option_map (λ tokens. tokens ++ token ∷ []) self.old.building }
        ensures spare { self.new.spare + 1 ≡ self.old.spare }
    {
        let place = self.tokens.len() - self.from + 1;
        let list = self.ends.len();
        set_link(token, Link { list, place }, &mut self.links);
        self.tokens.push_reserved(token);
        self.spare -= 1;
    }

    /// Ends the list that is being built, and answers its place.
    #[inline]
    pub fn finish(&mut self) -> ListId
        requires building { IsSome self.old.building }
        ensures id { result.index ≡ length self.old.lists }
        ensures lists { self.new.lists ≡ self.old.lists ++ option_to_list self.old.building }
        ensures idle { self.new.building ≡ None }
        ensures spare { self.new.spare ≡ self.old.spare }
    {
        let index = self.ends.len();
        self.ends.push_reserved(self.tokens.len());
        self.links.push_reserved(Link { list: 0, place: 0 });
        self.building = false;
        ListId { index }
    }

    /// Takes out all lists, and gives up the one that is being built.
    pub fn reset(&mut self)
        ensures lists { self.new.lists ≡ [] }
        ensures idle { self.new.building ≡ None }
        ensures spare { self.new.spare ≡ self.old.spare }
    {
        self.tokens.clear();
        self.ends.clear();
        self.links.clear();
        self.building = false;
    }

    /// The tokens of a list, in order. A list below it is one token there.
    pub fn tokens(&self, id: ListId) -> &[Token]
        requires list { id.index < length self.now.lists }
        ensures tokens { result.now ≡ slice_index_or self.now.lists id.index [] }
    {
        list_at(&self.tokens, &self.ends, id.index)
    }

    /// The items of a list's tree in order, each inner text between two brackets.
    pub fn flat(&self, alloc: Global, id: ListId) -> Result<FlatTokens, Memory>
        requires list { id.index < length self.now.lists }
        ensures items { IfOk result (λ items. items_are items ≡ flat (unfolded self.now.lists id.index)) }
    {
        let mut items = Vec::new(alloc);
        flatten(&self.tokens, &self.ends, &self.links, id.index, &mut items)?;
        Ok(FlatTokens::of(items))
    }

    /// The items of a list's tree in order, trimmed: the same as `flat` and `trim` give, in one walk.
    pub fn flat_trimmed(&self, alloc: Global, id: ListId) -> Result<FlatTokens, Memory>
        requires list { id.index < length self.now.lists }
        ensures items { IfOk result (λ items.
            items_are items ≡ trimmed_items (flat (unfolded self.now.lists id.index))) }
    {
        flatten_trimmed(&self.tokens, &self.ends, id.index, alloc)
    }

    /// The name of the first identifier of a list's tree. A reserved word like `case` and the mark
    /// `Inserted` end the search; inner texts are passed over.
    pub fn first_ident(&self, id: ListId, _names: &Names) -> Option<NameId>
        requires list { id.index < length self.now.lists }
        ensures name { result ≡ found_name (first_ident (unfolded self.now.lists id.index)) }
    {
        match find(&self.tokens, &self.ends, &self.links, id.index) {
            Some(spot) => Some(spot.name),
            None => None,
        }
    }

    /// The name of a list that is exactly one identifier.
    pub fn bare_name(&self, id: ListId) -> Option<NameId>
        requires list { id.index < length self.now.lists }
        ensures name { result ≡ option_map (λ name. record { index = name })
            (bare_name (unfolded self.now.lists id.index)) }
    {
        only_name(list_at(&self.tokens, &self.ends, id.index))
    }

    /// Turns the first identifier of a list's tree into a reserved word, in place, and answers its name.
    pub fn reserve_ident(&mut self, id: ListId, _names: &Names) -> Option<NameId>
        requires list { id.index < length self.old.lists }
        ensures name { result ≡ found_name (first_ident (unfolded self.old.lists id.index)) }
        ensures token { IfSome result (ReservesToken self.old.lists self.new.lists) }
        ensures reserves { Reserves self.old.lists self.new.lists id.index }
        ensures none { IfNone result (self.new ≡ self.old) }
        ensures building { self.new.building ≡ self.old.building }
        ensures spare { self.new.spare ≡ self.old.spare }
    {
        match find(&self.tokens, &self.ends, &self.links, id.index) {
            Some(spot) => {
                let place = start(&self.ends, spot.list) + spot.place;
                self.tokens[place] = Token::Reserved(spot.name, spot.number, Cat::RawInt);
                Some(spot.name)
            }
            None => None,
        }
    }
}

/// For how many more elements a vector has capacity.
fn free<T>(items: &Vec<T>) -> usize
    ensures { result ≡ vec_capacity items.now - vec_len items.now }
{
    items.capacity() - items.len()
}

/// Links the list to which a token refers, where it refers to one.
fn set_link(token: Token, up: Link, links: &mut Vec<Link>)
    requires { (x : ℕ) → ref_of (shape token) ≡ Some x → x < vec_len links.old }
    ensures items { links.new.items ≡ linked (ref_of (shape token)) up links.old.items }
    ensures capacity { vec_capacity links.new ≡ vec_capacity links.old }
{
    match token {
        Token::List(id) | Token::Inner(id) => links[id.index] = up,
        Token::Source(..) | Token::Ident(..) | Token::Reserved(..) | Token::Control(_) => {}
    }
}
