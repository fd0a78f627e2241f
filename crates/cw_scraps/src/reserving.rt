//! Reserving: identifiers of one name become reserved words.
ghost use Rattle.std.specs.Prelude.{◌≡◌, ℕ, ◌+◌, ◌-◌, ◌<◌, ◌≤◌, ◌++◌, [], ◌∷◌, ◌&&◌, length, take, drop, map};
ghost use Rattle.std.specs.Prelude.{option_map};
ghost use Rattle.std.specs.Prelude.{nat_eq, false};
ghost use Rattle.std.specs.Option.{option_map_or};
ghost use Rattle.cw_table.specs.Rewriting.{search_in, reserved_at, bolded_at};
ghost use Rattle.cw_tokens.specs.References.{IsTied};
ghost use Rattle.cw_tokens.specs.Walking.{found_name};
ghost use Rattle.cw_scraps.specs.Lines.{seen, scraps_of, roots_of, AreRoots};
ghost use Rattle.cw_scraps.specs.model.Changing.{Changes};
ghost use Rattle.cw_scraps.specs.model.Turning.{named_by};
ghost use Rattle.cw_scraps.specs.Applying.{looked_at};

use crate::line::{LineEntry, ScrapLine};
use cw_base::{Cat, Ledger, Steps};
use cw_names::{NameId, Names};
use cw_tokens::TokenStore;

/// The first identifier of the scrap that a row names, if it names one.
pub fn named_ident(
    line: &ScrapLine,
    place: usize,
    named: Option<u8>,
    names: &Names,
    store: &TokenStore,
) -> Option<NameId>
    requires named { (k : ℕ) → named ≡ Some k → place + k < length line.now }
    requires roots { AreRoots store.now.lists (roots_of line.now) }
    ensures { result ≡ found_name (search_in named (drop place (scraps_of store.now.lists line.now))) }
{
    let _length = line.len(); // (for the proof)
    match named {
        Some(k) => store.first_ident(line.entry(place + k as usize).list, names),
        None => None,
    }
}

/// Reserves the first identifier of the scrap that a row names, if it names one.
fn reserve_named(
    line: &ScrapLine,
    place: usize,
    named: Option<u8>,
    names: &Names,
    store: &mut TokenStore,
) -> Option<NameId>
    requires named { (k : ℕ) → named ≡ Some k → place + k < length line.now }
    requires idle { store.old.building ≡ None }
    requires roots { AreRoots store.old.lists (roots_of line.now) }
    ensures name { result ≡ found_name (search_in named (drop place (scraps_of store.old.lists line.now))) }
    ensures scraps { scraps_of store.new.lists line.now ≡ take place (scraps_of store.old.lists line.now) ++
        reserved_at named (drop place (scraps_of store.old.lists line.now)) }
    ensures lists { Changes store.old.lists store.new.lists (roots_of line.now) }
    ensures tied { IsTied store.old.lists }
    ensures idle { store.new.building ≡ None }
    ensures spare { store.new.spare ≡ store.old.spare }
{
    let _length = line.len(); // (for the proof)
    store.tied_law(); // (for the proof)
    match named {
        Some(k) => store.reserve_ident(line.entry(place + k as usize).list, names),
        None => None,
    }
}

/// Reserves the scrap that a row names, if it names one and that scrap is exactly an identifier.
fn bold_named(
    line: &ScrapLine,
    place: usize,
    named: Option<u8>,
    names: &Names,
    store: &mut TokenStore,
)
    requires named { (k : ℕ) → named ≡ Some k → place + k < length line.now }
    requires idle { store.old.building ≡ None }
    requires roots { AreRoots store.old.lists (roots_of line.now) }
    ensures scraps { scraps_of store.new.lists line.now ≡ take place (scraps_of store.old.lists line.now) ++
        bolded_at named (drop place (scraps_of store.old.lists line.now)) }
    ensures lists { Changes store.old.lists store.new.lists (roots_of line.now) }
    ensures idle { store.new.building ≡ None }
    ensures spare { store.new.spare ≡ store.old.spare }
{
    let _length = line.len(); // (for the proof)
    store.tied_law(); // (for the proof)
    match named {
        Some(k) => {
            let list = line.entry(place + k as usize).list;
            if store.bare_name(list).is_some() {
                let _name = store.reserve_ident(list, names);
            }
        }
        None => {}
    }
}

/// Reserves the first identifier of a scrap that a row names, and answers its name; and another scrap that it names,
/// if that is exactly an identifier.
pub fn reserve_words(
    line: &ScrapLine,
    place: usize,
    reserve: Option<u8>,
    bold: Option<u8>,
    names: &Names,
    store: &mut TokenStore,
) -> Option<NameId>
    requires place { place ≤ length line.now }
    requires reserve { (k : ℕ) → reserve ≡ Some k → place + k < length line.now }
    requires bold { (k : ℕ) → bold ≡ Some k → place + k < length line.now }
    requires idle { store.old.building ≡ None }
    requires roots { AreRoots store.old.lists (roots_of line.now) }
    ensures name { result ≡ found_name (search_in reserve (drop place (scraps_of store.old.lists line.now))) }
    ensures scraps { scraps_of store.new.lists line.now ≡ take place (scraps_of store.old.lists line.now) ++
        bolded_at bold (reserved_at reserve (drop place (scraps_of store.old.lists line.now))) }
    ensures lists { Changes store.old.lists store.new.lists (roots_of line.now) }
    ensures tied { IsTied store.old.lists }
    ensures idle { store.new.building ≡ None }
    ensures spare { store.new.spare ≡ store.old.spare }
{
    let reserved = reserve_named(line, place, reserve, names, store);
    bold_named(line, place, bold, names, store);
    reserved
}

fn has_name(bare: Option<NameId>, name: NameId) -> bool
    ensures { result ≡ option_map_or (λ bare. nat_eq bare name.index) (option_map (λ id. id.index) bare) false }
{
    match bare {
        Some(bare) => bare.index == name.index,
        None => false,
    }
}

/// Turns a scrap into a type if it is exactly an identifier of this name.
fn reserve_bare(
    entry: LineEntry,
    name: Option<NameId>,
    names: &Names,
    store: &mut TokenStore,
) -> LineEntry
    requires list { entry.list.index < length store.old.lists }
    requires idle { store.old.building ≡ None }
    ensures scrap { seen store.new.lists result ≡ named_by name (seen store.old.lists entry) }
    ensures list { result.list ≡ entry.list }
    ensures lists { Changes store.old.lists store.new.lists (entry.list.index ∷ []) }
    ensures idle { store.new.building ≡ None }
    ensures spare { store.new.spare ≡ store.old.spare }
{
    if let Some(name) = name {
        if entry.cat == Cat::Exp && has_name(store.bare_name(entry.list), name) {
            let _name = store.reserve_ident(entry.list, names);
            return LineEntry {
                cat: Cat::RawInt,
                list: entry.list,
                left: entry.left,
                right: entry.right,
            };
        }
    }
    entry
}

/// Turns the scraps from a place on into types that are exactly an identifier of this name. It counts
/// one step for each.
#[inline(never)]
pub fn reserve_right<L: Ledger>(
    line: &mut ScrapLine,
    start: usize,
    name: Option<NameId>,
    names: &Names,
    store: &mut TokenStore,
    steps: &mut Steps<L>,
)
    requires start { start ≤ length line.old }
    requires idle { store.old.building ≡ None }
    requires roots { AreRoots store.old.lists (roots_of line.old) }
    ensures scraps { scraps_of store.new.lists line.new ≡ take start (scraps_of store.old.lists line.old) ++
        map (named_by name) (drop start (scraps_of store.old.lists line.old)) }
    ensures same_roots { roots_of line.new ≡ roots_of line.old }
    ensures lists { Changes store.old.lists store.new.lists (roots_of line.old) }
    ensures idle { store.new.building ≡ None }
    ensures spare { store.new.spare ≡ store.old.spare }
    ensures steps { steps.new ≡ steps.old + (length line.old - start) }
{
    store.tied_law(); // (for the proof)
    for i in start..line.len() {
        steps.tick();
        let entry = reserve_bare(line.entry(i), name, names, store);
        line.put(i, entry);
    }
}

/// What turns the scraps to the right of a production: the scrap that its row names, if it names one, and the name
/// that was reserved in it.
#[derive(Clone, Copy)]
pub struct Turning {
    /// The scrap that the row names.
    pub named: Option<u8>,
    /// The name that was reserved in it.
    pub name: Option<NameId>,
}

/// The same, where the row names a scrap; else nothing changes.
#[inline(always)]
pub fn turn_right<L: Ledger>(
    line: &mut ScrapLine,
    start: usize,
    turning: Turning,
    names: &Names,
    store: &mut TokenStore,
    steps: &mut Steps<L>,
)
    requires start { start ≤ length line.old }
    requires unnamed { turning.named ≡ None → turning.name ≡ None }
    requires idle { store.old.building ≡ None }
    requires roots { AreRoots store.old.lists (roots_of line.old) }
    ensures scraps { scraps_of store.new.lists line.new ≡ take start (scraps_of store.old.lists line.old) ++
        map (named_by turning.name) (drop start (scraps_of store.old.lists line.old)) }
    ensures same_roots { roots_of line.new ≡ roots_of line.old }
    ensures lists { Changes store.old.lists store.new.lists (roots_of line.old) }
    ensures idle { store.new.building ≡ None }
    ensures spare { store.new.spare ≡ store.old.spare }
    ensures steps { steps.new ≡ steps.old + looked_at turning.named (length line.old - start) }
{
    match turning.named {
        Some(_) => reserve_right(line, start, turning.name, names, store, steps),
        None => {}
    }
}
