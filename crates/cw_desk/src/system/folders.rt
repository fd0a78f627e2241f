//! The folders in which files are looked for.
ghost use Rattle.std.specs.Prelude.{◌≡◌, List, ℕ, [], true, IfOk};
ghost use Rattle.cw_desk.specs.Places.{places_of, says_where};

use super::environment::variable;
use crate::places::places_of;
use cw_base::{Bytes, Memory};
use std::alloc::Global;
use std::env::Env;

/// The variable whose folders, set apart by colons, are gone through for a file that isn't at its own place.
const FOLDERS: &str = "CWEBINPUTS";

/// The folders in which files are looked for that aren't at their own places: those of the variable, or of a list.
#[derive(Drop)]
pub(super) enum Folders {
    OfVariable,
    Listed(Bytes),
}

impl Folders {
    /// The places at which the file of a name is looked for that isn't at its own.
    pub(super) fn places_of<E: Env>(
        &self,
        env: &E,
        alloc: Global,
        name: &[u8],
    ) -> Result<Vec<Bytes>, Memory>
        ensures listed { (list : List ℕ) → self.now ≡ Folders.Listed list →
            IfOk result (λ places. places.items ≡ places_of list name.now) }
        ensures own { says_where name.now ≡ true → IfOk result (λ places. places.items ≡ []) }
    {
        if let Folders::Listed(list) = self {
            return places_of(alloc, list.as_slice(), name);
        }
        match variable(env, alloc, FOLDERS)? {
            Some(list) => places_of(alloc, list.as_slice(), name),
            None => Ok(Vec::new(alloc)),
        }
    }
}
