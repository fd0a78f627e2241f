//! What a name is: its kind and its text, by which it is found, and its place in the list.
ghost use Rattle.std.specs.Prelude.{◌≡◌, ◌&&◌, [], ◌∷◌, nat_eq};
ghost use Rattle.std.proofs.Common.{◌∙◌, ap, rules};
ghost use Rattle.std.specs.Cmp.Lexicographic.{pointwise};
ghost use Rattle.cw_names.specs.Names.{same_kind};
ghost use Rattle.cw_names.specs.model.Inside.{is_wanted};
ghost use Rattle.cw_names.specs.model.Wanting.{alike, same_text};

use indexmap::Equivalent;
use std::hash::{Hash, Hasher};

/// What a name is: an identifier, or an index entry of one of three kinds.
#[derive(Clone, Copy, PartialEq, Eq, Hash, Debug)]
pub enum EntryKind {
    Ident,
    Roman,
    Typewriter,
    User,
}

impl EntryKind {
    // Whether it is this kind.
    #[inline(always)]
    pub(crate) fn is(self, kind: EntryKind) -> bool
        ensures { result ≡ same_kind self kind }
    {
        self == kind
    }
}

/// The position of a name in its list.
#[derive(Clone, Copy, PartialEq, Eq, Debug)]
pub struct NameId {
    pub index: usize,
}

/// What a name is found by.
#[derive(PartialEq, Eq, Drop)]
pub(crate) struct Key {
    pub kind: EntryKind,
    pub text: Vec<u8>,
}

// The text is hashed as a whole. The few kinds of one text have the same hash.
impl Hash for Key {
    ghost hash_input = { λ key. key.text.items ∷ [] };

    ghost respects_eq = { λ x y. same_text _ x.text.items y.text.items };

    fn hash<H: Hasher>(&self, state: &mut H) {
        state.write(self.text.as_slice());
    }
}

/// A name that is looked for, by a text that lies elsewhere.
#[derive(Clone, Copy, PartialEq, Eq)]
pub(crate) struct NameQuery<'a> {
    pub kind: EntryKind,
    pub text: &'a [u8],
}

impl<'a> Hash for NameQuery<'a> {
    ghost hash_input = { λ wanted. wanted.text.now ∷ [] };

    ghost respects_eq = { λ x y. same_text _ x.text.now y.text.now };

    fn hash<H: Hasher>(&self, state: &mut H) {
        state.write(self.text);
    }
}

impl<'a> Equivalent<Key> for NameQuery<'a> {
    ghost equivalent = { is_wanted };

    ghost respects_hash = { alike (λ kind text. text ∷ []) };

    ghost respects_eq = { λ q x y h. alike (λ kind text. same_kind kind y.kind && pointwise nat_eq text y.text.items) q
        x h ∙ ap (λ b. b && pointwise nat_eq x.text.items y.text.items) (Prim.search rules) };

    fn equivalent(&self, key: &Key) -> bool {
        self.kind == key.kind && self.text == key.text.as_slice()
    }
}
