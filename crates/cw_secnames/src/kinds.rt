//! Small values: the kinds of names and references, and what entering a name answers.
ghost use Rattle.std.specs.Prelude.{◌≡◌};
ghost use Rattle.cw_secnames.specs.Kept.{same_name_kind};

/// The two kinds of section names, which never match each other.
#[derive(Clone, Copy, PartialEq, Eq, Debug)]
pub enum SecKind {
    /// A name of `@<`.
    Named,
    /// A name of `@(`.
    File,
}

/// How a section refers to a section name.
#[derive(Clone, Copy, PartialEq, Eq, Debug)]
pub enum RefKind {
    Defined,
    Used,
    Cited,
}

/// The position of a section name in its list.
#[derive(Clone, Copy, PartialEq, Eq, Debug)]
pub struct SecId {
    pub index: usize,
}

/// What became of a name that was entered.
#[derive(Clone, Copy, PartialEq, Eq, Debug)]
pub enum Entered {
    /// It stands for a name that is kept.
    Known(SecId),
    /// It is kept from now on, as the last one.
    New(SecId),
    /// A prefix of two or more names, of which these were entered first.
    Ambiguous(SecId, SecId),
    /// It conflicts with this name.
    Conflict(SecId),
}

/// The earliest of the names that pass a test, where there are any: what decides how a prefix is entered.
#[derive(Clone, Copy, PartialEq, Eq, Debug)]
pub enum Earliest {
    Nobody,
    /// One name alone passes.
    One(usize),
    /// Several names pass; these two were entered first.
    Several(usize, usize),
}

impl SecKind {
    /// Whether two kinds are the same.
    pub fn is(self, other: SecKind) -> bool
        ensures { result ≡ same_name_kind self other }
    {
        match self {
            SecKind::Named => matches!(other, SecKind::Named),
            SecKind::File => matches!(other, SecKind::File),
        }
    }
}
