//! The ranks of categories: each production lowers the weight that they make up.
ghost use Rattle.std.specs.Prelude.{◌≡◌, ◌≢◌};
ghost use Rattle.cw_base.specs.Category as spec;

use cw_base::Cat;

/// The rank of a category, from 0 to 3: a scrap weighs 4 and its rank, and each production lowers the
/// weight. A scrap that is exactly one identifier and an expression has rank 4 in place of this.
pub fn rank(cat: Cat) -> u8
    requires { cat ≢ Cat.End }
    ensures { result ≡ spec.rank cat }
{
    rank_of(cat)
}

pub(crate) fn rank_of(cat: Cat) -> u8
    ensures { result ≡ spec.rank cat }
{
    match cat {
        Cat::RawInt | Cat::ConstLike | Cat::Dots | Cat::Box => 3,
        Cat::Cast | Cat::IntLike | Cat::IfClause | Cat::SectionScrap | Cat::TexLike | Cat::Paren =>
            2,
        Cat::Exp
        | Cat::DeclHead
        | Cat::ElseLike
        | Cat::IfHead
        | Cat::Semi
        | Cat::RawUbin
        | Cat::Dot
        | Cat::ForLike
        | Cat::DefineLike
        | Cat::MdefineLike
        | Cat::Insert => 1,
        _ => 0,
    }
}
