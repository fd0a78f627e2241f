//! The names of categories.
ghost use Rattle.std.specs.Prelude.{◌≡◌, ◌≢◌, ◌↔◌, IsTrue, MatchOption};
ghost use Rattle.cw_logs.specs.LogText.{cat_text};

use cw_base::{ALL_CATS, Cat};

// The name of a category.
pub(crate) fn cat_text(cat: Cat) -> &'static [u8]
    ensures { result.now ≡ cat_text cat }
{
    match cat {
        Cat::RawInt => b"raw_int",
        Cat::ConstLike => b"const_like",
        Cat::Cast => b"cast",
        Cat::IntLike => b"int_like",
        Cat::IfClause => b"if_clause",
        Cat::SectionScrap => b"section_scrap",
        Cat::Exp => b"exp",
        Cat::DeclHead => b"decl_head",
        Cat::ElseLike => b"else_like",
        Cat::IfHead => b"if_head",
        Cat::Semi => b"semi",
        Cat::RawUbin => b"raw_ubin",
        Cat::Unop => b"unop",
        Cat::Binop => b"binop",
        Cat::Ubinop => b"ubinop",
        Cat::Question => b"question",
        Cat::Lpar => b"lpar",
        Cat::Rpar => b"rpar",
        Cat::Lbrace => b"lbrace",
        Cat::Rbrace => b"rbrace",
        Cat::Comma => b"comma",
        Cat::Colon => b"colon",
        Cat::StructLike => b"struct_like",
        Cat::CaseLike => b"case_like",
        Cat::ForLike => b"for_like",
        Cat::DoLike => b"do_like",
        Cat::IfLike => b"if_like",
        Cat::DefineLike => b"define_like",
        Cat::SizeofLike => b"sizeof_like",
        Cat::TypedefLike => b"typedef_like",
        Cat::Decl => b"decl",
        Cat::FnDecl => b"fn_decl",
        Cat::Function => b"function",
        Cat::Stmt => b"stmt",
        Cat::Tag => b"tag",
        Cat::StructHead => b"struct_head",
        Cat::ElseHead => b"else_head",
        Cat::Lproc => b"lproc",
        Cat::Rproc => b"rproc",
        Cat::Insert => b"insert",
        Cat::BeginArg => b"begin_arg",
        Cat::EndArg => b"end_arg",
        Cat::Dead => b"dead",
        Cat::Dot => b"dot",
        Cat::Dots => b"dots",
        Cat::Box => b"box",
        Cat::TypeofLike => b"typeof_like",
        Cat::TexLike => b"tex_like",
        Cat::Colcol => b"colcol",
        Cat::AttrHead => b"attr_head",
        Cat::Attr => b"attr",
        Cat::AlignasLike => b"alignas_like",
        Cat::HashLike => b"hash_like",
        Cat::MdefineLike => b"mdefine_like",
        Cat::Paren => b"paren",
        Cat::End => b"end",
    }
}

// Whether a category has this name.
fn is_named(cat: Cat, name: &[u8]) -> bool
    ensures { IsTrue result ↔ (name.now ≡ cat_text cat) }
{
    cat_text(cat) == name
}

// The category that a name with this first letter and of this length is likely to be. Whatever it says, the name is
// looked at.
fn likely_cat(letter: u8, length: usize) -> Cat {
    match (letter, length) {
        (b'a', _) => Cat::AlignasLike,
        (b'b', 3) => Cat::Box,
        (b'b', 5) => Cat::Binop,
        (b'b', _) => Cat::BeginArg,
        (b'c', 5) => Cat::Comma,
        (b'c', 6) => Cat::Colcol,
        (b'c', 9) => Cat::CaseLike,
        (b'c', _) => Cat::ConstLike,
        (b'd', 3) => Cat::Dot,
        (b'd', 4) => Cat::Dots,
        (b'd', 7) => Cat::DoLike,
        (b'd', _) => Cat::DefineLike,
        (b'e', 3) => Cat::Exp,
        (b'e', 9) => Cat::ElseLike,
        (b'e', _) => Cat::EndArg,
        (b'f', _) => Cat::ForLike,
        (b'h', _) => Cat::HashLike,
        (b'i', 6) => Cat::Insert,
        (b'i', 7) => Cat::IfLike,
        (b'i', _) => Cat::IntLike,
        (b'l', 4) => Cat::Lpar,
        (b'l', 5) => Cat::Lproc,
        (b'l', _) => Cat::Lbrace,
        (b'm', _) => Cat::MdefineLike,
        (b'q', _) => Cat::Question,
        (b'r', 4) => Cat::Rpar,
        (b'r', 5) => Cat::Rproc,
        (b'r', 6) => Cat::Rbrace,
        (b'r', 7) => Cat::RawInt,
        (b'r', _) => Cat::RawUbin,
        (b's', 4) => Cat::Semi,
        (b's', 13) => Cat::SectionScrap,
        (b's', _) => Cat::StructLike,
        (b't', 8) => Cat::TexLike,
        (b't', 11) => Cat::TypeofLike,
        (b't', _) => Cat::TypedefLike,
        (b'u', 4) => Cat::Unop,
        (b'u', _) => Cat::Ubinop,
        _ => Cat::End,
    }
}

// The category that has this name, of all.
fn cat_of_all(name: &[u8]) -> Option<Cat>
    ensures { MatchOption result ((cat : Cat) → cat ≢ Cat.End → name.now ≢ cat_text cat)
        (λ cat. (cat ≢ Cat.End) × (name.now ≡ cat_text cat)) }
{
    for cat in ALL_CATS {
        if is_named(cat, name) {
            return match cat {
                Cat::End => None,
                _ => Some(cat),
            };
        }
    }
    None
}

// The category that has this name.
pub(crate) fn cat_named(name: &[u8]) -> Option<Cat>
    ensures { MatchOption result ((cat : Cat) → cat ≢ Cat.End → name.now ≢ cat_text cat)
        (λ cat. (cat ≢ Cat.End) × (name.now ≡ cat_text cat)) }
{
    let likely = match name {
        [letter, ..] => likely_cat(*letter, name.len()),
        [] => Cat::End,
    };
    match likely {
        Cat::End => cat_of_all(name),
        cat if is_named(cat, name) => Some(cat),
        _ => cat_of_all(name),
    }
}
