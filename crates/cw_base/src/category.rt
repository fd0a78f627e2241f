//! The categories of scraps, and sets of categories.
ghost use Rattle.std.specs.Prelude.{not, ◌≡◌, ◌≤◌, ◌^◌};
ghost use Rattle.cw_base.specs.Category.{in_set, leaves, meet, number_of, some_of};

/// What kind of thing a scrap is to the productions. `End` is of tests only: it stands past the last
/// scrap, and it is the last variant, so that a new category moves no other.
#[derive(Clone, Copy, PartialEq, Eq, Debug)]
pub enum Cat {
    /// A type word such as `int`.
    RawInt,
    /// `const`, `volatile` and `restrict`.
    ConstLike,
    /// A type in parentheses.
    Cast,
    /// The beginning of a declaration, such as `static int`.
    IntLike,
    /// `if` and its condition.
    IfClause,
    /// The name of a section.
    SectionScrap,
    /// An expression.
    Exp,
    /// A declaration without its end.
    DeclHead,
    /// `else`, or what takes one statement as `else` does.
    ElseLike,
    /// `if`, its condition and the brace behind it.
    IfHead,
    /// A semicolon.
    Semi,
    /// `*` and `&` before it is known whether `const` follows.
    RawUbin,
    /// An operator on one side, such as `!`.
    Unop,
    /// An operator between two expressions.
    Binop,
    /// An operator that is both, such as `-`.
    Ubinop,
    /// `?`.
    Question,
    /// `(` or `[`.
    Lpar,
    /// `)` or `]`.
    Rpar,
    /// `{`.
    Lbrace,
    /// `}`.
    Rbrace,
    /// `,`.
    Comma,
    /// `:`.
    Colon,
    /// `struct`, `union` and `enum`.
    StructLike,
    /// `case`, `return`, `goto` and their kind.
    CaseLike,
    /// `for`, `while` and `switch`.
    ForLike,
    /// `do`.
    DoLike,
    /// `if`.
    IfLike,
    /// `define` of a `#` line, for a macro without parameters.
    DefineLike,
    /// `sizeof`, `_Generic` and their kind.
    SizeofLike,
    /// `typedef`.
    TypedefLike,
    /// A whole declaration.
    Decl,
    /// The head of a function.
    FnDecl,
    /// A whole function.
    Function,
    /// A statement.
    Stmt,
    /// A label with its colon.
    Tag,
    /// `struct`, its name and its brace.
    StructHead,
    /// `else` and the brace behind it.
    ElseHead,
    /// `#` at the beginning of a `#` line.
    Lproc,
    /// The end of a `#` line.
    Rproc,
    /// What may stand anywhere, such as a comment.
    Insert,
    /// `@[`.
    BeginArg,
    /// `@]`.
    EndArg,
    /// What no row joins.
    Dead,
    /// `.`, before a field's name or between a structure and its field.
    Dot,
    /// `...`, before it is known whether an expression follows.
    Dots,
    /// Text that is set as it stands: `@t..@>` and `@=..@>`.
    Box,
    /// `typeof` and its kind, whose operand makes a type of it.
    TypeofLike,
    /// A name that is a macro of TeX, and what is set beside expressions without blanks.
    TexLike,
    /// `::`.
    Colcol,
    /// `[[`.
    AttrHead,
    /// An attribute, such as `[[nodiscard]]` or `alignas(8)`.
    Attr,
    /// `alignas` and its kind, whose operand makes an attribute of it.
    AlignasLike,
    /// The word behind the `#` of a `#` line, but for `define`.
    HashLike,
    /// `define` of a `#` line, for a macro with parameters.
    MdefineLike,
    /// An expression in parentheses or brackets.
    Paren,
    /// Stands past the last scrap; the category of no scrap.
    End,
}

/// Every category in the order of their numbers, and `End`.
pub const ALL_CATS: [Cat; Cat::End as usize + 1] = [
    Cat::RawInt,
    Cat::ConstLike,
    Cat::Cast,
    Cat::IntLike,
    Cat::IfClause,
    Cat::SectionScrap,
    Cat::Exp,
    Cat::DeclHead,
    Cat::ElseLike,
    Cat::IfHead,
    Cat::Semi,
    Cat::RawUbin,
    Cat::Unop,
    Cat::Binop,
    Cat::Ubinop,
    Cat::Question,
    Cat::Lpar,
    Cat::Rpar,
    Cat::Lbrace,
    Cat::Rbrace,
    Cat::Comma,
    Cat::Colon,
    Cat::StructLike,
    Cat::CaseLike,
    Cat::ForLike,
    Cat::DoLike,
    Cat::IfLike,
    Cat::DefineLike,
    Cat::SizeofLike,
    Cat::TypedefLike,
    Cat::Decl,
    Cat::FnDecl,
    Cat::Function,
    Cat::Stmt,
    Cat::Tag,
    Cat::StructHead,
    Cat::ElseHead,
    Cat::Lproc,
    Cat::Rproc,
    Cat::Insert,
    Cat::BeginArg,
    Cat::EndArg,
    Cat::Dead,
    Cat::Dot,
    Cat::Dots,
    Cat::Box,
    Cat::TypeofLike,
    Cat::TexLike,
    Cat::Colcol,
    Cat::AttrHead,
    Cat::Attr,
    Cat::AlignasLike,
    Cat::HashLike,
    Cat::MdefineLike,
    Cat::Paren,
    Cat::End,
];

impl Cat {
    /// The number of this category, from 0 on; that of `End` is the greatest.
    #[inline]
    pub fn number(self) -> usize
        ensures number { result ≡ number_of self }
        ensures at_most { result ≤ number_of Cat.End }
    {
        self as usize
    }

    /// The one bit that stands for this category in a `CatSet`.
    pub fn bit(self) -> u64
        ensures { result ≡ 2 ^ number_of self }
    {
        1 << self as u64
    }
}

/// A set of categories, `End` among them where it is wanted: one bit for each variant of `Cat`, the
/// first variant in the lowest bit.
#[derive(Clone, Copy, PartialEq, Eq, Debug)]
pub struct CatSet {
    /// The categories of the set; the bits above that of `End` mean nothing.
    pub bits: u64,
}

impl CatSet {
    /// No category.
    pub const EMPTY: CatSet = CatSet { bits: 0 };

    /// Every category, and `End`.
    pub const ALL: CatSet = CatSet {
        bits: (1 << (Cat::End as u64 + 1)) - 1,
    };

    /// Whether this category is in the set.
    pub fn has(self, cat: Cat) -> bool
        ensures { result ≡ in_set self cat }
    {
        self.bits & cat.bit() != 0
    }

    /// Whether some category is in both sets.
    pub fn meets(self, other: CatSet) -> bool
        ensures { result ≡ meet self other }
    {
        self.bits & other.bits & CatSet::ALL.bits != 0
    }

    /// Whether some category of this set is not in the other.
    pub fn leaves(self, other: CatSet) -> bool
        ensures { result ≡ leaves self other }
    {
        self.meets(CatSet { bits: !other.bits })
    }

    /// Whether no category is in the set.
    pub fn is_empty(self) -> bool
        ensures { result ≡ not (some_of self) }
    {
        !self.meets(CatSet::ALL)
    }
}
