//! The first production that fits four categories, found by masks of bits.
ghost use Rattle.std.specs.Prelude.{◌≡◌, ◌≤◌, ◌<◌, ◌&&◌, [], ◌∷◌, false, drop, take, IfSome, None};
ghost use Rattle.std.specs.List.{list_any};
ghost use Rattle.cw_base.specs.declared.category.Cat.{Cat};
ghost use Rattle.std.specs.Option.{option_map};
ghost use Rattle.cw_table.specs.Fitting.{first_of};
ghost use Rattle.cw_table.specs.Masks.{admits};
ghost use Rattle.cw_table.specs.model.Masks.{mask_of};
ghost use Rattle.cw_table.specs.Productions.{productions};

use crate::productions::ROW_COUNT;
use crate::types::RowNo;
use cw_base::Cat;

const CATS: usize = Cat::End as usize + 1;

// The productions that the first word of a set has, one for each of its bits. The second word has those behind them.
const EARLY: u8 = 128;

// A set of productions, a bit for each, the first production in the lowest bit.
#[derive(Clone, Copy)]
struct RowSet {
    early: u128,
    late: u64,
}

macro_rules! set {
    ($early:literal, $late:literal) => {
        RowSet {
            early: $early,
            late: $late,
        }
    };
}

/// The first production whose tests all admit the categories of the window; None exactly where no
/// production fits. Past the last scrap the window holds `End`.
pub fn first_production(window: [Cat; 4]) -> Option<RowNo>
    ensures first { result ≡ option_map (λ row. row.number) (first_of productions window) }
    ensures from_one { IfSome result (λ row. 1 ≤ row.number) }
    ensures to_last { IfSome result (λ row. row.number ≤ ROW_COUNT) }
{
    first_of_four(window[0], window[1], window[2], window[3])
}

/// The same of four categories that stand in no array.
#[inline(always)]
pub fn first_of_four(first: Cat, second: Cat, third: Cat, fourth: Cat) -> Option<RowNo>
    ensures first { result ≡ option_map (λ row. row.number) (first_of productions (first ∷ second ∷ third ∷ fourth ∷
        [])) }
    ensures from_one { IfSome result (λ row. 1 ≤ row.number) }
    ensures to_last { IfSome result (λ row. row.number ≤ ROW_COUNT) }
{
    let fitting = mask(first, 0).early
        & mask(second, 1).early
        & mask(third, 2).early
        & mask(fourth, 3).early;
    if fitting == 0 {
        first_late(first, second, third, fourth)
    } else {
        Some(RowNo {
            number: fitting.trailing_zeros() as u8 + 1,
        })
    }
}

// The first that fits of the productions of the second word.
#[inline(always)]
fn first_late(first: Cat, second: Cat, third: Cat, fourth: Cat) -> Option<RowNo>
    ensures first { result ≡ option_map (λ row. row.number) (first_of (drop EARLY productions) (first ∷ second ∷ third ∷
        fourth ∷ [])) }
    ensures from_one { IfSome result (λ row. 1 ≤ row.number) }
    ensures to_last { IfSome result (λ row. row.number ≤ ROW_COUNT) }
{
    let fitting = mask(first, 0).late
        & mask(second, 1).late
        & mask(third, 2).late
        & mask(fourth, 3).late;
    if fitting == 0 {
        None
    } else {
        Some(RowNo {
            number: fitting.trailing_zeros() as u8 + 1 + EARLY,
        })
    }
}

/// Whether some production admits these two categories at the first two places of its window. Where none does, no
/// production fits, whatever stands behind.
#[inline(always)]
pub fn may_fit(first: Cat, second: Cat) -> bool
    ensures some { result ≡ list_any (λ row. admits 0 first row && admits 1 second row) productions }
    ensures none { result ≡ false → (third fourth : Cat) → first_of productions (first ∷ second ∷ third ∷ fourth ∷ []) ≡
        None }
{
    let one = mask(first, 0);
    let other = mask(second, 1);
    (one.early & other.early != 0) | (one.late & other.late != 0)
}

// The productions that admit this category at this place of the window.
fn mask(cat: Cat, place: usize) -> RowSet
    requires { place < 4 }
    ensures early { result.early ≡ mask_of (take EARLY productions) place cat }
    ensures late { result.late ≡ mask_of (drop EARLY productions) place cat }
{
    MASKS[cat.number()][place]
}

// For each category, in order, and each of the four places: the productions that have no test at that place, or whose
// test admits the category.
static MASKS: [[RowSet; 4]; CATS] = [
    // RawInt
    [
        set!(0x00000000010000000000000000000005, 0x00000),
        set!(0x4010a0010d0001000000000000000000, 0x02040),
        set!(0xd3fde5214f3dcdff49f1f4fdfffd979f, 0x638d0),
        set!(0xfefdf5bf5fffffff6df7fffdffffffff, 0xf7fff),
    ],
    // ConstLike
    [
        set!(0x00000000080000000000000000000004, 0x00000),
        set!(0x404020010f0001000000000000000000, 0x02040),
        set!(0xd3fde5210f3dcdff49f1f4fdfffd979f, 0x638d0),
        set!(0xfefdf5bf5fffffff6df7fffdffffffff, 0xf7fff),
    ],
    // Cast
    [
        set!(0x00000000300000000000000000e00005, 0x08100),
        set!(0x003500010d0391010010000401022400, 0x02140),
        set!(0x52fde5210f75edff49f1f4fcf7fd979f, 0x638d4),
        set!(0xfefdf5bf5fffffff6df7fffdffffffff, 0xf7fff),
    ],
    // IntLike
    [
        set!(0x0008000000000000000000003c000005, 0x00100),
        set!(0x4030a4010d0611000000070004056000, 0x02540),
        set!(0xd3fde5214f3dcdff49f1f4fdfffd979f, 0x638d8),
        set!(0xfefdf5bf5fffffff6df7fffdffffffff, 0xf7fff),
    ],
    // IfClause
    [
        set!(0x00000002000000000f00000000000005, 0x00100),
        set!(0x001100010d0191000000000000000800, 0x02140),
        set!(0x52fde5210f3dcdff49f1f4fdf7fd979f, 0x638d4),
        set!(0xfefdf5bf5fffffff6df7fffdffffffff, 0xf7fff),
    ],
    // SectionScrap
    [
        set!(0x000020000000c0000000000000000005, 0x00000),
        set!(0x001080010d0181000000000000000000, 0x02040),
        set!(0x52fde5210f3dcdff49f1f4fdf7fd979f, 0x638d4),
        set!(0xfefdf5bf5fffffff6df7fffdffffffff, 0xf7fff),
    ],
    // Exp
    [
        set!(0x080811000000000000000000000007fd, 0x00985),
        set!(0xa437024f0d89b109f09c07011a454800, 0x03388),
        set!(0x52fded21ef35cfff49f1f4fef7fd97ff, 0xe38d4),
        set!(0xfefdf5bf5fffffff6df7fffdffffffff, 0xf7fff),
    ],
    // DeclHead
    [
        set!(0x01081000000000000000001fc0000005, 0x00116),
        set!(0x4010a0010d0011000000000000006000, 0x02540),
        set!(0x52fde5210f3dcdff49f1f4fdf7fd979f, 0x638d0),
        set!(0xfefdf5bf5fffffff6df7fffdffffffff, 0xf7fff),
    ],
    // ElseLike
    [
        set!(0x00000002000000000060000000000005, 0x00100),
        set!(0x0010a0010d0111000000000000000800, 0x02140),
        set!(0x52fde52b0f3dcdffb7f1f4fdf7fd979f, 0x638d4),
        set!(0xfefdf5bf5fffffff6df7fffdffffffff, 0xf7fff),
    ],
    // IfHead
    [
        set!(0x00000000000000007000000000000005, 0x00000),
        set!(0x001100010d0181000000000000000000, 0x02040),
        set!(0x52fde5210f3dcdff49f1f4fdf7fd979f, 0x638d4),
        set!(0xfefdf5bf5fffffff6df7fffdffffffff, 0xf7fff),
    ],
    // Semi
    [
        set!(0x00000000000001000000000000000005, 0x00000),
        set!(0x001100010d21d1020000001020800080, 0x02040),
        set!(0x52fde5210f3fcdff49f1f1fdf7fd979f, 0x638d4),
        set!(0xfefdf5b75fffffffedf7ffffffffffff, 0xf7fff),
    ],
    // RawUbin
    [
        set!(0x00000000060000000000000000000004, 0x00000),
        set!(0x000100010d0081000000000000000000, 0x02040),
        set!(0x52fde5210f3dcdff49f1f4fdf7fd979f, 0x638d4),
        set!(0xfefdf5bf5fffffff6df7fffdffffffff, 0xf7fff),
    ],
    // Unop
    [
        set!(0x00000000000000000000000000010005, 0x00100),
        set!(0x001100010d0191000000000000000810, 0x02140),
        set!(0x52fde5210f3dcdff49f1f4fdf7fd979f, 0x638d4),
        set!(0xfefdf5bf5fffffff6df7fffdffffffff, 0xf7fff),
    ],
    // Binop
    [
        set!(0x04800400000000000000000000100005, 0x08100),
        set!(0x0a1110210d0191000000000220980820, 0x82140),
        set!(0x52fde5210f3dcdff49f1f4fdf7fd969f, 0x638d4),
        set!(0xfefdf5bf5fffffff6df7fffdffffffff, 0xf7fff),
    ],
    // Ubinop
    [
        set!(0x000000800000000000000000000e0004, 0x00100),
        set!(0x000100810d4091000000000090000820, 0x02140),
        set!(0x52fde5610f7dcdff49f1f4fdf7fd979f, 0x638d4),
        set!(0xfefdf5bf5fffffff6df7fffdffffffff, 0xf7fff),
    ],
    // Question
    [
        set!(0x00000400008000000000000000000005, 0xa0100),
        set!(0x001100010d0191000000000000800800, 0x02140),
        set!(0x52fde5210f3dcdff49f1f4fdf7fd979f, 0x638d4),
        set!(0xfefdf5bf5fffffff6df7fffdffffffff, 0xf7fff),
    ],
    // Lpar
    [
        set!(0x2000004080000000000000000000f805, 0x40008),
        set!(0x001100010d0181000000000000200000, 0x02040),
        set!(0x52fde5210f35cdff49f1f4fcf7fd979f, 0x638d4),
        set!(0xfefdf5bf5fffffff6df7fffdffffffff, 0xf7fff),
    ],
    // Rpar
    [
        set!(0x00000000000000000000000000000005, 0x00000),
        set!(0x001140010d0191000000000000001000, 0x12040),
        set!(0x5effe5a10f3dcdff49f1f4fdf7ffbf9f, 0x739d4),
        set!(0xfefff5ffdfffffff6df7ffffffffffff, 0xf7fff),
    ],
    // Lbrace
    [
        set!(0x2000000040000000000f000000000005, 0x80120),
        set!(0x001088013d0191000120008800000008, 0x0e140),
        set!(0xd2fde5210f3dcdff49f1f2fdf7fd979f, 0x6b8d3),
        set!(0xfffdf5bf5fffffff6df7fffdffffffff, 0xf7fff),
    ],
    // Rbrace
    [
        set!(0x00000000000000000000000000000005, 0x00300),
        set!(0x0010c0110d0191000001100000000200, 0x02140),
        set!(0x52fde5311f3dcdff49f7fcfdf7fd979f, 0x678d4),
        set!(0xfefdffbf7fffffff6dfffffdffffffff, 0xfffff),
    ],
    // Comma
    [
        set!(0x00000000400000000000000000000005, 0x8c100),
        set!(0x081140010d1191000000000040800840, 0x02140),
        set!(0x52fde7a10f3fcdff49f9f4fdf7fdd79f, 0x638d4),
        set!(0xfefdf5ffdfffffff6df7ffffffffffff, 0xf7fff),
    ],
    // Colon
    [
        set!(0x00800020000000000000000000000005, 0x00100),
        set!(0x019100010d0191040000000210800900, 0x22140),
        set!(0x50fde5210fbdcdff49f1f4fdf7fd969f, 0x638d4),
        set!(0xfefdf5bf5fffffff6df7fffdffffffff, 0xf7fff),
    ],
    // StructLike
    [
        set!(0x00080000000000000000078000000005, 0x00100),
        set!(0x4010a0010d0011000000000004000800, 0x02140),
        set!(0xd2fde5210f3dcdff49f1f4fdfffd979f, 0x638d0),
        set!(0xfefdf5bf5fffffff6df7fffdffffffff, 0xf7fff),
    ],
    // CaseLike
    [
        set!(0x100004000000000e0000000000000005, 0x80100),
        set!(0x1010a0010d0111000000000000000800, 0x02140),
        set!(0xd2fde5210f3dcdff49f1f4fdf7fd979f, 0x638d4),
        set!(0xfefdf5bf5fffffff6df7fffdffffffff, 0xf7fff),
    ],
    // ForLike
    [
        set!(0x00000000000000010060000000000005, 0x00100),
        set!(0x101120010d0111000000000000000800, 0x02140),
        set!(0xd2fde5210f3dcdff49f1f4fdf7fd979f, 0x638d4),
        set!(0xfefdf5bf5fffffff6df7fffdffffffff, 0xf7fff),
    ],
    // DoLike
    [
        set!(0x00000008000000008000000000000005, 0x00100),
        set!(0x101120010d0111000000000000000800, 0x02140),
        set!(0xd2fde5210f3dcdff49f1f4fdf7fd979f, 0x638d4),
        set!(0xfefdf5bf5fffffff6df7fffdffffffff, 0xf7fff),
    ],
    // IfLike
    [
        set!(0x00000000000000000010000000000005, 0x00100),
        set!(0x001120010d0111000000000000000800, 0x02140),
        set!(0x52fde5210f3dcdff49f1f4fdf7fd979f, 0x638d4),
        set!(0xfefdf5bf5fffffff5bf7fffdffffffff, 0xf7fff),
    ],
    // DefineLike
    [
        set!(0x00000000000000000000000000000005, 0x00040),
        set!(0x001100010d0183000000000000000000, 0x02040),
        set!(0x52fde5210f3dcdff49f1f4fdf7fd979f, 0x638d4),
        set!(0xfefdf5bf5fffffff6df7fffdffffffff, 0xf7fff),
    ],
    // SizeofLike
    [
        set!(0x00400000000000000000000003000005, 0x00100),
        set!(0x001100010d0191000000000000000800, 0x02140),
        set!(0x52fde5210f3dcdff49f1f4fdf7fd979f, 0x638d4),
        set!(0xfefdf5bf5fffffff6df7fffdffffffff, 0xf7fff),
    ],
    // TypedefLike
    [
        set!(0x00080000007e00000000000000000005, 0x00100),
        set!(0x4010a0010d0005000000000004000800, 0x02540),
        set!(0xd2fde5210f3dcdff49f1f4fdf7fd979f, 0x638d4),
        set!(0xfefdf5bf5fffffff6df7fffdffffffff, 0xf7fff),
    ],
    // Decl
    [
        set!(0x00000012000000000000006000000005, 0x00500),
        set!(0x001100010d0191600002a82000008000, 0x02367),
        set!(0x52fde5210f3dcdff49f1f4fdf7fd979f, 0x638d0),
        set!(0xfefdf5b75fffffff6df7fffdffffffff, 0xf7fff),
    ],
    // FnDecl
    [
        set!(0x00080800000000000000600000000005, 0x00100),
        set!(0x0010a0010d0111000000000000000000, 0x02150),
        set!(0x52fde5210f3dcdff49f1f4fdf7fd979f, 0x638d4),
        set!(0xfefdf5bf5fffffff6df7fffdffffffff, 0xf7fff),
    ],
    // Function
    [
        set!(0x02000012000000000000800000000005, 0x00500),
        set!(0x001101010d0191600e42c84000000000, 0x02360),
        set!(0x52fde5210f3dcdff49f1f4fdf7fd979f, 0x638d4),
        set!(0xfefdf5b75fffffff6df7fffdffffffff, 0xf7fff),
    ],
    // Stmt
    [
        set!(0x02000012000000c00000000000000005, 0x00500),
        set!(0x001101090d0191a0fec2c84000008000, 0x02360),
        set!(0x52fdf5210f3dcdff49f1f4fdf7fd979f, 0x638d4),
        set!(0xfefdf5b75fffffff6df7fffdffffffff, 0xf7fff),
    ],
    // Tag
    [
        set!(0x00000004000000300000000000000005, 0x00100),
        set!(0x001100118d0191100000000000000800, 0x02140),
        set!(0x52fde5210f3dcdff49f1f4fdf7fd979f, 0x638d4),
        set!(0xfefdf5bf5fffffff6df7fffdffffffff, 0xf7fff),
    ],
    // StructHead
    [
        set!(0x00000200000000000000180000000005, 0x00020),
        set!(0x4010a0010d0001000000000000000000, 0x02040),
        set!(0x52fde5210f3dcdff49f1f4fdf7fd979f, 0x638d4),
        set!(0xfefdf5bf5fffffff6df7fffdffffffff, 0xf7fff),
    ],
    // ElseHead
    [
        set!(0x00000000000000000080000000000005, 0x00000),
        set!(0x001100010d0181000000000000000000, 0x02040),
        set!(0x52fde5210f3dcdff49f1f4fdf7fd979f, 0x638d4),
        set!(0xfefdf5bf5fffffff6df7fffdffffffff, 0xf7fff),
    ],
    // Lproc
    [
        set!(0xa000000000001e000000000000000005, 0x00200),
        set!(0x001100010d0181000000000000000000, 0x02040),
        set!(0x52fde5210f3dcdff49f1f4fdf7fd979f, 0x638d4),
        set!(0xfefdf5bf5fffffff6df7fffdffffffff, 0xf7fff),
    ],
    // Rproc
    [
        set!(0x00000000000000000000000000000005, 0x00000),
        set!(0x001100010d0189000000000000000000, 0x42040),
        set!(0x7efde5370f3dddff49f1f4fdf7fd979f, 0x639f4),
        set!(0xfefdf5bf5fffffff6df7fffdffffffff, 0xf7fff),
    ],
    // Insert
    [
        set!(0x40000000000100000000000000000005, 0x00000),
        set!(0x001000010d0101000000000000000001, 0x02000),
        set!(0x50fde5210f35cdff01f1f0fcf7fd969f, 0x638d0),
        set!(0xfefdf5b75fffffff49f7fffdffffffff, 0xf7fff),
    ],
    // BeginArg
    [
        set!(0x00000000000000000000000000000003, 0x00000),
        set!(0x001100010d0181000000000000000000, 0x02000),
        set!(0x52fde5210f3dcdff49f1f4fdf7fd979f, 0x638d4),
        set!(0xfefdf5bf5fffffff6df7fffdffffffff, 0xf7fff),
    ],
    // EndArg
    [
        set!(0x00000000000000000000000000000005, 0x00000),
        set!(0x001100010d0181000000000000000006, 0x02040),
        set!(0x52fde5210f3dcdff49f1f4fdf7fd979f, 0x638d4),
        set!(0xfefdf5bf5fffffff6df7fffdffffffff, 0xf7fff),
    ],
    // Dead
    [
        set!(0x00000000000000000000000000000005, 0x00000),
        set!(0x001100010d0181000000000000000000, 0x02040),
        set!(0x52fde5210f3dcdff49f1f4fdf7fd979f, 0x638d4),
        set!(0xfefdf5bf5fffffff6df7fffdffffffff, 0xf7fff),
    ],
    // Dot
    [
        set!(0x00000001000000000000000000000004, 0x00000),
        set!(0x000100014d0081000000000000000000, 0x02040),
        set!(0x52fde5210f3dcdff49f1f4fdf7fd979f, 0x638d4),
        set!(0xfefdf5bf5fffffff6df7fffdffffffff, 0xf7fff),
    ],
    // Dots
    [
        set!(0x00004000000000000000000000000005, 0x00100),
        set!(0x001100010d0181000000000000000020, 0x02040),
        set!(0x52fde5210f3dcdff49f1f4fdf7fd979f, 0x638d4),
        set!(0xfefdf5bf5fffffff6df7fffdffffffff, 0xf7fff),
    ],
    // Box
    [
        set!(0x00018000000000000000000000000005, 0x00000),
        set!(0x001080010d0181000000000000000000, 0x02040),
        set!(0x52fde5210f35cdff49f1f4fcf7fd979f, 0x638d4),
        set!(0xfefdf5bf5fffffff6df7fffdffffffff, 0xf7fff),
    ],
    // TypeofLike
    [
        set!(0x00200000000000000000000000000005, 0x00100),
        set!(0x001100010d0191000000000000000800, 0x02140),
        set!(0x52fde5210f3dcdff49f1f4fdf7fd979f, 0x638d0),
        set!(0xfefdf5bf5fffffff6df7fffdffffffff, 0xf7fff),
    ],
    // TexLike
    [
        set!(0x00000000000000000000000000000005, 0x03800),
        set!(0x001100010d0181000000000000000000, 0x02840),
        set!(0x52fde5210f35cdff49f1f4fcf7fd979f, 0x638d4),
        set!(0xfefdf5bf5fffffff6df7fffdffffffff, 0xf7fff),
    ],
    // Colcol
    [
        set!(0x00800000000000000000000000010005, 0x00000),
        set!(0x081100010d0181000000000000000820, 0x02040),
        set!(0x52fde5210f3dcdff49f1f4fdf7fd979f, 0x638d4),
        set!(0xfefdf5bf5fffffff6df7fffdffffffff, 0xf7fff),
    ],
    // AttrHead
    [
        set!(0x00020000000000000000000000000005, 0x10000),
        set!(0x001100010d0181000000000000000000, 0x02040),
        set!(0x52fde5210f3dcdff49f1f4fdf7fd979f, 0x638d4),
        set!(0xfefdf5bf5fffffff6df7fffdffffffff, 0xf7fff),
    ],
    // Attr
    [
        set!(0x00100000000000000000000000000085, 0x00100),
        set!(0x001900010d0191000000000000000000, 0x02140),
        set!(0x52fde5210f3dcdff49f1f4fdf7fd979f, 0x638d4),
        set!(0xfefdf5bf5fffffff6df7fffdffffffff, 0xf7fff),
    ],
    // AlignasLike
    [
        set!(0x00040000000000000000000000000005, 0x00100),
        set!(0x001100010d0191000000000000000800, 0x02140),
        set!(0x52fde5210f3dcdff49f1f4fdf7fd979f, 0x638d4),
        set!(0xfefdf5bf5fffffff6df7fffdffffffff, 0xf7fff),
    ],
    // HashLike
    [
        set!(0x00000000000000000000000000000005, 0x00000),
        set!(0x001100010d0185000000000000000000, 0x02040),
        set!(0x52fde5210f3dcdff49f1f4fdf7fd979f, 0x638d4),
        set!(0xfefdf5bf5fffffff6df7fffdffffffff, 0xf7fff),
    ],
    // MdefineLike
    [
        set!(0x00000000000020000000000000000005, 0x00040),
        set!(0x001100010d0181000000000000000000, 0x02040),
        set!(0x52fde5210f3dcdff49f1f4fdf7fd979f, 0x638d4),
        set!(0xfefdf5bf5fffffff6df7fffdffffffff, 0xf7fff),
    ],
    // Paren
    [
        set!(0x00000000000000000000000000000025, 0x02000),
        set!(0x003500010d0181090010000002054c00, 0x02040),
        set!(0x52fde5210f35edff49f1f4fcf7fd97ff, 0x638d4),
        set!(0xfefdf5bf5fffffff6df7fffdffffffff, 0xf7fff),
    ],
    // End
    [
        set!(0x00000000000000000000000000000000, 0x00000),
        set!(0x000140010d0081000000000000000000, 0x02040),
        set!(0x7efde5370f3dcdff49f1f4fdf7fd979f, 0x63ef4),
        set!(0xfefdf5bf5fffffff6df7ffffffffffff, 0xf7fff),
    ],
];
