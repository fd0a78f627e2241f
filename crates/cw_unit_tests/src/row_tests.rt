//! Tests that apply each production once.
ghost use Rattle.std.specs.Prelude.{◌≡◌, ◌<◌, ◌≤◌, true, length, drop, IfOk, IfSome, OnOk};
ghost use Rattle.cw_table.specs.Fitting.{row_fits};
ghost use Rattle.cw_table.specs.Productions.{productions};
ghost use Rattle.cw_scraps.specs.Applying.{row_of};
ghost use Rattle.cw_scraps.specs.model.Inserting.{entry_cats};
ghost use Rattle.cw_scraps.specs.Leaves.{MakesLeaf};
ghost use Rattle.cw_scraps.specs.Lines.{IsSoundLine};

use cw_base::{Cat, Flags, Kept, MathMode, Memory, Span, Steps};
use cw_lex::{Directive, Sign, Tok, TokKind};
use cw_names::{EntryKind, NameId, Names};
use cw_scraps::{Marks, ScrapLine, scrap_of};
use cw_table::{ROW_COUNT, RowNo, first_production, table};
use cw_tokens::{FlatItem, FlatTokens, TokenStore};
use cw_trees::Control;
use std::alloc::Global;
use std::test::Fail;

// For each production, in order: categories before which it is the first that fits, the first scrap that it replaces,
// how many scraps are left, and the category and the translation of the new one. In a translation a digit stands for a
// scrap, and as in the table `_` for a blank, Y, F and B for breaks, N for a cancel, U for a backup, W for a wall, `>`
// and `<` for indents, O for the optional break of cost 9, T for a thin space, `{`, `}` and m for braces and a
// relation; I for the mark; `$` for the toggle into math.
macro_rules! rows {
    ($($row:literal: [$($test:ident)*] $at:literal $left:literal $cat:ident $bytes:literal;)*) => {
        [$(($row, &[$(Cat::$test),*], $at, $left, Cat::$cat, $bytes)),*]
    };
}

const FROM_1: [(u8, &[Cat], usize, usize, Cat, &[u8]); 12] = rows! {
    1: [Stmt Insert] 0 1 Stmt b"01";
    2: [BeginArg EndArg] 0 1 Exp b"01";
    3: [Comma EndArg] 0 1 EndArg b"01";
    4: [Exp Lbrace] 0 2 FnDecl b"WN>>0";
    5: [Exp Unop] 0 1 Exp b"01";
    6: [Exp Binop Paren] 0 1 Exp b"012";
    7: [Exp Comma Paren] 0 1 Exp b"01O2";
    8: [Exp Semi] 0 1 Stmt b"01";
    9: [Exp Colon] 0 1 Tag b"0WN1";
    10: [Exp Rbrace] 0 2 Stmt b"0";
    11: [Exp Paren] 0 1 Exp b"01";
    12: [Lpar CaseLike Rpar] 0 1 Paren b"012";
};

const FROM_13: [(u8, &[Cat], usize, usize, Cat, &[u8]); 12] = rows! {
    13: [Lpar Rpar] 0 1 Paren b"0T1";
    14: [Lpar IntLike Rpar] 0 1 Cast b"012";
    15: [Lpar Paren Comma] 0 1 Lpar b"012O";
    16: [Lpar Stmt] 0 1 Lpar b"01_";
    17: [Unop Paren] 0 1 Paren b"01";
    18: [Ubinop Cast Rpar] 0 2 Cast b"{0}1";
    19: [Ubinop Paren] 0 1 Paren b"{0}1";
    20: [Ubinop Binop] 0 1 Binop b"m0{1}}";
    21: [Binop Binop] 0 1 Binop b"m{0}{1}}";
    22: [Cast Lpar] 0 1 Lpar b"01";
    23: [Cast Exp] 0 1 Exp b"0_1";
    24: [Cast Semi] 0 2 Exp b"0";
};

const FROM_25: [(u8, &[Cat], usize, usize, Cat, &[u8]); 12] = rows! {
    25: [SizeofLike Cast] 0 1 Exp b"01";
    26: [SizeofLike Paren] 0 1 Exp b"0_1";
    27: [IntLike TypedefLike] 0 1 TypedefLike b"0_1";
    28: [IntLike Exp ConstLike] 0 2 IntLike b"0_1";
    29: [IntLike Exp] 0 2 DeclHead b"0_";
    30: [IntLike Semi] 0 2 DeclHead b"0";
    31: [DeclHead Comma] 0 1 DeclHead b"01_";
    32: [DeclHead Ubinop] 0 1 DeclHead b"0{1}";
    33: [DeclHead Exp Semi] 0 2 DeclHead b"01";
    34: [DeclHead Binop Exp Semi] 0 2 DeclHead b"012";
    35: [DeclHead Cast] 0 1 DeclHead b"01";
    36: [DeclHead Lbrace] 0 2 FnDecl b"W>>0";
};

const FROM_37: [(u8, &[Cat], usize, usize, Cat, &[u8]); 12] = rows! {
    37: [DeclHead Semi] 0 1 Decl b"01";
    38: [Decl Decl] 0 1 Decl b"0F1";
    39: [Decl Stmt] 0 1 Stmt b"0B1";
    40: [StructLike Lbrace] 0 1 StructHead b"0_1";
    41: [StructLike Exp Semi] 0 2 DeclHead b"0_1";
    42: [StructLike Exp Lbrace] 0 1 StructHead b"0_1_2";
    43: [StructLike Exp Comma] 0 2 IntLike b"0_1";
    44: [StructHead Decl Rbrace] 0 1 IntLike b"0>F1<F2";
    45: [StructHead Rbrace] 0 1 IntLike b"0T1";
    46: [FnDecl Decl] 0 1 FnDecl b"0F1";
    47: [FnDecl Stmt] 0 1 Function b"0<<F1";
    48: [Function Decl] 0 1 Decl b"0B1";
};

const FROM_49: [(u8, &[Cat], usize, usize, Cat, &[u8]); 12] = rows! {
    49: [Lbrace Rbrace] 0 1 Stmt b"0T1";
    50: [Lbrace Stmt Rbrace] 0 1 Stmt b"F0>F1FU2<F";
    51: [Lbrace Exp Rbrace] 0 1 Exp b"012";
    52: [Lbrace Exp Comma Rbrace] 0 1 Exp b"0123";
    53: [IfLike Paren] 0 1 IfClause b"0_1";
    54: [ElseLike Lbrace] 0 2 ElseHead b"0";
    55: [ElseLike Stmt] 0 1 Stmt b"F0Y>1<F";
    56: [ElseHead Exp] 0 1 Stmt b"F0YWN1F";
    57: [IfClause Lbrace] 0 2 IfHead b"0";
    58: [IfClause Stmt ElseLike IfLike] 0 1 IfLike b"F0Y>1<F2_3";
    59: [IfClause Stmt ElseLike Stmt] 0 2 ElseLike b"F0Y>1<F2";
    60: [IfClause Stmt Stmt] 0 3 ElseLike b"0";
};

const FROM_61: [(u8, &[Cat], usize, usize, Cat, &[u8]); 12] = rows! {
    61: [IfHead Exp ElseLike IfLike] 0 1 IfLike b"F0YWN1F2_3";
    62: [IfHead Stmt ElseLike Stmt] 0 2 ElseLike b"F0YWN1F2";
    63: [IfHead Stmt Stmt] 0 3 ElseHead b"0";
    64: [DoLike Stmt ElseLike Semi] 0 1 Stmt b"0YWN1NWY23";
    65: [ForLike Paren] 0 1 ElseLike b"0_1";
    66: [CaseLike Semi] 0 1 Stmt b"01";
    67: [CaseLike Colon] 0 1 Tag b"01";
    68: [CaseLike Paren] 0 1 Exp b"0_1";
    69: [Tag Tag] 0 1 Tag b"0Y1";
    70: [Tag Function] 0 1 Function b"FU0Y1";
    71: [Stmt Decl] 0 1 Decl b"0B1";
    72: [Stmt Stmt] 0 1 Stmt b"0F1";
};

const FROM_73: [(u8, &[Cat], usize, usize, Cat, &[u8]); 10] = rows! {
    73: [Semi] 0 1 Stmt b"_0";
    74: [Lproc DefineLike Exp] 0 1 Lproc b"01_2Y";
    75: [Lproc HashLike] 0 1 Lproc b"01";
    76: [Lproc Rproc] 0 1 Insert b"I01";
    77: [Lproc Rbrace Rproc] 0 1 Insert b"I0_12";
    78: [MdefineLike Exp Paren] 0 1 HashLike b"0_12Y";
    79: [SectionScrap Semi] 0 1 Stmt b"01F";
    80: [SectionScrap] 0 1 Exp b"0";
    81: [Insert Decl] 0 1 Decl b"01";
    82: [TypedefLike IntLike Comma] 0 2 TypedefLike b"0_1";
};

const FROM_83: [(u8, &[Cat], usize, usize, Cat, &[u8]); 10] = rows! {
    83: [TypedefLike IntLike] 0 1 TypedefLike b"0_1";
    84: [TypedefLike Exp Semi] 0 2 TypedefLike b"0_1";
    85: [TypedefLike Comma] 0 1 TypedefLike b"01_";
    86: [TypedefLike Semi] 0 1 Decl b"01";
    87: [TypedefLike Ubinop Cast] 1 2 Cast b"{1}2";
    88: [Question Exp Colon] 0 1 Binop b"012";
    89: [RawInt] 0 1 IntLike b"0";
    90: [RawUbin ConstLike] 0 1 RawUbin b"01TT";
    91: [RawUbin] 0 1 Ubinop b"0";
    92: [ConstLike] 0 1 IntLike b"0";
};

const FROM_93: [(u8, &[Cat], usize, usize, Cat, &[u8]); 5] = rows! {
    93: [Cast Lbrace Rbrace] 0 1 Exp b"01T2";
    94: [Cast Lbrace Exp Rbrace] 0 1 Exp b"0123";
    95: [Comma Dot IntLike] 1 2 Exp b"{1}2";
    96: [Lpar Tag Exp Rpar] 1 3 Exp b"1_2";
    97: [Dot] 0 1 Binop b"0";
};

const FROM_98: [(u8, &[Cat], usize, usize, Cat, &[u8]); 10] = rows! {
    98: [Stmt Exp] 1 2 Stmt b"1";
    99: [Tag Exp] 0 1 Exp b"0_1";
    100: [DoLike Exp ElseLike Comma] 0 2 Stmt b"0YWN1NWY2";
    101: [Stmt Rbrace] 0 1 Stmt b"0FU1";
    102: [Colon Binop] 0 1 Binop b"0m1}";
    103: [Lpar Exp Ubinop Comma] 1 3 DeclHead b"1_${2}";
    104: [Ubinop Ubinop Rpar] 0 2 Ubinop b"{0}{1}";
    105: [Exp Function] 0 1 Function b"0F1";
    106: [StructHead Exp Comma Rbrace] 1 3 Stmt b"12";
    107: [CaseLike IntLike] 1 2 Exp b"1";
};

const FROM_108: [(u8, &[Cat], usize, usize, Cat, &[u8]); 11] = rows! {
    108: [FnDecl Lbrace Exp Rbrace] 1 2 Stmt b"F1>F2FU3<F";
    109: [DeclHead Binop Stmt] 0 1 DeclHead b"012";
    110: [SectionScrap ElseLike] 0 2 Stmt b"0F";
    111: [Dots Rpar] 0 2 IntLike b"0";
    112: [Box SectionScrap] 0 1 SectionScrap b"01";
    113: [Box Semi] 0 2 TexLike b"0";
    114: [AttrHead Exp Rpar Rpar] 0 1 Attr b"0123";
    115: [AlignasLike Paren] 0 1 Attr b"01";
    116: [TypedefLike Attr] 0 1 TypedefLike b"0_1";
    117: [Attr StructLike] 0 1 StructLike b"0_1";
    118: [TypeofLike Paren] 0 1 IntLike b"0_1";
};

const FROM_119: [(u8, &[Cat], usize, usize, Cat, &[u8]); 10] = rows! {
    119: [SizeofLike ConstLike] 0 1 SizeofLike b"0_1";
    120: [Colcol Colon] 0 1 Colcol b"01";
    121: [DeclHead Colon IntLike Lbrace] 0 1 StructHead b"01_2_3";
    122: [Function Binop Lbrace] 0 2 Stmt b"0_1";
    123: [Binop Exp Rpar] 0 2 Exp b"01";
    124: [Exp Colcol Rproc] 0 2 Exp b"01";
    125: [CaseLike ForLike] 0 1 Exp b"0_1";
    126: [Lbrace Exp] 0 1 Paren b"0_1";
    127: [Insert IntLike] 0 2 Decl b"0";
    128: [Lproc Exp DoLike] 0 2 Lproc b"0_1Y";
};

const FROM_129: [(u8, &[Cat], usize, usize, Cat, &[u8]); 10] = rows! {
    129: [Exp Decl Lbrace] 0 3 FnDecl b"WN>>0";
    130: [DeclHead Decl Lbrace] 0 3 FnDecl b"W>>0";
    131: [Exp Decl Function] 0 2 Decl b"0_1";
    132: [Lpar Exp IntLike] 1 2 IntLike b"1_2";
    133: [DeclHead FnDecl] 0 1 FnDecl b"0F1";
    134: [StructHead Function] 0 1 Stmt b"0>F1<";
    135: [MdefineLike IntLike] 0 2 HashLike b"0";
    136: [Exp Exp] 0 1 Exp b"0_1";
    137: [Comma CaseLike Rpar] 0 2 Exp b"0_1";
    138: [Rbrace Exp] 0 1 Stmt b"0F1";
};

const FROM_139: [(u8, &[Cat], usize, usize, Cat, &[u8]); 10] = rows! {
    139: [Stmt IntLike] 0 1 Decl b"0F1";
    140: [Exp TexLike] 0 1 TexLike b"01";
    141: [TexLike Exp] 0 1 Exp b"01";
    142: [Paren] 0 1 Exp b"0";
    143: [Comma Lbrace Rbrace] 1 2 Exp b"1T2";
    144: [Cast Lbrace Lbrace Rbrace] 2 3 Exp b"2T3";
    145: [AttrHead Rpar Rpar] 0 1 Attr b"0T12";
    146: [Question Colon] 0 1 Binop b"01";
    147: [Lpar Rproc] 0 1 Rproc b"01";
    148: [Question Binop Exp] 1 2 Exp b"12";
};

// The same for the rows that a flag changes, with all flags off. Behind a function a declaration is set apart all the
// same.
static FLAGS_OFF: [(u8, &[Cat], usize, usize, Cat, &[u8]); 9] = rows! {
    4: [Exp Lbrace] 0 2 FnDecl b"0";
    36: [DeclHead Lbrace] 0 2 FnDecl b"0";
    39: [Decl Stmt] 0 1 Stmt b"0F1";
    39: [Decl Function] 0 1 Function b"0B1";
    47: [FnDecl Stmt] 0 1 Function b"0F1";
    72: [Stmt Stmt] 0 1 Stmt b"0Y1";
    105: [Exp Function] 0 1 Function b"0Y1";
    129: [Exp Decl Lbrace] 0 3 FnDecl b"0";
    130: [DeclHead Decl Lbrace] 0 3 FnDecl b"0";
};

// The scrap whose identifier a production underlines.
fn underlined(row: u8) -> Option<u8> {
    match row {
        4 | 9 | 129 => Some(0),
        33 | 41 | 42 | 78 | 84 => Some(1),
        74 => Some(2),
        _ => None,
    }
}

// A scrap of a token of one byte; an identifier's has the category of its name.
fn add(
    kind: TokKind,
    byte: u8,
    place: u8,
    line: &mut ScrapLine,
    store: &mut TokenStore,
    names: &mut Names,
) -> Result<(), Memory>
    requires kind { MakesLeaf kind }
    requires sound { IsSoundLine store.old names.old line.old }
    ensures sound { OnOk result (IsSoundLine store.new names.new line.new) }
{
    let token = Tok {
        kind,
        text: &[byte],
        span: Span {
            start: place as usize,
            end: place as usize,
        },
        hash_line: false,
        directive: Directive::No,
    };
    let leaf = scrap_of(&token, names, store)?;
    line.add(leaf.cat, leaf.list, leaf.left, leaf.right)
}

// A scrap of an identifier for each letter.
fn add_words(
    letters: &[u8],
    line: &mut ScrapLine,
    store: &mut TokenStore,
    names: &mut Names,
) -> Result<(), Memory>
    requires sound { IsSoundLine store.old names.old line.old }
    ensures sound { OnOk result (IsSoundLine store.new names.new line.new) }
{
    let mut place = 0u8;
    for letter in letters {
        add(TokKind::Identifier, *letter, place, line, store, names)?;
        place = place.wrapping_add(1);
    }
    Ok(())
}

// The name of a letter gets a category; by `End` it keeps its own.
fn set_letter(names: &mut Names, letter: u8, cat: Cat) -> Result<(), Memory> {
    let name = names.find_or_add(EntryKind::Ident, &[letter])?;
    if cat != Cat::End {
        names.set_category(name, cat);
    }
    Ok(())
}

// The letters from `a` on get these categories, and `z` that of a scrap that no row joins to the right.
fn set_letters(names: &mut Names, cats: &[Cat]) -> Result<(), Memory> {
    set_letter(names, b'z', Cat::Dead)?;
    let mut letter = b'a';
    for cat in cats {
        set_letter(names, letter, *cat)?;
        letter = letter.wrapping_add(1);
    }
    Ok(())
}

// The first row that fits at a place.
fn first_row(line: &ScrapLine, place: usize, steps: &mut Steps<Kept>) -> Option<RowNo>
    requires { place < length line.now }
    ensures from_one { IfSome result (λ row. 1 ≤ row.number) }
    ensures to_last { IfSome result (λ row. row.number ≤ ROW_COUNT) }
    ensures fits { IfSome result (λ row. row_fits (row_of productions row.number) (drop place (entry_cats line.now)) ≡
        true) }
{
    let _length = line.len();
    first_production([
        line.cat_at(place, steps),
        line.cat_at(place + 1, steps),
        line.cat_at(place + 2, steps),
        line.cat_at(place + 3, steps),
    ])
}

// A line of scraps with all that productions change.
#[derive(Drop)]
pub(crate) struct Bench {
    pub(crate) line: ScrapLine,
    pub(crate) store: TokenStore,
    pub(crate) names: Names,
    pub(crate) marks: Marks,
    pub(crate) steps: Steps<Kept>,
}

// The production by the first row that fits at a place. It answers the row's number, or 0 where none fits.
pub(crate) fn produce(bench: &mut Bench, place: usize, flags: &Flags) -> Result<u8, Memory>
    requires sound { IsSoundLine bench.old.store bench.old.names bench.old.line }
    ensures sound { OnOk result (IsSoundLine bench.new.store bench.new.names bench.new.line) }
{
    if place >= bench.line.len() {
        return Ok(0);
    }
    bench.store.reserve(24)?;
    bench.marks.reserve(1)?;
    match first_row(&bench.line, place, &mut bench.steps) {
        Some(row) => {
            bench.line.apply(
                &table(),
                row,
                place,
                flags,
                &mut bench.names,
                &mut bench.marks,
                &mut bench.store,
                &mut bench.steps,
            );
            Ok(row.number)
        }
        None => Ok(0),
    }
}

// How an item of a translation stands in the table of this file; a toggle as `$` into math and `#` out of it.
fn shown(item: FlatItem) -> u8 {
    match item {
        FlatItem::Source(place) | FlatItem::Ident(_, place) | FlatItem::Reserved(_, place) =>
            b'0'.wrapping_add((place % 10) as u8),
        FlatItem::Open | FlatItem::Close => b'?',
        FlatItem::Control(control) => sign(control),
    }
}

fn sign(control: Control) -> u8 {
    match control {
        Control::Blank => b'_',
        Control::OptionalBreak => b'Y',
        Control::Break => b'F',
        Control::BigBreak => b'B',
        Control::Cancel => b'N',
        Control::Backup => b'U',
        Control::Wall => b'W',
        Control::Indent => b'>',
        Control::Outdent => b'<',
        Control::OptionalLineBreak9 => b'O',
        Control::ThinSpace => b'T',
        Control::OpenBrace => b'{',
        Control::CloseBrace => b'}',
        Control::OpenRelation => b'm',
        Control::Inserted => b'I',
        Control::ToMath => b'$',
        Control::ToText => b'#',
        _ => b'?',
    }
}

// Whether items are shown by these bytes.
fn are_shown(items: &FlatTokens, bytes: &[u8]) -> bool {
    if items.len() != bytes.len() {
        return false;
    }
    for (i, byte) in bytes.iter().enumerate() {
        if shown(items.item(i)) != *byte {
            return false;
        }
    }
    true
}

// Whether these bytes show the translation of a scrap.
fn is_translation(
    alloc: Global,
    line: &ScrapLine,
    i: usize,
    store: &TokenStore,
    names: &Names,
    bytes: &[u8],
) -> Result<bool, Memory>
    requires sound { IsSoundLine store.now names.now line.now }
{
    if i >= line.len() {
        return Ok(false);
    }
    let items = store.flat(alloc, line.part_at(i).list)?;
    Ok(are_shown(&items, bytes))
}

// Whether the names that were underlined are that of one letter, or none.
fn are_marked(scrap: Option<u8>, marks: &Marks, names: &mut Names) -> Result<bool, Memory> {
    match scrap {
        None => Ok(marks.is_empty()),
        Some(k) => {
            let name = names.find_or_add(EntryKind::Ident, &[b'a'.wrapping_add(k)])?;
            Ok(marks.len() == 1 && marks.name(0) == name)
        }
    }
}

// An empty line with these names.
pub(crate) fn bench_with(alloc: Global, names: Names) -> Bench
    ensures { IsSoundLine result.store result.names result.line }
{
    Bench {
        line: ScrapLine::new_in(alloc),
        store: TokenStore::new_in(alloc),
        names,
        marks: Marks::new_in(alloc),
        steps: Steps::new(),
    }
}

// An empty line, where the first letters are names of these categories.
fn bench_of(alloc: Global, cats: &[Cat]) -> Result<Bench, Memory>
    ensures { IfOk result (λ bench. IsSoundLine bench.store bench.names bench.line) }
{
    let mut names = Names::with_words(alloc)?;
    set_letters(&mut names, cats)?;
    Ok(bench_with(alloc, names))
}

// A scrap that no row joins, and a scrap of each of the first letters behind it.
fn add_scraps(bench: &mut Bench, count: usize) -> Result<(), Memory>
    requires sound { IsSoundLine bench.old.store bench.old.names bench.old.line }
    ensures sound { OnOk result (IsSoundLine bench.new.store bench.new.names bench.new.line) }
{
    add(
        TokKind::Identifier,
        b'z',
        9,
        &mut bench.line,
        &mut bench.store,
        &mut bench.names,
    )?;
    let letters = b"abcd";
    add_words(
        &letters[..count.min(letters.len())],
        &mut bench.line,
        &mut bench.store,
        &mut bench.names,
    )
}

// What a production makes: its row, the scraps that are left, the category of the new one, and whether what was
// underlined and the translation are as wanted.
#[derive(Clone, Copy)]
struct Outcome {
    row: u8,
    left: usize,
    cat: Cat,
    is_marked: bool,
    is_laid: bool,
}

// What is made of a scrap of each of the first letters, behind one that no row joins. It is wanted that a row makes
// this translation of the scraps from a place on.
fn made_in(
    alloc: Global,
    bench: &mut Bench,
    count: usize,
    wanted: (u8, usize, &[u8]),
    flags: &Flags,
) -> Result<Outcome, Memory>
    requires sound { IsSoundLine bench.old.store bench.old.names bench.old.line }
{
    let (wanted_row, replaced, bytes) = wanted;
    add_scraps(bench, count)?;
    let row = produce(bench, 1, flags)?;
    let at = replaced.saturating_add(1);
    let is_laid = is_translation(alloc, &bench.line, at, &bench.store, &bench.names, bytes)?;
    let cat = bench.line.cat_at(at, &mut bench.steps);
    let is_marked = are_marked(underlined(wanted_row), &bench.marks, &mut bench.names)?;
    Ok(Outcome {
        row,
        left: bench.line.len(),
        cat,
        is_marked,
        is_laid,
    })
}

// What is made of scraps of these categories.
fn made_of(
    alloc: Global,
    cats: &[Cat],
    wanted: (u8, usize, &[u8]),
    flags: &Flags,
) -> Result<Outcome, Memory> {
    let mut bench = bench_of(alloc, cats)?;
    made_in(alloc, &mut bench, cats.len(), wanted, flags)
}

// The number of the first of these productions that makes something else than its row says, or 0.
fn first_wrong(
    alloc: Global,
    rows: &[(u8, &[Cat], usize, usize, Cat, &[u8])],
    flags: &Flags,
) -> Result<u8, Memory> {
    for (row, cats, replaced, left, cat, bytes) in rows {
        let done = made_of(alloc, cats, (*row, *replaced, bytes), flags)?;
        let same = done.row == *row
            && done.left == left.wrapping_add(1)
            && done.cat == *cat
            && done.is_marked
            && done.is_laid;
        if !same {
            return Ok(*row);
        }
    }
    Ok(0)
}

const ROWS: [&[(u8, &[Cat], usize, usize, Cat, &[u8])]; 14] = [
    &FROM_1, &FROM_13, &FROM_25, &FROM_37, &FROM_49, &FROM_61, &FROM_73, &FROM_83, &FROM_93,
    &FROM_98, &FROM_108, &FROM_119, &FROM_129, &FROM_139,
];

// The first such number of all productions, or 0.
fn first_wrong_of_all(alloc: Global, flags: &Flags) -> Result<u8, Memory> {
    for rows in &ROWS {
        let row = first_wrong(alloc, rows, flags)?;
        if row != 0 {
            return Ok(row);
        }
    }
    Ok(0)
}

#[test]
fn each_production_makes_what_its_row_says(rt: HostRuntime) -> Result<(), Fail> {
    assert_eq!(rt; first_wrong_of_all(rt.alloc(), &Flags::start())?, 0);
    Ok(())
}

#[test]
fn a_flag_that_is_off_changes_its_rows(rt: HostRuntime) -> Result<(), Fail> {
    let mut flags = Flags::start();
    flags.force = false;
    flags.indent = false;
    flags.separate = false;
    assert_eq!(rt; first_wrong(rt.alloc(), &FLAGS_OFF, &flags)?, 0);
    Ok(())
}

// The last item of a scrap's translation.
fn last_item(
    alloc: Global,
    line: &ScrapLine,
    i: usize,
    store: &TokenStore,
    names: &Names,
) -> Result<Option<FlatItem>, Memory>
    requires sound { IsSoundLine store.now names.now line.now }
{
    let mut last = None;
    if i < line.len() {
        let flat = store.flat(alloc, line.part_at(i).list)?;
        for k in 0..flat.len() {
            last = Some(flat.item(k));
        }
    }
    Ok(last)
}

// The first place at which a line has another category than it should.
fn first_other(line: &ScrapLine, cats: &[Cat]) -> Option<usize> {
    let mut steps: Steps<Kept> = Steps::new();
    for (i, cat) in cats.iter().enumerate() {
        if line.cat_at(i, &mut steps) != *cat {
            return Some(i);
        }
    }
    None
}

// The last items of the scraps at three places.
fn last_items(alloc: Global, bench: &Bench) -> Result<[Option<FlatItem>; 3], Memory>
    requires sound { IsSoundLine bench.now.store bench.now.names bench.now.line }
{
    let left = last_item(alloc, &bench.line, 0, &bench.store, &bench.names)?;
    let made = last_item(alloc, &bench.line, 1, &bench.store, &bench.names)?;
    let right = last_item(alloc, &bench.line, 3, &bench.store, &bench.names)?;
    Ok([left, made, right])
}

// The category of a name, where it is the only one that was underlined.
fn marked_category(bench: &Bench, name: NameId) -> Option<Cat>
    requires { name.index < length bench.now.names }
{
    let marks = &bench.marks;
    if marks.len() != 1 || marks.name(0) != name {
        return None;
    }
    Some(bench.names.category(name))
}

// What is made of `a struct a; a b` or `a typedef a; a b` in a line: the row and the steps; the last items of the
// scraps
// of `a`, each with whether it is reserved; the category of the name; and the first other category.
type Declared = (
    (u8, u64),
    [Option<(u32, bool)>; 3],
    Option<Cat>,
    Option<usize>,
);

// The place of an identifier, and whether it is reserved.
fn placed(item: Option<FlatItem>, name: NameId) -> Option<(u32, bool)> {
    match item {
        Some(FlatItem::Ident(found, place)) if found == name => Some((place, false)),
        Some(FlatItem::Reserved(found, place)) if found == name => Some((place, true)),
        _ => None,
    }
}

fn declared_in(alloc: Global, bench: &mut Bench, cats: &[Cat]) -> Result<Declared, Memory>
    requires sound { IsSoundLine bench.old.store bench.old.names bench.old.line }
{
    add_words(
        b"acadab",
        &mut bench.line,
        &mut bench.store,
        &mut bench.names,
    )?;
    let row = produce(bench, 1, &Flags::start())?;
    let steps = bench.steps.count();
    let [left, made, right] = last_items(alloc, bench)?;
    let name = bench.names.find_or_add(EntryKind::Ident, b"a")?;
    let items = [placed(left, name), placed(made, name), placed(right, name)];
    let other = first_other(&bench.line, cats);
    Ok(((row, steps), items, marked_category(bench, name), other))
}

// What it becomes where `c` has a category, and whether it has these categories then.
fn declared(alloc: Global, word: Cat, cats: &[Cat]) -> Result<Declared, Memory> {
    let mut bench = bench_of(alloc, &[Cat::Exp, Cat::Exp, word, Cat::Semi])?;
    declared_in(alloc, &mut bench, cats)
}

// To the right of a `typedef` each bare `a` is a type from now on.
#[test]
fn reserving_turns_scraps_to_the_right_alone(rt: HostRuntime) -> Result<(), Fail> {
    let cats = [
        Cat::Exp,
        Cat::TypedefLike,
        Cat::Semi,
        Cat::RawInt,
        Cat::Exp,
        Cat::End,
    ];
    let wanted = (
        (84, 7),
        [Some((0, false)), Some((2, true)), Some((4, true))],
        Some(Cat::RawInt),
        None,
    );
    assert_eq!(rt; declared(rt.alloc(), Cat::TypedefLike, &cats)?, wanted);
    Ok(())
}

// Behind `struct` alone `a` prints as a type, and it is none.
#[test]
fn a_tag_is_bold_where_it_stands_alone(rt: HostRuntime) -> Result<(), Fail> {
    let cats = [
        Cat::Exp,
        Cat::DeclHead,
        Cat::Semi,
        Cat::Exp,
        Cat::Exp,
        Cat::End,
    ];
    let wanted = (
        (41, 4),
        [Some((0, false)), Some((2, true)), Some((4, false))],
        Some(Cat::Exp),
        None,
    );
    assert_eq!(rt; declared(rt.alloc(), Cat::StructLike, &cats)?, wanted);
    Ok(())
}

// The scraps of `{a;}`.
fn add_block(line: &mut ScrapLine, store: &mut TokenStore, names: &mut Names) -> Result<(), Memory>
    requires sound { IsSoundLine store.old names.old line.old }
    ensures sound { OnOk result (IsSoundLine store.new names.new line.new) }
{
    add(TokKind::Sign(Sign::LeftBrace), b'{', 0, line, store, names)?;
    add(TokKind::Identifier, b'a', 1, line, store, names)?;
    add(TokKind::Sign(Sign::Semicolon), b';', 2, line, store, names)?;
    add(TokKind::Sign(Sign::RightBrace), b'}', 3, line, store, names)
}

// Does the two productions of a block, and tells their rows and what the second took of the spare.
fn produce_block(bench: &mut Bench) -> Result<(u8, u8, usize), Memory>
    requires sound { IsSoundLine bench.old.store bench.old.names bench.old.line }
    ensures sound { OnOk result (IsSoundLine bench.new.store bench.new.names bench.new.line) }
{
    let flags = Flags::start();
    let statement = produce(bench, 1, &flags)?;
    bench.store.reserve(24)?;
    let room = bench.store.spare();
    let block = produce(bench, 0, &flags)?;
    Ok((statement, block, room.saturating_sub(bench.store.spare())))
}

// The list and the modes of the one scrap of a line.
fn only_scrap(line: &ScrapLine) -> Option<(usize, MathMode, MathMode)> {
    if line.len() != 1 {
        return None;
    }
    let part = line.part_at(0);
    Some((part.list.index, part.left, part.right))
}

// What is produced of `{a;}`; whether its translation is as wanted; and the scrap that is left.
type Block = ((u8, u8, usize), bool, Option<(usize, MathMode, MathMode)>);

fn made_block_in(alloc: Global, bench: &mut Bench) -> Result<Block, Memory>
    requires sound { IsSoundLine bench.old.store bench.old.names bench.old.line }
{
    add_block(&mut bench.line, &mut bench.store, &mut bench.names)?;
    let produced = produce_block(bench)?;
    let is_laid = is_translation(
        alloc,
        &bench.line,
        0,
        &bench.store,
        &bench.names,
        b"F$0>#F12FU$3<#F",
    )?;
    Ok((produced, is_laid, only_scrap(&bench.line)))
}

fn made_block(alloc: Global) -> Result<Block, Memory> {
    let mut bench = bench_of(alloc, &[])?;
    made_block_in(alloc, &mut bench)
}

// Its statement and then the block: one list of ten tokens, four toggles between them and its beginning take fifteen of
// the spare.
#[test]
fn a_block_takes_one_list_with_toggles_between_its_pieces(rt: HostRuntime) -> Result<(), Fail> {
    let wanted = ((8, 50, 15), true, Some((5, MathMode::Text, MathMode::Text)));
    assert_eq!(rt; made_block(rt.alloc())?, wanted);
    Ok(())
}
