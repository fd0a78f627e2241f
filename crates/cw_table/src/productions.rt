//! The productions as they are written, and the table that is made of them.
ghost use Rattle.std.specs.Prelude.{◌≡◌, ◌<◌, Some, true, slice_get};
ghost use Rattle.std.specs.List.{All, list_all};
ghost use Rattle.cw_table.specs.Productions.{productions};
ghost use Rattle.cw_table.specs.Sound.{IsSound, are_numbered, row_is_sound};

use crate::types::{Action, Choice, Insertion, Piece, Pieces, Row, RowNo, RowResult, Table};
use cw_base::{Cat, CatSet, MathMode};
use cw_trees::Control;

// A row is written as its number, its tests, the first scrap that it replaces and how many these are,
// its result, and its pieces, in which a digit is a tested scrap. A test is a choice of categories;
// `any but` is every category but End and those listed, and `not` every one and End but Insert and those listed.
// Behind `or` stand the pieces that take the place of the first ones where the flag of that name is off.
macro_rules! productions {
    ($show:ident) => {
        $show! {
            1: [any but RawUbin Ubinop ConstLike Dot], [Insert]; 0 + 2 => same 0; [0 1];
            2: [BeginArg], [EndArg]; 0 + 2 => is Exp; [0 1];
            3: [any but BeginArg], [EndArg]; 0 + 2 => is EndArg; [0 1];
            4: [Exp], [Lbrace]; 0 + 1 => is FnDecl; [Wall Cancel Indent Indent 0] or Indent [0] underline 0;
            5: [Exp], [Unop]; 0 + 2 => is Exp; [0 1];
            6: [Exp Paren], [Binop Ubinop Colcol Dots], [Exp Paren]; 0 + 3 => is Exp; [0 1 2];
            7: [Exp], [Comma], [Exp Paren]; 0 + 3 => is Exp; [0 1 OptionalLineBreak9 2];
            8: [Exp Attr], [Semi]; 0 + 2 => is Stmt; [0 1];
            9: [Exp], [Colon], [not Binop Colon]; 0 + 2 => is Tag; [0 Wall Cancel 1] underline 0;
            10: [Exp], [Rbrace]; 0 + 1 => is Stmt; [0];
            11: [Exp], [Paren Cast]; 0 + 2 => is Exp; [0 1];
            12: [Lpar], [Exp Paren Ubinop Binop Unop Question Comma Colon Colcol Tag IfClause IfLike ElseLike
                ForLike DoLike CaseLike SizeofLike TypeofLike AlignasLike StructLike TypedefLike], [Rpar];
                0 + 3 => is Paren;
                [0 1 2];
            13: [Lpar], [Rpar]; 0 + 2 => is Paren; [0 ThinSpace 1];
            14: [Lpar], [DeclHead IntLike Cast], [Rpar]; 0 + 3 => is Cast; [0 1 2];
            15: [Lpar], [DeclHead IntLike Exp Paren], [Comma]; 0 + 3 => is Lpar; [0 1 2 OptionalLineBreak9];
            16: [Lpar], [Stmt Decl]; 0 + 2 => is Lpar; [0 1 Blank];
            17: [Unop Colcol], [Exp IntLike Paren]; 0 + 2 => same 1; [0 1];
            18: [Ubinop], [Cast], [Rpar]; 0 + 2 => is Cast; [OpenBrace 0 CloseBrace 1];
            19: [Ubinop], [Exp IntLike Paren]; 0 + 2 => same 1; [OpenBrace 0 CloseBrace 1];
            20: [Ubinop], [Binop]; 0 + 2 => is Binop; [OpenRelation 0 OpenBrace 1 CloseBrace CloseBrace];
            21: [Binop], [Binop]; 0 + 2 => is Binop;
                [OpenRelation OpenBrace 0 CloseBrace OpenBrace 1 CloseBrace CloseBrace];
            22: [Cast], [Lpar]; 0 + 2 => is Lpar; [0 1];
            23: [Cast], [Exp]; 0 + 2 => is Exp; [0 Blank 1];
            24: [Cast], [Semi Comma Binop Question Colon]; 0 + 1 => is Exp; [0];
            25: [SizeofLike], [Cast]; 0 + 2 => is Exp; [0 1];
            26: [SizeofLike], [Exp Paren]; 0 + 2 => is Exp; [0 Blank 1];
            27: [IntLike], [IntLike StructLike TypedefLike]; 0 + 2 => same 1; [0 Blank 1];
            28: [IntLike], [Exp], [RawInt IntLike ConstLike StructLike]; 0 + 2 => is IntLike; [0 Blank 1];
            29: [IntLike], [Exp Ubinop Colon]; 0 + 1 => is DeclHead; [0 Blank];
            30: [IntLike], [Semi Binop]; 0 + 1 => is DeclHead; [0];
            31: [DeclHead], [Comma]; 0 + 2 => is DeclHead; [0 1 Blank];
            32: [DeclHead], [Ubinop]; 0 + 2 => is DeclHead; [0 OpenBrace 1 CloseBrace];
            33: [DeclHead], [Exp], [not Lpar Exp Cast Paren TexLike Box]; 0 + 2 => is DeclHead; [0 1] underline 1;
            34: [DeclHead], [Binop Colon], [Exp], [Comma Semi Rpar End]; 0 + 3 => is DeclHead; [0 1 2];
            35: [DeclHead], [Cast]; 0 + 2 => is DeclHead; [0 1];
            36: [DeclHead], [Lbrace]; 0 + 1 => is FnDecl; [Wall Indent Indent 0] or Indent [0];
            37: [DeclHead], [Semi]; 0 + 2 => is Decl; [0 1];
            38: [Decl], [Decl]; 0 + 2 => is Decl; [0 Break 1];
            39: [Decl], [Stmt Function]; 0 + 2 => same 1; [0 BigBreak 1] or Separate [0 Break 1];
            40: [StructLike], [Lbrace]; 0 + 2 => is StructHead; [0 Blank 1];
            41: [StructLike], [Exp IntLike], [Semi]; 0 + 2 => is DeclHead; [0 Blank 1] underline 1 bold 1;
            42: [StructLike], [Exp IntLike], [Lbrace]; 0 + 3 => is StructHead;
                [0 Blank 1 Blank 2] underline 1 bold 1;
            43: [StructLike], [Exp IntLike], [not Semi Lbrace]; 0 + 2 => is IntLike; [0 Blank 1] bold 1;
            44: [StructHead], [Decl Stmt Function], [Rbrace]; 0 + 3 => is IntLike;
                [0 Indent Break 1 Outdent Break 2];
            45: [StructHead], [Rbrace]; 0 + 2 => is IntLike; [0 ThinSpace 1];
            46: [FnDecl], [Decl]; 0 + 2 => is FnDecl; [0 Break 1];
            47: [FnDecl], [Stmt Function]; 0 + 2 => is Function; [0 Outdent Outdent Break 1] or Indent [0 Break 1];
            48: [Function], [Function Decl Stmt]; 0 + 2 => same 1; [0 BigBreak 1];
            49: [Lbrace], [Rbrace]; 0 + 2 => is Stmt; [0 ThinSpace 1];
            50: [Lbrace], [Stmt Decl Function], [Rbrace]; 0 + 3 => is Stmt;
                [Break 0 Indent Break 1 Break Backup 2 Outdent Break];
            51: [Lbrace], [Exp], [Rbrace]; 0 + 3 => is Exp; [0 1 2];
            52: [Lbrace], [Exp], [Comma], [Rbrace]; 0 + 4 => is Exp; [0 1 2 3];
            53: [IfLike], [Exp Cast Paren]; 0 + 2 => is IfClause; [0 Blank 1];
            54: [ElseLike ForLike], [Lbrace]; 0 + 1 => is ElseHead; [0];
            55: [ElseLike ForLike], [Stmt Function]; 0 + 2 => is Stmt;
                [Break 0 OptionalBreak Indent 1 Outdent Break];
            56: [ElseHead], [Stmt Exp]; 0 + 2 => is Stmt; [Break 0 OptionalBreak Wall Cancel 1 Break];
            57: [IfClause], [Lbrace]; 0 + 1 => is IfHead; [0];
            58: [IfClause], [Stmt Function], [ElseLike], [IfLike]; 0 + 4 => is IfLike;
                [Break 0 OptionalBreak Indent 1 Outdent Break 2 Blank 3];
            59: [IfClause], [Stmt Function], [ElseLike], [not IfLike]; 0 + 3 => is ElseLike;
                [Break 0 OptionalBreak Indent 1 Outdent Break 2];
            60: [IfClause], [Stmt Function], [not ElseLike]; 0 + 1 => is ElseLike; [0];
            61: [IfHead], [Stmt Exp], [ElseLike], [IfLike]; 0 + 4 => is IfLike;
                [Break 0 OptionalBreak Wall Cancel 1 Break 2 Blank 3];
            62: [IfHead], [Stmt Exp], [ElseLike], [not IfLike]; 0 + 3 => is ElseLike;
                [Break 0 OptionalBreak Wall Cancel 1 Break 2];
            63: [IfHead], [Stmt Exp], [not ElseLike]; 0 + 1 => is ElseHead; [0];
            64: [DoLike], [Stmt Exp], [ElseLike], [Semi]; 0 + 4 => is Stmt;
                [0 OptionalBreak Wall Cancel 1 Cancel Wall OptionalBreak 2 3];
            65: [ForLike], [Exp Cast Paren]; 0 + 2 => is ElseLike; [0 Blank 1];
            66: [CaseLike], [Semi]; 0 + 2 => is Stmt; [0 1];
            67: [CaseLike], [Colon]; 0 + 2 => is Tag; [0 1];
            68: [CaseLike], [Exp Paren]; 0 + 2 => is Exp; [0 Blank 1];
            69: [Tag], [Tag]; 0 + 2 => is Tag; [0 OptionalBreak 1];
            70: [Tag], [Stmt Decl Function]; 0 + 2 => same 1; [Break Backup 0 OptionalBreak 1];
            71: [Stmt], [Decl Function]; 0 + 2 => same 1; [0 BigBreak 1];
            72: [Stmt], [Stmt]; 0 + 2 => is Stmt; [0 Break 1] or Force [0 OptionalBreak 1];
            73: [Semi]; 0 + 1 => is Stmt; [Blank 0];
            74: [Lproc], [DefineLike], [Exp]; 0 + 3 => is Lproc; [0 1 Blank 2 OptionalBreak] underline 2;
            75: [Lproc], [HashLike TypedefLike]; 0 + 2 => is Lproc; [0 1];
            76: [Lproc], [Rproc]; 0 + 2 => is Insert; [Inserted 0 1];
            77: [Lproc], [Exp Function Stmt Decl DeclHead IntLike FnDecl Cast Attr Tag IfClause SizeofLike
                TypeofLike AlignasLike StructLike CaseLike IfLike ElseLike ForLike DoLike Unop Binop Ubinop
                Question Comma Semi Colon Rpar Lbrace Rbrace], [Rproc]; 0 + 3 => is Insert;
                [Inserted 0 Blank 1 2];
            78: [MdefineLike], [Exp], [Paren Cast]; 0 + 3 => is HashLike; [0 Blank 1 2 OptionalBreak] underline 1;
            79: [SectionScrap], [Semi]; 0 + 2 => is Stmt; [0 1 Break];
            80: [SectionScrap], [not RawInt IntLike ConstLike StructLike TypedefLike DeclHead StructHead FnDecl
                IfLike ForLike DoLike CaseLike ElseLike]; 0 + 1 => is Exp;
                [0];
            81: [Insert], [any but RawInt IntLike ConstLike StructLike TypedefLike DeclHead StructHead RawUbin
                Ubinop Dot]; 0 + 2 => same 1;
                [0 1];
            82: [TypedefLike], [IntLike Cast], [Comma Semi]; 0 + 2 => is TypedefLike; [0 Blank 1];
            83: [TypedefLike], [IntLike]; 0 + 2 => is TypedefLike; [0 Blank 1];
            84: [TypedefLike], [Exp], [not Lpar Exp Cast Paren TexLike Box]; 0 + 2 => is TypedefLike;
                [0 Blank 1] underline 1 reserve 1;
            85: [TypedefLike], [Comma]; 0 + 2 => is TypedefLike; [0 1 Blank];
            86: [TypedefLike], [Semi]; 0 + 2 => is Decl; [0 1];
            87: [TypedefLike], [Ubinop], [Ubinop Cast]; 1 + 2 => same 2; [OpenBrace 1 CloseBrace 2];
            88: [Question], [Exp], [Colon]; 0 + 3 => is Binop; [0 1 math];
            89: [RawInt]; 0 + 1 => is IntLike; [0];
            90: [RawUbin], [ConstLike]; 0 + 2 => is RawUbin; [0 1 ThinSpace ThinSpace];
            91: [RawUbin]; 0 + 1 => is Ubinop; [0];
            92: [ConstLike]; 0 + 1 => is IntLike; [0];
            93: [Cast], [Lbrace], [Rbrace]; 0 + 3 => is Exp; [0 1 ThinSpace 2];
            94: [Cast], [Lbrace], [Exp], [Rbrace]; 0 + 4 => is Exp; [0 1 2 3];
            95: [Lbrace Comma], [Dot], [Exp RawInt IntLike]; 1 + 2 => is Exp; [OpenBrace 1 CloseBrace 2];
            96: [Lpar], [Tag], [Exp], [Comma Rpar]; 1 + 2 => is Exp; [1 Blank 2];
            97: [Dot]; 0 + 1 => is Binop; [0];
            98: [Stmt Decl Function ElseLike IfClause], [Exp], [End Rproc ElseLike]; 1 + 1 => is Stmt; [1];
            99: [Tag], [Exp], [End Rproc]; 0 + 2 => is Exp; [0 Blank 1];
            100: [DoLike], [Stmt Exp], [ElseLike], [not Semi Stmt Decl Function]; 0 + 3 => is Stmt;
                [0 OptionalBreak Wall Cancel 1 Cancel Wall OptionalBreak 2];
            101: [Stmt Decl Function], [Tag Rbrace], [End Rproc Rbrace]; 0 + 2 => is Stmt; [0 Break Backup 1];
            102: [Colon], [Binop]; 0 + 2 => is Binop; [0 OpenRelation 1 CloseBrace];
            103: [Lpar], [Exp], [Ubinop], [Rpar Comma]; 1 + 2 => is DeclHead; [1 Blank OpenBrace 2 CloseBrace];
            104: [Ubinop], [Ubinop], [Rpar Comma]; 0 + 2 => is Ubinop;
                [OpenBrace 0 CloseBrace OpenBrace 1 CloseBrace];
            105: [Exp], [Stmt Function]; 0 + 2 => same 1; [0 Break 1] or Force [0 OptionalBreak 1];
            106: [StructHead], [Exp], [Comma], [Rbrace]; 1 + 2 => is Stmt; [1 2];
            107: [Binop Question CaseLike], [IntLike]; 1 + 1 => is Exp; [1];
            108: [FnDecl], [Lbrace], [Exp], [Rbrace]; 1 + 3 => is Stmt;
                [Break 1 Indent Break 2 Break Backup 3 Outdent Break];
            109: [DeclHead Exp], [Binop], [Stmt]; 0 + 3 => same 0; [0 1 2];
            110: [SectionScrap], [RawInt IntLike ConstLike StructLike TypedefLike DeclHead StructHead FnDecl IfLike
                ForLike DoLike CaseLike ElseLike]; 0 + 1 => is Stmt;
                [0 Break];
            111: [Dots], [Rpar Comma Rbrace End]; 0 + 1 => is IntLike; [0];
            112: [Box], [RawInt IntLike StructLike TypedefLike DeclHead StructHead FnDecl CaseLike ElseLike
                SectionScrap Lbrace Rbrace Box]; 0 + 2 => same 1;
                [0 1];
            113: [Box], [not RawInt IntLike ConstLike StructLike TypedefLike DeclHead StructHead FnDecl CaseLike
                ElseLike SectionScrap Lbrace Rbrace Box]; 0 + 1 => is TexLike;
                [0];
            114: [AttrHead], [Exp], [Rpar], [Rpar]; 0 + 4 => is Attr; [0 1 2 3];
            115: [AlignasLike], [Exp Cast Paren]; 0 + 2 => is Attr; [0 1];
            116: [Exp DeclHead IntLike StructLike TypedefLike FnDecl], [Attr]; 0 + 2 => same 0; [0 Blank 1];
            117: [Attr], [any but RawUbin Ubinop ConstLike Dot]; 0 + 2 => same 1; [0 Blank 1];
            118: [TypeofLike], [Exp Cast IntLike Paren]; 0 + 2 => is IntLike; [0 Blank 1];
            119: [SizeofLike], [ConstLike]; 0 + 2 => is SizeofLike; [0 Blank 1];
            120: [Colon Colcol Binop], [Colon]; 0 + 2 => same 0; [0 1];
            121: [DeclHead], [Colon], [IntLike RawInt ConstLike], [Lbrace]; 0 + 4 => is StructHead;
                [0 1 Blank 2 Blank 3] underline 0;
            122: [Stmt Function], [Binop], [not Colon]; 0 + 2 => is Stmt; [0 Blank 1];
            123: [Binop], [Exp], [End Rpar Rproc]; 0 + 2 => is Exp; [0 1];
            124: [Exp], [Binop Comma Colcol], [End Rpar Rproc]; 0 + 2 => is Exp; [0 1];
            125: [CaseLike], [CaseLike ForLike DoLike]; 0 + 2 => is Exp; [0 Blank 1];
            126: [Lbrace Lpar Lproc], [Exp], [End Rproc]; 0 + 2 => is Paren; [0 Blank 1];
            127: [Insert], [RawInt IntLike ConstLike StructLike TypedefLike DeclHead StructHead]; 0 + 1 => is Decl;
                [0];
            128: [Lproc], [Exp], [RawInt IntLike ConstLike StructLike TypedefLike Lbrace ForLike DoLike CaseLike];
                0 + 2 => is Lproc;
                [0 Blank 1 OptionalBreak];
            129: [Exp], [Decl], [Lbrace]; 0 + 1 => is FnDecl;
                [Wall Cancel Indent Indent 0] or Indent [0] underline 0;
            130: [DeclHead], [Decl], [Lbrace]; 0 + 1 => is FnDecl; [Wall Indent Indent 0] or Indent [0];
            131: [Exp DeclHead], [Decl], [not Lbrace RawInt IntLike ConstLike StructLike DeclHead Decl TypeofLike];
                0 + 2 => is Decl;
                [0 Blank 1];
            132: [Lpar], [Exp], [IntLike]; 1 + 2 => is IntLike; [1 Blank 2];
            133: [DeclHead], [FnDecl]; 0 + 2 => is FnDecl; [0 Break 1];
            134: [Lbrace StructHead], [Stmt Decl Function], [End Rproc]; 0 + 2 => is Stmt;
                [0 Indent Break 1 Outdent];
            135: [DefineLike MdefineLike], [not Exp BeginArg]; 0 + 1 => is HashLike; [0];
            136: [Exp], [Exp]; 0 + 2 => is Exp; [0 Blank 1];
            137: [Exp Dots DeclHead IntLike Cast Stmt Decl Function FnDecl Comma Binop Ubinop Unop Question Colon
                Tag IfClause IfLike ElseLike CaseLike DoLike ForLike SizeofLike TypeofLike AlignasLike StructLike
                TypedefLike Lbrace Rbrace Attr], [Exp DeclHead IntLike Cast Stmt Decl Function FnDecl Comma Binop
                Ubinop Unop Question Colon Tag IfClause IfLike ElseLike CaseLike DoLike ForLike SizeofLike
                TypeofLike AlignasLike StructLike TypedefLike Lbrace Rbrace Attr], [Rpar Rproc]; 0 + 2 => is Exp;
                [0 Blank 1];
            138: [Rbrace Lproc], [Exp Stmt Decl Function], [End]; 0 + 2 => is Stmt; [0 Break 1];
            139: [Stmt Decl Function], [DeclHead IntLike TypedefLike], [End]; 0 + 2 => is Decl; [0 Break 1];
            140: [Exp TexLike], [TexLike]; 0 + 2 => is TexLike; [0 1];
            141: [TexLike], [Exp]; 0 + 2 => is Exp; [0 1];
            142: [Paren TexLike]; 0 + 1 => is Exp; [0];
            143: [Comma], [Lbrace], [Rbrace]; 1 + 2 => is Exp; [1 ThinSpace 2];
            144: [Binop Comma Cast], [Lbrace], [Lbrace], [Rbrace]; 2 + 2 => is Exp; [2 ThinSpace 3];
            145: [AttrHead], [Rpar], [Rpar]; 0 + 3 => is Attr; [0 ThinSpace 1 2];
            146: [Question], [Colon]; 0 + 2 => is Binop; [0 1];
            147: [Lpar], [Rproc]; 0 + 2 => is Rproc; [0 1];
            148: [Lbrace Comma Question CaseLike], [Binop], [Exp]; 1 + 2 => is Exp; [1 2];
        }
    };
}

// What a row has beside its tests and its pieces.
#[derive(Clone, Copy)]
pub(crate) struct Head {
    pub(crate) number: u8,
    pub(crate) test_count: u8,
    pub(crate) offset: u8,
    pub(crate) replaced: u8,
    pub(crate) result: RowResult,
    pub(crate) choice: Choice,
    pub(crate) usual_count: u8,
    pub(crate) other_count: u8,
    pub(crate) underline: Option<u8>,
    pub(crate) reserve: Option<u8>,
    pub(crate) bold: Option<u8>,
}

macro_rules! set {
    (any but $($cat:ident)+) => { CatSet { bits: (1 << Cat::End as u64) - 1 $(- (1 << Cat::$cat as u64))+ } };
    (not $($cat:ident)+) => {
        CatSet { bits: (1 << (Cat::End as u64 + 1)) - 1 - (1 << Cat::Insert as u64) $(- (1 << Cat::$cat as u64))+ }
    };
    ($($cat:ident)+) => { CatSet { bits: 0 $(+ (1 << Cat::$cat as u64))+ } };
}

macro_rules! tests {
    ([$($a:tt)+]) => { [set!($($a)+), CatSet::EMPTY, CatSet::EMPTY, CatSet::EMPTY] };
    ([$($a:tt)+], [$($b:tt)+]) => { [set!($($a)+), set!($($b)+), CatSet::EMPTY, CatSet::EMPTY] };
    ([$($a:tt)+], [$($b:tt)+], [$($c:tt)+]) => { [set!($($a)+), set!($($b)+), set!($($c)+), CatSet::EMPTY] };
    ([$($a:tt)+], [$($b:tt)+], [$($c:tt)+], [$($d:tt)+]) => {
        [set!($($a)+), set!($($b)+), set!($($c)+), set!($($d)+)]
    };
}

macro_rules! piece {
    (0) => { Piece::Scrap(0) };
    (1) => { Piece::Scrap(1) };
    (2) => { Piece::Scrap(2) };
    (3) => { Piece::Scrap(3) };
    (math) => { Piece::MathScrap(2) };
    ($sign:ident) => { Piece::$sign };
}

// What a piece puts into a translation: a control with the mode that it needs, or a scrap with the mode in which it is
// joined where it could be in either.
macro_rules! insertion {
    (0) => { Insertion::Scrap(0, MathMode::Maybe) };
    (1) => { Insertion::Scrap(1, MathMode::Maybe) };
    (2) => { Insertion::Scrap(2, MathMode::Maybe) };
    (3) => { Insertion::Scrap(3, MathMode::Maybe) };
    (math) => { Insertion::Scrap(2, MathMode::Math) };
    (OpenBrace) => { Insertion::Sign(Control::OpenBrace, MathMode::Math) };
    (CloseBrace) => { Insertion::Sign(Control::CloseBrace, MathMode::Math) };
    (OpenRelation) => { Insertion::Sign(Control::OpenRelation, MathMode::Math) };
    (Wall) => { Insertion::Sign(Control::Wall, MathMode::Maybe) };
    (Indent) => { Insertion::Sign(Control::Indent, MathMode::Maybe) };
    (Outdent) => { Insertion::Sign(Control::Outdent, MathMode::Maybe) };
    (OptionalLineBreak0) => { Insertion::Sign(Control::OptionalLineBreak0, MathMode::Maybe) };
    (OptionalLineBreak9) => { Insertion::Sign(Control::OptionalLineBreak9, MathMode::Maybe) };
    (ThinSpace) => { Insertion::Sign(Control::ThinSpace, MathMode::Maybe) };
    (Inserted) => { Insertion::Sign(Control::Inserted, MathMode::Maybe) };
    (Unused) => { Insertion::Sign(Control::Inserted, MathMode::Maybe) };
    ($sign:ident) => { Insertion::Sign(Control::$sign, MathMode::Text) };
}

// Twelve pieces, the first of which are given, each shown by a macro.
macro_rules! pad {
    ($show:ident [$($done:tt)*] [] [$($unused:ident)*]) => { [$($show!($done),)* $($show!($unused)),*] };
    ($show:ident [$($done:tt)*] [$next:tt $($rest:tt)*] [$unused:ident $($more:ident)*]) => {
        pad!($show [$($done)* $next] [$($rest)*] [$($more)*])
    };
}

macro_rules! pieces {
    ($show:ident $($piece:tt)+) => {
        pad!($show [] [$($piece)+]
            [Unused Unused Unused Unused Unused Unused Unused Unused Unused Unused Unused Unused])
    };
}

macro_rules! pieces_or {
    ($show:ident [$($usual:tt)+]) => { pieces!($show $($usual)+) };
    ($show:ident [$($usual:tt)+] [$($other:tt)+]) => { pieces!($show $($other)+) };
}

macro_rules! count {
    ($($thing:tt)+) => { 0 $(+ one!($thing))+ };
}

macro_rules! one {
    ($thing:tt) => { 1 };
}

macro_rules! count_or {
    ([$($usual:tt)+]) => { count!($($usual)+) };
    ([$($usual:tt)+] [$($other:tt)+]) => { count!($($other)+) };
}

macro_rules! choice {
    () => { Choice::Always };
    ($choice:ident) => { Choice::$choice };
}

macro_rules! result {
    (is $cat:ident) => { RowResult::Is(Cat::$cat) };
    (same $scrap:literal) => { RowResult::SameAs($scrap) };
}

macro_rules! perhaps {
    () => { None };
    ($scrap:literal) => { Some($scrap) };
}

macro_rules! tests_of {
    ($($number:literal: $([$($test:tt)+]),+; $offset:literal + $replaced:literal => $how:tt $what:tt;
        [$($usual:tt)+] $(or $choice:ident [$($other:tt)+])? $(underline $underline:literal)?
        $(reserve $reserve:literal)? $(bold $bold:literal)?;)+
    ) => { [$(tests!($([$($test)+]),+)),+] };
}

macro_rules! usual_of {
    ($($number:literal: $([$($test:tt)+]),+; $offset:literal + $replaced:literal => $how:tt $what:tt;
        [$($usual:tt)+] $(or $choice:ident [$($other:tt)+])? $(underline $underline:literal)?
        $(reserve $reserve:literal)? $(bold $bold:literal)?;)+
    ) => { [$(pieces!(piece $($usual)+)),+] };
}

macro_rules! usual_insertions_of {
    ($($number:literal: $([$($test:tt)+]),+; $offset:literal + $replaced:literal => $how:tt $what:tt;
        [$($usual:tt)+] $(or $choice:ident [$($other:tt)+])? $(underline $underline:literal)?
        $(reserve $reserve:literal)? $(bold $bold:literal)?;)+
    ) => { [$(pieces!(insertion $($usual)+)),+] };
}

macro_rules! other_of {
    ($($number:literal: $([$($test:tt)+]),+; $offset:literal + $replaced:literal => $how:tt $what:tt;
        [$($usual:tt)+] $(or $choice:ident [$($other:tt)+])? $(underline $underline:literal)?
        $(reserve $reserve:literal)? $(bold $bold:literal)?;)+
    ) => { [$(pieces_or!(piece [$($usual)+] $([$($other)+])?)),+] };
}

macro_rules! other_insertions_of {
    ($($number:literal: $([$($test:tt)+]),+; $offset:literal + $replaced:literal => $how:tt $what:tt;
        [$($usual:tt)+] $(or $choice:ident [$($other:tt)+])? $(underline $underline:literal)?
        $(reserve $reserve:literal)? $(bold $bold:literal)?;)+
    ) => { [$(pieces_or!(insertion [$($usual)+] $([$($other)+])?)),+] };
}

macro_rules! heads_of {
    ($($number:literal: $([$($test:tt)+]),+; $offset:literal + $replaced:literal => $how:tt $what:tt;
        [$($usual:tt)+] $(or $choice:ident [$($other:tt)+])? $(underline $underline:literal)?
        $(reserve $reserve:literal)? $(bold $bold:literal)?;)+
    ) => {
        [$(Head {
            number: $number,
            test_count: count!($([$($test)+])+),
            offset: $offset,
            replaced: $replaced,
            result: result!($how $what),
            choice: choice!($($choice)?),
            usual_count: count!($($usual)+),
            other_count: count_or!([$($usual)+] $([$($other)+])?),
            underline: perhaps!($($underline)?),
            reserve: perhaps!($($reserve)?),
            bold: perhaps!($($bold)?),
        }),+]
    };
}

/// How many productions there are.
pub const ROW_COUNT: usize = 148;

static TESTS: [[CatSet; 4]; ROW_COUNT] = productions!(tests_of);

static USUAL: [[Piece; 12]; ROW_COUNT] = productions!(usual_of);

static OTHER: [[Piece; 12]; ROW_COUNT] = productions!(other_of);

pub(crate) static USUAL_INSERTIONS: [[Insertion; 12]; ROW_COUNT] = productions!(
    usual_insertions_of
);

pub(crate) static OTHER_INSERTIONS: [[Insertion; 12]; ROW_COUNT] = productions!(
    other_insertions_of
);

pub(crate) static HEADS: [Head; ROW_COUNT] = productions!(heads_of);

// The row at a place of the table, from 0 on.
fn row_at(i: usize) -> Row
    requires { i < ROW_COUNT }
    ensures { slice_get productions i ≡ Some result }
{
    let head = HEADS[i];
    Row {
        tests: TESTS[i],
        number: RowNo {
            number: head.number,
        },
        test_count: head.test_count,
        offset: head.offset,
        replaced: head.replaced,
        result: head.result,
        action: Action {
            usual: Pieces {
                pieces: USUAL[i],
                count: head.usual_count,
            },
            other: Pieces {
                pieces: OTHER[i],
                count: head.other_count,
            },
            choice: head.choice,
            underline: head.underline,
            reserve: head.reserve,
            bold: head.bold,
        },
    }
}

/// The table of the productions.
pub fn table() -> Table<ROW_COUNT>
    ensures rows { result ≡ productions }
    ensures sound { list_all row_is_sound result ≡ true }
    ensures rules { All IsSound result }
    ensures numbered { are_numbered 1 result ≡ true }
{
    let mut rows = [row_at(0); ROW_COUNT];
    for i in 0..ROW_COUNT {
        rows[i] = row_at(i);
    }
    Table { rows }
}
