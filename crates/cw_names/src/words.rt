//! The words that are known from the start.
ghost use Rattle.std.specs.Prelude.{◌≡◌, [], map, IfOk};
ghost use Rattle.cw_names.specs.model.Inside.{entry_of};
ghost use Rattle.cw_names.specs.model.Table.{row, with_table};
ghost use Rattle.cw_names.specs.Words.{built_in_words};

use crate::EntryKind;
use crate::entry::Key;
use cw_base::{Cat, Memory};
use indexmap::IndexMap;
use std::alloc::Global;

/// How many words are known from the start: a web's own names are counted on from here.
pub const WORD_COUNT: usize = 102;

/// The reserved words of C with their categories, and then the words that are reserved in `#` lines
/// only, which are ordinary identifiers elsewhere.
pub(crate) const WORDS: [(&[u8], Cat); WORD_COUNT] = [
    (b"char", Cat::RawInt),
    (b"double", Cat::RawInt),
    (b"float", Cat::RawInt),
    (b"int", Cat::RawInt),
    (b"long", Cat::RawInt),
    (b"short", Cat::RawInt),
    (b"signed", Cat::RawInt),
    (b"unsigned", Cat::RawInt),
    (b"void", Cat::RawInt),
    (b"FILE", Cat::RawInt),
    (b"size_t", Cat::RawInt),
    (b"_Bool", Cat::RawInt),
    (b"bool", Cat::RawInt),
    (b"char8_t", Cat::RawInt),
    (b"char16_t", Cat::RawInt),
    (b"char32_t", Cat::RawInt),
    (b"clock_t", Cat::RawInt),
    (b"div_t", Cat::RawInt),
    (b"fpos_t", Cat::RawInt),
    (b"int8_t", Cat::RawInt),
    (b"int16_t", Cat::RawInt),
    (b"int32_t", Cat::RawInt),
    (b"int64_t", Cat::RawInt),
    (b"intmax_t", Cat::RawInt),
    (b"intptr_t", Cat::RawInt),
    (b"jmp_buf", Cat::RawInt),
    (b"ldiv_t", Cat::RawInt),
    (b"off_t", Cat::RawInt),
    (b"ptrdiff_t", Cat::RawInt),
    (b"sig_atomic_t", Cat::RawInt),
    (b"ssize_t", Cat::RawInt),
    (b"time_t", Cat::RawInt),
    (b"uint8_t", Cat::RawInt),
    (b"uint16_t", Cat::RawInt),
    (b"uint32_t", Cat::RawInt),
    (b"uint64_t", Cat::RawInt),
    (b"uintmax_t", Cat::RawInt),
    (b"uintptr_t", Cat::RawInt),
    (b"va_list", Cat::RawInt),
    (b"wchar_t", Cat::RawInt),
    (b"wint_t", Cat::RawInt),
    (b"_Complex", Cat::RawInt),
    (b"auto", Cat::IntLike),
    (b"extern", Cat::IntLike),
    (b"register", Cat::IntLike),
    (b"static", Cat::IntLike),
    (b"inline", Cat::IntLike),
    (b"constexpr", Cat::IntLike),
    (b"thread_local", Cat::IntLike),
    (b"_Thread_local", Cat::IntLike),
    (b"_Noreturn", Cat::IntLike),
    (b"const", Cat::ConstLike),
    (b"volatile", Cat::ConstLike),
    (b"restrict", Cat::ConstLike),
    (b"struct", Cat::StructLike),
    (b"union", Cat::StructLike),
    (b"enum", Cat::StructLike),
    (b"break", Cat::CaseLike),
    (b"case", Cat::CaseLike),
    (b"continue", Cat::CaseLike),
    (b"default", Cat::CaseLike),
    (b"goto", Cat::CaseLike),
    (b"return", Cat::CaseLike),
    (b"for", Cat::ForLike),
    (b"switch", Cat::ForLike),
    (b"while", Cat::ForLike),
    (b"do", Cat::DoLike),
    (b"if", Cat::IfLike),
    (b"else", Cat::ElseLike),
    (b"sizeof", Cat::SizeofLike),
    (b"_Generic", Cat::SizeofLike),
    (b"alignof", Cat::SizeofLike),
    (b"_Alignof", Cat::SizeofLike),
    (b"asm", Cat::SizeofLike),
    (b"static_assert", Cat::SizeofLike),
    (b"_Static_assert", Cat::SizeofLike),
    (b"typedef", Cat::TypedefLike),
    (b"typeof", Cat::TypeofLike),
    (b"typeof_unqual", Cat::TypeofLike),
    (b"_BitInt", Cat::TypeofLike),
    (b"_Atomic", Cat::TypeofLike),
    (b"alignas", Cat::AlignasLike),
    (b"_Alignas", Cat::AlignasLike),
    (b"__attribute__", Cat::AlignasLike),
    (b"_Pragma", Cat::AlignasLike),
    (b"TeX", Cat::TexLike),
    (b"NULL", Cat::TexLike),
    (b"elif", Cat::Exp),
    (b"elifdef", Cat::Exp),
    (b"elifndef", Cat::Exp),
    (b"embed", Cat::Exp),
    (b"error", Cat::Exp),
    (b"ifdef", Cat::Exp),
    (b"ifndef", Cat::Exp),
    (b"include", Cat::Exp),
    (b"line", Cat::Exp),
    (b"pragma", Cat::Exp),
    (b"undef", Cat::Exp),
    (b"warning", Cat::Exp),
    (b"endif", Cat::Exp),
    (b"define", Cat::Exp),
    (b"defined", Cat::Exp),
];

/// The words of a table with their categories. A word that stands in it twice keeps its first place and has its last
/// category.
pub(crate) fn table_of(alloc: Global, words: &[(&[u8], Cat)]) -> Result<IndexMap<Key, Cat>, Memory>
    ensures { IfOk result (λ table. map entry_of table.entries ≡ with_table (map row words.now) []) }
{
    let mut table = IndexMap::new(alloc);
    for (word, category) in words {
        let text = Vec::from_slice(alloc, word)?;
        let kind = EntryKind::Ident;
        table.insert(Key { kind, text }, *category)?;
    }
    Ok(table)
}

/// The words that are known from the start.
pub(crate) fn built_in_table(alloc: Global) -> Result<IndexMap<Key, Cat>, Memory>
    ensures { IfOk result (λ table. map entry_of table.entries ≡ built_in_words) }
{
    let table = table_of(alloc, &WORDS)?;
    Ok(table)
}
