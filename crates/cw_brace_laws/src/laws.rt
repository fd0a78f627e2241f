//! Laws of braces.
ghost use Rattle.cw_brace_laws.specs.BraceLaws.{LeavesAreBraced, ProductionsKeepBraces, ReductionsAreBraced};
ghost use Rattle.cw_brace_laws.specs.BraceLaws.{PlainTextsPrintBraced, TranslationsAreBraced, TranslationsPrintBraced};
ghost use Rattle.cw_brace_laws.specs.BraceLaws.{TreesPrintBraced};

/// The law of leaves: the scrap of each token has no braces, and holds no text where its category is calm. It does
/// nothing: what it ensures is for proofs.
pub fn leaf_law()
    ensures { LeavesAreBraced }
{}

/// The law of one production: where the braces of each scrap pair, with no text between them, and each scrap of a calm
/// category holds no text, so it is after the production; if the operators that it puts between braces hold none. It
/// does nothing: what it ensures is for proofs.
pub fn production_law()
    ensures { ProductionsKeepBraces }
{}

/// The law of all productions: in the tree to which such scraps are joined the braces pair, and no text stands between
/// them; if the operators that productions put between braces hold none. It does nothing: what it ensures is for
/// proofs.
pub fn reduction_law()
    ensures { ReductionsAreBraced }
{}

/// The law of translations: in the tree of a translation, with section names and heads, the braces pair, and no text
/// stands between them; if the operators that productions put between braces hold none, in it and in its inner texts.
/// What a token prints is the author's and stands out. It does nothing: what it ensures is for proofs.
pub fn translation_law()
    ensures { TranslationsAreBraced }
{}

/// The law of printing: flattened and trimmed, a tree whose braces pair with no text between them has signs that do so,
/// and so have the bytes that these signs print, as those of a part and as those of an inner text. The tree of a
/// translation is such a tree. It does nothing: what it ensures is for proofs.
pub fn printing_law()
    ensures trees { TreesPrintBraced }
    ensures translations { TranslationsPrintBraced }
{}

/// The law of plain texts: where no text has comments, layout codes, `#` lines, question marks or attributes, what its
/// translation prints has braces that pair, with no `$` between them, whatever productions do. It does nothing: what it
/// ensures is for proofs.
pub fn plain_text_law()
    ensures { PlainTextsPrintBraced }
{}
