//! The law of what limbo and TeX text print.
ghost use Rattle.cw_laws.specs.TexText.{PlainTextIsKept};

/// The law of TeX text: where it has no `@`, and in a TeX part no bar, it is printed byte for byte, and no C text is in
/// it. Only line ends come or go: a last line without one gets one, and one with which limbo begins is dropped where
/// other bytes stand before it on its line. In the TeX file limbo stands behind the first line, and a TeX part with its
/// head behind the sections before it; and so they are written, where none of their lines has more than 80 bytes. It
/// does nothing: what it ensures is for proofs.
pub fn tex_text_law()
    ensures { PlainTextIsKept }
{}
