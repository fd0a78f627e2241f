//! Two entries in the order of the index, and the closing lines printed to a line and a desk. No program calls them,
//! users of the library do: thin calls of what programs run.
ghost use Rattle.std.specs.Prelude.{◌≡◌, ◌<◌, IfOk, Some, length, slice_get};
ghost use Rattle.cw_lines.specs.Writes.{CanWrite, Puts};
ghost use Rattle.cw_names.specs.Names.{Entry};
ghost use Rattle.cw_index.specs.Closing.{closing_lines};
ghost use Rattle.cw_index.specs.Collation.{entry_cmp};

use crate::closing::print_closing;
use crate::collation::Collated;
use cw_base::Flags;
use cw_desk::Desk;
use cw_lines::{LineOut, PutError, Sheet};
use cw_names::{NameId, Names};
use cw_phase1::Book;
use cw_press::Counts;
use std::cmp::Ordering;

/// The order of two entries in the index. It takes no memory.
pub fn compare_entries(names: &Names, a: NameId, b: NameId) -> Ordering
    requires first { a.index < length names.now }
    requires second { b.index < length names.now }
    ensures { (e f : Entry) → slice_get names.now a.index ≡ Some e → slice_get names.now b.index ≡ Some f
        → result ≡ entry_cmp e f }
{
    let first = Collated {
        kind: names.kind(a),
        text: names.text(a),
    };
    let second = Collated {
        kind: names.kind(b),
        text: names.text(b),
    };
    first.compare(&second)
}

/// Prints the lines that end the TeX file. It translates nothing.
pub fn write_closing<D: Desk>(
    book: &Book,
    flags: &Flags,
    out: &mut LineOut,
    desk: &mut D,
) -> Result<Counts, PutError>
    requires can { CanWrite (D.told desk.old) out.old }
    ensures puts { Puts (closing_lines flags.now book.now.outline.sections) out.old out.new
        (D.told desk.old) (D.told desk.new) result }
    ensures scraps { IfOk result (λ counts. counts.scraps ≡ 0) }
    ensures productions { IfOk result (λ counts. counts.productions ≡ 0) }
{
    let mut sheet = Sheet { line: out, desk };
    print_closing(book, flags, &mut sheet)
}
