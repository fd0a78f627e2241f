//! The printing of a C text from its translation.
ghost use Rattle.std.specs.Prelude.{◌≡◌, ◌&&◌, ◌≤◌, ◌<◌, ◌++◌, Bool, List, [], ◌∷◌, IfOk, IfSome, OnOk, false, length};
ghost use Rattle.cw_lex.specs.Nested.{begins_section_in};
ghost use Rattle.cw_trees.specs.Flat.{Item, Open as open_item, Close as close_item};
ghost use Rattle.cw_trees.specs.Printing.{ident_bytes, printed};
ghost use Rattle.cw_tokens.specs.FlatItems.{item_is, items_are};
ghost use Rattle.cw_tokens.specs.declared.flat.FlatItem.TheVariants.{Source as FlatSource, Ident as FlatIdent};
ghost use Rattle.cw_tokens.specs.declared.flat.FlatItem.TheVariants.{Reserved as FlatReserved};
ghost use Rattle.cw_tokens.specs.declared.flat.FlatItem.TheVariants.{Control as FlatControl, Open, Close};
ghost use Rattle.cw_tokens.specs.Shapes.{unfolded};
ghost use Rattle.cw_scraps.specs.Lines.{IsNamedBelow};
ghost use Rattle.cw_lines.specs.Sheets.{CanPrint, Prints};
ghost use Rattle.cw_join.specs.Early.{added};
ghost use Rattle.cw_join.specs.Tokens.{CanCome, word_at};
ghost use Rattle.cw_print.specs.model.Coming.{AllMay, MayCome};
ghost use Rattle.cw_print.specs.model.Printing.{IsBehind, IsMidway, IsOnlyName, Midway, PrintsOn, shown};
ghost use Rattle.cw_print.specs.model.Printing.{shown_next, source_of};
ghost use Rattle.cw_print.specs.Sources.{lists_all, source_by};
ghost use Rattle.cw_print.specs.Walk.{PrintSource, tree_bytes, wrapped};
ghost use Rattle.cw_base.specs.Conditions.{list_if};

use crate::book_titles::is_first;
use crate::walk::{Manner, TextWalk, is_placed};
use cw_answers::Answers;
use cw_base::{Bytes, Flags, Memory};
use cw_desk::Desk;
use cw_join::{Joiner, put_ident_of};
use cw_lines::{PutError, Sheet};
use cw_names::{NameId, Names};
use cw_phase1::Book;
use cw_tokens::{FlatItem, FlatTokens, ListId, TokenStore};
use cw_trees::Control;
use std::alloc::Global;
use std::mem::replace;

/// A C text of which the scanner's answers are kept, and where it is printed.
#[derive(Clone, Copy)]
pub struct KeptText<'s, 'a> {
    /// All answers of the scanner for it.
    pub answers: &'s Answers<'a>,
    /// The book, as which section names are printed.
    pub book: &'s Book,
    /// The present section, or 0 in the section list.
    pub section: u32,
    /// They say whether inner texts stand in `\PB{` and `}`, and whether names of the section list have all sections
    /// that define them.
    pub flags: &'s Flags,
    /// The text is itself inner C text.
    pub inner: bool,
}

// Whether names list all sections that define them: with flag r those of the section list do.
fn lists_all(flags: &Flags, section: u32) -> bool
    ensures { result ≡ lists_all flags.now section }
{
    flags.ranged && section == 0
}

// Where the printing of a C text stands.
#[derive(Drop)]
struct Printer<'s, 'a> {
    joiner: Joiner,
    walk: TextWalk<'s, 'a>,
    book: &'s Book,
}

impl<'s, 'a> Printer<'s, 'a> {
    // A printer that stands before the first item.
    fn over(alloc: Global, c: KeptText<'s, 'a>) -> Printer<'s, 'a>
        ensures { IsBehind (source_of c.entry) c.entry.inner [] result }
    {
        let manner = Manner {
            wraps: c.flags.wrap,
            first: is_first(c.book, c.section),
            lists: lists_all(c.flags, c.section),
        };
        Printer {
            book: c.book,
            walk: TextWalk::over(alloc, c.answers, manner),
            joiner: Joiner::new(c.inner),
        }
    }

    // Appends what some items print, of which the first stands at a place. The match stands in the loop, since a
    // function for one item grows too large to be inlined.
    fn print(
        &mut self,
        items: &[FlatItem],
        from: usize,
        to: usize,
        buffer: &mut Bytes,
    ) -> Result<(), Memory>
        requires order { from ≤ to }
        requires within { to ≤ length items.now }
        requires midway { IsMidway (items_are items.now) from self.old }
        ensures bytes { (s : PrintSource) (inner : Bool) → Midway s inner (items_are items.now) from self.old
            → OnOk result (PrintsOn s inner (items_are items.now) from to buffer.old buffer.new) }
        ensures midway { (s : PrintSource) (inner : Bool) → Midway s inner (items_are items.now) from self.old
            → OnOk result (Midway s inner (items_are items.now) to self.new) }
    {
        for item in &items[from..to] {
            match *item {
                FlatItem::Source(number) => self.source(number, buffer)?,
                FlatItem::Control(control) => self.control(control, buffer)?,
                FlatItem::Ident(name, number) => self.ident(name, number, buffer)?,
                FlatItem::Reserved(name, number) => self.reserved(name, number, buffer)?,
                FlatItem::Open => self.open(buffer)?,
                FlatItem::Close => self.close(buffer)?,
            }
        }
        Ok(())
    }

    // Prints all items, through a buffer that is empty at first.
    fn print_all<D: Desk>(
        &mut self,
        alloc: Global,
        items: &[FlatItem],
        buffer: &mut Bytes,
        sheet: &mut Sheet<D>,
    ) -> Result<(), PutError>
        requires can { CanPrint D.told sheet.old }
        requires empty { buffer.old ≡ [] }
        requires midway { IsMidway (items_are items.now) 0 self.old }
        ensures { (s : PrintSource) (inner : Bool) → Midway s inner (items_are items.now) 0 self.old
            → Prints D.told (printed inner (shown s (items_are items.now))) sheet.old sheet.new result }
    {
        let mut at = 0;
        while items.len() - at > TOGETHER {
            let to = at + TOGETHER;
            self.print(items, at, to, buffer)?;
            sheet.put_all(buffer.as_slice())?;
            clear(alloc, buffer);
            at = to;
        }
        self.print(items, at, items.len(), buffer)?;
        self.joiner.append_end(buffer)?;
        sheet.put_all(buffer.as_slice())
    }

    // Appends what a token of the text prints behind the items before it.
    #[inline(always)]
    fn source(&mut self, number: u32, buffer: &mut Bytes) -> Result<(), Memory>
        requires come { CanCome (length self.old.book.now.names) self.old.joiner.depth (FlatSource number) }
        ensures bytes { (s : PrintSource) (inner : Bool) (items : List Item) → IsBehind s inner items self.old
            → OnOk result (buffer.new ≡ buffer.old
            ++ added inner (shown s items) (shown_next s items (item_is (FlatSource number)))) }
        ensures behind { (s : PrintSource) (inner : Bool) (items : List Item) → IsBehind s inner items self.old
            → OnOk result (IsBehind s inner (items ++ item_is (FlatSource number) ∷ []) self.new) }
    {
        self.joiner
            .append(FlatItem::Source(number), &self.book.names, buffer)?;
        self.walk.show_source(buffer, number, self.book)
    }

    // The same of a control.
    #[inline(always)]
    fn control(&mut self, control: Control, buffer: &mut Bytes) -> Result<(), Memory>
        requires come { CanCome (length self.old.book.now.names) self.old.joiner.depth (FlatControl control) }
        ensures bytes { (s : PrintSource) (inner : Bool) (items : List Item) → IsBehind s inner items self.old
            → OnOk result (buffer.new ≡ buffer.old
            ++ added inner (shown s items) (shown_next s items (item_is (FlatControl control)))) }
        ensures behind { (s : PrintSource) (inner : Bool) (items : List Item) → IsBehind s inner items self.old
            → OnOk result (IsBehind s inner (items ++ item_is (FlatControl control) ∷ []) self.new) }
    {
        self.joiner
            .append(FlatItem::Control(control), &self.book.names, buffer)?;
        if is_placed(control) {
            return self.walk.show_control(buffer, control);
        }
        Ok(())
    }

    // The same of an identifier, which prints the same everywhere. It stands apart, so that the loop stays small.
    #[inline(never)]
    fn ident(&mut self, name: NameId, number: u32, buffer: &mut Bytes) -> Result<(), Memory>
        requires come { CanCome (length self.old.book.now.names) self.old.joiner.depth (FlatIdent name number) }
        ensures bytes { (s : PrintSource) (inner : Bool) (items : List Item) → IsBehind s inner items self.old
            → OnOk result (buffer.new ≡ buffer.old
            ++ added inner (shown s items) (shown_next s items (item_is (FlatIdent name number)))) }
        ensures behind { (s : PrintSource) (inner : Bool) (items : List Item) → IsBehind s inner items self.old
            → OnOk result (IsBehind s inner (items ++ item_is (FlatIdent name number) ∷ []) self.new) }
    {
        self.joiner
            .append(FlatItem::Ident(name, number), &self.book.names, buffer)?;
        Ok(())
    }

    // The same of a reserved word.
    #[inline(never)]
    fn reserved(&mut self, name: NameId, number: u32, buffer: &mut Bytes) -> Result<(), Memory>
        requires come { CanCome (length self.old.book.now.names) self.old.joiner.depth (FlatReserved name number) }
        ensures bytes { (s : PrintSource) (inner : Bool) (items : List Item) → IsBehind s inner items self.old
            → OnOk result (buffer.new ≡ buffer.old
            ++ added inner (shown s items) (shown_next s items (item_is (FlatReserved name number)))) }
        ensures behind { (s : PrintSource) (inner : Bool) (items : List Item) → IsBehind s inner items self.old
            → OnOk result (IsBehind s inner (items ++ item_is (FlatReserved name number) ∷ []) self.new) }
    {
        self.joiner
            .append(FlatItem::Reserved(name, number), &self.book.names, buffer)?;
        Ok(())
    }

    // The same of the beginning of an inner text. Few items are one.
    #[inline(never)]
    fn open(&mut self, buffer: &mut Bytes) -> Result<(), Memory>
        requires come { CanCome (length self.old.book.now.names) self.old.joiner.depth Open }
        ensures bytes { (s : PrintSource) (inner : Bool) (items : List Item) → IsBehind s inner items self.old
            → OnOk result (buffer.new ≡ buffer.old ++ added inner (shown s items) (shown_next s items open_item)) }
        ensures behind { (s : PrintSource) (inner : Bool) (items : List Item) → IsBehind s inner items self.old
            → OnOk result (IsBehind s inner (items ++ open_item ∷ []) self.new) }
    {
        self.joiner
            .append(FlatItem::Open, &self.book.names, buffer)?;
        self.walk.put_bracket(buffer, b"\\PB{")
    }

    // The same of its end.
    #[inline(never)]
    fn close(&mut self, buffer: &mut Bytes) -> Result<(), Memory>
        requires come { CanCome (length self.old.book.now.names) self.old.joiner.depth Close }
        ensures bytes { (s : PrintSource) (inner : Bool) (items : List Item) → IsBehind s inner items self.old
            → OnOk result (buffer.new ≡ buffer.old ++ added inner (shown s items) (shown_next s items close_item)) }
        ensures behind { (s : PrintSource) (inner : Bool) (items : List Item) → IsBehind s inner items self.old
            → OnOk result (IsBehind s inner (items ++ close_item ∷ []) self.new) }
    {
        self.joiner
            .append(FlatItem::Close, &self.book.names, buffer)?;
        self.walk.put_bracket(buffer, b"}")
    }
}

// What so many items print goes to the line together.
const TOGETHER: usize = 1024;

// A buffer with capacity for what most texts of so many items print.
fn empty_buffer(alloc: Global, items: usize) -> Result<Bytes, Memory>
    ensures { IfOk result (λ bytes. bytes ≡ []) }
{
    let room = items.min(TOGETHER) * 4 + 64;
    Ok(Bytes::from_vec(Vec::with_capacity(alloc, room)?))
}

// Empties a buffer, and keeps its capacity.
fn clear(alloc: Global, buffer: &mut Bytes)
    ensures { buffer.new ≡ [] }
{
    let mut bytes = replace(buffer, Bytes::new_in(alloc)).into_vec();
    bytes.clear();
    *buffer = Bytes::from_vec(bytes);
}

fn print_items<D: Desk>(
    alloc: Global,
    c: KeptText,
    items: &[FlatItem],
    sheet: &mut Sheet<D>,
) -> Result<(), PutError>
    requires can { CanPrint D.told sheet.old }
    requires come { AllMay (MayCome (length c.book.now.names)) 0 (items_are items.now) }
    ensures { Prints D.told (printed c.entry.inner (shown (source_of c.entry) (items_are items.now)))
        sheet.old sheet.new result }
{
    let mut buffer = empty_buffer(alloc, items.len())?;
    let mut printer = Printer::over(alloc, c);
    let printed = printer.print_all(alloc, items, &mut buffer, sheet);
    drop(printer);
    drop(buffer);
    printed
}

impl<'s, 'a> KeptText<'s, 'a> {
    // Whether the text stands in `\PB{` and `}`.
    fn is_wrapped(self) -> bool
        ensures { result ≡ (self.entry.inner && self.entry.flags.now.wrap) }
    {
        self.inner && self.flags.wrap
    }
}

fn put_bracket<D: Desk>(wraps: bool, bytes: &[u8], sheet: &mut Sheet<D>) -> Result<(), PutError>
    requires can { CanPrint D.told sheet.old }
    ensures { Prints D.told (list_if wraps bytes.now) sheet.old sheet.new result }
{
    if wraps {
        return sheet.put_all(bytes);
    }
    Ok(())
}

// The name of items that are one identifier.
fn only_name(items: &FlatTokens) -> Option<NameId>
    ensures { IfSome result (λ name. IsOnlyName name items.now) }
{
    if items.len() != 1 {
        return None;
    }
    match items.item(0) {
        FlatItem::Ident(name, _number) => Some(name),
        _ => None,
    }
}

// Prints a C text that is one identifier, of which no token has to be found.
fn print_name<D: Desk>(
    wraps: bool,
    names: &Names,
    name: NameId,
    sheet: &mut Sheet<D>,
) -> Result<(), PutError>
    requires can { CanPrint D.told sheet.old }
    requires named { name.index < length names.now }
    ensures { Prints D.told (wrapped wraps (word_at ident_bytes names.now name.index)) sheet.old sheet.new result }
{
    put_bracket(wraps, b"\\PB{", sheet)?;
    put_ident_of(names, name, sheet)?;
    put_bracket(wraps, b"}", sheet)
}

// Prints a C text from its items.
fn print_flat<D: Desk>(
    alloc: Global,
    c: KeptText,
    items: &FlatTokens,
    sheet: &mut Sheet<D>,
) -> Result<(), PutError>
    requires can { CanPrint D.told sheet.old }
    requires come { AllMay (MayCome (length c.book.now.names)) 0 (items_are items.now) }
    ensures { Prints D.told (wrapped (c.entry.inner && c.entry.flags.now.wrap)
        (printed c.entry.inner (shown (source_of c.entry) (items_are items.now)))) sheet.old sheet.new result }
{
    let wraps = c.is_wrapped();
    if let Some(name) = only_name(items) {
        return print_name(wraps, &c.book.names, name, sheet);
    }
    put_bracket(wraps, b"\\PB{", sheet)?;
    print_items(alloc, c, items.items(), sheet)?;
    put_bracket(wraps, b"}", sheet)
}

/// Prints a C text from its translation, a list of the store, and prints section names as the book keeps them. It scans
/// nothing: the tokens of the list are found among the answers.
pub fn print_answers<D: Desk>(
    alloc: Global,
    c: KeptText,
    store: &TokenStore,
    id: ListId,
    sheet: &mut Sheet<D>,
) -> Result<(), PutError>
    requires can { CanPrint D.told sheet.old }
    requires uncut { begins_section_in c.answers.now ≡ false }
    requires list { id.index < length store.now.lists }
    requires named { IsNamedBelow (length c.book.now.names) (unfolded store.now.lists id.index) }
    ensures { Prints D.told (tree_bytes c.entry.inner
        (source_by c.entry.answers.now c.entry.book.now c.entry.section c.entry.flags.now)
        (unfolded store.now.lists id.index))
        sheet.old sheet.new result }
{
    let items = store.flat_trimmed(alloc, id)?;
    print_flat(alloc, c, &items, sheet)
}
