//! C text.
ghost use Rattle.std.specs.Prelude.{◌≡◌, ◌≤◌, ◌<◌, ◌+◌, ◌-◌, ◌∷◌, [], true, false, not, ◌==◌, ◌&&◌, ◌++◌, nat_lt};
ghost use Rattle.std.specs.Prelude.{length, drop, slice_index, MatchOption};
ghost use Rattle.cw_rules.specs.Answers.{Gives, before};
ghost use Rattle.cw_rules.specs.Bytes.{run, is_letter};
ghost use Rattle.cw_rules.specs.Codes.{code_at};
ghost use Rattle.cw_lex.specs.Lexing.{fresh_at, last_at, spot_at, answers_at};
ghost use Rattle.cw_rules.specs.Tokens.{code_text, in_code, start_of, code_by, effect_in, line_end, part_line_end};
ghost use Rattle.cw_rules.specs.Tokens.{comment_end, inner_cut, takes_hash_line, behind_include};
ghost use Rattle.cw_rules.specs.Tokens.{in_hash_line};
ghost use Rattle.cw_rules.specs.Tokens.{ends_at_bar, one, moved, closes_on_line, is_include, behind_word, word};
ghost use Rattle.cw_rules.specs.Tokens.{passed};
ghost use Rattle.cw_lex.specs.model.Coming.{where_of, coming, found_at, ends_line, AreOpenInCode};
ghost use Rattle.cw_rules.specs.model.Cuttings.{bytes_at, cut_of};
ghost use Rattle.cw_rules.specs.Tokens.{is_code, is_code_part};
ghost use Rattle.cw_lex.specs.model.Coming.{is_white_here, IsClear, IsReady, CanStep};
ghost use Rattle.cw_rules.specs.model.Cuttings.{IsCut};
ghost use Rattle.cw_lex.specs.model.Starts.{StartFits, start_by_byte};
ghost use Rattle.cw_rules.specs.Constants.{constant};

use crate::comment_text::{begin_comment, end_inner};
use crate::giving::{give, give_string, token};
use crate::plain::begins_c;
use crate::state::{Clear, State};
use crate::{Code, Directive, Lexed, Tok, TokKind};
use cw_base::NoteKind;
use cw_rules::classes::{
    Class, begins, begins_with, from, is_blank, is_digit, is_letter, is_mark, run,
};
use cw_rules::codes::Effect;
use cw_rules::constants::constant;
use cw_rules::cuttings::{Cutting, code_token, dropped_code, include_name, note_unless, plain};
use cw_rules::directives::directive_at;
use cw_rules::parts::{Behind, Opened, Part, Start};
use cw_rules::pending::Pending;
use cw_rules::prefixes::prefix_size;
use cw_rules::signs::sign_at;

/// The byte before a place.
fn last_at(text: &[u8], at: usize) -> u8
    requires { at ≤ length text.now }
    ensures { result ≡ last_at text.now at }
{
    if at == 0 { 0 } else { text[at - 1] }
}

/// Whether only blanks stand before a place on its line.
fn is_fresh(text: &[u8], at: usize) -> bool
    requires { at ≤ length text.now }
    ensures { result ≡ fresh_at text.now at }
{
    let mut k = at;
    while 0 < k {
        if !is_blank(text[k - 1]) {
            return text[k - 1] == b'\n';
        }
        k -= 1;
    }
    true
}

impl State {
    // Whether a line's end here ends something, behind this byte.
    fn ends_line(&self, last: u8) -> bool
        ensures { result ≡ ends_line self.now.part self.now.comments last }
    {
        match self.comments.top() {
            Some(comment) => !comment.long,
            None => self.part.in_hash_line() && last != b'\\',
        }
    }

    // Whether white space of C text stands at a place.
    fn is_white_at(&self, text: &[u8], at: usize) -> bool
        requires { at < length text.now }
        ensures { result ≡ is_white_here self.now.part self.now.comments (last_at text.now at) (slice_index text.now at)
            (drop (at + 1) text.now) }
    {
        let byte = text[at];
        if byte == b'\n' {
            return !self.ends_line(last_at(text, at));
        }
        is_blank(byte)
            || (self.part.in_hash_line() && byte == b'\\' && begins(b'\n', from(text, at + 1)))
    }
}

/// The place behind the white space.
pub(crate) fn skip_white(text: &[u8], state: &State) -> usize
    requires within { state.now.at ≤ length text.now }
    requires code { is_code state.now.part state.now.comments ≡ true }
    ensures same { answers_at text.now (where_of state.now) result ≡ answers_at text.now (where_of state.now)
        state.now.at }
    ensures from { state.now.at ≤ result }
    ensures within { result ≤ length text.now }
    ensures none { result < length text.now → is_white_here state.now.part state.now.comments (last_at text.now result)
        (slice_index text.now result) (drop (result + 1) text.now) ≡ false }
{
    let mut at = state.at;
    while at < text.len() {
        if !state.is_white_at(text, at) {
            return at;
        }
        at += 1;
    }
    at
}

/// C text.
pub(crate) fn code_text<'a>(text: &'a [u8], state: &mut State) -> Lexed<'a>
    requires step { CanStep text.now state.old }
    requires code { is_code state.old.part state.old.comments ≡ true }
    requires part { is_code_part state.old.part ≡ true }
    requires white { is_white_here state.old.part state.old.comments (last_at text.now state.old.at)
        (slice_index text.now state.old.at) (drop (state.old.at + 1) text.now) ≡ false }
    requires found { found_at text.now (where_of state.old) state.old.at ≡
        code_text (spot_at text.now (where_of state.old) state.old.at) (slice_index text.now state.old.at)
        (drop (state.old.at + 1) text.now) }
    ensures gives { Gives (coming text.now state.old) result (coming text.now state.new) }
    ensures ready { IsReady text.now state.new }
{
    if text[state.at] == b'\n' {
        return line_end(text, state);
    }
    if begins_hash_line(text, state) {
        let next = Part::Plain {
            hash_line: true,
            behind: Behind::Hash,
        };
        return give(text, state, next, true, plain(TokKind::HashLine, 1));
    }
    match include_size(text, state.at, state.part, &mut state.clear) {
        Some(size) => {
            let next = state.part.passed();
            let cut = include_name(text, state.at, size);
            give_code(text, state, next, cut)
        }
        None => in_code(text, state),
    }
}

fn begins_hash_line(text: &[u8], state: &State) -> bool
    requires { state.now.at < length text.now }
    ensures value { result ≡ (slice_index text.now state.now.at == 35 &&
        (takes_hash_line state.now.part state.now.comments && fresh_at text.now state.now.at)) }
    ensures none { result ≡ true → state.now.comments ≡ [] }
{
    text[state.at] == b'#' && state.takes_hash_line() && is_fresh(text, state.at)
}

/// How many bytes stand between the `<` and the `>` of an include name, where one stands here.
fn include_size(text: &[u8], at: usize, part: Part, clear: &mut Clear) -> Option<usize>
    requires place { at < length text.now }
    requires clear { IsClear text.now clear.old }
    ensures value { MatchOption result ((slice_index text.now at == 60 && (behind_include part && closes_on_line
        (drop (at + 1) text.now))) ≡ false) (λ n. ((slice_index text.now at == 60 &&
        (behind_include part && closes_on_line (drop (at + 1) text.now))) ≡ true) ×
        (n ≡ run Class.IncludeName (drop (at + 1) text.now)) × (at + (n + 2) ≤ length text.now)) }
    ensures clear { IsClear text.now clear.new }
{
    if text[at] != b'<' || !part.behind_include() {
        return None;
    }
    let size = clear_size(text, at + 1, clear);
    if !begins(b'>', from(text, at + 1 + size)) {
        return None;
    }
    Some(size)
}

// How many bytes stand from a place on up to the next `>` or line's end.
fn clear_size(text: &[u8], place: usize, clear: &mut Clear) -> usize
    requires place { place ≤ length text.now }
    requires clear { IsClear text.now clear.old }
    ensures value { result ≡ run Class.IncludeName (drop place text.now) }
    ensures within { place + result ≤ length text.now }
    ensures clear { IsClear text.now clear.new }
{
    if clear.from <= place && place <= clear.to {
        return clear.to - place;
    }
    let size = run(Class::IncludeName, from(text, place));
    clear.from = place;
    clear.to = place + size;
    size
}

// Answers a token of C text that is cut at the scanner's place.
fn give_code<'a>(text: &'a [u8], state: &mut State, part: Part, cut: Cutting) -> Lexed<'a>
    requires step { CanStep text.now state.old }
    requires code { is_code_part part ≡ true }
    requires cut { IsCut text.now state.old.at cut }
    requires found { found_at text.now (where_of state.old) state.old.at ≡
        one (in_hash_line state.old.part) (moved (where_of state.old) part) state.old.at
        (bytes_at text.now state.old.at) (cut_of text.now cut) }
    ensures gives { Gives (coming text.now state.old) result (coming text.now state.new) }
    ensures ready { IsReady text.now state.new }
{
    let hash_line = state.part.in_hash_line();
    give(text, state, part, hash_line, cut)
}

// Answers what a line's end ends: the innermost short comment's C text, or a `#` line.
fn line_end<'a>(text: &'a [u8], state: &mut State) -> Lexed<'a>
    requires step { CanStep text.now state.old }
    requires newline { slice_index text.now state.old.at ≡ 10 }
    requires ends { ends_line state.old.part state.old.comments (last_at text.now state.old.at) ≡ true }
    requires found { found_at text.now (where_of state.old) state.old.at ≡ line_end state.old.part state.old.comments
        (last_at text.now state.old.at) state.old.at }
    ensures gives { Gives (coming text.now state.old) result (coming text.now state.new) }
    ensures ready { IsReady text.now state.new }
{
    match state.comments.top() {
        Some(comment) => cut_inner(text, state, comment),
        None => end_hash_line(text, state),
    }
}

fn end_hash_line<'a>(text: &'a [u8], state: &mut State) -> Lexed<'a>
    requires step { CanStep text.now state.old }
    requires newline { slice_index text.now state.old.at ≡ 10 }
    requires comments { state.old.comments ≡ [] }
    requires ends { (in_hash_line state.old.part && not (last_at text.now state.old.at == 92)) ≡ true }
    requires found { found_at text.now (where_of state.old) state.old.at ≡
        part_line_end state.old.part (last_at text.now state.old.at) state.old.at }
    ensures gives { Gives (coming text.now state.old) result (coming text.now state.new) }
    ensures ready { IsReady text.now state.new }
{
    let next = Part::Plain {
        hash_line: false,
        behind: Behind::Other,
    };
    give(text, state, next, true, plain(TokKind::HashLineEnd, 1))
}

// Answers that the line's end ends inner C text of a short comment. The line's end itself is not taken.
fn cut_inner<'a>(text: &'a [u8], state: &mut State, comment: Opened) -> Lexed<'a>
    requires step { CanStep text.now state.old }
    requires newline { slice_index text.now state.old.at ≡ 10 }
    requires top { state.old.comments ≡ comment ∷ drop 1 state.old.comments }
    requires short { comment.long ≡ false }
    requires found { found_at text.now (where_of state.old) state.old.at ≡
        before (inner_cut (in_hash_line state.old.part) state.old.at state.old.at ++
        comment_end (in_hash_line state.old.part) comment state.old.at 0 []) (line_end (passed state.old.part)
        (drop 1 state.old.comments) (last_at text.now state.old.at) state.old.at) }
    ensures gives { Gives (coming text.now state.old) result (coming text.now state.new) }
    ensures ready { IsReady text.now state.new }
{
    let token = token(
        text,
        state.at,
        0,
        TokKind::InnerText,
        state.part.in_hash_line(),
    );
    state.comments.set_top(Opened {
        start: comment.start,
        long: comment.long,
        braces: comment.braces,
        inner: false,
    });
    state.part = state.part.passed();
    state.pending = Pending {
        first: note_unless(false, NoteKind::BarMissing, state.at),
        second: None,
        body: None,
        last: None,
    };
    Lexed::Finish(token)
}

// A token of C text that begins with no line's end, `#` line or include name.
fn in_code<'a>(text: &'a [u8], state: &mut State) -> Lexed<'a>
    requires step { CanStep text.now state.old }
    requires code { is_code state.old.part state.old.comments ≡ true }
    requires part { is_code_part state.old.part ≡ true }
    requires found { found_at text.now (where_of state.old) state.old.at ≡
        in_code (start_of (ends_at_bar state.old.part state.old.comments) (slice_index text.now state.old.at)
        (drop (state.old.at + 1) text.now)) (where_of state.old) state.old.at (bytes_at text.now state.old.at) }
    ensures gives { Gives (coming text.now state.old) result (coming text.now state.new) }
    ensures ready { IsReady text.now state.new }
{
    let at = state.at;
    match start_at(state.ends_at_bar(), text, at) {
        Start::Identifier => identifier(text, state),
        Start::Constant => {
            let next = state.part.passed();
            let cut = plain(TokKind::Constant, constant(from(text, at)));
            give_code(text, state, next, cut)
        }
        Start::Quoted(quote) => give_string(text, state, quote),
        Start::LongComment => begin_comment(text, state, true),
        Start::ShortComment => begin_comment(text, state, false),
        Start::Code(code) => code_in_code(text, state, code),
        Start::EndOfInner => end_inner(text, state),
        Start::Sign(sign) => {
            let next = state.part.passed();
            let cut = plain(TokKind::Sign(sign), sign.size());
            give_code(text, state, next, cut)
        }
        Start::OtherByte => {
            let next = state.part.passed();
            give_code(text, state, next, plain(TokKind::OtherByte, 1))
        }
    }
}

// What begins here.
fn start_at(bar_ends: bool, text: &[u8], at: usize) -> Start
    requires { at < length text.now }
    ensures value { result ≡ start_of bar_ends (slice_index text.now at) (drop (at + 1) text.now) }
    ensures fits { StartFits result (slice_index text.now at) (drop (at + 1) text.now) }
{
    let byte = text[at];
    let bytes = from(text, at);
    let rest = from(text, at + 1);
    let prefix = prefix_size(bytes);
    if 0 < prefix {
        return Start::Quoted(bytes[prefix]);
    }
    if is_letter(byte) {
        return Start::Identifier;
    }
    if is_constant(byte, bytes) {
        return Start::Constant;
    }
    start_by_byte(bar_ends, byte, rest)
}

// What begins with this byte before the others, where no prefix, identifier or constant does.
#[inline(always)]
fn start_by_byte(bar_ends: bool, byte: u8, rest: &[u8]) -> Start
    ensures value { result ≡ start_by_byte bar_ends byte rest.now }
    ensures fits { StartFits result byte rest.now }
{
    if is_mark(byte) {
        return Start::Quoted(byte);
    }
    if byte == b'/' && begins(b'*', rest) {
        return Start::LongComment;
    }
    if byte == b'/' && begins(b'/', rest) {
        return Start::ShortComment;
    }
    if byte == b'@' {
        return Start::Code(Code::at(rest));
    }
    if byte == b'|' && bar_ends && !begins(b'|', rest) {
        return Start::EndOfInner;
    }
    match sign_at(byte, rest) {
        Some(sign) => Start::Sign(sign),
        None => Start::OtherByte,
    }
}

// Whether a constant begins, by its first byte and all bytes.
#[inline(always)]
fn is_constant(byte: u8, bytes: &[u8]) -> bool
    requires first { bytes.now ≡ byte ∷ drop 1 bytes.now }
    ensures { result ≡ nat_lt 0 (constant bytes.now) }
{
    (is_digit(byte) || byte == b'.') && constant(bytes) > 0
}

fn identifier<'a>(text: &'a [u8], state: &mut State) -> Lexed<'a>
    requires step { CanStep text.now state.old }
    requires code { is_code_part state.old.part ≡ true }
    requires letter { is_letter (slice_index text.now state.old.at) ≡ true }
    requires found { found_at text.now (where_of state.old) state.old.at ≡ in_code Start.Identifier (where_of state.old)
        state.old.at (bytes_at text.now state.old.at) }
    ensures gives { Gives (coming text.now state.old) result (coming text.now state.new) }
    ensures ready { IsReady text.now state.new }
{
    let bytes = from(text, state.at);
    let size = run(Class::Word, bytes);
    let next = behind_word(state.part, bytes, size);
    let directive = directive_at(state.part, bytes);
    give_word(text, state, next, directive, size)
}

// Answers an identifier of this size, which may be a word of a directive.
fn give_word<'a>(
    text: &'a [u8],
    state: &mut State,
    part: Part,
    directive: Directive,
    size: usize,
) -> Lexed<'a>
    requires step { CanStep text.now state.old }
    requires nested { AreOpenInCode part state.old.comments }
    requires some { 0 < size }
    requires within { state.old.at + size ≤ length text.now }
    requires size { size ≡ run Class.Word (bytes_at text.now state.old.at) }
    requires found { found_at text.now (where_of state.old) state.old.at ≡
        one (in_hash_line state.old.part) (moved (where_of state.old) part) state.old.at
        (bytes_at text.now state.old.at) (word directive (bytes_at text.now state.old.at)) }
    ensures gives { Gives (coming text.now state.old) result (coming text.now state.new) }
    ensures ready { IsReady text.now state.new }
{
    let token = token(
        text,
        state.at,
        size,
        TokKind::Identifier,
        state.part.in_hash_line(),
    );
    state.at += size;
    state.part = part;
    Lexed::Token(Tok { directive, ..token })
}

// The part behind an identifier of this size.
fn behind_word(part: Part, bytes: &[u8], size: usize) -> Part
    requires { size ≡ run Class.Word bytes.now }
    ensures value { result ≡ behind_word part bytes.now }
    ensures code { is_code_part part ≡ true → is_code_part result ≡ true }
{
    if is_include_word(part, bytes, size) {
        return Part::Plain {
            hash_line: true,
            behind: Behind::Include,
        };
    }
    part.passed()
}

// Whether an identifier of this size is the word `include` of a `#` line.
fn is_include_word(part: Part, bytes: &[u8], size: usize) -> bool
    requires { size ≡ run Class.Word bytes.now }
    ensures { result ≡ (in_hash_line part && is_include bytes.now) }
{
    part.in_hash_line() && is_include(bytes, size)
}

fn is_include(bytes: &[u8], size: usize) -> bool
    requires { size ≡ run Class.Word bytes.now }
    ensures { result ≡ is_include bytes.now }
{
    begins_with(b"include", bytes) && size == 7
}

// A control code of C text.
fn code_in_code<'a>(text: &'a [u8], state: &mut State, code: Code) -> Lexed<'a>
    requires step { CanStep text.now state.old }
    requires part { is_code_part state.old.part ≡ true }
    requires code { code ≡ code_at (drop (state.old.at + 1) text.now) }
    requires found { found_at text.now (where_of state.old) state.old.at ≡
        code_by (effect_in state.old.part state.old.comments code) code (where_of state.old) state.old.at
        (bytes_at text.now state.old.at) }
    ensures gives { Gives (coming text.now state.old) result (coming text.now state.new) }
    ensures ready { IsReady text.now state.new }
{
    let at = state.at;
    match state.effect(code) {
        Effect::Stands => {
            let cut = code_token(text, at, code);
            if state.may_head() && begins_c(text, at, code) {
                let hash_line = state.part.in_hash_line();
                return give(text, state, Part::Head, hash_line, cut);
            }
            let next = state.part.passed();
            give_code(text, state, next, cut)
        }
        Effect::Drops(note) => {
            let next = state.part.passed();
            let cut = dropped_code(text, at, code, note);
            give_code(text, state, next, cut)
        }
        Effect::Defines => {
            let next = Part::MacroName { code: at };
            give(text, state, next, false, plain(TokKind::Code(code), 2))
        }
        Effect::Formats => {
            let next = Part::FormatName {
                code: at,
                second: false,
                limbo: false,
            };
            give(text, state, next, false, plain(TokKind::Code(code), 2))
        }
        Effect::BeginsC => {
            let next = Part::Plain {
                hash_line: false,
                behind: Behind::Other,
            };
            give(text, state, next, false, plain(TokKind::Code(code), 2))
        }
    }
}
