//! The scanner.
ghost use Rattle.std.specs.Prelude.{◌≡◌, ◌≤◌, ◌<◌, ◌+◌, ◌-◌, [], true, false, ◌==◌, ◌&&◌, length, drop, slice_index};
ghost use Rattle.std.specs.Prelude.{IfSome};
ghost use Rattle.cw_rules.specs.Answers.{Gives};
ghost use Rattle.cw_rules.specs.Codes.{begins_section};
ghost use Rattle.cw_rules.specs.Order.{Covers, AreWithin};
ghost use Rattle.cw_rules.specs.Pending.{no_notes};
ghost use Rattle.cw_lex.specs.Lexing.{spot_at, tokens_of};
ghost use Rattle.cw_rules.specs.Tokens.{part_text, is_parameter};
ghost use Rattle.cw_rules.specs.Bytes.{run};
ghost use Rattle.cw_lex.specs.model.Short.{IsQuick, BeginsString, EndsInner};
ghost use Rattle.cw_lex.specs.model.Calm.{IsCalm, IsSteady};
ghost use Rattle.cw_lex.specs.model.Coming.{where_of, coming, found_at, beginning_part};
ghost use Rattle.cw_rules.specs.Tokens.{is_code, is_code_part};
ghost use Rattle.cw_lex.specs.model.Coming.{IsSkipped, IsReady, CanStep};

use crate::code_text::{code_text, skip_white};
use crate::comment_text::{comment_text, end_inner};
use crate::comments::Comments;
use crate::ends::{cut_off, is_section_at};
use crate::giving::{give, give_note, give_string};
use crate::plain::{format_name, head_text, limbo_text, macro_name, parameter, tex_text};
use crate::short::{Quick, give_short, quick_at};
use crate::state::{Clear, Stand, State, is_calm_part};
use crate::{Lexed, Mode, Sign, TokKind};
use cw_base::NoteKind;
use cw_rules::classes::{Class, begins_with, from, is_letter, run};
use cw_rules::cuttings::{plain, section_code};
use cw_rules::directives::begins_letter;
use cw_rules::parts::Part;
use cw_rules::pending::Pending;
use std::marker::Model;

/// A scanner over a part of a text. It is seen as the list of its answers that are still to come.
#[derive(Drop)]
pub struct Lexer<'a> {
    // The text up to the part's end.
    text: &'a [u8],
    stand: Stand,
}

impl<'a> Model for Lexer<'a> {
    ghost use Rattle.std.specs.Prelude.{List};
    ghost use Rattle.cw_rules.specs.Answers.{Answer};
    ghost use Rattle.cw_lex.specs.model.Coming.{coming};
    ghost use Rattle.cw_lex.specs.model.Calm.{IsSteady};

    ghost Value = { List Answer };

    ghost view = { λ l. coming l.text.now l.stand.state };

    ghost invariant = { λ l. IsSteady l.text.now l.stand };
}

impl<'a> Lexer<'a> {
    /// A scanner of the bytes from `start` up to `end`, in this mode.
    pub fn over(text: &'a [u8], start: usize, end: usize, mode: Mode) -> Lexer<'a>
        requires order { start ≤ end }
        requires within { end ≤ length text.now }
        ensures tokens { result ≡ tokens_of text.now start end mode }
        ensures covers { Covers text.now start end result }
        ensures within { AreWithin start end result }
    {
        Lexer::starting(text, start, end, mode)
    }

    // The same, before it is said where the spans stand.
    fn starting(text: &'a [u8], start: usize, end: usize, mode: Mode) -> Lexer<'a>
        requires order { start ≤ end }
        requires within { end ≤ length text.now }
        ensures { result ≡ tokens_of text.now start end mode }
    {
        let part = beginning(mode);
        Lexer {
            text: &text[..end],
            // Written in its place, since a state is large.
            stand: Stand {
                state: State {
                    at: start,
                    part,
                    comments: Comments::new(),
                    pending: Pending::new(),
                    clear: Clear {
                        from: start + 1,
                        to: start,
                    },
                },
                calm: is_calm_part(part),
            },
        }
    }

    /// Begins anew, over the bytes of a text from `start` up to `end`, in this mode, in its own place.
    pub fn restart(&mut self, text: &'a [u8], start: usize, end: usize, mode: Mode)
        requires order { start ≤ end }
        requires within { end ≤ length text.now }
        ensures tokens { self.new ≡ tokens_of text.now start end mode }
        ensures covers { Covers text.now start end self.new }
        ensures within { AreWithin start end self.new }
    {
        self.begin(text, start, end, mode);
    }

    // The same, before it is said where the spans stand.
    fn begin(&mut self, text: &'a [u8], start: usize, end: usize, mode: Mode)
        requires order { start ≤ end }
        requires within { end ≤ length text.now }
        ensures { self.new ≡ tokens_of text.now start end mode }
    {
        let part = beginning(mode);
        self.text = &text[..end];
        let state = &mut self.stand.state;
        state.at = start;
        state.part = part;
        state.comments.clear();
        state.pending = Pending::new();
        state.clear = Clear {
            from: start + 1,
            to: start,
        };
        self.stand.calm = is_calm_part(part);
    }

    /// The next answer. It takes no memory.
    #[inline(always)]
    pub fn next(&mut self) -> Lexed<'a>
        ensures { Gives self.old result self.new }
    {
        advance(self.text, &mut self.stand)
    }
}

fn beginning(mode: Mode) -> Part
    ensures { result ≡ beginning_part mode }
{
    match mode {
        Mode::Limbo => Part::Limbo,
        Mode::TexText => Part::Tex,
        Mode::CPart => Part::Begin,
        Mode::Definition => Part::Definition,
        Mode::Inner => Part::Inner,
    }
}

// The next answer. Most are short tokens.
#[inline(always)]
fn advance<'a>(text: &'a [u8], stand: &mut Stand) -> Lexed<'a>
    requires steady { IsSteady text.now stand.old }
    ensures gives { Gives (coming text.now stand.old.state) result (coming text.now stand.new.state) }
    ensures steady { IsSteady text.now stand.new }
{
    match next_quick(text, stand) {
        Some(Quick::Short(short)) => give_short(text, &mut stand.state, short),
        Some(Quick::Quoted(quote)) => string_answer(text, stand, quote),
        Some(Quick::EndOfInner) => end_answer(text, stand),
        Some(Quick::End) => Lexed::End,
        None => other_answer(text, stand),
    }
}

// A string has a name here, so that a short token needs no place in memory.
#[inline(always)]
fn string_answer<'a>(text: &'a [u8], stand: &mut Stand, quote: u8) -> Lexed<'a>
    requires steady { IsSteady text.now stand.old }
    requires calm { IsCalm stand.old.state }
    requires string { BeginsString text.now (where_of stand.old.state) stand.old.state.at quote }
    ensures gives { Gives (coming text.now stand.old.state) result (coming text.now stand.new.state) }
    ensures steady { IsSteady text.now stand.new }
{
    let answer = give_string(text, &mut stand.state, quote);
    stand.calm = stand.state.is_calm();
    answer
}

// The same for the end of inner C text, behind which none goes on.
#[inline(always)]
fn end_answer<'a>(text: &'a [u8], stand: &mut Stand) -> Lexed<'a>
    requires steady { IsSteady text.now stand.old }
    requires calm { IsCalm stand.old.state }
    requires end { EndsInner text.now (where_of stand.old.state) stand.old.state.at }
    ensures gives { Gives (coming text.now stand.old.state) result (coming text.now stand.new.state) }
    ensures steady { IsSteady text.now stand.new }
{
    let answer = end_inner(text, &mut stand.state);
    stand.calm = false;
    answer
}

// The same for any other answer.
#[inline(always)]
fn other_answer<'a>(text: &'a [u8], stand: &mut Stand) -> Lexed<'a>
    requires steady { IsSteady text.now stand.old }
    ensures gives { Gives (coming text.now stand.old.state) result (coming text.now stand.new.state) }
    ensures steady { IsSteady text.now stand.new }
{
    let answer = any_answer(text, stand);
    answer
}

// The quick token that comes next, where calm C text goes on. The white space before it is skipped.
#[inline(always)]
fn next_quick(text: &[u8], stand: &mut Stand) -> Option<Quick>
    requires steady { IsSteady text.now stand.old }
    ensures quick { IfSome result (λ q. IsQuick text.now (where_of stand.new.state) stand.new.state.at q) }
    ensures calm { IfSome result (λ _. IsCalm stand.new.state) }
    ensures same { coming text.now stand.new.state ≡ coming text.now stand.old.state }
    ensures steady { IsSteady text.now stand.new }
{
    if stand.calm {
        skip_in_calm(text, &mut stand.state);
        return quick_at(text, &stand.state);
    }
    None
}

// Goes behind the white space of calm C text.
#[inline(always)]
fn skip_in_calm(text: &[u8], state: &mut State)
    requires ready { IsReady text.now state.old }
    requires calm { IsCalm state.old }
    ensures same { coming text.now state.new ≡ coming text.now state.old }
    ensures calm { IsCalm state.new }
    ensures ready { IsReady text.now state.new }
{
    state.at += run(Class::White, from(text, state.at));
}

// Goes behind the white space of C text.
fn skip_in_code(text: &[u8], state: &mut State)
    requires ready { IsReady text.now state.old }
    requires quiet { state.old.pending ≡ no_notes }
    requires code { is_code state.old.part state.old.comments ≡ true }
    ensures same { coming text.now state.new ≡ coming text.now state.old }
    ensures quiet { state.new.pending ≡ no_notes }
    ensures code { is_code state.new.part state.new.comments ≡ true }
    ensures ready { IsReady text.now state.new }
    ensures skipped { IsSkipped text.now state.new }
{
    state.at = skip_white(text, state);
}

// Any answer, and whether the text is calm behind it.
#[inline(never)]
fn any_answer<'a>(text: &'a [u8], stand: &mut Stand) -> Lexed<'a>
    requires steady { IsSteady text.now stand.old }
    ensures gives { Gives (coming text.now stand.old.state) result (coming text.now stand.new.state) }
    ensures steady { IsSteady text.now stand.new }
{
    let answer = note_or_token(text, &mut stand.state);
    stand.calm = stand.state.is_calm();
    answer
}

// A note that is left, else what begins behind the white space.
fn note_or_token<'a>(text: &'a [u8], state: &mut State) -> Lexed<'a>
    requires ready { IsReady text.now state.old }
    ensures gives { Gives (coming text.now state.old) result (coming text.now state.new) }
    ensures ready { IsReady text.now state.new }
{
    match state.pending.next(text) {
        Some(note) => Lexed::Note(note.kind, note.place),
        None => after_notes(text, state),
    }
}

fn after_notes<'a>(text: &'a [u8], state: &mut State) -> Lexed<'a>
    requires ready { IsReady text.now state.old }
    requires quiet { state.old.pending ≡ no_notes }
    ensures gives { Gives (coming text.now state.old) result (coming text.now state.new) }
    ensures ready { IsReady text.now state.new }
{
    skip(text, state);
    after_white(text, state)
}

// Goes behind the white space that gives no answer.
fn skip(text: &[u8], state: &mut State)
    requires ready { IsReady text.now state.old }
    requires quiet { state.old.pending ≡ no_notes }
    ensures same { coming text.now state.new ≡ coming text.now state.old }
    ensures quiet { state.new.pending ≡ no_notes }
    ensures ready { IsReady text.now state.new }
    ensures skipped { IsSkipped text.now state.new }
{
    if state.is_code() {
        return skip_in_code(text, state);
    }
    if state.is_head() {
        state.at += run(Class::Blank, from(text, state.at));
    }
}

fn after_white<'a>(text: &'a [u8], state: &mut State) -> Lexed<'a>
    requires ready { IsReady text.now state.old }
    requires quiet { state.old.pending ≡ no_notes }
    requires skipped { IsSkipped text.now state.old }
    ensures gives { Gives (coming text.now state.old) result (coming text.now state.new) }
    ensures ready { IsReady text.now state.new }
{
    if state.at >= text.len() {
        return at_end(text, state);
    }
    if is_section_at(text, state.at) {
        return at_section(text, state);
    }
    if state.is_code() {
        return code_text(text, state);
    }
    match state.comments.top() {
        Some(comment) => comment_text(text, state, comment),
        None => part_text(text, state),
    }
}

fn at_end<'a>(text: &'a [u8], state: &mut State) -> Lexed<'a>
    requires ready { IsReady text.now state.old }
    requires quiet { state.old.pending ≡ no_notes }
    requires end { state.old.at ≡ length text.now }
    ensures gives { Gives (coming text.now state.old) result (coming text.now state.new) }
    ensures ready { IsReady text.now state.new }
{
    let about = state.at.saturating_sub(1);
    match cut_off(text, state, about) {
        Some(answer) => answer,
        None => Lexed::End,
    }
}

fn at_section<'a>(text: &'a [u8], state: &mut State) -> Lexed<'a>
    requires step { CanStep text.now state.old }
    requires section { (slice_index text.now state.old.at == 64 && begins_section (drop (state.old.at + 1) text.now)) ≡
        true }
    ensures gives { Gives (coming text.now state.old) result (coming text.now state.new) }
    ensures ready { IsReady text.now state.new }
{
    let at = state.at;
    match cut_off(text, state, at) {
        Some(answer) => answer,
        None => give(text, state, Part::Tex, false, section_code(text, at)),
    }
}

// What begins where no comment is open and no C text goes on.
fn part_text<'a>(text: &'a [u8], state: &mut State) -> Lexed<'a>
    requires step { CanStep text.now state.old }
    requires skipped { IsSkipped text.now state.old }
    requires comments { state.old.comments ≡ [] }
    requires text { is_code_part state.old.part ≡ false }
    requires section { (slice_index text.now state.old.at == 64 && begins_section (drop (state.old.at + 1) text.now)) ≡
        false }
    requires found { found_at text.now (where_of state.old) state.old.at ≡
        part_text state.old.part (spot_at text.now (where_of state.old) state.old.at)
        (slice_index text.now state.old.at) (drop (state.old.at + 1) text.now) }
    ensures gives { Gives (coming text.now state.old) result (coming text.now state.new) }
    ensures ready { IsReady text.now state.new }
{
    match state.part {
        Part::Limbo => limbo_text(text, state),
        Part::Tex => tex_text(text, state),
        Part::Head => head_text(text, state),
        Part::MacroName { code } => want_macro_name(text, state, code),
        Part::MacroParen { code } => {
            let next = Part::Parameters { code };
            give(
                text,
                state,
                next,
                false,
                plain(TokKind::Sign(Sign::LeftParen), 1),
            )
        }
        Part::Parameters { code } => want_parameter(text, state, code),
        Part::FormatName {
            code,
            second,
            limbo,
        } => want_format_name(text, state, code, second, limbo),
        Part::Begin | Part::Plain { .. } | Part::Definition | Part::TexInner | Part::Inner => {
            unreachable!()
        }
    }
}

fn want_macro_name<'a>(text: &'a [u8], state: &mut State, code: usize) -> Lexed<'a>
    requires step { CanStep text.now state.old }
    requires comments { state.old.comments ≡ [] }
    requires part { state.old.part ≡ Part.MacroName code }
    requires section { (slice_index text.now state.old.at == 64 && begins_section (drop (state.old.at + 1) text.now)) ≡
        false }
    ensures gives { Gives (coming text.now state.old) result (coming text.now state.new) }
    ensures ready { IsReady text.now state.new }
{
    let at = behind_white(text, state.at);
    if !begins_letter(from(text, at)) {
        return give_note(text, state, Part::Definition, NoteKind::ImproperMacro, code);
    }
    state.at = at;
    macro_name(text, state, code)
}

fn want_parameter<'a>(text: &'a [u8], state: &mut State, code: usize) -> Lexed<'a>
    requires step { CanStep text.now state.old }
    requires comments { state.old.comments ≡ [] }
    requires part { state.old.part ≡ Part.Parameters code }
    requires section { (slice_index text.now state.old.at == 64 && begins_section (drop (state.old.at + 1) text.now)) ≡
        false }
    ensures gives { Gives (coming text.now state.old) result (coming text.now state.new) }
    ensures ready { IsReady text.now state.new }
{
    let at = behind_white(text, state.at);
    if !is_parameter(from(text, at)) {
        return give_note(text, state, Part::Definition, NoteKind::ImproperMacro, code);
    }
    state.at = at;
    parameter(text, state)
}

fn want_format_name<'a>(
    text: &'a [u8],
    state: &mut State,
    code: usize,
    second: bool,
    limbo: bool,
) -> Lexed<'a>
    requires step { CanStep text.now state.old }
    requires comments { state.old.comments ≡ [] }
    requires part { state.old.part ≡ Part.FormatName code second limbo }
    requires section { (slice_index text.now state.old.at == 64 && begins_section (drop (state.old.at + 1) text.now)) ≡
        false }
    ensures gives { Gives (coming text.now state.old) result (coming text.now state.new) }
    ensures ready { IsReady text.now state.new }
{
    let at = behind_white(text, state.at);
    if !begins_letter(from(text, at)) {
        let next = if limbo { Part::Limbo } else { Part::Definition };
        return give_note(text, state, next, NoteKind::ImproperFormat, code);
    }
    state.at = at;
    format_name(text, state, code, second, limbo)
}

// The place behind the white space.
fn behind_white(text: &[u8], at: usize) -> usize
    requires { at ≤ length text.now }
    ensures value { result ≡ at + run Class.White (drop at text.now) }
    ensures within { result ≤ length text.now }
{
    at + run(Class::White, from(text, at))
}

// Whether a parameter, comma, `...` or `)` begins.
fn is_parameter(bytes: &[u8]) -> bool
    ensures value { result ≡ is_parameter bytes.now }
    ensures some { result ≡ true → 0 < length bytes.now }
{
    if bytes.is_empty() {
        return false;
    }
    let byte = bytes[0];
    is_letter(byte) || byte == b',' || byte == b')' || begins_with(b"...", bytes)
}
