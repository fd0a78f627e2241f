//! The answers of a C text, among which tokens are found by their numbers.
ghost use Rattle.std.specs.Prelude.{◌≡◌, ◌+◌, ◌≤◌, ◌<◌, ◌^◌, ◌++◌, ℕ, List, [], IfNone};
ghost use Rattle.std.specs.Prelude.{IfOk, IfSome, length, option_map, take};
ghost use Rattle.std.specs.Bool.{OnFalse, OnTrue};
ghost use Rattle.cw_rules.specs.Answers.{Answer, Gives, seen};
ghost use Rattle.cw_rules.specs.declared.tokens.Mode.TheVariants.{Inner};
ghost use Rattle.cw_lex.specs.Lexing.{tokens_of};
ghost use Rattle.cw_lex.specs.Nested.{is_section_kind, until_section};
ghost use Rattle.cw_print.specs.Found.{numbered};
ghost use Rattle.cw_print.specs.model.Found.{HasNoNumber, HasNumber};
ghost use Rattle.cw_print.specs.model.Scanning.{among, IsSeeking};
ghost use Rattle.cw_print.specs.Walk.{PrintsSign};

use cw_answers::Answers;
use cw_base::{Memory, Span};
use cw_lex::{Code, Lexed, Mode, Sign, Tok, TokKind};
use std::alloc::Global;
use std::marker::Model;

/// Where tokens are sought among answers, and up to which of them. From the tokens whose numbers rise each is found a
/// little ahead, and for a number that does not lie ahead the seeking begins anew.
#[derive(Clone, Copy)]
pub(crate) struct Seek {
    place: usize,
    end: usize,
    // Each number from this one on has its token at the place or behind it.
    from: usize,
}

impl Seek {
    /// Before the first of all answers.
    pub(crate) fn over(answers: &Answers) -> Seek
        ensures all { among answers.now result ≡ answers.now }
        ensures seeking { IsSeeking answers.now result }
    {
        Seek::up_to(answers, answers.len())
    }

    // Before the first of so many answers.
    fn up_to(answers: &Answers, end: usize) -> Seek
        requires { end ≤ length answers.now }
        ensures end { result.end ≡ end }
        ensures from { result.from ≡ 0 }
        ensures seeking { IsSeeking answers.now result }
    {
        let _all = answers.len(); // (for the proof)
        Seek {
            place: 0,
            end,
            from: 0,
        }
    }

    /// The sign that has this number, where it lies ahead and only tokens of lesser numbers come before it: most tokens
    /// are such signs.
    #[inline(always)]
    pub(crate) fn next_sign(&mut self, answers: &Answers, number: u32) -> Option<Sign>
        requires seeking { IsSeeking answers.now self.old }
        ensures sign { IfSome result (λ sign. PrintsSign sign (numbered number (among answers.now self.old))) }
        ensures seeking { IsSeeking answers.now self.new }
        ensures same { self.new.end ≡ self.old.end }
    {
        let number = number as usize;
        if self.from > number {
            return None;
        }
        let (place, sign) = sign_ahead(answers, *self, number)?;
        self.place = place + 1;
        self.from = number + 1;
        Some(sign)
    }

    /// The token that has this number, if there is one.
    pub(crate) fn find<'a>(&mut self, answers: &Answers<'a>, number: u32) -> Option<Tok<'a>>
        requires seeking { IsSeeking answers.now self.old }
        ensures found { option_map seen result ≡ numbered number (among answers.now self.old) }
        ensures seeking { IsSeeking answers.now self.new }
        ensures same { self.new.end ≡ self.old.end }
    {
        let number = number as usize;
        let (found, behind) = find_ahead(answers, self.begun(number), number);
        *self = behind;
        found
    }

    // Where the token of a number is sought: here, or from the first answer on.
    fn begun(self, number: usize) -> Seek
        ensures from { result.from ≤ number }
        ensures seeking { (all : List Answer) → IsSeeking all self → IsSeeking all result }
        ensures same { result.end ≡ self.end }
    {
        if number < self.from {
            return Seek {
                place: 0,
                end: self.end,
                from: 0,
            };
        }
        self
    }
}

/// The tokens among kept answers, which are found by their numbers. It is seen as the answers.
#[derive(Drop)]
pub struct Finder<'s, 'a> {
    answers: &'s Answers<'a>,
    seek: Seek,
}

impl<'s, 'a> Model for Finder<'s, 'a> {
    ghost use Rattle.std.specs.Prelude.{List};
    ghost use Rattle.cw_rules.specs.Answers.{Answer};
    ghost use Rattle.cw_print.specs.model.Scanning.{among, IsSeeking};

    ghost Value = { List Answer };

    ghost view = { λ f. among f.answers.now f.seek };

    ghost invariant = { λ f. IsSeeking f.answers.now f.seek };
}

impl<'s, 'a> Finder<'s, 'a> {
    /// The tokens among these answers.
    pub fn over(answers: &'s Answers<'a>) -> Finder<'s, 'a>
        ensures { result ≡ answers.now }
    {
        Finder {
            answers,
            seek: Seek::over(answers),
        }
    }

    /// The token that has this number, if there is one. Of tokens whose numbers rise each is found a little ahead.
    pub fn find(&mut self, number: u32) -> Option<Tok<'a>>
        ensures found { option_map seen result ≡ numbered number self.old }
        ensures same { self.new ≡ self.old }
    {
        self.seek.find(self.answers, number)
    }
}

/// The answers of an inner text of a section name, up to a section code, and where tokens are sought among them.
#[derive(Drop)]
pub(crate) struct Scan<'a> {
    answers: Answers<'a>,
    seek: Seek,
}

impl<'a> Model for Scan<'a> {
    ghost use Rattle.std.specs.Prelude.{List};
    ghost use Rattle.cw_rules.specs.Answers.{Answer};
    ghost use Rattle.cw_print.specs.model.Scanning.{among, IsSeeking};

    ghost Value = { List Answer };

    ghost view = { λ s. among s.answers s.seek };

    ghost invariant = { λ s. IsSeeking s.answers s.seek };
}

impl<'a> Scan<'a> {
    /// A scan of this span of a name's text.
    pub(crate) fn over(alloc: Global, text: &'a [u8], span: Span) -> Result<Scan<'a>, Memory>
        requires order { span.start ≤ span.end }
        requires within { span.end ≤ length text.now }
        ensures { IfOk result (λ s. s ≡ until_section (tokens_of text.now span.start span.end Inner)) }
    {
        let answers = scanned(alloc, text, span, Mode::Inner)?;
        let seek = Seek::up_to(&answers, section_place(&answers));
        Ok(Scan { answers, seek })
    }

    /// The token that has this number, if there is one.
    pub(crate) fn find(&mut self, number: u32) -> Option<Tok<'a>>
        ensures found { option_map seen result ≡ numbered number self.old }
        ensures same { self.new ≡ self.old }
    {
        self.seek.find(&self.answers, number)
    }
}

/// All answers of a scan of this span.
pub(crate) fn scanned<'a>(
    alloc: Global,
    text: &'a [u8],
    span: Span,
    mode: Mode,
) -> Result<Answers<'a>, Memory>
    requires order { span.start ≤ span.end }
    requires within { span.end ≤ length text.now }
    ensures { IfOk result (λ all. all ≡ tokens_of text.now span.start span.end mode) }
{
    let mut answers = Answers::new_in(alloc);
    answers.scan(text, span, mode)?;
    Ok(answers)
}

fn is_section(kind: TokKind) -> bool
    ensures { result ≡ is_section_kind kind }
{
    matches!(kind, TokKind::Code(Code::Section | Code::StarredSection))
}

// Whether an answer is a section code, which ends an inner text.
fn ends_text(answer: Lexed) -> bool
    ensures section { OnTrue result ((old new : List Answer) → Gives old answer.entry new → until_section old ≡ []) }
    ensures other { OnFalse result ((old new : List Answer) → Gives old answer.entry new
        → take 1 old ++ until_section new ≡ until_section old) }
{
    match answer {
        Lexed::Token(token) => is_section(token.kind),
        _ => false,
    }
}

// How many answers come before the first section code.
fn section_place(answers: &Answers) -> usize
    ensures before { take result answers.now ≡ until_section answers.now }
    ensures within { result ≤ length answers.now }
{
    for place in 0..answers.len() {
        if ends_text(answers.at(place)) {
            return place;
        }
    }
    answers.len()
}

// The token of an answer that can be found by its number: what ends, and a note, has none.
#[inline(always)]
fn token_of<'a>(answer: Lexed<'a>) -> Option<Tok<'a>>
    ensures token { IfSome result (λ token. HasNumber answer.entry token) }
    ensures none { IfNone result (HasNoNumber answer.entry) }
{
    match answer {
        Lexed::Token(token) => Some(token),
        Lexed::Begin(token) => Some(token),
        Lexed::Finish(_) | Lexed::Note(..) | Lexed::End => None,
    }
}

// Whether the seeking of a number goes on behind an answer: it has a token of a lesser number, or none.
#[inline(always)]
fn is_lesser(answer: Lexed, number: usize) -> bool
    ensures { OnTrue result ((m : ℕ) (old new : List Answer) → number ≤ m → Gives old answer.entry new
        → numbered m old ≡ numbered m new) }
{
    match token_of(answer) {
        Some(token) => token.span.start < number,
        None => true,
    }
}

// The sign of a number and its place, where only tokens of lesser numbers come before it.
#[inline(always)]
fn sign_ahead(answers: &Answers, seek: Seek, number: usize) -> Option<(usize, Sign)>
    requires number { number < 2 ^ 32 }
    requires seeking { IsSeeking answers.now seek }
    requires ahead { seek.from ≤ number }
    ensures sign { IfSome result (λ found. PrintsSign found.1 (numbered number (among answers.now seek))) }
    ensures behind { IfSome result (λ found. IsSeeking answers.now
        (record { place = found.0 + 1; «end» = seek.end; from = number + 1 })) }
{
    for place in seek.place..seek.end {
        let answer = answers.at(place);
        if !is_lesser(answer, number) {
            let sign = sign_of(answer, number)?;
            return Some((place, sign));
        }
    }
    None
}

// The sign of an answer, if it is one of this number.
#[inline(always)]
fn sign_of(answer: Lexed, number: usize) -> Option<Sign>
    ensures sign { IfSome result (λ sign. (old new : List Answer) → Gives old answer.entry new
        → PrintsSign sign (numbered number old)) }
    ensures others { IfSome result (λ sign. (m : ℕ) (old new : List Answer) → number < m
        → Gives old answer.entry new → numbered m old ≡ numbered m new) }
{
    match answer {
        Lexed::Token(token) if token.span.start == number => match token.kind {
            TokKind::Sign(sign) => Some(sign),
            _ => None,
        },
        _ => None,
    }
}

// Goes on to the token of a number that lies ahead if there is one, and answers it and where the seeking then stands.
fn find_ahead<'a>(answers: &Answers<'a>, seek: Seek, number: usize) -> (Option<Tok<'a>>, Seek)
    requires number { number < 2 ^ 32 }
    requires seeking { IsSeeking answers.now seek }
    requires ahead { seek.from ≤ number }
    ensures found { option_map seen result.0 ≡ numbered number (among answers.now seek) }
    ensures seeking { IsSeeking answers.now result.1 }
    ensures same { result.1.end ≡ seek.end }
{
    let end = seek.end;
    // Tokens before that of the number hide no number behind it.
    let mut from = number + 1;
    for place in seek.place..end {
        if let Some(token) = token_of(answers.at(place)) {
            if token.span.start == number {
                let place = place + 1;
                return (Some(token), Seek { place, end, from });
            }
            from = from.max(token.span.start.saturating_add(1));
        }
    }
    let place = end;
    (None, Seek { place, end, from })
}
