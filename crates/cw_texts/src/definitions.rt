//! The definitions of a section, one after another, in a second scan of them.
ghost use Rattle.std.specs.Prelude.{◌≡◌, Some, None, option_map};
ghost use Rattle.cw_texts.specs.DefinitionForms.{GivesDefinition};
ghost use Rattle.cw_texts.specs.model.DefinitionForms.{GivesPrinted};
ghost use Rattle.cw_texts.specs.Definitions.{begun_by, definitions_behind, definitions_in, ended_at};

use crate::scans::scan;
use cw_base::Span;
use cw_lex::{Code, Lexed, Lexer, Mode, TokKind};
use std::marker::Model;

/// A definition, from its code up to the next one or to the end of its part.
#[derive(Clone, Copy)]
pub struct Definition {
    pub span: Span,
    /// Whether it prints nothing, as one of `@s` does.
    pub silent: bool,
}

/// A definition whose end has not come.
#[derive(Clone, Copy)]
pub struct OpenDefinition {
    pub start: usize,
    pub silent: bool,
}

/// The definitions of a part. They are seen as the list of those that are still to come.
#[derive(Drop)]
pub struct Definitions<'a> {
    lexer: Lexer<'a>,
    begun: Option<OpenDefinition>,
    end: usize,
}

impl<'a> Model for Definitions<'a> {
    ghost use Rattle.std.specs.Prelude.{List};
    ghost use Rattle.cw_texts.specs.declared.definitions.Definition.{Definition};
    ghost use Rattle.cw_texts.specs.Definitions.{definitions_behind};

    ghost Value = { List Definition };

    ghost view = { λ d. definitions_behind d.begun d.end d.lexer };
}

impl<'a> Definitions<'a> {
    /// The definitions of the part that stands at a span of a text.
    pub fn over(text: &'a [u8], part: Span) -> Definitions<'a>
        ensures { result ≡ definitions_in text.now part }
    {
        Definitions {
            lexer: scan(text, part, Mode::Definition),
            begun: None,
            end: part.end,
        }
    }

    /// The next definition that is printed.
    pub fn next_printed(&mut self) -> Option<Span>
        ensures { GivesPrinted self.old result self.new }
    {
        'silent: loop {
            match self.next() {
                Some(definition) => {
                    if !definition.silent {
                        return Some(definition.span);
                    }
                }
                None => return None,
            }
        }
    }

    /// The next definition.
    pub fn next(&mut self) -> Option<Definition>
        ensures { GivesDefinition self.old result self.new }
    {
        next_definition(&mut self.lexer, &mut self.begun, self.end)
    }
}

// The next definition, by the answers of the scanner behind one that may have begun.
fn next_definition(
    lexer: &mut Lexer,
    begun: &mut Option<OpenDefinition>,
    end: usize,
) -> Option<Definition>
    ensures { GivesDefinition (definitions_behind begun.old end lexer.old) result
        (definitions_behind begun.new end lexer.new) }
{
    'answers: loop {
        match lexer.next() {
            Lexed::Token(token) => {
                if let Some(next) = begun_by(token.kind, token.span.start) {
                    if let Some(ended) = begin(begun, next) {
                        return Some(ended);
                    }
                }
            }
            Lexed::Begin(_token) => {}
            Lexed::Finish(_token) => {}
            Lexed::Note(_kind, _place) => {}
            Lexed::End => return finish(begun, end),
        }
    }
}

/// The definition that a token at a place begins.
pub(crate) fn begun_by(kind: TokKind, start: usize) -> Option<OpenDefinition>
    ensures { result ≡ begun_by kind start }
{
    match kind {
        TokKind::Code(Code::Define | Code::Format) => Some(OpenDefinition {
            start,
            silent: false,
        }),
        TokKind::Code(Code::SilentFormat) => Some(OpenDefinition {
            start,
            silent: true,
        }),
        _ => None,
    }
}

// A definition begins. It ends the one that had begun.
fn begin(begun: &mut Option<OpenDefinition>, next: OpenDefinition) -> Option<Definition>
    ensures ended { result ≡ option_map (ended_at next.start) begun.old }
    ensures begun { begun.new ≡ Some next }
{
    let ended = finish(begun, next.start);
    *begun = Some(next);
    ended
}

// The definition that had begun ends at a place.
fn finish(begun: &mut Option<OpenDefinition>, end: usize) -> Option<Definition>
    ensures ended { result ≡ option_map (ended_at end) begun.old }
    ensures begun { begun.new ≡ None }
{
    let begun = begun.take()?;
    Some(Definition {
        span: Span {
            start: begun.start,
            end,
        },
        silent: begun.silent,
    })
}
