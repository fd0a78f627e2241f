//! The token of a word that stands beside other words in one list, as in the head of a definition.
ghost use Rattle.std.specs.Prelude.{◌≡◌, ◌^◌, ◌<◌, ◌∷◌, [], true, Some, IfOk, OnOk, OnErr, option_map};
ghost use Rattle.cw_scraps.specs.Leaves.{token_form, names_with};
ghost use Rattle.cw_scraps.specs.model.Words.{is_word};

use crate::leaves::{sign_mode, token_of_word, word_cat};
use cw_base::Memory;
use cw_names::{EntryKind, Names};
use cw_rules::{Tok, TokKind};
use cw_tokens::Token;

/// The token of an identifier or of a sign, by itself. Its offset is the place of its first byte.
/// After `Memory` the names are as before.
pub fn word_token(word: &Tok, names: &mut Names) -> Result<Token, Memory>
    requires kind { is_word word.now.kind ≡ true }
    requires start { word.now.span.start < 2 ^ 32 }
    ensures token { IfOk result (λ token. option_map (λ form. form.tokens) (token_form word.now.kind word.now.text.now
        word.now.hash_line word.now.directive word.now.span.start names.old) ≡ Some (token ∷ [])) }
    ensures names { OnOk result (names.new ≡ names_with word.now.kind word.now.text.now names.old) }
    ensures no_names { OnErr result (names.new ≡ names.old) }
{
    let number = word.span.start as u32;
    match word.kind {
        TokKind::Sign(sign) => Ok(Token::Source(number, sign_mode(sign))),
        _ => {
            let name = names.find_or_add(EntryKind::Ident, word.text)?;
            let cat = word_cat(word, names.category(name));
            Ok(token_of_word(cat, name, number))
        }
    }
}
