//! Tokens that are moved out of where they stand: what a tree or a row keeps of them is no copy.
ghost use Rattle.std.specs.Prelude.{◌≡◌, None};
ghost use Rattle.std.specs.Option.{option_map};
ghost use Rattle.prem_syntax.specs.Name.{name_bytes};
ghost use Rattle.prem_text.specs.Lexing.Token.Lexeme.{lexeme_of};
ghost use Rattle.prem_text.specs.Grammar.Slots.{text_of};

use prem_syntax::Name;
use prem_text::lexing::token::{Spotted, Token};
use std::mem;

/// A token with its place, which alone is left of it where it stood.
pub fn take_spotted(spotted: &mut Spotted) -> Spotted
    ensures { result ≡ spotted.old }
{
    let at = spotted.at;
    let token = Token::End;
    mem::replace(spotted, Spotted { token, at })
}

/// The name that a token is, which is moved out of it. Any other token stays.
pub fn take_name(spotted: &mut Spotted) -> Option<Name>
    ensures name { option_map name_bytes result ≡ text_of (lexeme_of spotted.old.token) }
    ensures kept { result ≡ None → spotted.new ≡ spotted.old }
{
    if !matches!(spotted.token, Token::Name(_)) {
        return None;
    }
    match mem::replace(&mut spotted.token, Token::End) {
        Token::Name(name) => Some(name),
        _ => None,
    }
}
