//! What a text's division into tokens is, and the laws that hold the lexer to it.
//!
//! The definitions know no reader: how each token is spelled, what may stand between tokens, which bytes are the
//! token at a place of a text, and where a token stands. A text divides into such pieces, one behind another.
ghost use Rattle.std.specs.Prelude.{◌≡◌, ◌≤◌, ◌++◌, ◌∷◌, ℕ, List, [], length, Ok, Err};
ghost use Rattle.prem_text.specs.declared.lexing.token.fail.FrontFail.{FrontFail};
ghost use Rattle.prem_text.specs.Lexing.Token.Lexeme.{Seen, end_of_text};
ghost use Rattle.prem_text.specs.Lexing.Tokens.{tokens_of};
ghost use Rattle.prem_text.specs.Spelling.Division.{Divides, AreTokens, Refused, place_behind};
ghost use Rattle.prem_text.specs.Spelling.Spelled.{Spelling, AreSpellings, joined, placed};

/// The lexer is exact. What it gives for a text are the tokens into which the text divides, each with the place of
/// its first byte, and the end with the place behind the last byte; and the tokens of a text of at most 1048576 bytes
/// and 200000 tokens are what it gives. A text divides in one way only, however long it is.
pub fn divisions_are_exact()
    ensures sound { (text : List ℕ) (all : List Seen) → tokens_of text ≡ Ok all → AreTokens text all }
    ensures complete { (text : List ℕ) (all : List Seen) → AreTokens text all → tokens_of text ≡ Ok all }
    ensures unique { (text : List ℕ) (tokens others : List Seen) → Divides [] text tokens [] → Divides [] text others []
        → tokens ≡ others }
{}

/// The lexer refuses a text exactly for what is wrong with it: the text is too long; it divides into more than 200000
/// tokens, whatever stands behind these; or it divides up to a byte with which neither a gap nor a token begins. Such a
/// byte is no text, or the place of it is refused.
pub fn refusals_are_exact()
    ensures sound { (text : List ℕ) (fail : FrontFail) → tokens_of text ≡ Err fail → Refused text fail }
    ensures complete { (text : List ℕ) (fail : FrontFail) → Refused text fail → tokens_of text ≡ Err fail }
{}

/// Whatever tokens are spelled with a blank between each two, the lexer gives just these, within its limits.
pub fn spelled_tokens_are_read()
    ensures { (xs : List Spelling) → AreSpellings xs → length (joined xs) ≤ 1048576 → length xs ≤ 200000
        → tokens_of (joined xs) ≡ Ok (placed [] xs ++ (end_of_text, place_behind (joined xs)) ∷ []) }
{}
