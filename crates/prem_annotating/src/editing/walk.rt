// One step of the walk over the bytes of a text.
ghost use Rattle.std.specs.Prelude.{◌≡◌, ◌++◌, OnOk, IfOk};
ghost use Rattle.std.specs.Option.{option_map};
ghost use Rattle.prem_syntax.specs.Name.{name_bytes};
ghost use Rattle.prem_text.specs.Lexing.Token.Lexeme.{lexeme_of};
ghost use Rattle.prem_text.specs.Lexing.Tokens.{is_name_byte};
ghost use Rattle.prem_annotating.specs.Editing.Walk.{is_type, is_predictable, is_range, is_open, is_close, type_or, elsewhere, behind_type, behind_name, in_range, behind_close, mode_of, at_literal, at_close, in_mark, kept, gone, among_regions, at_name, in_parameters, at_token, at_byte};
ghost use Rattle.prem_annotating.specs.Editing.Orders.{order_of};

use prem_syntax::Name;
use prem_text::lexing::token::{Mark, Token, Word};
use std::alloc::AllocError;

/// Where a walk over the tokens of a text stands.
#[derive(Clone, Copy, Debug)]
pub enum TokenPlace {
    Elsewhere,
    /// Behind a type.
    BehindType,
    /// Behind a type and a name.
    BehindName,
    /// In `PREDICTABLE(..)`.
    InMark,
    /// In a region that goes, behind which so many more go.
    AmongRegions { more: usize },
    InParameters,
    /// In the `RANGE(..)` of a parameter.
    InRange,
}

/// What is done with bytes that begin no token.
#[derive(Clone, Copy, Debug)]
pub enum GapMode {
    Copying,
    Dropping,
    /// Name bytes are dropped, and what stands behind them is copied.
    Skipping,
}

/// What is done at one place for annotations: at the literal of a mark, at its `)`, and at the name of each parameter.
#[derive(Drop)]
pub enum Order {
    Leave,
    /// Bytes in place of a literal, or behind a name.
    Put { text: Vec<u8> },
    /// Bytes behind a `)`, in place of so many regions.
    PutFor { regions: usize, text: Vec<u8> },
}

/// Where a walk stands behind a token, and whether an order was for it.
#[derive(Clone, Copy, Debug)]
pub struct Behind {
    pub spot: TokenPlace,
    pub mode: GapMode,
    pub done: bool,
}

fn is_type(word: Word) -> bool
    ensures { result ≡ is_type word }
{
    matches!(
        word,
        Word::Void | Word::Int | Word::Short | Word::Signed | Word::Char | Word::Unsigned
    )
}

fn is_predictable(word: Word) -> bool
    ensures { result ≡ is_predictable word }
{
    matches!(word, Word::Predictable)
}

fn is_range(word: Word) -> bool
    ensures { result ≡ is_range word }
{
    matches!(word, Word::Range)
}

fn is_open(sign: Mark) -> bool
    ensures { result ≡ is_open sign }
{
    matches!(sign, Mark::OpenParenthesis)
}

fn is_close(sign: Mark) -> bool
    ensures { result ≡ is_close sign }
{
    matches!(sign, Mark::CloseParenthesis)
}

fn type_or(word: Word) -> TokenPlace
    ensures { result ≡ type_or word }
{
    if is_type(word) {
        TokenPlace::BehindType
    } else {
        TokenPlace::Elsewhere
    }
}

fn elsewhere(token: &Token) -> TokenPlace
    ensures { result ≡ elsewhere (lexeme_of token.now) }
{
    match token {
        Token::Word(word) => {
            if is_predictable(*word) {
                TokenPlace::InMark
            } else {
                type_or(*word)
            }
        }
        Token::Name(_) | Token::Literal { .. } | Token::Mark(_) | Token::End =>
            TokenPlace::Elsewhere,
    }
}

fn behind_type(token: &Token) -> TokenPlace
    ensures { result ≡ behind_type (lexeme_of token.now) }
{
    match token {
        Token::Word(word) => type_or(*word),
        Token::Name(_) => TokenPlace::BehindName,
        Token::Literal { .. } | Token::Mark(_) | Token::End => TokenPlace::Elsewhere,
    }
}

fn behind_name(token: &Token) -> TokenPlace
    ensures { result ≡ behind_name (lexeme_of token.now) }
{
    match token {
        Token::Mark(sign) => {
            if is_open(*sign) {
                TokenPlace::InParameters
            } else {
                TokenPlace::Elsewhere
            }
        }
        Token::Name(_) | Token::Literal { .. } | Token::Word(_) | Token::End =>
            TokenPlace::Elsewhere,
    }
}

fn in_range(token: &Token) -> TokenPlace
    ensures { result ≡ in_range (lexeme_of token.now) }
{
    match token {
        Token::Mark(sign) => {
            if is_close(*sign) {
                TokenPlace::InParameters
            } else {
                TokenPlace::InRange
            }
        }
        Token::Name(_) | Token::Literal { .. } | Token::Word(_) | Token::End => TokenPlace::InRange,
    }
}

fn behind_close(regions: usize) -> TokenPlace
    ensures { result ≡ behind_close regions }
{
    if regions == 0 {
        TokenPlace::Elsewhere
    } else {
        TokenPlace::AmongRegions { more: regions - 1 }
    }
}

fn mode_of(spot: TokenPlace) -> GapMode
    ensures { result ≡ mode_of spot }
{
    match spot {
        TokenPlace::AmongRegions { .. } => GapMode::Dropping,
        TokenPlace::Elsewhere
        | TokenPlace::BehindType
        | TokenPlace::BehindName
        | TokenPlace::InMark
        | TokenPlace::InParameters
        | TokenPlace::InRange => GapMode::Copying,
    }
}

/// The byte stays, and so does the rest of its token.
fn keep(out: &mut Vec<u8>, byte: u8, spot: TokenPlace) -> Result<Behind, AllocError>
    ensures put { OnOk result (out.new.items ≡ out.old.items ++ (kept byte spot).bytes) }
    ensures behind { IfOk result (λ b. b ≡ (kept byte spot).behind) }
{
    out.push(byte)?;
    Ok(Behind {
        spot,
        mode: GapMode::Copying,
        done: false,
    })
}

fn at_literal(out: &mut Vec<u8>, byte: u8, order: Option<&Order>) -> Result<Behind, AllocError>
    ensures put { OnOk result (out.new.items ≡ out.old.items ++ (at_literal byte (option_map (λ o. order_of o.now) order.entry)).bytes) }
    ensures behind { IfOk result (λ b. b ≡ (at_literal byte (option_map (λ o. order_of o.now) order.entry)).behind) }
{
    let mode = match order {
        Some(Order::Put { text }) => {
            out.extend_from_slice(text)?;
            GapMode::Skipping
        }
        Some(Order::Leave) | Some(Order::PutFor { .. }) | None => {
            out.push(byte)?;
            GapMode::Copying
        }
    };
    Ok(Behind {
        spot: TokenPlace::InMark,
        mode,
        done: true,
    })
}

/// The `)` of a mark.
fn at_close(out: &mut Vec<u8>, byte: u8, order: Option<&Order>) -> Result<Behind, AllocError>
    ensures put { OnOk result (out.new.items ≡ out.old.items ++ (at_close byte (option_map (λ o. order_of o.now) order.entry)).bytes) }
    ensures behind { IfOk result (λ b. b ≡ (at_close byte (option_map (λ o. order_of o.now) order.entry)).behind) }
{
    out.push(byte)?;
    let spot = match order {
        Some(Order::PutFor { regions, text }) => {
            out.extend_from_slice(text)?;
            behind_close(*regions)
        }
        Some(Order::Leave) | Some(Order::Put { .. }) | None => TokenPlace::Elsewhere,
    };
    Ok(Behind {
        spot,
        mode: mode_of(spot),
        done: true,
    })
}

fn in_mark(
    out: &mut Vec<u8>,
    byte: u8,
    order: Option<&Order>,
    token: &Token,
) -> Result<Behind, AllocError>
    ensures put { OnOk result (out.new.items ≡ out.old.items ++ (in_mark byte (option_map (λ o. order_of o.now) order.entry) (lexeme_of token.now)).bytes) }
    ensures behind { IfOk result (λ b. b ≡ (in_mark byte (option_map (λ o. order_of o.now) order.entry) (lexeme_of token.now)).behind) }
{
    match token {
        Token::Literal { .. } => at_literal(out, byte, order),
        Token::Mark(sign) => {
            if is_close(*sign) {
                at_close(out, byte, order)
            } else {
                keep(out, byte, TokenPlace::InMark)
            }
        }
        Token::Name(_) | Token::Word(_) | Token::End => keep(out, byte, TokenPlace::InMark),
    }
}

/// The walk stands at a spot, and nothing is put.
fn gone(spot: TokenPlace) -> Behind
    ensures { result ≡ (gone spot).behind }
{
    Behind {
        spot,
        mode: mode_of(spot),
        done: false,
    }
}

/// A token of a region that goes.
fn among_regions(more: usize, token: &Token) -> Behind
    ensures { result ≡ (among_regions more (lexeme_of token.now)).behind }
{
    match token {
        Token::Mark(sign) => {
            if is_close(*sign) {
                gone(behind_close(more))
            } else {
                gone(TokenPlace::AmongRegions { more })
            }
        }
        Token::Name(_) | Token::Literal { .. } | Token::Word(_) | Token::End => {
            gone(TokenPlace::AmongRegions { more })
        }
    }
}

fn at_name(
    out: &mut Vec<u8>,
    byte: u8,
    order: Option<&Order>,
    name: &Name,
) -> Result<Behind, AllocError>
    ensures put { OnOk result (out.new.items ≡ out.old.items ++ (at_name byte (name_bytes name.now) (option_map (λ o. order_of o.now) order.entry)).bytes) }
    ensures behind { IfOk result (λ b. b ≡ (at_name byte (name_bytes name.now) (option_map (λ o. order_of o.now) order.entry)).behind) }
{
    let mode = match order {
        Some(Order::Put { text }) => {
            out.extend_from_slice(name.bytes())?;
            out.extend_from_slice(text)?;
            GapMode::Skipping
        }
        Some(Order::Leave) | Some(Order::PutFor { .. }) | None => {
            out.push(byte)?;
            GapMode::Copying
        }
    };
    Ok(Behind {
        spot: TokenPlace::InParameters,
        mode,
        done: true,
    })
}

fn in_parameters(
    out: &mut Vec<u8>,
    byte: u8,
    order: Option<&Order>,
    token: &Token,
) -> Result<Behind, AllocError>
    ensures put { OnOk result (out.new.items ≡ out.old.items ++ (in_parameters byte (option_map (λ o. order_of o.now) order.entry) (lexeme_of token.now)).bytes) }
    ensures behind { IfOk result (λ b. b ≡ (in_parameters byte (option_map (λ o. order_of o.now) order.entry) (lexeme_of token.now)).behind) }
{
    match token {
        Token::Name(name) => at_name(out, byte, order, name),
        Token::Word(word) => {
            if is_range(*word) {
                keep(out, byte, TokenPlace::InRange)
            } else {
                keep(out, byte, TokenPlace::InParameters)
            }
        }
        Token::Mark(sign) => {
            if is_close(*sign) {
                keep(out, byte, TokenPlace::Elsewhere)
            } else {
                keep(out, byte, TokenPlace::InParameters)
            }
        }
        Token::Literal { .. } | Token::End => keep(out, byte, TokenPlace::InParameters),
    }
}

/// A token begins with a byte, and an order comes next: what it gives is put behind a text.
pub fn at_token(
    out: &mut Vec<u8>,
    spot: TokenPlace,
    order: Option<&Order>,
    token: &Token,
    byte: u8,
) -> Result<Behind, AllocError>
    ensures put { OnOk result (out.new.items ≡ out.old.items ++ (at_token spot (option_map (λ o. order_of o.now) order.entry) (lexeme_of token.now) byte).bytes) }
    ensures behind { IfOk result (λ b. b ≡ (at_token spot (option_map (λ o. order_of o.now) order.entry) (lexeme_of token.now) byte).behind) }
{
    match spot {
        TokenPlace::Elsewhere => keep(out, byte, elsewhere(token)),
        TokenPlace::BehindType => keep(out, byte, behind_type(token)),
        TokenPlace::BehindName => keep(out, byte, behind_name(token)),
        TokenPlace::InMark => in_mark(out, byte, order, token),
        TokenPlace::AmongRegions { more } => Ok(among_regions(more, token)),
        TokenPlace::InParameters => in_parameters(out, byte, order, token),
        TokenPlace::InRange => keep(out, byte, in_range(token)),
    }
}

fn is_name_byte(byte: u8) -> bool
    ensures { result ≡ is_name_byte byte }
{
    byte.is_ascii_alphanumeric() || byte == b'_'
}

/// A byte that begins no token.
pub fn at_byte(out: &mut Vec<u8>, mode: GapMode, byte: u8) -> Result<GapMode, AllocError>
    ensures put { OnOk result (out.new.items ≡ out.old.items ++ (at_byte mode byte).0) }
    ensures behind { IfOk result (λ m. m ≡ (at_byte mode byte).1) }
{
    match mode {
        GapMode::Copying => {
            out.push(byte)?;
            Ok(GapMode::Copying)
        }
        GapMode::Dropping => Ok(GapMode::Dropping),
        GapMode::Skipping => {
            if is_name_byte(byte) {
                Ok(GapMode::Skipping)
            } else {
                out.push(byte)?;
                Ok(GapMode::Copying)
            }
        }
    }
}
