// The walk over all bytes of a text.
ghost use Rattle.std.specs.Prelude.{◌≡◌, ◌++◌, ◌≤◌, map, length, slice_get, OnOk, IfOk};
ghost use Rattle.std.specs.Option.{option_map};
ghost use Rattle.prem_text.specs.Lexing.Token.Lexeme.{lexeme_of, seen_of};
ghost use Rattle.prem_annotating.specs.Editing.Walk.{behind, same_place, at_token, at_byte, edited};
ghost use Rattle.prem_annotating.specs.Editing.Orders.{order_of, edited_text};
ghost use Rattle.prem_annotating.specs.Editing.Standing.{behind_token, behind_byte, advanced};

use crate::editing::walk::{GapMode, Order, TokenPlace, at_byte, at_token};
use prem_syntax::Place;
use prem_text::lexing::token::{FrontFail, Spotted, Token};
use prem_text::lexing::tokens;
use std::alloc::{AllocError, Global};

/// Where a walk stands: the numbers of the next token and of the next order.
#[derive(Clone, Copy, Debug)]
pub struct Standing {
    pub spot: TokenPlace,
    pub mode: GapMode,
    pub token: usize,
    pub order: usize,
}

/// The place behind a byte.
fn behind(at: Place, byte: u8) -> Place
    requires line { at.line ≤ 1048576 }
    requires col { at.col ≤ 1048576 }
    ensures { result ≡ behind at byte }
{
    let ends = byte == b'\n';
    Place {
        line: if ends { at.line + 1 } else { at.line },
        col: if ends { 1 } else { at.col + 1 },
    }
}

fn same_place(a: Place, b: Place) -> bool
    ensures { result ≡ same_place a b }
{
    a.line == b.line && a.col == b.col
}

fn order_at(orders: &[Order], n: usize) -> Option<&Order>
    ensures { option_map (λ o. order_of o.now) result ≡ option_map order_of (slice_get orders.now n) }
{
    orders.get(n)
}

/// A byte that a token begins with.
fn begin(
    out: &mut Vec<u8>,
    standing: Standing,
    token: &Token,
    orders: &[Order],
    byte: u8,
) -> Result<Standing, AllocError>
    requires token { standing.token ≤ 1048576 }
    requires order { standing.order ≤ 1048576 }
    ensures put { OnOk result (out.new.items ≡ out.old.items ++ (behind_token (at_token standing.spot (option_map order_of (slice_get orders.now standing.order)) (lexeme_of token.now) byte) standing).0) }
    ensures standing { IfOk result (λ s. s ≡ (behind_token (at_token standing.spot (option_map order_of (slice_get orders.now standing.order)) (lexeme_of token.now) byte) standing).1) }
{
    let order = order_at(orders, standing.order);
    let behind = at_token(out, standing.spot, order, token, byte)?;
    Ok(Standing {
        spot: behind.spot,
        mode: behind.mode,
        token: standing.token + 1,
        order: standing.order + if behind.done { 1 } else { 0 },
    })
}

/// Any other byte.
fn pass(out: &mut Vec<u8>, standing: Standing, byte: u8) -> Result<Standing, AllocError>
    ensures put { OnOk result (out.new.items ≡ out.old.items ++ (behind_byte (at_byte standing.mode byte) standing).0) }
    ensures standing { IfOk result (λ s. s ≡ (behind_byte (at_byte standing.mode byte) standing).1) }
{
    let mode = at_byte(out, standing.mode, byte)?;
    Ok(Standing {
        spot: standing.spot,
        mode,
        token: standing.token,
        order: standing.order,
    })
}

/// One byte: what it gives is put behind a text.
fn advance(
    out: &mut Vec<u8>,
    standing: Standing,
    at: Place,
    tokens: &[Spotted],
    orders: &[Order],
    byte: u8,
) -> Result<Standing, AllocError>
    requires token { standing.token ≤ 1048576 }
    requires order { standing.order ≤ 1048576 }
    ensures put { OnOk result (out.new.items ≡ out.old.items ++ (advanced tokens.now orders.now at standing byte).0) }
    ensures standing { IfOk result (λ s. s ≡ (advanced tokens.now orders.now at standing byte).1) }
{
    match tokens.get(standing.token) {
        Some(spotted) => {
            if same_place(spotted.at, at) {
                begin(out, standing, &spotted.token, orders, byte)
            } else {
                pass(out, standing, byte)
            }
        }
        None => pass(out, standing, byte),
    }
}

/// A text of these tokens in which orders are carried out, in the order of their places.
fn edited(
    alloc: Global,
    text: &[u8],
    tokens: &[Spotted],
    orders: &[Order],
) -> Result<Vec<u8>, AllocError>
    requires { length text.now ≤ 1048576 }
    ensures { IfOk result (λ new. new.items ≡ edited (map order_of orders.now) (map seen_of tokens.now) text.now) }
{
    let mut out = Vec::new(alloc);
    let mut standing = Standing {
        spot: TokenPlace::Elsewhere,
        mode: GapMode::Copying,
        token: 0,
        order: 0,
    };
    let mut at = Place { line: 1, col: 1 };
    for i in 0..text.len() {
        standing = advance(&mut out, standing, at, tokens, orders, text[i])?;
        at = behind(at, text[i]);
    }
    Ok(out)
}

fn copied(alloc: Global, text: &[u8]) -> Result<Vec<u8>, AllocError>
    ensures { IfOk result (λ new. new.items ≡ text.now) }
{
    let mut new = Vec::new(alloc);
    new.extend_from_slice(text)?;
    Ok(new)
}

/// A text in which orders are carried out; one that has no tokens stays. It fails only for want of memory, and goes over the
/// text twice.
#[tactic(auto, using(crate::proofs::EditingLemmas::Fits::fits))]
pub fn edited_text(alloc: Global, text: &[u8], orders: &[Order]) -> Result<Vec<u8>, AllocError>
    ensures { IfOk result (λ new. new.items ≡ edited_text (map order_of orders.now) text.now) }
{
    match tokens(alloc, text) {
        Ok(tokens) => edited(alloc, text, &tokens, orders),
        Err(FrontFail::OutOfMemory) => Err(AllocError),
        Err(FrontFail::NotText { .. }) => copied(alloc, text),
        Err(FrontFail::Token { .. }) => copied(alloc, text),
        Err(FrontFail::Syntax { .. }) => copied(alloc, text),
        Err(FrontFail::TooLong) => copied(alloc, text),
        Err(FrontFail::TooDeep { .. }) => copied(alloc, text),
    }
}
