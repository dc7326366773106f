// The frame of a function by its text, without memory. What passes 2^32 counts as 2^32.
ghost use Rattle.std.specs.Prelude.{◌≡◌, ◌+◌, min, length};
ghost use Rattle.prem_list.specs.Sequence.{items_of};
ghost use Rattle.prem_syntax.specs.SyntaxOf.{statement_of, statements_of};
ghost use Rattle.prem_gen.specs.Frame.FrameOf.{most, frame_bytes};
ghost use Rattle.prem_gen.specs.Frame.Bounded.{bounded_in, bounded_among};

use crate::frame::capped::{capped_count, capped_sum, frame_bytes};
use prem_syntax::{Function, Stmt};

/// The `BOUNDED` loops in a statement.
#[cycle(bounded)]
#[tactic(auto, using(crate::proofs::FrameLemmas::Limited::capped_sum, crate::proofs::FrameLemmas::Limited::capped_next))]
fn bounded(stmt: &Stmt) -> u64
    ensures { result ≡ min (bounded_in (statement_of stmt.now)) most }
{
    match stmt {
        Stmt::Block { body, .. } => bounded_among(body.items()),
        Stmt::If {
            taken,
            other: Some(other),
            ..
        } => capped_sum(bounded(taken), bounded(other)),
        Stmt::If {
            taken,
            other: None,
            ..
        } => bounded(taken),
        Stmt::While { body, .. } => capped_sum(1, bounded(body)),
        Stmt::For { body, .. } => bounded(body),
        Stmt::Set { .. } | Stmt::Output { .. } | Stmt::Input { .. } | Stmt::Call { .. } => 0,
    }
}

/// The `BOUNDED` loops in statements.
#[cycle(bounded)]
fn bounded_among(stmts: &[Stmt]) -> u64
    ensures { result ≡ min (bounded_among (statements_of stmts.now)) most }
{
    let mut found = 0;
    for stmt in stmts {
        found = capped_sum(found, bounded(stmt));
    }
    found
}

/// The bytes of a function's frame.
#[tactic(auto, using(crate::proofs::FrameLemmas::Limited::capped_sum))]
pub fn frame_by_text(f: &Function) -> u64
    ensures { result ≡ frame_bytes (min (length (items_of f.now.params) + length (items_of f.now.locals) + bounded_among (statements_of (items_of f.now.body))) most) }
{
    let params = capped_count(f.params.items().len());
    let locals = capped_count(f.locals.items().len());
    let slots = capped_sum(capped_sum(params, locals), bounded_among(f.body.items()));
    frame_bytes(slots)
}
