// What is known of the locals, in a vector that changes.
ghost use Rattle.std.specs.Prelude.{◌≡◌};
ghost use Rattle.prem_word.specs.Ranges.{from_to};
ghost use Rattle.prem_syntax.specs.Resolve.{kind_of};
ghost use Rattle.prem_tree.specs.Resolve.ResolvedOf.{term_of};
ghost use Rattle.prem_ranges.specs.Environment.{range_at, at_local, with_range, assigned, any_again};
ghost use Rattle.prem_ranges.specs.RangeOf.{cut, cut_if_some, opposite, true_operator, is_same_kind, cut_by, refined};
ghost use Rattle.prem_analysis.specs.Ranging.View.{span_of, known_of, env_of};

use crate::ranging::expression::range_of;
use crate::ranging::found::Known;
use crate::ranging::range::Range;
use crate::ranging::table::{convert, whole_range};
use prem_syntax::UnOp;
use prem_tree::resolve::{Term, kind_of};
use prem_word::{BinOp, Kind};

/// The range of a local.
pub fn range_at(env: &[Known], k: usize) -> Range
    ensures { span_of result ≡ range_at (env_of env.now) k }
{
    if k < env.len() {
        env[k].range
    } else {
        whole_range(Kind::Int)
    }
}

fn assigned(l: Known, r: Range) -> Known
    ensures { known_of result ≡ assigned (span_of r) (known_of l) }
{
    Known {
        kind: l.kind,
        range: convert(l.kind, r),
    }
}

fn any_again(l: Known) -> Known
    ensures { known_of result ≡ any_again (known_of l) }
{
    Known {
        kind: l.kind,
        range: whole_range(l.kind),
    }
}

/// A local gets a value of a range.
pub fn assign(env: &mut [Known], k: usize, r: Range)
    ensures { env_of env.new ≡ at_local k (assigned (span_of r)) (env_of env.old) }
{
    if k < env.len() {
        env[k] = assigned(env[k], r);
    }
}

fn with_range(l: Known, r: Range) -> Known
    ensures { known_of result ≡ with_range (span_of r) (known_of l) }
{
    Known {
        kind: l.kind,
        range: r,
    }
}

/// A local has a range.
pub fn set_range(env: &mut [Known], k: usize, r: Range)
    ensures { env_of env.new ≡ at_local k (with_range (span_of r)) (env_of env.old) }
{
    if k < env.len() {
        env[k] = with_range(env[k], r);
    }
}

/// No more is known of a local.
pub fn loosen(env: &mut [Known], k: usize)
    ensures { env_of env.new ≡ at_local k any_again (env_of env.old) }
{
    if k < env.len() {
        env[k] = any_again(env[k]);
    }
}

fn opposite(op: BinOp) -> BinOp
    ensures { result ≡ opposite op }
{
    match op {
        BinOp::Lt => BinOp::Ge,
        BinOp::Le => BinOp::Gt,
        BinOp::Gt => BinOp::Le,
        BinOp::Ge => BinOp::Lt,
        BinOp::Eq => BinOp::Ne,
        BinOp::Ne => BinOp::Eq,
        _ => op,
    }
}

fn true_operator(b: bool, op: BinOp) -> BinOp
    ensures { result ≡ true_operator b op }
{
    if b { op } else { opposite(op) }
}

/// The ends that a comparison leaves.
fn cut_ends(op: BinOp, x: Range, e: Range) -> (i64, i64)
    ensures { cut op (span_of x) (span_of e) ≡ from_to result.0 result.1 }
{
    match op {
        BinOp::Lt => (x.lo, x.hi.min(e.hi - 1)),
        BinOp::Le => (x.lo, x.hi.min(e.hi)),
        BinOp::Gt => (x.lo.max(e.lo + 1), x.hi),
        BinOp::Ge => (x.lo.max(e.lo), x.hi),
        BinOp::Eq => (x.lo.max(e.lo), x.hi.min(e.hi)),
        _ => (x.lo, x.hi),
    }
}

fn cut_if_some(op: BinOp, l: Known, e: Range) -> Known
    ensures { known_of result ≡ cut_if_some op (span_of e) (known_of l) }
{
    let (lo, hi) = cut_ends(op, l.range, e);
    if lo <= hi {
        Known {
            kind: l.kind,
            range: Range { lo, hi },
        }
    } else {
        l
    }
}

fn cut_local(env: &mut [Known], k: usize, op: BinOp, e: Range)
    ensures { env_of env.new ≡ at_local k (cut_if_some op (span_of e)) (env_of env.old) }
{
    if k < env.len() {
        env[k] = cut_if_some(op, env[k], e);
    }
}

fn is_same_kind(a: Kind, b: Kind) -> bool
    ensures { result ≡ is_same_kind a b }
{
    match (a, b) {
        (Kind::Int, Kind::Int) | (Kind::Unsigned, Kind::Unsigned) => true,
        (Kind::Int, Kind::Unsigned) | (Kind::Unsigned, Kind::Int) => false,
    }
}

fn cut_by(env: &mut [Known], op: BinOp, left: &Term, right: Kind, e: Range)
    ensures { env_of env.new ≡ cut_by op (term_of left.now) right (span_of e) (env_of env.old) }
{
    if let Term::Local { number, kind, .. } = left {
        if is_same_kind(*kind, right) {
            cut_local(env, *number, op, e);
        }
    }
}

/// What is known where a condition is true, or where it is false.
#[cycle(refine)]
pub fn refine(b: bool, env: &mut [Known], term: &Term)
    ensures { env_of env.new ≡ refined b (env_of env.old) (term_of term.now) }
{
    match term {
        Term::Unary {
            op: UnOp::Not,
            operand,
            ..
        } => refine(!b, env, operand),
        Term::Binary {
            op: BinOp::AndAlso,
            operands,
            ..
        } => {
            if b {
                refine(true, env, &operands.left);
                refine(true, env, &operands.right);
            }
        }
        Term::Binary {
            op: BinOp::OrElse,
            operands,
            ..
        } => {
            if !b {
                refine(false, env, &operands.left);
                refine(false, env, &operands.right);
            }
        }
        Term::Binary { op, operands, .. } => {
            let e = range_of(env, &operands.right);
            cut_by(
                env,
                true_operator(b, *op),
                &operands.left,
                kind_of(&operands.right),
                e,
            );
        }
        _ => {}
    }
}
