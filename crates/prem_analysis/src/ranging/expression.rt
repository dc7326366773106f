// The range of an expression, and the first rule that it breaks.
ghost use Rattle.std.specs.Prelude.{◌≡◌, None, IfOk, OnOk};
ghost use Rattle.prem_word.specs.Words.{value_in};
ghost use Rattle.prem_word.specs.Ranges.{exactly, truths, converted, range_of_op};
ghost use Rattle.prem_tree.specs.Resolve.ResolvedOf.{term_of};
ghost use Rattle.prem_ranges.specs.RangeOf.{range_of};
ghost use Rattle.prem_ranges.specs.RangeRules.{first, first_of};
ghost use Rattle.prem_ranges.specs.RangeBreaches.{in_divisor, in_term};
ghost use Rattle.prem_analysis.specs.Ranging.View.{span_of, env_of, found_of};
ghost use Rattle.prem_analysis.specs.Ranging.SiteOf.{site_of};
ghost use Rattle.prem_analysis.specs.Ranging.Shortcut.{shortcut_of};

use crate::ranging::access::{in_element, in_scalar};
use crate::ranging::environment::range_at;
use crate::ranging::found::{Broken, Known, Rule, earlier, if_at};
use crate::ranging::range::Range;
use crate::ranging::saves::{refine_saved, restore};
use crate::ranging::site::Site;
use crate::ranging::table::{convert, operator, range_of_type, unary};
use prem_syntax::Place;
use prem_tree::resolve::{Term, kind_of};
use prem_word::{BinOp, Kind};
use std::alloc::{AllocError, Global};

fn value_in(k: Kind, w: u32) -> i64
    ensures { result ≡ value_in k w }
{
    match k {
        Kind::Int => i64::from(w.cast_signed()),
        Kind::Unsigned => i64::from(w),
    }
}

fn truths() -> Range
    ensures { span_of result ≡ truths }
{
    Range { lo: 0, hi: 1 }
}

fn constant(k: Kind, w: u32) -> Range
    ensures { span_of result ≡ exactly (value_in k w) }
{
    let z = value_in(k, w);
    Range { lo: z, hi: z }
}

/// The range of an expression.
pub fn range_of(env: &[Known], term: &Term) -> Range
    ensures { span_of result ≡ range_of (env_of env.now) (term_of term.now) }
{
    match term {
        Term::Constant { word, kind, .. } => constant(*kind, *word),
        Term::Local { number, .. } => range_at(env, *number),
        Term::Scalar { ty, .. } | Term::Element { ty, .. } => range_of_type(*ty),
        Term::Unary { op, operand, .. } => {
            let kind = kind_of(operand);
            unary(*op, kind, convert(kind, range_of(env, operand)))
        }
        Term::Binary {
            op,
            kind,
            operands,
            ..
        } => operator(
            *op,
            *kind,
            convert(*kind, range_of(env, &operands.left)),
            convert(*kind, range_of(env, &operands.right)),
        ),
    }
}

fn in_divisor(at: Place, op: BinOp, r: Range) -> Option<Broken>
    ensures { found_of result ≡ first_of (in_divisor at op (span_of r)) }
{
    match op {
        BinOp::Div | BinOp::Rem => {
            if_at(r.lo <= 0 && 0 <= r.hi, at, Rule::ZeroDivisor { range: r })
        }
        _ => None,
    }
}

/// `&&` and `||` look at their right side only behind a left side that is true, or false.
fn shortcut(op: BinOp) -> Option<bool>
    ensures { result ≡ shortcut_of op }
{
    match op {
        BinOp::AndAlso => Some(true),
        BinOp::OrElse => Some(false),
        _ => None,
    }
}

/// What is seen of an expression: its range, and the first rule that it breaks.
#[derive(Clone, Copy)]
pub struct Looked {
    pub range: Range,
    pub found: Option<Broken>,
}

/// An operator whose two sides were looked at.
fn either_side(at: Place, op: BinOp, kind: Kind, left: Looked, right: Looked) -> Option<Broken>
    ensures { found_of result ≡ first (first (found_of left.found) (first_of (in_divisor at op (converted kind (span_of right.range))))) (found_of right.found) }
{
    let own = in_divisor(at, op, convert(kind, right.range));
    earlier(earlier(left.found, own), right.found)
}

fn operator_range(op: BinOp, kind: Kind, left: Range, right: Range) -> Range
    ensures { span_of result ≡ range_of_op op kind (converted kind (span_of left)) (converted kind (span_of right)) }
{
    operator(op, kind, convert(kind, left), convert(kind, right))
}

/// A range of what breaks no rule.
fn unbroken(range: Range) -> Looked
    ensures range { result.range ≡ range }
    ensures found { result.found ≡ None }
{
    Looked { range, found: None }
}

/// Looks at an expression once: no operand's range is computed again at each level. The right side of `&&` and `||` is
/// looked at in the same environment, in which the locals that the left side names are put back behind it.
#[tactic(auto, using(prem_ranges::proofs::FirstBreach::first_of_append, prem_ranges::proofs::SavesLemmas::Back::back_from_refined, crate::proofs::RangingLemmas::Operators::first_of_some, crate::proofs::RangingLemmas::Operators::first_of_none, crate::proofs::RangingLemmas::Operators::range_of_some, crate::proofs::RangingLemmas::Operators::range_of_operator))]
pub fn look_at(
    alloc: Global,
    site: &Site,
    env: &mut [Known],
    term: &Term,
) -> Result<Looked, AllocError>
    ensures env { OnOk result (env_of env.new ≡ env_of env.old) }
    ensures range { IfOk result (λ l. span_of l.range ≡ range_of (env_of env.old) (term_of term.now)) }
    ensures found { IfOk result (λ l. found_of l.found ≡ first_of (in_term (site_of site.now) (env_of env.old) (term_of term.now))) }
{
    match term {
        Term::Constant { word, kind, .. } => Ok(unbroken(constant(*kind, *word))),
        Term::Local { number, .. } => Ok(unbroken(range_at(env, *number))),
        Term::Scalar { at, global, ty } => Ok(Looked {
            range: range_of_type(*ty),
            found: in_scalar(site, *at, *global),
        }),
        Term::Element {
            at,
            global,
            ty,
            index,
        } => {
            let inner = look_at(alloc, site, env, index)?;
            let own = in_element(site, *at, *global, inner.range);
            Ok(Looked {
                range: range_of_type(*ty),
                found: earlier(own, inner.found),
            })
        }
        Term::Unary { op, operand, .. } => {
            let inner = look_at(alloc, site, env, operand)?;
            let kind = kind_of(operand);
            Ok(Looked {
                range: unary(*op, kind, convert(kind, inner.range)),
                found: inner.found,
            })
        }
        Term::Binary {
            at,
            op,
            kind,
            operands,
        } => {
            let first = look_at(alloc, site, env, &operands.left)?;
            match shortcut(*op) {
                Some(b) => {
                    let saves = refine_saved(alloc, b, env, &operands.left)?;
                    let second = look_at(alloc, site, env, &operands.right)?;
                    restore(env, &saves);
                    Ok(Looked {
                        range: truths(),
                        found: earlier(first.found, second.found),
                    })
                }
                None => {
                    let second = look_at(alloc, site, env, &operands.right)?;
                    Ok(Looked {
                        range: operator_range(*op, *kind, first.range, second.range),
                        found: either_side(*at, *op, *kind, first, second),
                    })
                }
            }
        }
    }
}

/// The first rule that an expression breaks. What is known stays the same.
pub fn in_term(
    alloc: Global,
    site: &Site,
    env: &mut [Known],
    term: &Term,
) -> Result<Option<Broken>, AllocError>
    ensures env { OnOk result (env_of env.new ≡ env_of env.old) }
    ensures found { IfOk result (λ found. found_of found ≡ first_of (in_term (site_of site.now) (env_of env.old) (term_of term.now))) }
{
    let looked = look_at(alloc, site, env, term)?;
    Ok(looked.found)
}
