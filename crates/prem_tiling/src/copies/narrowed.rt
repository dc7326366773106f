// Regions of tiles.
ghost use Rattle.std.specs.Prelude.{◌≡◌, map, pos, neg_ℤ, ◌+ℤ◌, ◌≤ℤ◌, IfOk};
ghost use Rattle.std.specs.Int.{int_min, int_max};
ghost use Rattle.std.specs.Option.{option_map};
ghost use Rattle.prem_syntax.specs.Name.{name_bytes};
ghost use Rattle.prem_syntax.specs.SyntaxOf.{expression_of, region_of, statement_of, statements_of};
ghost use Rattle.prem_tiling.specs.Shapes.Narrowed.{joined, is_variable, small, exactly, offset_added, index_added, element_added, plain_added, target_added, added_of, added_of_option, added_of_all, added_in, added_within, cut_to, narrowed};
ghost use Rattle.prem_tiling.specs.Copies.AddedOf.{added_view};

use crate::copies::copy::copy_region;
use prem_syntax::{BinOp, Expr, Name, Region, Stmt, copy_name};
use std::alloc::{AllocError, Global};

/// What accesses of a global add to the loop's variable.
#[derive(Clone, Copy)]
pub enum Added {
    Nothing,
    Within { least: i32, most: i32 },
    Elsewhere,
}

fn joined(a: Added, b: Added) -> Added
    ensures { added_view result ≡ joined (added_view a) (added_view b) }
{
    match (a, b) {
        (Added::Nothing, b) => b,
        (Added::Elsewhere, _) => Added::Elsewhere,
        (a, Added::Nothing) => a,
        (_, Added::Elsewhere) => Added::Elsewhere,
        (Added::Within { least, most }, Added::Within { least: l, most: m }) => Added::Within {
            least: least.min(l),
            most: most.max(m),
        },
    }
}

fn is_variable(i: &Name, e: &Expr) -> bool
    ensures { result ≡ is_variable (name_bytes i.now) (expression_of e.now) }
{
    match e {
        Expr::Var { name, .. } => name.bytes() == i.bytes(),
        _ => false,
    }
}

fn small(e: &Expr) -> Option<u16>
    ensures { result ≡ small (expression_of e.now) }
{
    match e {
        Expr::Literal { value, .. } if *value <= 65535 => Some(*value as u16),
        _ => None,
    }
}

fn exactly(added: i32) -> Added
    ensures { added_view result ≡ exactly added }
{
    Added::Within {
        least: added,
        most: added,
    }
}

fn offset_added(op: BinOp, n: Option<u16>) -> Added
    ensures { added_view result ≡ offset_added op n }
{
    match (op, n) {
        (BinOp::Add, Some(n)) => exactly(n as i32),
        (BinOp::Sub, Some(n)) => exactly(-(n as i32)),
        _ => Added::Elsewhere,
    }
}

/// What an index adds: it is the variable, or the variable and a literal more or less.
fn index_added(i: &Name, index: &Expr) -> Added
    ensures { added_view result ≡ index_added (name_bytes i.now) (expression_of index.now) }
{
    match index {
        Expr::Var { name, .. } => if name.bytes() == i.bytes() {
            exactly(0)
        } else {
            Added::Elsewhere
        },
        Expr::Binary {
            op,
            left,
            right,
            ..
        } => if is_variable(i, left) {
            offset_added(*op, small(right))
        } else {
            Added::Elsewhere
        },
        _ => Added::Elsewhere,
    }
}

fn element_added(i: &Name, g: &Name, name: &Name, index: &Expr) -> Added
    ensures { added_view result ≡ element_added (name_bytes i.now) (name_bytes g.now) (name_bytes name.now) (expression_of index.now) }
{
    if name.bytes() == g.bytes() {
        index_added(i, index)
    } else {
        Added::Nothing
    }
}

fn plain_added(g: &Name, name: &Name) -> Added
    ensures { added_view result ≡ plain_added (name_bytes g.now) (name_bytes name.now) }
{
    if name.bytes() == g.bytes() {
        Added::Elsewhere
    } else {
        Added::Nothing
    }
}

fn target_added(i: &Name, g: &Name, name: &Name, index: &Option<Expr>) -> Added
    ensures { added_view result ≡ target_added (name_bytes i.now) (name_bytes g.now) (name_bytes name.now) (option_map expression_of index.now) }
{
    match index {
        Some(index) => element_added(i, g, name, index),
        None => plain_added(g, name),
    }
}

/// What the accesses of a global in an expression add.
fn added_of(i: &Name, g: &Name, e: &Expr) -> Added
    ensures { added_view result ≡ added_of (name_bytes i.now) (name_bytes g.now) (expression_of e.now) }
{
    match e {
        Expr::Literal { .. } => Added::Nothing,
        Expr::Var { name, .. } => plain_added(g, name),
        Expr::Elem { name, index, .. } => {
            joined(element_added(i, g, name, index), added_of(i, g, index))
        }
        Expr::Unary { arg, .. } => added_of(i, g, arg),
        Expr::Binary { left, right, .. } => joined(added_of(i, g, left), added_of(i, g, right)),
    }
}

fn added_of_option(i: &Name, g: &Name, e: &Option<Expr>) -> Added
    ensures { added_view result ≡ added_of_option (name_bytes i.now) (name_bytes g.now) (option_map expression_of e.now) }
{
    match e {
        Some(e) => added_of(i, g, e),
        None => Added::Nothing,
    }
}

#[tactic(auto, using(crate::proofs::CopiesLemmas::Joined::joined_assoc, crate::proofs::CopiesLemmas::Joined::joined_nothing))]
fn added_of_all(i: &Name, g: &Name, es: &[Expr]) -> Added
    ensures { added_view result ≡ added_of_all (name_bytes i.now) (name_bytes g.now) (map expression_of es.now) }
{
    let mut all = Added::Nothing;
    'terms: for e in es {
        all = joined(all, added_of(i, g, e));
    }
    all
}

/// What the accesses of a global in a statement add.
#[cycle(adding)]
pub fn added_in(i: &Name, g: &Name, stmt: &Stmt) -> Added
    ensures { added_view result ≡ added_in (name_bytes i.now) (name_bytes g.now) (statement_of stmt.now) }
{
    match stmt {
        Stmt::Block { body, .. } => added_within(i, g, body.items()),
        Stmt::If {
            cond,
            taken,
            other,
            ..
        } => {
            let first = added_of(i, g, cond);
            match other {
                Some(other) => joined(first, joined(added_in(i, g, taken), added_in(i, g, other))),
                None => joined(first, added_in(i, g, taken)),
            }
        }
        Stmt::While { cond, body, .. } => joined(added_of(i, g, cond), added_in(i, g, body)),
        Stmt::For {
            low,
            high,
            body,
            ..
        } => joined(
            added_of(i, g, low),
            joined(added_of(i, g, high), added_in(i, g, body)),
        ),
        Stmt::Set {
            name,
            index,
            value,
            ..
        } => joined(
            target_added(i, g, name, index),
            joined(added_of_option(i, g, index), added_of(i, g, value)),
        ),
        Stmt::Output { value, .. } => added_of(i, g, value),
        Stmt::Input { .. } => Added::Nothing,
        Stmt::Call { args, .. } => added_of_all(i, g, args.items()),
    }
}

#[cycle(adding)]
#[tactic(auto, using(crate::proofs::CopiesLemmas::Joined::joined_assoc, crate::proofs::CopiesLemmas::Joined::joined_nothing))]
fn added_within(i: &Name, g: &Name, stmts: &[Stmt]) -> Added
    ensures { added_view result ≡ added_within (name_bytes i.now) (name_bytes g.now) (statements_of stmts.now) }
{
    let mut all = Added::Nothing;
    'stmts: for stmt in stmts {
        all = joined(all, added_in(i, g, stmt));
    }
    all
}

/// A region with other ends, where they bound any element.
fn cut_to(alloc: Global, r: &Region, from: i64, to: i64) -> Result<Region, AllocError>
    requires some { pos 0 ≤ℤ from }
    requires within { to ≤ℤ pos 4294967295 }
    ensures { IfOk result (λ region. region_of region ≡ cut_to (region_of r.now) from to) }
{
    let name = copy_name(alloc, &r.name)?;
    let (low, high) = if from <= to {
        (from.unsigned_abs() as u32, to.unsigned_abs() as u32)
    } else {
        (r.low, r.high)
    };
    Ok(Region {
        at: r.at,
        name,
        low,
        high,
    })
}

/// The first element that accesses in a tile can reach.
fn from_of(low: u32, first: u32, least: i32) -> i64
    ensures from { result ≡ int_max (pos low) (pos first +ℤ least) }
    ensures some { pos 0 ≤ℤ result }
{
    (low as i64).max(first as i64 + least as i64)
}

/// The last element that accesses in a tile can reach.
fn to_of(high: u32, last: i64, most: i32) -> i64
    requires low { neg_ℤ (pos 4294967296) ≤ℤ last }
    requires high { last ≤ℤ pos 4294967296 }
    ensures to { result ≡ int_min (pos high) (last +ℤ most) }
    ensures within { result ≤ℤ pos 4294967295 }
{
    (high as i64).min(last + most as i64)
}

/// The region of a tile in which the loop's variable has its values from one to another.
pub fn narrowed(
    alloc: Global,
    first: u32,
    last: i64,
    r: &Region,
    added: Added,
) -> Result<Region, AllocError>
    requires low { neg_ℤ (pos 4294967296) ≤ℤ last }
    requires high { last ≤ℤ pos 4294967296 }
    ensures { IfOk result (λ region. region_of region ≡ narrowed (pos first) last (region_of r.now) (added_view added)) }
{
    match added {
        Added::Within { least, most } => {
            cut_to(
                alloc,
                r,
                from_of(r.low, first, least),
                to_of(r.high, last, most),
            )
        }
        _ => copy_region(alloc, r),
    }
}
