// Copies of expressions and of what is declared.
ghost use Rattle.std.specs.Prelude.{◌≡◌, map, IfOk};
ghost use Rattle.std.specs.Option.{option_map};
ghost use Rattle.prem_list.specs.Sequence.{items_of};
ghost use Rattle.prem_syntax.specs.Name.{name_bytes};
ghost use Rattle.prem_syntax.specs.SyntaxOf.{expression_of, loop_names_of, parameter_of, local_of, region_of, mark_of, initial_of, global_of};

use prem_list::Sequence;
use prem_syntax::{Expr, ForNames, Global, Initial, Local, Mark, Name, Param, Region, copy_name};
use std::alloc::{AllocError, Global as Allocator};

/// A copy of an expression.
pub fn copy_expr(alloc: Allocator, e: &Expr) -> Result<Expr, AllocError>
    ensures { IfOk result (λ copy. expression_of copy ≡ expression_of e.now) }
{
    match e {
        Expr::Literal { at, value, kind } => Ok(Expr::Literal {
            at: *at,
            value: *value,
            kind: *kind,
        }),
        Expr::Var { at, name } => Ok(Expr::Var {
            at: *at,
            name: copy_name(alloc, name)?,
        }),
        Expr::Elem { at, name, index } => {
            let name = copy_name(alloc, name)?;
            let index = copy_expr(alloc, index)?;
            Ok(Expr::Elem {
                at: *at,
                name,
                index: Box::new(alloc, index)?,
            })
        }
        Expr::Unary { at, op, arg } => {
            let arg = copy_expr(alloc, arg)?;
            Ok(Expr::Unary {
                at: *at,
                op: *op,
                arg: Box::new(alloc, arg)?,
            })
        }
        Expr::Binary {
            at,
            op,
            left,
            right,
        } => {
            let left = copy_expr(alloc, left)?;
            let right = copy_expr(alloc, right)?;
            Ok(Expr::Binary {
                at: *at,
                op: *op,
                left: Box::new(alloc, left)?,
                right: Box::new(alloc, right)?,
            })
        }
    }
}

/// Copies of expressions, in order.
pub fn copy_exprs(alloc: Allocator, es: &[Expr]) -> Result<Sequence<Expr>, AllocError>
    ensures { IfOk result (λ copies. map expression_of (items_of copies) ≡ map expression_of es.now) }
{
    let mut copies = Sequence::new(alloc);
    for e in es {
        copies.push(copy_expr(alloc, e)?)?;
    }
    Ok(copies)
}

/// A copy of an expression, where there is one.
pub fn copy_option(alloc: Allocator, e: &Option<Expr>) -> Result<Option<Expr>, AllocError>
    ensures { IfOk result (λ copy. option_map expression_of copy ≡ option_map expression_of e.now) }
{
    match e {
        Some(e) => Ok(Some(copy_expr(alloc, e)?)),
        None => Ok(None),
    }
}

/// A copy of a name, where there is one.
pub fn copy_target(alloc: Allocator, name: &Option<Name>) -> Result<Option<Name>, AllocError>
    ensures { IfOk result (λ copy. option_map name_bytes copy ≡ option_map name_bytes name.now) }
{
    match name {
        Some(name) => Ok(Some(copy_name(alloc, name)?)),
        None => Ok(None),
    }
}

/// A copy of the names of a counting loop.
pub fn copy_loop_names(alloc: Allocator, names: &ForNames) -> Result<ForNames, AllocError>
    ensures { IfOk result (λ copy. loop_names_of copy ≡ loop_names_of names.now) }
{
    Ok(ForNames {
        first: copy_name(alloc, &names.first)?,
        second: copy_name(alloc, &names.second)?,
        third: copy_name(alloc, &names.third)?,
        fourth: copy_name(alloc, &names.fourth)?,
    })
}

fn copy_param(alloc: Allocator, p: &Param) -> Result<Param, AllocError>
    ensures { IfOk result (λ copy. parameter_of copy ≡ parameter_of p.now) }
{
    Ok(Param {
        at: p.at,
        ty: p.ty,
        name: copy_name(alloc, &p.name)?,
        range: p.range,
    })
}

/// Copies of parameters, in order.
pub fn copy_params(alloc: Allocator, ps: &[Param]) -> Result<Sequence<Param>, AllocError>
    ensures { IfOk result (λ copies. map parameter_of (items_of copies) ≡ map parameter_of ps.now) }
{
    let mut copies = Sequence::new(alloc);
    for p in ps {
        copies.push(copy_param(alloc, p)?)?;
    }
    Ok(copies)
}

fn copy_local(alloc: Allocator, l: &Local) -> Result<Local, AllocError>
    ensures { IfOk result (λ copy. local_of copy ≡ local_of l.now) }
{
    Ok(Local {
        at: l.at,
        ty: l.ty,
        name: copy_name(alloc, &l.name)?,
        value: copy_expr(alloc, &l.value)?,
    })
}

/// Copies of locals, in order.
pub fn copy_locals(alloc: Allocator, ls: &[Local]) -> Result<Sequence<Local>, AllocError>
    ensures { IfOk result (λ copies. map local_of (items_of copies) ≡ map local_of ls.now) }
{
    let mut copies = Sequence::new(alloc);
    for l in ls {
        copies.push(copy_local(alloc, l)?)?;
    }
    Ok(copies)
}

/// A copy of a region.
pub fn copy_region(alloc: Allocator, r: &Region) -> Result<Region, AllocError>
    ensures { IfOk result (λ copy. region_of copy ≡ region_of r.now) }
{
    Ok(Region {
        at: r.at,
        name: copy_name(alloc, &r.name)?,
        low: r.low,
        high: r.high,
    })
}

fn copy_regions(alloc: Allocator, rs: &[Region]) -> Result<Sequence<Region>, AllocError>
    ensures { IfOk result (λ copies. map region_of (items_of copies) ≡ map region_of rs.now) }
{
    let mut copies = Sequence::new(alloc);
    for r in rs {
        copies.push(copy_region(alloc, r)?)?;
    }
    Ok(copies)
}

/// A copy of a mark, where there is one.
pub fn copy_mark(alloc: Allocator, mark: &Option<Mark>) -> Result<Option<Mark>, AllocError>
    ensures { IfOk result (λ copy. option_map mark_of copy ≡ option_map mark_of mark.now) }
{
    match mark {
        Some(mark) => Ok(Some(Mark {
            stated: mark.stated,
            regions: copy_regions(alloc, mark.regions.items())?,
        })),
        None => Ok(None),
    }
}

fn copy_constants(alloc: Allocator, values: &[i64]) -> Result<Sequence<i64>, AllocError>
    ensures { IfOk result (λ copies. items_of copies ≡ values.now) }
{
    let mut copies = Sequence::new(alloc);
    'values: for value in values {
        copies.push(*value)?;
    }
    Ok(copies)
}

fn copy_initial(alloc: Allocator, initial: &Initial) -> Result<Initial, AllocError>
    ensures { IfOk result (λ copy. initial_of copy ≡ initial_of initial.now) }
{
    match initial {
        Initial::Absent => Ok(Initial::Absent),
        Initial::One { value } => Ok(Initial::One { value: *value }),
        Initial::Many { values } => Ok(Initial::Many {
            values: copy_constants(alloc, values.items())?,
        }),
    }
}

/// A copy of a global.
pub fn copy_global(alloc: Allocator, g: &Global) -> Result<Global, AllocError>
    ensures { IfOk result (λ copy. global_of copy ≡ global_of g.now) }
{
    Ok(Global {
        at: g.at,
        ty: g.ty,
        name: copy_name(alloc, &g.name)?,
        len: g.len,
        initial: copy_initial(alloc, &g.initial)?,
    })
}
