// The tiles of a function.
ghost use Rattle.std.specs.Prelude.{◌≡◌, ◌≤◌, ◌<◌, ◌+◌, ◌*◌, ◌/◌, map, neg_ℤ, pos, ◌≤ℤ◌, IfOk};
ghost use Rattle.std.specs.Option.{option_map};
ghost use Rattle.prem_list.specs.Sequence.{items_of};
ghost use Rattle.prem_syntax.specs.Name.{name_bytes};
ghost use Rattle.prem_syntax.specs.Syntax.{next_statement, no_statements};
ghost use Rattle.prem_syntax.specs.SyntaxOf.{expression_of, statement_of, statements_of, region_of, mark_of, function_of};
ghost use Rattle.prem_tiling.specs.Shapes.Tiled.{tile_name, is_last, low_of, closed_of, high_of, last_below, last_of, with_value, tile_loop, tile_of};
ghost use Rattle.prem_tiling.specs.Copies.ShapeOf.{number_in, loop_in};
ghost use Rattle.prem_tiling.specs.Copies.CutOf.{cut_in, narrowed_region, narrowed_mark, IsReady};

use crate::copies::copy::{copy_locals, copy_loop_names, copy_option, copy_params};
use crate::copies::narrowed::{added_in, narrowed};
use crate::copies::shape::{Loop, Number, turns_of};
use crate::copies::statements::copy_boxed;
use prem_list::Sequence;
use prem_syntax::{Expr, Function, Mark, Name, Region, Stmt, copy_name};
use std::alloc::{AllocError, Global};

/// Into how many tiles a function with a loop is cut, and their stated length.
#[derive(Clone, Copy)]
pub struct Cut<'a> {
    pub function: &'a Function,
    pub form: Loop<'a>,
    pub tiles: u32,
    pub stated: u32,
}

/// The bytes of a tile's name.
pub fn tile_text(alloc: Global, name: &[u8], t: u32) -> Result<Vec<u8>, AllocError>
    ensures { IfOk result (λ text. text.items ≡ tile_name name.now t) }
{
    let mut text = name.to_vec(alloc)?;
    text.extend_from_slice(format!(in alloc; "_t{t}")?.as_bytes())?;
    Ok(text)
}

/// The first turn of a tile, where so many turns are shared out.
fn first_turn(turns: u64, tiles: u32, t: u32) -> u64
    requires few { t ≤ 64 }
    requires small { turns ≤ 4294967296 }
    requires some { 0 < tiles }
    ensures { result ≡ t * turns / tiles }
{
    t as u64 * turns / tiles as u64
}

/// The value of the loop's variable in a turn.
fn value_at(l: &Loop, turn: u64) -> u32
    requires { (loop_in l.now).low.value + (loop_in l.now).step * turn ≤ 2147483647 }
    ensures { result ≡ (loop_in l.now).low.value + (loop_in l.now).step * turn }
{
    (l.low.value as u64 + l.step as u64 * turn) as u32
}

fn is_last(c: &Cut, t: u32) -> bool
    requires few { c.now.tiles ≤ 64 }
    requires within { t < c.now.tiles }
    ensures { result ≡ is_last (cut_in c.now) t }
{
    t + 1 == c.tiles
}

/// The first value of the loop's variable in a tile.
fn low_of(c: &Cut, t: u32) -> u32
    requires ready { IsReady (cut_in c.now) }
    requires within { t < c.now.tiles }
    ensures { result ≡ low_of (cut_in c.now) t }
{
    let turn = first_turn(turns_of(&c.form), c.tiles, t);
    value_at(&c.form, turn)
}

fn closed_of(c: &Cut, t: u32) -> bool
    requires few { c.now.tiles ≤ 64 }
    requires within { t < c.now.tiles }
    ensures { result ≡ closed_of (cut_in c.now) t }
{
    if is_last(c, t) { c.form.closed } else { false }
}

/// The end of a tile's loop.
fn high_of(c: &Cut, t: u32) -> u32
    requires ready { IsReady (cut_in c.now) }
    requires within { t < c.now.tiles }
    ensures { result ≡ high_of (cut_in c.now) t }
{
    if is_last(c, t) {
        c.form.high.value
    } else {
        low_of(c, t + 1)
    }
}

/// The last value of a loop's variable up to an end.
fn last_below(closed: bool, high: u32) -> i64
    ensures last { result ≡ last_below closed high }
    ensures low { neg_ℤ (pos 4294967296) ≤ℤ result }
    ensures high { result ≤ℤ pos 4294967296 }
{
    if closed { high as i64 } else { high as i64 - 1 }
}

/// The last value of the loop's variable in a tile.
fn last_of(c: &Cut, t: u32) -> i64
    requires ready { IsReady (cut_in c.now) }
    requires within { t < c.now.tiles }
    ensures last { result ≡ last_of (cut_in c.now) t }
    ensures low { neg_ℤ (pos 4294967296) ≤ℤ result }
    ensures high { result ≤ℤ pos 4294967296 }
{
    last_below(closed_of(c, t), high_of(c, t))
}

/// The regions of a tile in which the loop's variable has its values from one to another.
fn narrowed_regions(
    alloc: Global,
    l: &Loop,
    first: u32,
    last: i64,
    regions: &[Region],
) -> Result<Sequence<Region>, AllocError>
    requires low { neg_ℤ (pos 4294967296) ≤ℤ last }
    requires high { last ≤ℤ pos 4294967296 }
    ensures { IfOk result (λ copies. map region_of (items_of copies) ≡ map (narrowed_region (loop_in l.now) first last) (map region_of regions.now)) }
{
    let mut copies = Sequence::new(alloc);
    for region in regions {
        let added = added_in(&l.names.first, &region.name, l.body);
        copies.push(narrowed(alloc, first, last, region, added)?)?;
    }
    Ok(copies)
}

/// The mark of a tile.
fn tile_mark(
    alloc: Global,
    c: &Cut,
    first: u32,
    last: i64,
    mark: &Option<Mark>,
) -> Result<Option<Mark>, AllocError>
    requires low { neg_ℤ (pos 4294967296) ≤ℤ last }
    requires high { last ≤ℤ pos 4294967296 }
    ensures { IfOk result (λ copy. option_map mark_of copy ≡ option_map (narrowed_mark (cut_in c.now) first last) (option_map mark_of mark.now)) }
{
    match mark {
        Some(mark) => Ok(Some(Mark {
            stated: c.stated,
            regions: narrowed_regions(alloc, &c.form, first, last, mark.regions.items())?,
        })),
        None => Ok(None),
    }
}

fn with_value(n: Number, value: u32) -> Expr
    ensures { expression_of result ≡ with_value (number_in n) value }
{
    Expr::Literal {
        at: n.at,
        value,
        kind: n.kind,
    }
}

/// The loop of a tile.
fn tile_loop(alloc: Global, c: &Cut, t: u32) -> Result<Stmt, AllocError>
    requires ready { IsReady (cut_in c.now) }
    requires within { t < c.now.tiles }
    ensures { IfOk result (λ s. statement_of s ≡ tile_loop (cut_in c.now) t) }
{
    let names = copy_loop_names(alloc, c.form.names)?;
    let body = copy_boxed(alloc, &c.function.name, &[], c.form.body)?;
    Ok(Stmt::For {
        at: c.form.at,
        names,
        low: with_value(c.form.low, low_of(c, t)),
        closed: closed_of(c, t),
        high: with_value(c.form.high, high_of(c, t)),
        step: c.form.step,
        body,
    })
}

/// The body of a tile.
fn tile_body(alloc: Global, c: &Cut, t: u32) -> Result<Sequence<Stmt>, AllocError>
    requires ready { IsReady (cut_in c.now) }
    requires within { t < c.now.tiles }
    ensures { IfOk result (λ body. statements_of (items_of body) ≡ next_statement (tile_loop (cut_in c.now) t) no_statements) }
{
    let mut body = Sequence::new(alloc);
    body.push(tile_loop(alloc, c, t)?)?;
    Ok(body)
}

/// A tile of this name.
pub fn tile_of(alloc: Global, c: &Cut, t: u32, name: &Name) -> Result<Function, AllocError>
    requires ready { IsReady (cut_in c.now) }
    requires within { t < c.now.tiles }
    requires named { name_bytes name.now ≡ tile_name (cut_in c.now).function.name t }
    ensures { IfOk result (λ f. function_of f ≡ tile_of (cut_in c.now) t) }
{
    let f = c.function;
    let mark = tile_mark(alloc, c, low_of(c, t), last_of(c, t), &f.mark)?;
    let name = copy_name(alloc, name)?;
    let params = copy_params(alloc, f.params.items())?;
    let locals = copy_locals(alloc, f.locals.items())?;
    let body = tile_body(alloc, c, t)?;
    let result = copy_option(alloc, &f.result)?;
    Ok(Function {
        at: f.at,
        mark,
        ty: f.ty,
        name,
        params,
        locals,
        body,
        result,
    })
}
