// The reasons in their order, and the program with tiles.
ghost use Rattle.std.specs.Prelude.{◌≡◌, ◌≤◌, IfOk, Some, None};
ghost use Rattle.prem_syntax.specs.Name.{name_bytes};
ghost use Rattle.prem_syntax.specs.SyntaxOf.{function_of, program_of};
ghost use Rattle.prem_syntax.specs.Resolve.{functions_of};
ghost use Rattle.prem_syntax.specs.ProgramRules.{IsWellFormed};
ghost use Rattle.prem_tiling.specs.Shapes.Shape.{marked_named, shape_of, turns_of};
ghost use Rattle.prem_tiling.specs.Shapes.Carried.{names_of, carried_in};
ghost use Rattle.prem_tiling.specs.Shapes.Tiled.{used_names, taken_from};
ghost use Rattle.prem_tiling.specs.Shapes.Tile.{unless_past, unless_taken, unless_few, unless_carried, of_shape, tile};
ghost use Rattle.prem_tiling.specs.Laws.CanCut.{CanCut};
ghost use Rattle.prem_tiling.specs.Copies.CutOf.{cut_in};
ghost use Rattle.prem_tile.specs.Cutting.Answer.{is_text_past, IsAsked, Tells};

use crate::cutting::fail::TileFail;
use prem_front::{FrontFail, parse, print};
use prem_syntax::{Function, Program, copy_name};
use prem_tiling::copies::carried::carried_in;
use prem_tiling::copies::cut::Cut;
use prem_tiling::copies::shape::{shape_of, turns_of};
use prem_tiling::copies::tiled::{function_count, tiled};
use prem_tiling::copies::used::{marked_named, names_of_tiles, taken};
use std::alloc::{AllocError, Global};

/// The greatest number of functions of a program.
const FUNCTIONS: usize = 256;

/// Whether the canonical text of a program is past a limit of texts.
fn is_text_past(alloc: Global, q: &Program) -> Result<bool, AllocError>
    ensures { IfOk result (λ past. past ≡ is_text_past (program_of q.now)) }
{
    let text = print(alloc, q)?;
    match parse(alloc, &text) {
        Ok(_) => Ok(false),
        Err(FrontFail::TooLong) => Ok(true),
        Err(FrontFail::TooDeep { .. }) => Ok(true),
        Err(FrontFail::OutOfMemory) => Err(AllocError),
        Err(FrontFail::NotText { .. }) => Ok(false),
        Err(FrontFail::Token { .. }) => Ok(false),
        Err(FrontFail::Syntax { .. }) => Ok(false),
    }
}

/// The program with tiles, where it is within all limits.
fn unless_past(alloc: Global, p: &Program, c: &Cut) -> Result<Program, TileFail>
    requires asked { IsAsked (program_of p.now) (cut_in c.now) }
    requires can { CanCut (program_of p.now) (cut_in c.now) }
    ensures { Tells result (unless_past is_text_past (cut_in c.now) (program_of p.now)) }
{
    let Some(names) = names_of_tiles(alloc, &c.function.name, c.tiles)? else {
        return Err(TileFail::Limit);
    };
    let q = tiled(alloc, p, c, names.items())?;
    if function_count(q.items.items()) > FUNCTIONS {
        return Err(TileFail::Limit);
    }
    if is_text_past(alloc, &q)? {
        return Err(TileFail::Limit);
    }
    Ok(q)
}

fn unless_taken(alloc: Global, p: &Program, c: &Cut) -> Result<Program, TileFail>
    requires asked { IsAsked (program_of p.now) (cut_in c.now) }
    requires uncarried { carried_in (names_of (cut_in c.now).function.locals) (cut_in c.now).loop.body ≡ None }
    requires enough { (cut_in c.now).tiles ≤ turns_of (cut_in c.now).loop }
    ensures { Tells result (unless_taken is_text_past (cut_in c.now) (program_of p.now) (taken_from (used_names (program_of p.now)) (cut_in c.now).function.name 0 (cut_in c.now).tiles)) }
{
    match taken(alloc, p, &c.function.name, c.tiles)? {
        Some(name) => Err(TileFail::Taken {
            name: copy_name(alloc, name)?,
        }),
        None => unless_past(alloc, p, c),
    }
}

fn unless_few(alloc: Global, p: &Program, c: &Cut) -> Result<Program, TileFail>
    requires asked { IsAsked (program_of p.now) (cut_in c.now) }
    requires uncarried { carried_in (names_of (cut_in c.now).function.locals) (cut_in c.now).loop.body ≡ None }
    ensures { Tells result (unless_few is_text_past (cut_in c.now) (program_of p.now)) }
{
    let turns = turns_of(&c.form);
    if turns < c.tiles as u64 {
        Err(TileFail::Turns {
            turns: turns as u32,
        })
    } else {
        unless_taken(alloc, p, c)
    }
}

fn unless_carried(alloc: Global, p: &Program, c: &Cut) -> Result<Program, TileFail>
    requires asked { IsAsked (program_of p.now) (cut_in c.now) }
    ensures { Tells result (unless_carried is_text_past (cut_in c.now) (program_of p.now) (carried_in (names_of (cut_in c.now).function.locals) (cut_in c.now).loop.body)) }
{
    match carried_in(alloc, c.function.locals.items(), c.form.body)? {
        Some(line) => Err(TileFail::Carry { line }),
        None => unless_few(alloc, p, c),
    }
}

fn of_shape(
    alloc: Global,
    p: &Program,
    f: &Function,
    tiles: u32,
    stated: u32,
) -> Result<Program, TileFail>
    requires formed { IsWellFormed (program_of p.now) }
    requires named { marked_named (functions_of (program_of p.now)) (name_bytes f.now.name) ≡ Some (function_of f.now) }
    requires several { 2 ≤ tiles }
    requires few { tiles ≤ 64 }
    requires some { 1 ≤ stated }
    requires stated { stated ≤ 2147483647 }
    ensures { Tells result (of_shape is_text_past (program_of p.now) (function_of f.now) tiles stated (shape_of (function_of f.now))) }
{
    match shape_of(f) {
        Some(form) => {
            let cut = Cut {
                function: f,
                form,
                tiles,
                stated,
            };
            unless_carried(alloc, p, &cut)
        }
        None => Err(TileFail::Shape { line: f.at.line }),
    }
}

/// The program in which the marked function of a name is cut into so many tiles of a stated length, or the first reason
/// why there is none.
pub fn tile_program(
    alloc: Global,
    p: &Program,
    name: &[u8],
    tiles: u32,
    stated: u32,
) -> Result<Program, TileFail>
    requires formed { IsWellFormed (program_of p.now) }
    requires several { 2 ≤ tiles }
    requires few { tiles ≤ 64 }
    requires some { 1 ≤ stated }
    requires stated { stated ≤ 2147483647 }
    ensures { Tells result (tile is_text_past (program_of p.now) name.now tiles stated) }
{
    match marked_named(p.items.items(), name) {
        Some(f) => of_shape(alloc, p, f, tiles, stated),
        None => Err(TileFail::NoFunction),
    }
}
