// Programs with tiles.
ghost use Rattle.std.specs.Prelude.{◌≡◌, ◌++◌, map, OnOk, IfOk, length};
ghost use Rattle.prem_list.specs.Sequence.{items_of};
ghost use Rattle.prem_syntax.specs.Name.{name_bytes};
ghost use Rattle.prem_syntax.specs.SyntaxOf.{item_of, function_of, program_of};
ghost use Rattle.prem_syntax.specs.Resolve.{functions_of};
ghost use Rattle.prem_tiling.specs.Shapes.Tiled.{tile_names, tiles_from, function_with_tiles, item_with_tiles, tiled};
ghost use Rattle.prem_tiling.specs.Copies.CutOf.{cut_in, IsReady};

use crate::copies::copy::{copy_global, copy_locals, copy_mark, copy_option, copy_params};
use crate::copies::cut::{Cut, tile_of};
use crate::copies::statements::copy_stmts;
use prem_list::Sequence;
use prem_syntax::{Function, Item, Name, Program, copy_name};
use std::alloc::{AllocError, Global};

/// A copy of a function that isn't cut: it calls the tiles.
fn copy_function(
    alloc: Global,
    c: &Cut,
    names: &[Name],
    f: &Function,
) -> Result<Function, AllocError>
    requires named { map name_bytes names.now ≡ tile_names (cut_in c.now).function.name 0 c.now.tiles }
    ensures { IfOk result (λ copy. function_of copy ≡ function_with_tiles (cut_in c.now) (function_of f.now)) }
{
    let mark = copy_mark(alloc, &f.mark)?;
    let name = copy_name(alloc, &f.name)?;
    let params = copy_params(alloc, f.params.items())?;
    let locals = copy_locals(alloc, f.locals.items())?;
    let body = copy_stmts(alloc, &c.function.name, names, f.body.items())?;
    let result = copy_option(alloc, &f.result)?;
    Ok(Function {
        at: f.at,
        mark,
        ty: f.ty,
        name,
        params,
        locals,
        body,
        result,
    })
}

/// Puts all tiles behind other items.
fn push_tiles(
    alloc: Global,
    items: &mut Sequence<Item>,
    c: &Cut,
    names: &[Name],
) -> Result<(), AllocError>
    requires ready { IsReady (cut_in c.now) }
    requires named { map name_bytes names.now ≡ tile_names (cut_in c.now).function.name 0 c.now.tiles }
    ensures { OnOk result (map item_of (items_of items.new) ≡ map item_of (items_of items.old) ++ tiles_from (cut_in c.now) 0 c.now.tiles) }
{
    'tiles: for t in 0..c.tiles {
        let tile = tile_of(alloc, c, t, &names[t as usize])?;
        items.push(Item::Function(tile))?;
    }
    Ok(())
}

/// Puts an item behind others, or all tiles in the place of the function that is cut.
fn push_item(
    alloc: Global,
    items: &mut Sequence<Item>,
    c: &Cut,
    names: &[Name],
    item: &Item,
) -> Result<(), AllocError>
    requires ready { IsReady (cut_in c.now) }
    requires named { map name_bytes names.now ≡ tile_names (cut_in c.now).function.name 0 c.now.tiles }
    ensures { OnOk result (map item_of (items_of items.new) ≡ map item_of (items_of items.old) ++ item_with_tiles (cut_in c.now) (item_of item.now)) }
{
    match item {
        Item::Global(g) => items.push(Item::Global(copy_global(alloc, g)?)),
        Item::Function(f) => {
            if f.name.bytes() == c.function.name.bytes() {
                push_tiles(alloc, items, c, names)
            } else {
                items.push(Item::Function(copy_function(alloc, c, names, f)?))
            }
        }
    }
}

/// The program with tiles of these names.
pub fn tiled(alloc: Global, p: &Program, c: &Cut, names: &[Name]) -> Result<Program, AllocError>
    requires ready { IsReady (cut_in c.now) }
    requires named { map name_bytes names.now ≡ tile_names (cut_in c.now).function.name 0 c.now.tiles }
    ensures { IfOk result (λ q. program_of q ≡ tiled (cut_in c.now) (program_of p.now)) }
{
    let mut items = Sequence::new(alloc);
    'items: for item in p.items.items() {
        push_item(alloc, &mut items, c, names, item)?;
    }
    Ok(Program { items })
}

/// How many functions stand among items.
pub fn function_count(items: &[Item]) -> usize
    ensures { result ≡ length (functions_of (map item_of items.now)) }
{
    let mut count = 0;
    'items: for item in items {
        match item {
            Item::Function(_) => count += 1,
            Item::Global(_) => {}
        }
    }
    count
}
