// Names that a program uses.
ghost use Rattle.std.specs.Prelude.{◌≡◌, [], ◌∷◌, map, IfOk, IfSome, is_none, length, nat_lt};
ghost use Rattle.std.specs.Option.{option_map};
ghost use Rattle.std.specs.List.{list_any};
ghost use Rattle.prem_list.specs.Sequence.{items_of};
ghost use Rattle.prem_syntax.specs.Name.{name_bytes};
ghost use Rattle.prem_syntax.specs.Syntax.{Text, function_item};
ghost use Rattle.prem_syntax.specs.SyntaxOf.{parameter_of, local_of, item_of, function_of, program_of};
ghost use Rattle.prem_syntax.specs.Breaches.{parameter_texts};
ghost use Rattle.prem_syntax.specs.Resolve.{functions_of};
ghost use Rattle.prem_tiling.specs.Shapes.Shape.{is_marked_as, marked_named};
ghost use Rattle.prem_tiling.specs.Shapes.Carried.{names_of};
ghost use Rattle.prem_tiling.specs.Shapes.Tiled.{used_names, taken_from, tile_names};
ghost use Rattle.prem_tiling.specs.Copies.Named.{found_in};

use crate::copies::cut::tile_text;
use prem_list::Sequence;
use prem_syntax::{Function, Item, Local, Name, Param, Program};
use std::alloc::{AllocError, Global};

fn is_marked_as(name: &[u8], f: &Function) -> bool
    ensures { result ≡ is_marked_as name.now (function_of f.now) }
{
    f.name.bytes() == name && f.mark.is_some()
}

/// The first marked function of a name.
pub fn marked_named<'a>(items: &'a [Item], name: &[u8]) -> Option<&'a Function>
    ensures { option_map (λ f. function_of f.now) result ≡ marked_named (functions_of (map item_of items.now)) name.now }
{
    'items: for item in items {
        match item {
            Item::Function(f) => if is_marked_as(name, f) {
                return Some(f);
            },
            Item::Global(_) => {}
        }
    }
    None
}

/// A name of these bytes.
fn named<'a>(name: &'a Name, text: &[u8]) -> Option<&'a Name>
    ensures { option_map (λ n. name_bytes n.now) result ≡ found_in (name_bytes name.now ∷ []) text.now }
{
    if name.bytes() == text {
        Some(name)
    } else {
        None
    }
}

fn parameter_named<'a>(params: &'a [Param], text: &[u8]) -> Option<&'a Name>
    ensures { option_map (λ n. name_bytes n.now) result ≡ found_in (parameter_texts (map parameter_of params.now)) text.now }
{
    'params: for p in params {
        if p.name.bytes() == text {
            return Some(&p.name);
        }
    }
    None
}

fn local_named<'a>(locals: &'a [Local], text: &[u8]) -> Option<&'a Name>
    ensures { option_map (λ n. name_bytes n.now) result ≡ found_in (names_of (map local_of locals.now)) text.now }
{
    'locals: for l in locals {
        if l.name.bytes() == text {
            return Some(&l.name);
        }
    }
    None
}

/// The name of a function, of a parameter or of a local of it.
fn named_in_function<'a>(f: &'a Function, text: &[u8]) -> Option<&'a Name>
    ensures { option_map (λ n. name_bytes n.now) result ≡ found_in (used_names (function_item (function_of f.now) ∷ [])) text.now }
{
    if let Some(name) = named(&f.name, text) {
        return Some(name);
    }
    if let Some(name) = parameter_named(f.params.items(), text) {
        return Some(name);
    }
    local_named(f.locals.items(), text)
}

/// A name of something in an item.
fn named_in_item<'a>(item: &'a Item, text: &[u8]) -> Option<&'a Name>
    ensures { option_map (λ n. name_bytes n.now) result ≡ found_in (used_names (item_of item.now ∷ [])) text.now }
{
    match item {
        Item::Global(g) => named(&g.name, text),
        Item::Function(f) => named_in_function(f, text),
    }
}

/// The name of a function, global, parameter or local that has these bytes.
fn used<'a>(items: &'a [Item], text: &[u8]) -> Option<&'a Name>
    ensures { option_map (λ n. name_bytes n.now) result ≡ found_in (used_names (map item_of items.now)) text.now }
{
    'items: for item in items {
        if let Some(name) = named_in_item(item, text) {
            return Some(name);
        }
    }
    None
}

/// The first name of a tile that something in the program has.
pub fn taken<'a>(
    alloc: Global,
    p: &'a Program,
    name: &Name,
    tiles: u32,
) -> Result<Option<&'a Name>, AllocError>
    ensures { IfOk result (λ found. option_map (λ n. name_bytes n.now) found ≡ taken_from (used_names (program_of p.now)) (name_bytes name.now) 0 tiles) }
{
    'tiles: for t in 0..tiles {
        let text = tile_text(alloc, name.bytes(), t)?;
        match used(p.items.items(), &text) {
            Some(found) => return Ok(Some(found)),
            None => {}
        }
    }
    Ok(None)
}

/// The names of tiles, where none of them is longer than names are.
pub fn names_of_tiles(
    alloc: Global,
    name: &Name,
    tiles: u32,
) -> Result<Option<Sequence<Name>>, AllocError>
    ensures names { IfOk result (λ found. IfSome found (λ names. map name_bytes (items_of names) ≡ tile_names (name_bytes name.now) 0 tiles)) }
    ensures long { IfOk result (λ found. is_none found ≡ list_any (λ (n : Text). nat_lt 64 (length n)) (tile_names (name_bytes name.now) 0 tiles)) }
{
    let mut names = Sequence::new(alloc);
    'tiles: for t in 0..tiles {
        let text = tile_text(alloc, name.bytes(), t)?;
        match Name::new(alloc, &text)? {
            Some(name) => names.push(name)?,
            None => return Ok(None),
        }
    }
    Ok(Some(names))
}
