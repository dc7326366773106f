// The first breach in a program.
ghost use Rattle.std.specs.Prelude.{◌≡◌, ◌≤◌, ◌<◌, ◌+◌, ◌^◌, [], ◌∷◌, map, IfOk, OnOk};
ghost use Rattle.prem_syntax.specs.Name.{name_bytes};
ghost use Rattle.prem_syntax.specs.Syntax.{ProgramText};
ghost use Rattle.prem_syntax.specs.SyntaxOf.{global_of, function_of, item_of, program_of};
ghost use Rattle.prem_syntax.specs.Resolve.{globals_of, functions_of};
ghost use Rattle.prem_syntax.specs.Rules.{first, first_of};
ghost use Rattle.prem_syntax.specs.Breaches.{in_global, in_function, item_name, item_names, in_items, reached};
ghost use Rattle.prem_syntax.specs.Reach.{is_in_set};
ghost use Rattle.prem_syntax.specs.ProgramRules.{first_breach};
ghost use Rattle.prem_check.specs.FoundOf.{found_of};
ghost use Rattle.prem_check.specs.Walk.{functions_in, globals_in, before_in, first_behind, BehindGlobal, BehindFunction};

use crate::found::{Broken, earlier};
use crate::function::in_function;
use crate::global::in_global;
use crate::limits::{in_limits, no_job};
use prem_names::reach::{is_in_set, reached};
use prem_names::{Index, Names};
use prem_syntax::{Function, Global, Item, Name, Program};
use prem_tree::resolve::functions_of;
use std::alloc::{AllocError, Global as Allocator};

/// The items that are passed.
#[derive(Drop)]
pub struct Walk<'a> {
    /// The globals among them, and all functions of the program.
    pub names: Names<'a>,
    /// The names of the items.
    pub before: Index<'a>,
    /// The number of functions among them.
    pub number: usize,
}

fn item_name<'a>(item: &'a Item) -> &'a Name
    ensures { name_bytes result.now ≡ item_name (item_of item.now) }
{
    match item {
        Item::Global(g) => &g.name,
        Item::Function(f) => &f.name,
    }
}

fn item_names<'a>(alloc: Allocator, items: &'a [Item]) -> Result<Index<'a>, AllocError>
    ensures { IfOk result (λ names. names ≡ item_names (map item_of items.now)) }
{
    let mut names = Index::new(alloc);
    for item in items {
        names.push(item_name(item).bytes())?;
    }
    Ok(names)
}

fn globals_of<'a>(alloc: Allocator, items: &'a [Item]) -> Result<Vec<&'a Global>, AllocError>
    ensures { IfOk result (λ gs. map (λ g. global_of g.now) gs.items ≡ globals_of (map item_of items.now)) }
{
    let mut globals = Vec::new(alloc);
    for item in items {
        if let Item::Global(g) = item {
            globals.push(g)?;
        }
    }
    Ok(globals)
}

fn pass_global<'a>(walk: &mut Walk<'a>, g: &'a Global) -> Result<Option<Broken<'a>>, AllocError>
    ensures found { IfOk result (λ found. found_of found ≡ first_of (in_global (before_in walk.old) (global_of g.now))) }
    ensures walk { OnOk result (BehindGlobal walk.new walk.old (global_of g.now)) }
{
    let found = in_global(&walk.before, g);
    walk.names.add_global(g)?;
    walk.before.push(g.name.bytes())?;
    Ok(found)
}

fn pass_function<'a>(
    items: &Index,
    within: &[bool],
    walk: &mut Walk<'a>,
    f: &'a Function,
) -> Result<Option<Broken<'a>>, AllocError>
    requires { walk.old.number + 1 < 2 ^ 64 }
    ensures found { IfOk result (λ found. found_of found ≡ first_of (in_function (functions_in walk.old) (items.now) walk.old.number (is_in_set within.now walk.old.number)
        (globals_in walk.old) (before_in walk.old) (function_of f.now))) }
    ensures walk { OnOk result (BehindFunction walk.new walk.old (function_of f.now)) }
{
    let is_within = is_in_set(within, walk.number);
    let found = in_function(
        items,
        &walk.before,
        walk.number,
        is_within,
        &mut walk.names,
        f,
    )?;
    walk.before.push(f.name.bytes())?;
    walk.number += 1;
    Ok(found)
}

/// The first breach in an item, which is passed.
fn pass_item<'a>(
    items: &Index,
    within: &[bool],
    walk: &mut Walk<'a>,
    item: &'a Item,
) -> Result<Option<Broken<'a>>, AllocError>
    requires { walk.old.number + 1 < 2 ^ 64 }
    ensures found { IfOk result (λ found. (rest : ProgramText) →
        first_behind walk.old (items.now) within.now (item_of item.now ∷ rest) ≡ first (found_of found) (first_behind walk.new (items.now) within.now rest)) }
    ensures number { OnOk result (walk.new.number ≤ walk.old.number + 1) }
{
    match item {
        Item::Global(g) => pass_global(walk, g),
        Item::Function(f) => pass_function(items, within, walk, f),
    }
}

/// The first breach in all items.
#[tactic(auto, using(crate::proofs::First::first_none))]
fn pass_items<'a>(
    names: &Index,
    within: &[bool],
    walk: &mut Walk<'a>,
    items: &'a [Item],
) -> Result<Option<Broken<'a>>, AllocError>
    requires { walk.old.number ≡ 0 }
    ensures { IfOk result (λ found. found_of found ≡ first_behind walk.old (names.now) within.now (map item_of items.now)) }
{
    let mut found = None;
    for item in items {
        found = earlier(found, pass_item(names, within, walk, item)?);
    }
    Ok(found)
}

/// The first breach in the items of a program with these functions.
fn in_items<'a>(
    alloc: Allocator,
    functions: Vec<&'a Function>,
    items: &'a [Item],
) -> Result<Option<Broken<'a>>, AllocError>
    ensures { IfOk result (λ found. found_of found ≡ first_of (in_items (map (λ f. function_of f.now) functions.entry.items) (item_names (map item_of items.now))
        (reached (map (λ f. function_of f.now) functions.entry.items)) 0 [] [] (map item_of items.now))) }
{
    let names = item_names(alloc, items)?;
    let mut walk = Walk {
        names: Names::new(alloc, functions)?,
        before: Index::new(alloc),
        number: 0,
    };
    let within = reached(alloc, &walk.names)?;
    pass_items(&names, &within, &mut walk, items)
}

/// The first broken rule of a program. Where it is past a limit, nothing else is looked at.
pub fn first_broken<'a>(alloc: Allocator, p: &'a Program) -> Result<Option<Broken<'a>>, AllocError>
    ensures { IfOk result (λ found. found_of found ≡ first_breach (program_of p.now)) }
{
    let items = p.items.items();
    let functions = functions_of(alloc, items)?;
    let globals = globals_of(alloc, items)?;
    let limit = in_limits(&globals, &functions);
    if limit.is_some() {
        return Ok(limit);
    }
    let job = no_job(&functions);
    Ok(earlier(job, in_items(alloc, functions, items)?))
}
