//! Which functions of a program the marked ones reach by calls.
ghost use Rattle.std.specs.Prelude.{◌≡◌, ◌++◌, ◌↔◌, map, slice_set, true, IfOk, IsTrue, OnOk};
ghost use Rattle.prem_syntax.specs.Name.{name_bytes};
ghost use Rattle.prem_syntax.specs.SyntaxOf.{statement_of, statements_of, function_of};
ghost use Rattle.prem_syntax.specs.Resolve.{find_function};
ghost use Rattle.prem_syntax.specs.Breaches.{callee_number, callees, callees_within, is_marked_text, reached};
ghost use Rattle.prem_syntax.specs.Reach.{is_in_set};
ghost use Rattle.prem_names.specs.Scopes.{scope_of};
ghost use Rattle.prem_names.specs.Reach.Reach.{callees_of_each, followed, is_new, with_new, with_numbers};

use crate::Names;
use prem_syntax::{Function, Name, Stmt};
use std::alloc::{AllocError, Global};

fn add_callee(names: &Names, callee: &Name, calls: &mut Vec<usize>) -> Result<(), AllocError>
    ensures { OnOk result (calls.new.items ≡ calls.old.items ++ callee_number (find_function (scope_of names.now).functions (name_bytes callee.now))) }
{
    match names.find_function(callee.bytes()) {
        Some((number, _)) => {
            calls.push(number)?;
            Ok(())
        }
        None => Ok(()),
    }
}

/// Puts the functions that a statement calls behind others, by number.
#[cycle(calling)]
fn add_callees(names: &Names, stmt: &Stmt, calls: &mut Vec<usize>) -> Result<(), AllocError>
    ensures { OnOk result (calls.new.items ≡ calls.old.items ++ callees (scope_of names.now).functions (statement_of stmt.now)) }
{
    match stmt {
        Stmt::Block { body, .. } => add_all_callees(names, body.items(), calls),
        Stmt::If { taken, other, .. } => {
            add_callees(names, taken, calls)?;
            match other {
                Some(other) => add_callees(names, other, calls),
                None => Ok(()),
            }
        }
        Stmt::While { body, .. } => add_callees(names, body, calls),
        Stmt::For { body, .. } => add_callees(names, body, calls),
        Stmt::Call { callee, .. } => add_callee(names, callee, calls),
        Stmt::Set { .. } | Stmt::Output { .. } | Stmt::Input { .. } => Ok(()),
    }
}

#[cycle(calling)]
fn add_all_callees(names: &Names, stmts: &[Stmt], calls: &mut Vec<usize>) -> Result<(), AllocError>
    ensures { OnOk result (calls.new.items ≡ calls.old.items ++ callees_within (scope_of names.now).functions (statements_of stmts.now)) }
{
    for stmt in stmts {
        add_callees(names, stmt, calls)?;
    }
    Ok(())
}

fn callees_of(alloc: Global, names: &Names, f: &Function) -> Result<Vec<usize>, AllocError>
    ensures { IfOk result (λ ks. ks.items ≡ callees_within (scope_of names.now).functions (function_of f.now).body) }
{
    let mut calls = Vec::new(alloc);
    add_all_callees(names, f.body.items(), &mut calls)?;
    Ok(calls)
}

/// The callees of each function.
fn table_of(
    alloc: Global,
    names: &Names,
    functions: &[&Function],
) -> Result<Vec<Vec<usize>>, AllocError>
    ensures { IfOk result (λ table. map (λ ks. ks.items) table.items ≡ callees_of_each (scope_of names.now).functions (map (λ f. function_of f.now) functions.now)) }
{
    let mut table = Vec::new(alloc);
    for f in functions {
        table.push(callees_of(alloc, names, f)?)?;
    }
    Ok(table)
}

/// Whether a function is in a set of functions.
pub fn is_in_set(set: &[bool], n: usize) -> bool
    ensures { result ≡ is_in_set set.now n }
{
    match set.get(n) {
        Some(is_in) => *is_in,
        None => false,
    }
}

/// Whether a function is in a set and not in the one before.
fn is_new(before: &[bool], set: &[bool], n: usize) -> bool
    ensures { result ≡ is_new before.now set.now n }
{
    is_in_set(set, n) && !is_in_set(before, n)
}

/// Puts a function into a set, if it is there.
#[tactic(auto, using(crate::proofs::ReachLemmas::Sets::set_past))]
fn put_one(set: &mut [bool], k: usize)
    ensures { set.new ≡ slice_set set.old k true }
{
    if k < set.len() {
        set[k] = true;
    }
}

/// Puts functions into a set.
fn put_in(set: &mut [bool], numbers: &[usize])
    ensures { set.new ≡ with_numbers numbers.now 0 set.old }
{
    for k in numbers {
        put_one(set, *k);
    }
}

/// Puts the callees of a function into a set, if it is one of those to be followed.
fn follow(is_followed: bool, set: &mut [bool], callees: &[usize])
    ensures { set.new ≡ followed is_followed callees.now set.old }
{
    if is_followed {
        put_in(set, callees);
    }
}

/// A set with what its functions call that are not in the set before.
fn with_called(
    alloc: Global,
    table: &[Vec<usize>],
    before: &[bool],
    set: &[bool],
) -> Result<Vec<bool>, AllocError>
    ensures { IfOk result (λ next. next.items ≡ with_new (map (λ ks. ks.items) table.now) before.now set.now 0 0 set.now) }
{
    let mut next = set.to_vec(alloc)?;
    for (k, callees) in table.iter().enumerate() {
        follow(is_new(before, set, k), &mut next, callees);
    }
    Ok(next)
}

fn marked(alloc: Global, functions: &[&Function]) -> Result<Vec<bool>, AllocError>
    ensures { IfOk result (λ set. set.items ≡ map is_marked_text (map (λ f. function_of f.now) functions.now)) }
{
    let mut set = Vec::new(alloc);
    for f in functions {
        set.push(f.mark.is_some())?;
    }
    Ok(set)
}

/// Whether two sets of functions are the same.
fn is_same(a: &[bool], b: &[bool]) -> bool
    ensures { IsTrue result ↔ (a.now ≡ b.now) }
{
    a == b
}

/// The marked functions, and all that they reach by calls. The calls of each function are followed once.
pub fn reached(alloc: Global, names: &Names) -> Result<Vec<bool>, AllocError>
    ensures { IfOk result (λ set. set.items ≡ reached (scope_of names.now).functions) }
{
    let functions = names.functions();
    let table = table_of(alloc, names, functions)?;
    let mut before = Vec::new(alloc);
    let mut set = marked(alloc, functions)?;
    for _turn in 0..functions.len() {
        let next = with_called(alloc, &table, &before, &set)?;
        if is_same(&next, &set) {
            return Ok(set);
        }
        before = set;
        set = next;
    }
    Ok(set)
}
