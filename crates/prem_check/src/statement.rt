// The breaches in statements.
ghost use Rattle.std.specs.Prelude.{◌≡◌, not, ◌++◌};
ghost use Rattle.std.specs.Option.{option_map};
ghost use Rattle.prem_syntax.specs.Name.{name_bytes};
ghost use Rattle.prem_syntax.specs.SyntaxOf.{expression_of, loop_names_of, statement_of, statements_of};
ghost use Rattle.prem_syntax.specs.Resolve.{meaning_of};
ghost use Rattle.prem_syntax.specs.Rules.{LoopForm, first_of};
ghost use Rattle.prem_syntax.specs.Breaches.{unknown, if_at, is_loop, in_assigned, in_option, in_expression, in_names, in_statement, in_statements};
ghost use Rattle.prem_names.specs.Scopes.{scope_of};
ghost use Rattle.prem_check.specs.FoundOf.{found_of};
ghost use Rattle.prem_check.specs.AroundOf.{around_of};

use crate::call::{Around, in_call, in_target};
use crate::expression::{in_expression, in_option, unknown, used_indexed, used_plain};
use crate::found::{Broken, Rule, earlier, if_at};
use crate::loops::{is_between, is_loop};
use prem_syntax::{Expr, ForNames, Name, Place, Stmt};
use prem_tree::resolve::Names;

/// A name that is assigned, with or without an index.
#[tactic(auto, using(crate::proofs::First::first_of_append))]
fn in_assigned<'a>(
    at: Place,
    names: &Names,
    name: &'a Name,
    index: &Option<Expr>,
) -> Option<Broken<'a>>
    ensures { found_of result ≡ first_of (in_assigned at (name_bytes name.now) (meaning_of (scope_of names.now) (name_bytes name.now)) (option_map expression_of index.now)) }
{
    let meaning = names.meaning_of(name);
    let used = match index {
        Some(_) => used_indexed(at, meaning),
        None => used_plain(at, meaning),
    };
    earlier(unknown(at, name, meaning), used)
}

#[tactic(auto, using(crate::proofs::First::first_of_append))]
fn in_assignment<'a>(
    at: Place,
    names: &Names,
    name: &'a Name,
    index: &'a Option<Expr>,
    value: &'a Expr,
) -> Option<Broken<'a>>
    ensures { found_of result ≡ first_of (
        in_assigned at (name_bytes name.now) (meaning_of (scope_of names.now) (name_bytes name.now)) (option_map expression_of index.now)
        ++ in_option (scope_of names.now) (option_map expression_of index.now) ++ in_expression (scope_of names.now) (expression_of value.now)) }
{
    let left = earlier(in_assigned(at, names, name, index), in_option(names, index));
    earlier(left, in_expression(names, value))
}

fn named<'a>(at: Place, names: &Names, name: &'a Name) -> Option<Broken<'a>>
    ensures { found_of result ≡ first_of (unknown at (name_bytes name.now) (meaning_of (scope_of names.now) (name_bytes name.now))) }
{
    unknown(at, name, names.meaning_of(name))
}

/// The four names of a counting loop.
#[tactic(auto, using(crate::proofs::First::first_of_append))]
fn in_names<'a>(at: Place, names: &Names, variable: &'a ForNames) -> Option<Broken<'a>>
    ensures { found_of result ≡ first_of (in_names at (scope_of names.now) (loop_names_of variable.now)) }
{
    let two = earlier(
        named(at, names, &variable.first),
        named(at, names, &variable.second),
    );
    let three = earlier(two, named(at, names, &variable.third));
    earlier(three, named(at, names, &variable.fourth))
}

/// A counting loop, up to its body.
#[tactic(auto, using(crate::proofs::First::first_of_append))]
fn in_loop<'a>(
    at: Place,
    names: &Names,
    variable: &'a ForNames,
    low: &'a Expr,
    high: &'a Expr,
    step: u32,
    body: &Stmt,
) -> Option<Broken<'a>>
    ensures { found_of result ≡ first_of (
        in_names at (scope_of names.now) (loop_names_of variable.now)
        ++ if_at (not (is_loop (scope_of names.now) (loop_names_of variable.now) (expression_of low.now) (expression_of high.now) step (statement_of body.now))) at LoopForm
        ++ in_expression (scope_of names.now) (expression_of low.now) ++ in_expression (scope_of names.now) (expression_of high.now)) }
{
    let form = if_at(
        !is_loop(names, variable, low, high, step, body),
        at,
        Rule::LoopForm,
    );
    let own = earlier(in_names(at, names, variable), form);
    earlier(
        earlier(own, in_expression(names, low)),
        in_expression(names, high),
    )
}

/// The first breach in a statement.
#[cycle(statements)]
#[tactic(auto, using(crate::proofs::First::first_of_append))]
pub fn in_statement<'a>(around: &Around, stmt: &'a Stmt) -> Option<Broken<'a>>
    ensures { found_of result ≡ first_of (in_statement (around_of around.now) (statement_of stmt.now)) }
{
    let names = around.names;
    match stmt {
        Stmt::Block { body, .. } => in_statements(around, body.items()),
        Stmt::If {
            cond,
            taken,
            other,
            ..
        } => {
            let first = earlier(in_expression(names, cond), in_statement(around, taken));
            match other {
                Some(other) => earlier(first, in_statement(around, other)),
                None => first,
            }
        }
        Stmt::While {
            at,
            turns,
            cond,
            body,
        } => {
            let form = if_at(!is_between(1, 1048576, *turns), *at, Rule::LoopForm);
            let head = earlier(form, in_expression(names, cond));
            earlier(head, in_statement(around, body))
        }
        Stmt::For {
            at,
            names: variable,
            low,
            high,
            step,
            body,
            ..
        } => {
            let head = in_loop(*at, names, variable, low, high, *step, body);
            earlier(head, in_statement(around, body))
        }
        Stmt::Set {
            at,
            name,
            index,
            value,
        } => in_assignment(*at, names, name, index, value),
        Stmt::Output { at, value } => {
            let own = if_at(around.is_within_marked, *at, Rule::SystemCall);
            earlier(own, in_expression(names, value))
        }
        Stmt::Input { at, name } => {
            let own = if_at(around.is_within_marked, *at, Rule::SystemCall);
            earlier(in_target(*at, names, name), own)
        }
        Stmt::Call {
            at,
            target,
            callee,
            args,
        } => in_call(*at, around, target, callee, args.items()),
    }
}

/// The first breach in statements.
#[cycle(statements)]
#[tactic(auto, using(crate::proofs::First::first_none))]
pub fn in_statements<'a>(around: &Around, stmts: &'a [Stmt]) -> Option<Broken<'a>>
    ensures { found_of result ≡ first_of (in_statements (around_of around.now) (statements_of stmts.now)) }
{
    let mut found = None;
    for stmt in stmts {
        found = earlier(found, in_statement(around, stmt));
    }
    found
}
