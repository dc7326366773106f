// The breaches in calls.
ghost use Rattle.std.specs.Prelude.{◌≡◌, [], Some, length, map, is_some, not, ◌&&◌, ◌++◌, ◌==◌, nat_lt};
ghost use Rattle.std.specs.Option.{option_map};
ghost use Rattle.prem_syntax.specs.Name.{name_bytes};
ghost use Rattle.prem_syntax.specs.SyntaxOf.{expression_of, function_of};
ghost use Rattle.prem_syntax.specs.Resolve.{find_function};
ghost use Rattle.prem_syntax.specs.Rules.{first_of};
ghost use Rattle.prem_syntax.specs.Breaches.{is_void, is_local, is_marked_text, in_target, in_call_target, in_callee, in_expressions};
ghost use Rattle.prem_names.specs.Scopes.{scope_of};
ghost use Rattle.prem_check.specs.FoundOf.{found_of};
ghost use Rattle.prem_check.specs.AroundOf.{around_of};

use crate::expression::{in_expressions, unknown};
use crate::found::{Broken, Rule, broken_at, earlier, if_at, if_type_at};
use prem_syntax::{Expr, Function, Name, Place, Ty, TypeRule};
use prem_tree::resolve::{Meaning, Names};

/// Where a statement stands.
#[derive(Clone, Copy)]
pub struct Around<'a, 'n> {
    /// The names there.
    pub names: &'n Names<'a>,
    /// The number of its function.
    pub number: usize,
    /// Whether its function is `job`.
    pub is_job: bool,
    /// Whether its function is marked, or reached from a marked one.
    pub is_within_marked: bool,
}

/// Whether a type is void.
pub fn is_void(ty: Ty) -> bool
    ensures { result ≡ is_void ty }
{
    matches!(ty, Ty::Void)
}

fn is_local(meaning: Meaning) -> bool
    ensures { result ≡ is_local meaning }
{
    matches!(meaning, Meaning::Local { .. })
}

/// The target of a call or of `in()`.
#[tactic(auto, using(crate::proofs::First::first_of_append))]
pub fn in_target<'a>(at: Place, names: &Names, name: &'a Name) -> Option<Broken<'a>>
    ensures { found_of result ≡ first_of (in_target at (scope_of names.now) (name_bytes name.now)) }
{
    let meaning = names.meaning_of(name);
    let other = if_type_at(!is_local(meaning), at, TypeRule::Target);
    earlier(unknown(at, name, meaning), other)
}

fn in_call_target<'a>(at: Place, names: &Names, name: &'a Option<Name>) -> Option<Broken<'a>>
    ensures { found_of result ≡ first_of (in_call_target at (scope_of names.now) (option_map name_bytes name.now)) }
{
    match name {
        Some(name) => in_target(at, names, name),
        None => None,
    }
}

/// Whether a callee doesn't stand before its call's function.
fn is_late(around: &Around, number: usize) -> bool
    ensures { result ≡ not (nat_lt number around.now.number) }
{
    number >= around.number
}

/// Whether a callee is marked where none may be.
fn is_marked_elsewhere(around: &Around, callee: &Function) -> bool
    ensures { result ≡ (is_marked_text (function_of callee.now) && not around.now.is_job) }
{
    callee.mark.is_some() && !around.is_job
}

fn has_void_target(has_target: bool, callee: &Function) -> bool
    ensures { result ≡ (has_target && is_void callee.now.ty) }
{
    has_target && is_void(callee.ty)
}

fn has_other_count(callee: &Function, arguments: usize) -> bool
    ensures { result ≡ not (length (function_of callee.now).params == arguments) }
{
    callee.params.items().len() != arguments
}

/// A callee that is there, with its number.
fn in_called<'a>(
    at: Place,
    around: &Around,
    has_target: bool,
    arguments: usize,
    number: usize,
    callee: &Function,
) -> Option<Broken<'a>>
    ensures { found_of result ≡ first_of (in_callee at (around_of around.now) [] has_target arguments (Some (number, function_of callee.now))) }
{
    let order = if_at(is_late(around, number), at, Rule::CallOrder);
    let marked = if_at(is_marked_elsewhere(around, callee), at, Rule::MarkedCall);
    let target = if_type_at(has_void_target(has_target, callee), at, TypeRule::Target);
    let count = if_type_at(has_other_count(callee, arguments), at, TypeRule::Count);
    earlier(earlier(earlier(order, marked), target), count)
}

fn in_callee<'a>(
    at: Place,
    around: &Around,
    callee: &'a Name,
    has_target: bool,
    arguments: usize,
) -> Option<Broken<'a>>
    ensures { found_of result ≡ first_of (in_callee at (around_of around.now) (name_bytes callee.now) has_target arguments
        (find_function (around_of around.now).scope.functions (name_bytes callee.now))) }
{
    match around.names.find_function(callee.bytes()) {
        Some((number, f)) => in_called(at, around, has_target, arguments, number, f),
        None => broken_at(at, Rule::Unknown { name: callee }),
    }
}

/// The first breach in a call.
pub fn in_call<'a>(
    at: Place,
    around: &Around,
    target: &'a Option<Name>,
    callee: &'a Name,
    arguments: &'a [Expr],
) -> Option<Broken<'a>>
    ensures { found_of result ≡ first_of (
        in_call_target at (around_of around.now).scope (option_map name_bytes target.now)
        ++ in_callee at (around_of around.now) (name_bytes callee.now) (is_some (option_map name_bytes target.now)) (length (map expression_of arguments.now))
        (find_function (around_of around.now).scope.functions (name_bytes callee.now))
        ++ in_expressions (around_of around.now).scope (map expression_of arguments.now)) }
{
    let own = earlier(
        in_call_target(at, around.names, target),
        in_callee(at, around, callee, target.is_some(), arguments.len()),
    );
    earlier(own, in_expressions(around.names, arguments))
}
