// The breaches in expressions.
ghost use Rattle.std.specs.Prelude.{◌≡◌, map};
ghost use Rattle.std.specs.Option.{option_map};
ghost use Rattle.prem_syntax.specs.Name.{name_bytes};
ghost use Rattle.prem_syntax.specs.SyntaxOf.{expression_of};
ghost use Rattle.prem_syntax.specs.Rules.{first_of};
ghost use Rattle.prem_syntax.specs.Breaches.{unknown, used_plain, used_indexed, in_expression, in_expressions, in_option};
ghost use Rattle.prem_names.specs.Scopes.{scope_of};
ghost use Rattle.prem_check.specs.FoundOf.{found_of};

use crate::found::{Broken, Rule, broken_at, earlier, if_type_at};
use prem_syntax::{Expr, Name, Place, TypeRule};
use prem_tree::resolve::{Meaning, Names};

/// A name that stands for nothing.
pub fn unknown<'a>(at: Place, name: &'a Name, meaning: Meaning) -> Option<Broken<'a>>
    ensures { found_of result ≡ first_of (unknown at (name_bytes name.now) meaning) }
{
    match meaning {
        Meaning::Nothing => broken_at(at, Rule::Unknown { name }),
        _ => None,
    }
}

/// A name without an index.
pub fn used_plain<'a>(at: Place, meaning: Meaning) -> Option<Broken<'a>>
    ensures { found_of result ≡ first_of (used_plain at meaning) }
{
    match meaning {
        Meaning::Array { .. } | Meaning::Function { .. } => if_type_at(true, at, TypeRule::Scalar),
        _ => None,
    }
}

/// A name with an index.
pub fn used_indexed<'a>(at: Place, meaning: Meaning) -> Option<Broken<'a>>
    ensures { found_of result ≡ first_of (used_indexed at meaning) }
{
    match meaning {
        Meaning::Local { .. } | Meaning::Scalar { .. } | Meaning::Function { .. } => {
            if_type_at(true, at, TypeRule::Scalar)
        }
        _ => None,
    }
}

/// The first breach in an expression.
#[tactic(auto, using(crate::proofs::First::first_of_append))]
pub fn in_expression<'a>(names: &Names, e: &'a Expr) -> Option<Broken<'a>>
    ensures { found_of result ≡ first_of (in_expression (scope_of names.now) (expression_of e.now)) }
{
    match e {
        Expr::Literal { .. } => None,
        Expr::Var { at, name } => {
            let meaning = names.meaning_of(name);
            earlier(unknown(*at, name, meaning), used_plain(*at, meaning))
        }
        Expr::Elem { at, name, index } => {
            let meaning = names.meaning_of(name);
            let own = earlier(unknown(*at, name, meaning), used_indexed(*at, meaning));
            earlier(own, in_expression(names, index))
        }
        Expr::Unary { arg, .. } => in_expression(names, arg),
        Expr::Binary { left, right, .. } => {
            earlier(in_expression(names, left), in_expression(names, right))
        }
    }
}

/// The first breach in expressions.
#[tactic(auto, using(crate::proofs::First::first_none))]
pub fn in_expressions<'a>(names: &Names, es: &'a [Expr]) -> Option<Broken<'a>>
    ensures { found_of result ≡ first_of (in_expressions (scope_of names.now) (map expression_of es.now)) }
{
    let mut found = None;
    for e in es {
        found = earlier(found, in_expression(names, e));
    }
    found
}

/// The first breach in an expression, where there is one.
pub fn in_option<'a>(names: &Names, e: &'a Option<Expr>) -> Option<Broken<'a>>
    ensures { found_of result ≡ first_of (in_option (scope_of names.now) (option_map expression_of e.now)) }
{
    match e {
        Some(e) => in_expression(names, e),
        None => None,
    }
}
