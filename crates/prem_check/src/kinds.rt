// The kinds of expressions, as far as their names are known.
ghost use Rattle.std.specs.Prelude.{◌≡◌};
ghost use Rattle.prem_syntax.specs.SyntaxOf.{expression_of};
ghost use Rattle.prem_syntax.specs.Resolved.{Term};
ghost use Rattle.prem_syntax.specs.Resolve.{kind_of, variable_term, element_term, resolve_term};
ghost use Rattle.prem_names.specs.Scopes.{scope_of};

use prem_syntax::{Expr, Kind, Place, UnOp};
use prem_tree::resolve::{Meaning, Names, binary_kind, operand_kind, promoted};

fn variable_kind(meaning: Meaning) -> Kind
    ensures { (at : Place) → result ≡ kind_of (variable_term at meaning) }
{
    match meaning {
        Meaning::Local { ty, .. } | Meaning::Scalar { ty, .. } => promoted(ty),
        _ => Kind::Int,
    }
}

fn element_kind(meaning: Meaning) -> Kind
    ensures { (at : Place) (index : Term) → result ≡ kind_of (element_term at meaning index) }
{
    match meaning {
        Meaning::Array { ty, .. } => promoted(ty),
        _ => Kind::Int,
    }
}

/// The kind of an expression. What can't stand where it stands counts as int.
#[tactic(auto, using(prem_syntax::proofs::KindLaws::kind_of_operator))]
pub fn kind_of(names: &Names, e: &Expr) -> Kind
    ensures { result ≡ kind_of (resolve_term (scope_of names.now) (expression_of e.now)) }
{
    match e {
        Expr::Literal { kind, .. } => *kind,
        Expr::Var { name, .. } => variable_kind(names.meaning_of(name)),
        Expr::Elem { name, .. } => element_kind(names.meaning_of(name)),
        Expr::Unary { op: UnOp::Not, .. } => Kind::Int,
        Expr::Unary { arg, .. } => kind_of(names, arg),
        Expr::Binary {
            op,
            left,
            right,
            ..
        } => {
            let kind = operand_kind(*op, kind_of(names, left), kind_of(names, right));
            binary_kind(*op, kind)
        }
    }
}
