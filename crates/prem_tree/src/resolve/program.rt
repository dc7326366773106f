// Resolves the names of a program.
ghost use Rattle.std.specs.Prelude.{◌≡◌, map, List, [], ◌∷◌, ◌++◌, IfOk, OnOk};
ghost use Rattle.std.specs.Option.{option_map};
ghost use Rattle.prem_list.specs.Sequence.{items_of};
ghost use Rattle.prem_word.specs.Words.{result_kind};
ghost use Rattle.prem_syntax.specs.Name.{name_bytes};
ghost use Rattle.prem_syntax.specs.Syntax.{FunctionText, ProgramText};
ghost use Rattle.prem_syntax.specs.SyntaxOf.{item_of, program_of, parameter_of, function_of, expression_of, local_of, statement_of, statements_of};
ghost use Rattle.prem_syntax.specs.Resolved.{Constant};
ghost use Rattle.prem_syntax.specs.Resolve.{functions_of, parameter_names, resolve_locals, local_names, resolve_statement, resolve_statements, loops_in, loops_within, set_steps, input_steps, call_steps, target_of, loop_local, promoted, common, operand_kind, kind_of, variable_term, element_term, binary_term, resolve_term, meaning_of};
ghost use Rattle.prem_names.specs.Scopes.{scope_of, with_locals, SameItems};
ghost use Rattle.prem_tree.specs.Resolve.NamesOf.{AreBehind};
ghost use Rattle.prem_tree.specs.Resolve.ResolvedOf.{term_of, IsStep, AreSteps, IsRoutine, IsResolved};

use crate::resolve::resolved::{Operands, Resolved, Routine, Step, Term};
use prem_list::Sequence;
use prem_names::Names;
use prem_syntax::{
    Expr, Function, Item, Local, Meaning, Name, Param, Place, Program, Stmt, Ty, UnOp,
};
use prem_word::{BinOp, Kind};
use std::alloc::{AllocError, Global};

/// The kind to which a type promotes.
pub fn promoted(ty: Ty) -> Kind
    ensures { result ≡ promoted ty }
{
    match ty {
        Ty::Unsigned => Kind::Unsigned,
        _ => Kind::Int,
    }
}

fn common(a: Kind, b: Kind) -> Kind
    ensures { result ≡ common a b }
{
    match a {
        Kind::Int => b,
        Kind::Unsigned => Kind::Unsigned,
    }
}

/// The kind in which an operator computes on operands of two kinds.
pub fn operand_kind(op: BinOp, a: Kind, b: Kind) -> Kind
    ensures { result ≡ operand_kind op a b }
{
    match op {
        BinOp::Shl | BinOp::Shr => a,
        _ => common(a, b),
    }
}

/// The kind of what an operator gives that computes in a kind.
pub fn binary_kind(op: BinOp, kind: Kind) -> Kind
    ensures { result ≡ result_kind op kind }
{
    match op {
        BinOp::Lt
        | BinOp::Le
        | BinOp::Gt
        | BinOp::Ge
        | BinOp::Eq
        | BinOp::Ne
        | BinOp::AndAlso
        | BinOp::OrElse => { Kind::Int }
        _ => kind,
    }
}

/// The kind of what a term evaluates to.
#[tactic(auto, using(prem_syntax::proofs::KindLaws::kind_of_operator))]
pub fn kind_of(term: &Term) -> Kind
    ensures { result ≡ kind_of (term_of term.now) }
{
    match term {
        Term::Constant { kind, .. } | Term::Local { kind, .. } => *kind,
        Term::Scalar { ty, .. } | Term::Element { ty, .. } => promoted(*ty),
        Term::Unary { op: UnOp::Not, .. } => Kind::Int,
        Term::Unary { operand, .. } => kind_of(operand),
        Term::Binary { op, kind, .. } => binary_kind(*op, *kind),
    }
}

fn nothing(at: Place) -> Term
    ensures { term_of result ≡ Constant at 0 Kind.Int }
{
    Term::Constant {
        at,
        word: 0,
        kind: Kind::Int,
    }
}

fn variable(at: Place, meaning: Meaning) -> Term
    ensures { term_of result ≡ variable_term at meaning }
{
    match meaning {
        Meaning::Local { number, ty } => Term::Local {
            at,
            number,
            kind: promoted(ty),
        },
        Meaning::Scalar { number, ty } => Term::Scalar {
            at,
            global: number,
            ty,
        },
        _ => nothing(at),
    }
}

fn element(alloc: Global, at: Place, meaning: Meaning, index: Term) -> Result<Term, AllocError>
    ensures { IfOk result (λ t. term_of t ≡ element_term at meaning (term_of index)) }
{
    match meaning {
        Meaning::Array { number, ty, .. } => Ok(Term::Element {
            at,
            global: number,
            ty,
            index: Box::new(alloc, index)?,
        }),
        _ => Ok(nothing(at)),
    }
}

fn binary(alloc: Global, at: Place, op: BinOp, left: Term, right: Term) -> Result<Term, AllocError>
    ensures { IfOk result (λ t. term_of t ≡ binary_term at op (term_of left) (term_of right)) }
{
    let kind = operand_kind(op, kind_of(&left), kind_of(&right));
    Ok(Term::Binary {
        at,
        op,
        kind,
        operands: Box::new(alloc, Operands { left, right })?,
    })
}

/// An expression with its names resolved. What can't stand where it stands in a well-formed program is an int 0.
pub fn resolve_term(alloc: Global, names: &Names, e: &Expr) -> Result<Term, AllocError>
    ensures { IfOk result (λ t. term_of t ≡ resolve_term (scope_of names.now) (expression_of e.now)) }
{
    match e {
        Expr::Literal { at, value, kind } => Ok(Term::Constant {
            at: *at,
            word: *value,
            kind: *kind,
        }),
        Expr::Var { at, name } => Ok(variable(*at, names.meaning_of(name))),
        Expr::Elem { at, name, index } => {
            let index = resolve_term(alloc, names, index)?;
            element(alloc, *at, names.meaning_of(name), index)
        }
        Expr::Unary { at, op, arg } => {
            let operand = resolve_term(alloc, names, arg)?;
            Ok(Term::Unary {
                at: *at,
                op: *op,
                operand: Box::new(alloc, operand)?,
            })
        }
        Expr::Binary {
            at,
            op,
            left,
            right,
        } => {
            let left = resolve_term(alloc, names, left)?;
            let right = resolve_term(alloc, names, right)?;
            binary(alloc, *at, *op, left, right)
        }
    }
}

/// Expressions with their names resolved, in order.
pub fn resolve_terms(
    alloc: Global,
    names: &Names,
    es: &[Expr],
) -> Result<Sequence<Term>, AllocError>
    ensures { IfOk result (λ ts. map term_of (items_of ts) ≡ map (resolve_term (scope_of names.now)) (map expression_of es.now)) }
{
    let mut terms = Sequence::new(alloc);
    for e in es {
        terms.push(resolve_term(alloc, names, e)?)?;
    }
    Ok(terms)
}

fn no_step(alloc: Global) -> Step
    ensures { IsStep result (λ turns n rest. rest) 0 }
{
    Step::Block {
        body: Sequence::new(alloc),
    }
}

fn set(alloc: Global, at: Place, meaning: Meaning, index: Option<Term>, value: Term) -> Step
    ensures { IsStep result (λ turns n rest. set_steps at meaning (option_map term_of index) (term_of value) rest) 0 }
{
    match (meaning, index) {
        (Meaning::Local { number, .. }, None) => Step::SetLocal { at, number, value },
        (Meaning::Scalar { number, ty }, None) => Step::SetScalar {
            at,
            global: number,
            ty,
            value,
        },
        (Meaning::Array { number, ty, .. }, Some(index)) => Step::SetElement {
            at,
            global: number,
            ty,
            index,
            value,
        },
        _ => no_step(alloc),
    }
}

fn input(alloc: Global, at: Place, meaning: Meaning) -> Step
    ensures { IsStep result (λ turns n rest. input_steps at meaning rest) 0 }
{
    match meaning {
        Meaning::Local { number, .. } => Step::Input { at, number },
        _ => no_step(alloc),
    }
}

fn target(names: &Names, name: &Option<Name>) -> Option<usize>
    ensures { result ≡ target_of (scope_of names.now) (option_map name_bytes name.now) }
{
    match names.meaning_of(name.as_ref()?) {
        Meaning::Local { number, .. } => Some(number),
        _ => None,
    }
}

fn call(
    alloc: Global,
    at: Place,
    target: Option<usize>,
    callee: Option<usize>,
    arguments: Sequence<Term>,
) -> Step
    ensures { IsStep result (λ turns n rest. call_steps at target callee (map term_of (items_of arguments)) rest) 0 }
{
    match callee {
        Some(callee) => Step::Call {
            at,
            target,
            callee,
            arguments,
        },
        None => no_step(alloc),
    }
}

fn loop_local(meaning: Meaning) -> usize
    ensures { result ≡ loop_local meaning }
{
    match meaning {
        Meaning::Local { number, .. } => number,
        _ => 0,
    }
}

fn resolve_option(
    alloc: Global,
    names: &Names,
    e: &Option<Expr>,
) -> Result<Option<Term>, AllocError>
    ensures { IfOk result (λ t. option_map term_of t ≡ option_map (resolve_term (scope_of names.now)) (option_map expression_of e.now)) }
{
    match e {
        Some(e) => Ok(Some(resolve_term(alloc, names, e)?)),
        None => Ok(None),
    }
}

/// A statement with its names resolved. What names nothing that it may name does nothing.
#[cycle(steps)]
pub fn resolve_stmt(alloc: Global, names: &Names, stmt: &Stmt) -> Result<Step, AllocError>
    ensures { IfOk result (λ s. IsStep s (λ turns n. resolve_statement (scope_of names.now) turns n (statement_of stmt.now)) (loops_in (statement_of stmt.now))) }
{
    match stmt {
        Stmt::Block { body, .. } => Ok(Step::Block {
            body: resolve_stmts(alloc, names, body.items())?,
        }),
        Stmt::If {
            at,
            cond,
            taken,
            other,
        } => {
            let condition = resolve_term(alloc, names, cond)?;
            let taken = resolve_stmt(alloc, names, taken)?;
            let other = match other {
                Some(other) => resolve_stmt(alloc, names, other)?,
                None => no_step(alloc),
            };
            Ok(Step::If {
                at: *at,
                condition,
                taken: Box::new(alloc, taken)?,
                other: Box::new(alloc, other)?,
            })
        }
        Stmt::While {
            at,
            turns,
            cond,
            body,
        } => {
            let condition = resolve_term(alloc, names, cond)?;
            let body = resolve_stmt(alloc, names, body)?;
            Ok(Step::While {
                at: *at,
                turns: *turns,
                condition,
                body: Box::new(alloc, body)?,
            })
        }
        Stmt::For {
            at,
            names: variable,
            low,
            closed,
            high,
            step,
            body,
        } => {
            let low = resolve_term(alloc, names, low)?;
            let high = resolve_term(alloc, names, high)?;
            let body = resolve_stmt(alloc, names, body)?;
            Ok(Step::For {
                at: *at,
                number: loop_local(names.meaning_of(&variable.first)),
                low,
                closed: *closed,
                high,
                step: *step,
                body: Box::new(alloc, body)?,
            })
        }
        Stmt::Set {
            at,
            name,
            index,
            value,
        } => {
            let index = resolve_option(alloc, names, index)?;
            let value = resolve_term(alloc, names, value)?;
            Ok(set(alloc, *at, names.meaning_of(name), index, value))
        }
        Stmt::Output { at, value } => Ok(Step::Output {
            at: *at,
            value: resolve_term(alloc, names, value)?,
        }),
        Stmt::Input { at, name } => Ok(input(alloc, *at, names.meaning_of(name))),
        Stmt::Call {
            at,
            target: name,
            callee,
            args,
        } => {
            let arguments = resolve_terms(alloc, names, args.items())?;
            Ok(call(
                alloc,
                *at,
                target(names, name),
                names.number_of_function(callee.bytes()),
                arguments,
            ))
        }
    }
}

/// Statements with their names resolved, in order.
#[cycle(steps)]
pub fn resolve_stmts(
    alloc: Global,
    names: &Names,
    stmts: &[Stmt],
) -> Result<Sequence<Step>, AllocError>
    ensures { IfOk result (λ ss. AreSteps (items_of ss) (λ turns n. resolve_statements (scope_of names.now) turns n (statements_of stmts.now)) (loops_within (statements_of stmts.now))) }
{
    let mut steps = Sequence::new(alloc);
    for stmt in stmts {
        steps.push(resolve_stmt(alloc, names, stmt)?)?;
    }
    Ok(steps)
}

/// The initialisers of locals with their names resolved. Each local has its name behind its own declaration.
fn resolve_locals<'a>(
    alloc: Global,
    names: &mut Names<'a>,
    locals: &'a [Local],
) -> Result<Sequence<Term>, AllocError>
    ensures terms { IfOk result (λ ts. map term_of (items_of ts) ≡ resolve_locals (scope_of names.old) (map local_of locals.now)) }
    ensures names { OnOk result (scope_of names.new ≡ with_locals (scope_of names.old) (local_names (map local_of locals.now))) }
{
    let mut terms = Sequence::new(alloc);
    for local in locals {
        terms.push(resolve_term(alloc, names, &local.value)?)?;
        names.add_local(&local.name, local.ty)?;
    }
    Ok(terms)
}

fn add_params<'a>(names: &mut Names<'a>, params: &'a [Param]) -> Result<(), AllocError>
    ensures { OnOk result (scope_of names.new ≡ with_locals (scope_of names.old) (parameter_names (map parameter_of params.now))) }
{
    for param in params {
        names.add_local(&param.name, param.ty)?;
    }
    Ok(())
}

/// A function with its names resolved, behind the globals that stand before it.
fn resolve_function<'a>(
    alloc: Global,
    names: &mut Names<'a>,
    f: &'a Function,
) -> Result<Routine<'a>, AllocError>
    ensures routine { IfOk result (λ r. IsRoutine r (scope_of names.old).functions (scope_of names.old).globals (function_of f.now)) }
    ensures names { OnOk result (SameItems (scope_of names.new) (scope_of names.old)) }
{
    names.drop_locals();
    add_params(names, f.params.items())?;
    let locals = resolve_locals(alloc, names, f.locals.items())?;
    let body = Step::Block {
        body: resolve_stmts(alloc, names, f.body.items())?,
    };
    let result = resolve_option(alloc, names, &f.result)?;
    Ok(Routine {
        text: f,
        locals,
        body,
        result,
    })
}

/// The functions of items, in order.
pub fn functions_of<'a>(alloc: Global, items: &'a [Item]) -> Result<Vec<&'a Function>, AllocError>
    ensures { IfOk result (λ fs. map (λ f. function_of f.now) fs.items ≡ functions_of (map item_of items.now)) }
{
    let mut functions = Vec::new(alloc);
    for item in items {
        if let Item::Function(f) = item {
            functions.push(f)?;
        }
    }
    Ok(functions)
}

fn resolve_item<'a>(
    alloc: Global,
    names: &mut Names<'a>,
    routines: &mut Sequence<Routine<'a>>,
    item: &'a Item,
) -> Result<(), AllocError>
    ensures { OnOk result ((functions : List FunctionText) (items : ProgramText) →
        AreBehind (scope_of names.old) (items_of routines.old) functions items → AreBehind (scope_of names.new) (items_of routines.new) functions (items ++ item_of item.now ∷ [])) }
{
    match item {
        Item::Global(g) => names.add_global(g)?,
        Item::Function(f) => routines.push(resolve_function(alloc, names, f)?)?,
    }
    Ok(())
}

/// A program with its names resolved.
pub fn resolve<'a>(alloc: Global, p: &'a Program) -> Result<Resolved<'a>, AllocError>
    ensures { IfOk result (λ r. IsResolved r (program_of p.now)) }
{
    let functions = functions_of(alloc, p.items.items())?;
    let count = functions.len();
    let mut names = Names::new(alloc, functions)?;
    let mut routines = Sequence::new(alloc);
    for item in p.items.items() {
        resolve_item(alloc, &mut names, &mut routines, item)?;
    }
    let job = names.number_of_function(b"job").unwrap_or(count);
    Ok(Resolved {
        globals: names.into_globals(),
        routines,
        job,
    })
}
