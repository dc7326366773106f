// Literals of a tree in memory are words. These functions do nothing: they go through a tree to tell it.
ghost use Rattle.std.specs.Prelude.{◌<◌, ◌^◌, ◌∷◌, map};
ghost use Rattle.std.specs.Option.{option_map};
ghost use Rattle.prem_syntax.specs.SyntaxOf.{expression_of, statement_of, statements_of, local_of, function_of, item_of, program_of};
ghost use Rattle.prem_syntax.specs.Syntax.{ProgramText};
ghost use Rattle.prem_syntax.specs.Literals.{HasWords, HasWordsIf, HaveWords, StatementHasWords, StatementsHaveWords, LocalsHaveWords, ProgramHasWords};

use crate::tree::{Expr, Function, Item, Local, Program, Stmt};

fn word(w: u32)
    ensures { w < 2 ^ 32 }
{
    let _ = w;
}

fn expression(e: &Expr)
    ensures { HasWords (expression_of e.now) }
{
    match e {
        Expr::Literal { value, .. } => word(*value),
        Expr::Var { .. } => {}
        Expr::Elem { index, .. } => expression(index),
        Expr::Unary { arg, .. } => expression(arg),
        Expr::Binary { left, right, .. } => {
            expression(left);
            expression(right);
        }
    }
}

fn option(e: &Option<Expr>)
    ensures { HasWordsIf (option_map expression_of e.now) }
{
    if let Some(e) = e {
        expression(e);
    }
}

fn expressions(es: &[Expr])
    ensures { HaveWords (map expression_of es.now) }
{
    for e in es {
        expression(e);
    }
}

#[cycle(stating)]
fn statement(s: &Stmt)
    ensures { StatementHasWords (statement_of s.now) }
{
    match s {
        Stmt::Block { body, .. } => statements(body.items()),
        Stmt::If {
            cond,
            taken,
            other,
            ..
        } => {
            expression(cond);
            statement(taken);
            match other {
                Some(other) => statement(other),
                None => {}
            }
        }
        Stmt::While { cond, body, .. } => {
            expression(cond);
            statement(body);
        }
        Stmt::For {
            low,
            high,
            body,
            ..
        } => {
            expression(low);
            expression(high);
            statement(body);
        }
        Stmt::Set { index, value, .. } => {
            option(index);
            expression(value);
        }
        Stmt::Output { value, .. } => expression(value),
        Stmt::Input { .. } => {}
        Stmt::Call { args, .. } => expressions(args.items()),
    }
}

#[cycle(stating)]
fn statements(all: &[Stmt])
    ensures { StatementsHaveWords (statements_of all.now) }
{
    for s in all {
        statement(s);
    }
}

fn locals(ls: &[Local])
    ensures { LocalsHaveWords (map local_of ls.now) }
{
    for l in ls {
        expression(&l.value);
    }
}

fn function(f: &Function)
    ensures locals { LocalsHaveWords (function_of f.now).locals }
    ensures body { StatementsHaveWords (function_of f.now).body }
    ensures result { HasWordsIf (function_of f.now).result }
{
    locals(f.locals.items());
    statements(f.body.items());
    option(&f.result);
}

fn item(i: &Item)
    ensures { (rest : ProgramText) → ProgramHasWords rest → ProgramHasWords (item_of i.now ∷ rest) }
{
    match i {
        Item::Global(_) => {}
        Item::Function(f) => function(f),
    }
}

/// All literals of a program are words.
pub fn have_words(p: &Program)
    ensures { ProgramHasWords (program_of p.now) }
{
    for i in p.items.items() {
        item(i);
    }
}
