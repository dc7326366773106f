// Flags of locals: those that statements assign, and the reads of flagged ones.
ghost use Rattle.std.specs.Prelude.{◌≡◌, map, slice_set, false};
ghost use Rattle.std.specs.Option.{option_map};
ghost use Rattle.prem_syntax.specs.Name.{name_bytes};
ghost use Rattle.prem_syntax.specs.SyntaxOf.{expression_of, statement_of, statements_of};
ghost use Rattle.prem_tiling.specs.Shapes.Carried.{first_line};
ghost use Rattle.prem_tiling.specs.Copies.Flags.{flagged, with_flag, set_plain, set_target, assigned_flags, all_assigned_flags, read_by, read_by_option, read_by_all};

use prem_names::Index;
use prem_syntax::{Expr, Name, Stmt};

/// Whether a local is flagged.
pub fn flagged(flags: &[bool], number: Option<usize>) -> bool
    ensures { result ≡ flagged flags.now number }
{
    match number {
        Some(k) => match flags.get(k) {
            Some(flag) => *flag,
            None => false,
        },
        None => false,
    }
}

/// Flags a local.
pub fn set_flag(flags: &mut [bool], number: Option<usize>)
    ensures { flags.new ≡ with_flag number flags.old }
{
    if let Some(k) = number {
        if k < flags.len() {
            flags[k] = true;
        }
    }
}

/// Takes a local's flag away.
pub fn clear_flag(flags: &mut [bool], k: usize)
    ensures { flags.new ≡ slice_set flags.old k false }
{
    if k < flags.len() {
        flags[k] = false;
    }
}

/// The first of two lines.
pub fn first_line(a: Option<u32>, b: Option<u32>) -> Option<u32>
    ensures { result ≡ first_line a b }
{
    match a {
        Some(line) => Some(line),
        None => b,
    }
}

/// The line of the first read of a flagged local.
pub fn read_by(names: &Index, flags: &[bool], e: &Expr) -> Option<u32>
    ensures { result ≡ read_by names.now flags.now (expression_of e.now) }
{
    match e {
        Expr::Literal { .. } => None,
        Expr::Var { at, name } => {
            if flagged(flags, names.find(name.bytes())) {
                Some(at.line)
            } else {
                None
            }
        }
        Expr::Elem { index, .. } => read_by(names, flags, index),
        Expr::Unary { arg, .. } => read_by(names, flags, arg),
        Expr::Binary { left, right, .. } => {
            first_line(read_by(names, flags, left), read_by(names, flags, right))
        }
    }
}

pub fn read_by_option(names: &Index, flags: &[bool], e: &Option<Expr>) -> Option<u32>
    ensures { result ≡ read_by_option names.now flags.now (option_map expression_of e.now) }
{
    match e {
        Some(e) => read_by(names, flags, e),
        None => None,
    }
}

pub fn read_by_all(names: &Index, flags: &[bool], es: &[Expr]) -> Option<u32>
    ensures { result ≡ read_by_all names.now flags.now (map expression_of es.now) }
{
    'terms: for e in es {
        if let Some(line) = read_by(names, flags, e) {
            return Some(line);
        }
    }
    None
}

fn set_plain(names: &Index, flags: &mut [bool], name: &Name, index: &Option<Expr>)
    ensures { flags.new ≡ set_plain names.now flags.old (name_bytes name.now) (option_map expression_of index.now) }
{
    match index {
        Some(_) => {}
        None => set_flag(flags, names.find(name.bytes())),
    }
}

fn set_target(names: &Index, flags: &mut [bool], target: &Option<Name>)
    ensures { flags.new ≡ set_target names.now flags.old (option_map name_bytes target.now) }
{
    match target {
        Some(name) => set_flag(flags, names.find(name.bytes())),
        None => {}
    }
}

/// Flags the locals that a statement assigns.
#[cycle(flagging)]
pub fn flag_assigned(names: &Index, flags: &mut [bool], stmt: &Stmt)
    ensures { flags.new ≡ assigned_flags names.now flags.old (statement_of stmt.now) }
{
    match stmt {
        Stmt::Block { body, .. } => flag_all_assigned(names, flags, body.items()),
        Stmt::If { taken, other, .. } => {
            flag_assigned(names, flags, taken);
            match other {
                Some(other) => flag_assigned(names, flags, other),
                None => {}
            }
        }
        Stmt::While { body, .. } => flag_assigned(names, flags, body),
        Stmt::For {
            names: of_loop,
            body,
            ..
        } => {
            set_flag(flags, names.find(of_loop.first.bytes()));
            flag_assigned(names, flags, body);
        }
        Stmt::Set { name, index, .. } => set_plain(names, flags, name, index),
        Stmt::Output { .. } => {}
        Stmt::Input { name, .. } => set_flag(flags, names.find(name.bytes())),
        Stmt::Call { target, .. } => set_target(names, flags, target),
    }
}

#[cycle(flagging)]
fn flag_all_assigned(names: &Index, flags: &mut [bool], stmts: &[Stmt])
    ensures { flags.new ≡ all_assigned_flags names.now flags.old (statements_of stmts.now) }
{
    'stmts: for stmt in stmts {
        flag_assigned(names, flags, stmt);
    }
}
