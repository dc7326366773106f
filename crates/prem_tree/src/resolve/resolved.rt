// Programs whose names are resolved: parameters and locals, globals and functions by number.
use prem_list::Sequence;
use prem_syntax::{Function, Global, Place, Ty, UnOp};
use prem_word::{BinOp, Kind};

/// An expression, with its names resolved and the kinds of its operators.
///
/// Parameters and locals are numbered together from 0, globals in the order of the text.
#[derive(Drop)]
#[cycle(terms)]
pub enum Term {
    Constant {
        at: Place,
        word: u32,
        kind: Kind,
    },
    Local {
        at: Place,
        number: usize,
        kind: Kind,
    },
    Scalar {
        at: Place,
        global: usize,
        ty: Ty,
    },
    Element {
        at: Place,
        global: usize,
        ty: Ty,
        index: Box<Term>,
    },
    Unary {
        at: Place,
        op: UnOp,
        operand: Box<Term>,
    },
    /// The kind is that in which the operator computes; `&&` and `||` have none.
    Binary {
        at: Place,
        op: BinOp,
        kind: Kind,
        operands: Box<Operands>,
    },
}

/// The operands of an operator, which stand beside each other in memory.
#[derive(Drop)]
#[cycle(terms)]
pub struct Operands {
    pub left: Term,
    pub right: Term,
}

/// A statement, with its names resolved.
#[derive(Drop)]
pub enum Step {
    Block {
        body: Sequence<Step>,
    },
    SetLocal {
        at: Place,
        number: usize,
        value: Term,
    },
    SetScalar {
        at: Place,
        global: usize,
        ty: Ty,
        value: Term,
    },
    SetElement {
        at: Place,
        global: usize,
        ty: Ty,
        index: Term,
        value: Term,
    },
    Output {
        at: Place,
        value: Term,
    },
    Input {
        at: Place,
        number: usize,
    },
    If {
        at: Place,
        condition: Term,
        taken: Box<Step>,
        other: Box<Step>,
    },
    For {
        at: Place,
        number: usize,
        low: Term,
        closed: bool,
        high: Term,
        step: u32,
        body: Box<Step>,
    },
    While {
        at: Place,
        turns: u32,
        condition: Term,
        body: Box<Step>,
    },
    Call {
        at: Place,
        target: Option<usize>,
        callee: usize,
        arguments: Sequence<Term>,
    },
}

/// A function, with the initialisers of its locals.
#[derive(Drop)]
pub struct Routine<'a> {
    pub text: &'a Function,
    pub locals: Sequence<Term>,
    pub body: Step,
    pub result: Option<Term>,
}

/// A program with its names resolved.
#[derive(Drop)]
pub struct Resolved<'a> {
    pub globals: Vec<&'a Global>,
    pub routines: Sequence<Routine<'a>>,
    /// The number of `job`, or of functions where there is none.
    pub job: usize,
}
