// The tree of a program: what the grammar builds, with the place of each part in the text.
use crate::name::Name;
use prem_list::Sequence;
use prem_word::{BinOp, Kind};

/// The place of a byte in a text: its line and its column, both from 1; a column counts bytes.
#[derive(Clone, Copy, Debug, PartialEq, Eq)]
pub struct Place {
    pub line: u32,
    pub col: u32,
}

/// A type of the language: C99's integer types up to 32 bits, and `void`.
#[derive(Clone, Copy, Debug, PartialEq, Eq)]
pub enum Ty {
    Void,
    Int,
    Unsigned,
    Short,
    Ushort,
    Schar,
    Uchar,
}

/// A prefix: `-`, `~` or `!`.
#[derive(Clone, Copy, Debug, PartialEq, Eq)]
pub enum UnOp {
    Neg,
    Flip,
    Not,
}

/// An expression. Its place is that of the operator of a unary or binary one, else of its first token.
#[derive(Drop)]
pub enum Expr {
    /// A constant and the kind that its spelling gives it.
    Literal {
        at: Place,
        value: u32,
        kind: Kind,
    },
    /// A parameter, a local or a scalar global.
    Var {
        at: Place,
        name: Name,
    },
    /// An element of an array.
    Elem {
        at: Place,
        name: Name,
        index: Box<Expr>,
    },
    Unary {
        at: Place,
        op: UnOp,
        arg: Box<Expr>,
    },
    Binary {
        at: Place,
        op: BinOp,
        left: Box<Expr>,
        right: Box<Expr>,
    },
}

/// The four names of a counting loop: of its first value, its test, and both sides of its step.
#[derive(Drop)]
pub struct ForNames {
    pub first: Name,
    pub second: Name,
    pub third: Name,
    pub fourth: Name,
}

/// A statement. Its place is that of its first token.
#[derive(Drop)]
pub enum Stmt {
    Block {
        at: Place,
        body: Sequence<Stmt>,
    },
    If {
        at: Place,
        cond: Expr,
        taken: Box<Stmt>,
        other: Option<Box<Stmt>>,
    },
    /// `BOUNDED(turns) while (cond) body`.
    While {
        at: Place,
        turns: u32,
        cond: Expr,
        body: Box<Stmt>,
    },
    /// `for (i = low; i < high; i += step) body`; `closed` tells `<=`.
    For {
        at: Place,
        names: ForNames,
        low: Expr,
        closed: bool,
        high: Expr,
        step: u32,
        body: Box<Stmt>,
    },
    /// An assignment to a name or to an element.
    Set {
        at: Place,
        name: Name,
        index: Option<Expr>,
        value: Expr,
    },
    /// `out(value);`
    Output {
        at: Place,
        value: Expr,
    },
    /// `name = in();`
    Input {
        at: Place,
        name: Name,
    },
    /// `callee(args);` or `target = callee(args);`
    Call {
        at: Place,
        target: Option<Name>,
        callee: Name,
        args: Sequence<Expr>,
    },
}

/// A parameter; its range is that of `RANGE(low, high)`.
#[derive(Drop)]
pub struct Param {
    pub at: Place,
    pub ty: Ty,
    pub name: Name,
    pub range: Option<(i64, i64)>,
}

/// A local and its initialiser.
#[derive(Drop)]
pub struct Local {
    pub at: Place,
    pub ty: Ty,
    pub name: Name,
    pub value: Expr,
}

/// `REGION(name, low, high)`: elements of a global that a predictable function may access.
#[derive(Drop)]
pub struct Region {
    pub at: Place,
    pub name: Name,
    pub low: u32,
    pub high: u32,
}

/// `PREDICTABLE(stated)`, the length in cycles, with its regions.
#[derive(Drop)]
pub struct Mark {
    pub stated: u32,
    pub regions: Sequence<Region>,
}

/// The initial value of a global: none, one constant, or a list in braces.
#[derive(Drop)]
pub enum Initial {
    Absent,
    One { value: i64 },
    Many { values: Sequence<i64> },
}

/// A global: a scalar where it has no length, else an array.
#[derive(Drop)]
pub struct Global {
    pub at: Place,
    pub ty: Ty,
    pub name: Name,
    pub len: Option<u32>,
    pub initial: Initial,
}

/// A function; its place is that of its name.
#[derive(Drop)]
pub struct Function {
    pub at: Place,
    pub mark: Option<Mark>,
    pub ty: Ty,
    pub name: Name,
    pub params: Sequence<Param>,
    pub locals: Sequence<Local>,
    pub body: Sequence<Stmt>,
    pub result: Option<Expr>,
}

/// A global or a function, as it stands in the text.
#[derive(Drop)]
pub enum Item {
    Global(Global),
    Function(Function),
}

/// A program: its items in the order of the text.
#[derive(Drop)]
pub struct Program {
    pub items: Sequence<Item>,
}
