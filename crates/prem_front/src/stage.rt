// Where the reader of a program stands. What is large in a stage stands behind a `Box`, as in a point of statements.
use prem_list::Sequence;
use prem_reader::expression::State;
use prem_reader::statement::{Point, Slot};
use prem_syntax::{Function, Global, Item, Mark, Name, Param, Place, Ty};
use prem_text::lexing::token::Spotted;

/// How far a type is read: `unsigned` is one, and the beginning of others.
#[derive(Clone, Copy, Debug)]
pub enum Typing {
    NoType,
    AfterSigned,
    AfterUnsigned,
    AType { ty: Ty },
}

/// What a type and a name declare; a function is held as far as it is read.
#[derive(Drop)]
pub enum Declared {
    AnItem { mark: Option<Mark> },
    AParameter { function: Function },
    ALocal { function: Function },
}

/// What a constant is.
#[derive(Drop)]
pub enum Constant {
    /// The lower limit of a parameter's range.
    RangeLow {
        function: Function,
        param: Param,
    },
    /// The upper limit of a parameter's range.
    RangeHigh {
        function: Function,
        param: Param,
        low: i64,
    },
    /// The initial value of a global.
    OnlyValue {
        global: Global,
    },
    /// The initial value of a global's next element.
    NextValue {
        global: Global,
        before: Sequence<i64>,
    },
}

/// What an expression outside statements is.
#[derive(Drop)]
pub enum Value {
    /// The value of a local.
    OfLocal {
        function: Function,
        ty: Ty,
        at: Place,
        name: Name,
    },
    /// The result of a function.
    OfResult {
        function: Function,
    },
}

/// What a row of tokens is for of which no other choice is left.
#[derive(Drop)]
pub enum ItemRow {
    /// `PREDICTABLE ( literal )`.
    MarkRow,
    /// `REGION ( name , literal , literal )`.
    RegionRow {
        mark: Mark,
    },
    /// `[ literal ]`.
    LengthRow {
        global: Global,
    },
    /// The `;` of a global.
    GlobalRow {
        global: Global,
    },
    /// `void ) {` or `) {`.
    BodyRow {
        function: Function,
    },
    /// `RANGE (`.
    RangeRow {
        function: Function,
        param: Param,
    },
    /// The `=` of a local.
    LocalRow {
        function: Function,
        ty: Ty,
        at: Place,
        name: Name,
    },
    /// `; }` behind a result.
    EndRow {
        function: Function,
    },
}

/// An expression outside statements that is read, and may have `room` - 1 more tokens.
#[derive(Drop)]
pub struct ValueReading {
    pub value: Value,
    pub state: State,
    pub room: u32,
}

/// Where the reader of a program stands.
#[derive(Drop)]
pub enum Stage {
    /// Before an item.
    Outside,
    /// Behind a mark and some of its regions.
    Marked {
        mark: Mark,
    },
    /// In a row of tokens.
    InRow {
        row: Box<ItemRow>,
        got: Sequence<Spotted>,
        wanted: Slot,
        later: &'static [Slot],
    },
    /// In a type, or before the name behind it.
    InType {
        declared: Box<Declared>,
        typing: Typing,
    },
    /// Behind the name of an item.
    BehindItem {
        mark: Option<Mark>,
        ty: Ty,
        at: Place,
        name: Name,
    },
    /// Behind the length of a global.
    BehindGlobal {
        global: Global,
    },
    /// Behind the `=` of a global.
    BeforeInitial {
        global: Global,
    },
    /// Before a constant; `negative` tells that its `-` has been read.
    BeforeConstant {
        constant: Constant,
        negative: bool,
    },
    /// Behind a constant.
    BehindConstant {
        constant: Constant,
        value: i64,
    },
    /// Before the first parameter.
    BeforeParameter {
        function: Function,
    },
    /// Behind the name of a parameter.
    OnParameter {
        function: Function,
        param: Param,
    },
    /// Behind a parameter.
    BehindParameter {
        function: Function,
    },
    /// Before a local or the first statement.
    BeforeLocal {
        function: Function,
    },
    /// In the statements of a function.
    InStatements {
        function: Function,
        point: Box<Point>,
    },
    /// In an expression outside statements.
    InValue {
        reading: Box<ValueReading>,
    },
    /// Behind the end of the text.
    Finished,
}

/// What a token is to the program.
#[derive(Drop)]
pub enum ItemStep {
    /// The program goes on with it.
    Ahead { stage: Stage },
    /// It ends an item.
    Made { item: Item },
    /// No program has it here.
    Refused,
}
