// Reading a text.
ghost use Rattle.std.specs.Prelude.{◌≡◌, ◌<◌, IfErr, IfOk, map};
ghost use Rattle.std.specs.Vec.Iter.{into_iter_items, into_iter_len};
ghost use Rattle.prem_list.specs.Sequence.{items_of};
ghost use Rattle.prem_syntax.specs.SyntaxOf.{function_of, item_of, program_of};
ghost use Rattle.prem_text.specs.Lexing.Token.Reading.{Gives};
ghost use Rattle.prem_text.specs.Lexing.Token.Lexeme.{seen_of};
ghost use Rattle.prem_text.specs.Grammar.Reader.{at_end, read};
ghost use Rattle.prem_text.specs.Texts.{reads};
ghost use Rattle.prem_front.specs.Ends.{is_finished};
ghost use Rattle.prem_front.specs.StageOf.{stage_of};
ghost use Rattle.prem_front.specs.Taking.{FailsAt, FailsInside, LeadsTo, Takes, TakesInside, TakesSome};
ghost use Rattle.prem_reader.specs.Expression.StateOf.{state_of};
ghost use Rattle.prem_reader.specs.Statement.PointOf.{around_of, point_of, use_of};
ghost use Rattle.prem_text.specs.Grammar.Statement.{inside};
ghost use Rattle.prem_text.specs.Grammar.Item.{in_statements};

use crate::function::{body_ends, with_body};
use crate::item::{is_too_deep, step};
use crate::stage::{ItemStep, Stage};
use prem_list::Sequence;
use prem_reader::statement::{Around, Going, Point, Reading, Turn, behind, go_on, is_past, turn};
use prem_syntax::{Function, Item, Place, Program, Stmt};
use prem_text::lexing::token::{FrontFail, Spotted};
use prem_text::lexing::tokens;
use std::alloc::Global;
use std::vec::IntoIter;

/// No program has the token at a place.
fn syntax(at: Place) -> FrontFail
    ensures { result ≡ FrontFail.Syntax at.line at.col }
{
    FrontFail::Syntax {
        line: at.line,
        col: at.col,
    }
}

/// The token at a place is past a limit of expressions or statements.
fn too_deep(at: Place) -> FrontFail
    ensures { result ≡ FrontFail.TooDeep at.line }
{
    FrontFail::TooDeep { line: at.line }
}

/// Whether the end of the text has been read.
fn is_finished(stage: &Stage) -> bool
    ensures { result ≡ is_finished (stage_of stage.now) }
{
    matches!(stage, Stage::Finished)
}

/// The program of these items, where the end of the text is the last token.
#[tactic(auto, using(crate::proofs::Ends::finished_at_end, crate::proofs::Ends::unfinished_at_end))]
fn at_end(items: Sequence<Item>, stage: &Stage) -> Result<Program, FrontFail>
    ensures { Gives program_of result (at_end (map item_of (items_of items)) (stage_of stage.now)) }
{
    if is_finished(stage) {
        return Ok(Program { items });
    }
    Err(syntax(Place { line: 0, col: 0 }))
}

/// What some tokens are to a program, and the place of the last one.
#[derive(Drop)]
pub struct Taken {
    pub step: ItemStep,
    pub at: Place,
}

/// Where tokens of statements lead: to a point, or to a token behind all statements.
#[derive(Drop)]
pub enum Ahead {
    On {
        point: Point,
    },
    Left {
        statements: Sequence<Stmt>,
        last: Spotted,
    },
}

/// What the next token is to the program, or in the statements of a function all those up to the one that they leave.
fn take(alloc: Global, stage: Stage, tokens: &mut IntoIter<Spotted>) -> Result<Taken, FrontFail>
    requires { 0 < into_iter_len tokens.old }
    ensures takes { Takes (stage_of stage) (into_iter_items tokens.old) result (into_iter_items tokens.new) }
    ensures some { IfOk result (λ t. into_iter_len tokens.new < into_iter_len tokens.old) }
{
    match stage {
        Stage::InStatements { function, point } => {
            take_statements(alloc, function, Box::into_inner(point), tokens)
        }
        other => take_one(alloc, other, tokens),
    }
}

/// What the next token is to the program.
fn take_one(alloc: Global, stage: Stage, tokens: &mut IntoIter<Spotted>) -> Result<Taken, FrontFail>
    requires { 0 < into_iter_len tokens.old }
    ensures takes { Takes (stage_of stage) (into_iter_items tokens.old) result (into_iter_items tokens.new) }
    ensures some { IfOk result (λ t. into_iter_len tokens.new < into_iter_len tokens.old) }
{
    let Some(mut spotted) = tokens.next() else {
        return Err(syntax(Place { line: 0, col: 0 }));
    };
    let at = spotted.at;
    let step = step(alloc, stage, &mut spotted)?;
    Ok(Taken { step, at })
}

/// The tokens of an expression in statements, which goes on with them in place, up to the first that isn't one of its own:
/// what that one is to it, and the token.
fn take_inside(
    alloc: Global,
    reading: &mut Reading,
    tokens: &mut IntoIter<Spotted>,
) -> Result<(Going, Spotted), FrontFail>
    ensures takes { IfOk result (λ r. TakesInside reading.old reading.new r.0 (into_iter_items tokens.old) (into_iter_items tokens.new) r.1) }
    ensures fails { IfErr result (λ fail. FailsInside fail reading.old (into_iter_items tokens.old)) }
    ensures some { IfOk result (λ r. into_iter_len tokens.new < into_iter_len tokens.old) }
{
    while let Some(mut spotted) = tokens.next() {
        let at = spotted.at;
        match go_on(alloc, reading, &mut spotted)? {
            Going::On => {
                if reading.room == 0 {
                    return Err(too_deep(at));
                }
            }
            Going::Ends { value, callee } => {
                return Ok((Going::Ends { value, callee }, spotted));
            }
            Going::Stops { first } => return Ok((Going::Stops { first }, spotted)),
        }
    }
    Err(syntax(Place { line: 0, col: 0 }))
}

/// The tokens of an expression in statements and the one behind them: the point behind that.
fn take_expression(
    alloc: Global,
    mut reading: Box<Reading>,
    around: Box<Around>,
    tokens: &mut IntoIter<Spotted>,
) -> Result<Point, FrontFail>
    ensures takes { IfOk result (λ p. LeadsTo (inside (use_of reading.value.purpose) (state_of reading.value.state) reading.value.room (around_of around.value)) (into_iter_items tokens.old) (point_of p) (into_iter_items tokens.new)) }
    ensures fails { IfErr result (λ fail. FailsAt fail (inside (use_of reading.value.purpose) (state_of reading.value.state) reading.value.room (around_of around.value)) (into_iter_items tokens.old)) }
    ensures some { IfOk result (λ p. into_iter_len tokens.new < into_iter_len tokens.old) }
{
    let (going, mut last) = take_inside(alloc, &mut reading, tokens)?;
    let at = last.at;
    match behind(alloc, reading, around, going, &mut last)? {
        Some(point) => {
            if is_past(&point) {
                return Err(too_deep(at));
            }
            Ok(point)
        }
        None => Err(syntax(at)),
    }
}

/// The next token of statements that stand at a point outside an expression, and where it leads.
fn take_next(
    alloc: Global,
    point: Point,
    tokens: &mut IntoIter<Spotted>,
) -> Result<Ahead, FrontFail>
    requires { 0 < into_iter_len tokens.old }
    ensures takes { IfOk result (λ ahead. TakesSome (point_of point) (into_iter_items tokens.old) ahead (into_iter_items tokens.new)) }
    ensures fails { IfErr result (λ fail. FailsAt fail (point_of point) (into_iter_items tokens.old)) }
    ensures some { IfOk result (λ ahead. into_iter_len tokens.new < into_iter_len tokens.old) }
{
    let Some(mut last) = tokens.next() else {
        return Err(syntax(Place { line: 0, col: 0 }));
    };
    let at = last.at;
    match turn(alloc, point, &mut last)? {
        Turn::On { point } => {
            if is_past(&point) {
                return Err(too_deep(at));
            }
            Ok(Ahead::On { point })
        }
        Turn::Leaves { statements } => Ok(Ahead::Left { statements, last }),
        Turn::Wrong => Err(syntax(at)),
    }
}

/// The tokens that statements take at a point, and where they lead: in an expression all its tokens and the one behind
/// them, and else one.
fn take_some(
    alloc: Global,
    point: Point,
    tokens: &mut IntoIter<Spotted>,
) -> Result<Ahead, FrontFail>
    requires { 0 < into_iter_len tokens.old }
    ensures takes { IfOk result (λ ahead. TakesSome (point_of point) (into_iter_items tokens.old) ahead (into_iter_items tokens.new)) }
    ensures fails { IfErr result (λ fail. FailsAt fail (point_of point) (into_iter_items tokens.old)) }
    ensures some { IfOk result (λ ahead. into_iter_len tokens.new < into_iter_len tokens.old) }
{
    match point {
        Point::Inside { reading, around } => {
            let point = take_expression(alloc, reading, around, tokens)?;
            Ok(Ahead::On { point })
        }
        other => take_next(alloc, other, tokens),
    }
}

/// The tokens of a function's statements, of which those up to `point` have been read, up to the one that they leave.
fn take_statements(
    alloc: Global,
    function: Function,
    mut point: Point,
    tokens: &mut IntoIter<Spotted>,
) -> Result<Taken, FrontFail>
    requires { 0 < into_iter_len tokens.old }
    ensures takes { Takes (in_statements (function_of function) (point_of point)) (into_iter_items tokens.old) result (into_iter_items tokens.new) }
    ensures some { IfOk result (λ t. into_iter_len tokens.new < into_iter_len tokens.old) }
{
    'tokens: while tokens.len() > 0 {
        match take_some(alloc, point, tokens)? {
            Ahead::On { point: behind } => point = behind,
            Ahead::Left { statements, last } => {
                let step = body_ends(alloc, with_body(function, statements), &last)?;
                return Ok(Taken { step, at: last.at });
            }
        }
    }
    Err(syntax(Place { line: 0, col: 0 }))
}

/// The program that tokens are, the last of which is the end of the text.
fn read(alloc: Global, all: Vec<Spotted>) -> Result<Program, FrontFail>
    ensures { Gives program_of result (read (map seen_of all.items)) }
{
    let mut items = Sequence::new(alloc);
    let mut stage = Stage::Outside;
    let mut tokens = all.into_iter();
    'tokens: while tokens.len() > 0 {
        let Taken { step, at } = take(alloc, stage, &mut tokens)?;
        match step {
            ItemStep::Ahead { stage: behind } => {
                if is_too_deep(&behind) {
                    return Err(too_deep(at));
                }
                stage = behind;
            }
            ItemStep::Made { item } => {
                items.push(item)?;
                stage = Stage::Outside;
            }
            ItemStep::Refused => return Err(syntax(at)),
        }
    }
    at_end(items, &stage)
}

/// Reads the text of a program: an annotated subset of C99 (ISO/IEC 9899:1999).
///
/// Gives the tree with the places of its tokens. The tokens of the whole text come first, then the
/// grammar: `TooLong` for a text of more than 1048576 bytes or 200000 tokens, `NotText` and `Token` for
/// bytes that are no text and no token, `Syntax` for the first token that no program can have behind
/// those before it, where the end of the text counts as a token, and `TooDeep` for the 257th token of an
/// outermost expression and the first token of a statement that stands in 64 others, whichever comes
/// first; at one token `Syntax` does.
#[tactic(auto, using(crate::proofs::Passing::passed_on))]
pub fn parse(alloc: Global, text: &[u8]) -> Result<Program, FrontFail>
    ensures { Gives program_of result (reads text.now) }
{
    let all = tokens(alloc, text)?;
    read(alloc, all)
}
