// Reading an expression, one token after the other.
ghost use Rattle.std.specs.Prelude.{◌≡◌};
ghost use Rattle.prem_text.specs.Grammar.Expression.{infix_of, prefix_of};

use crate::expression::open::{Open, OpenStack, level_of};
use crate::statement::is_left_bracket;
use crate::taken::take_name;
use prem_syntax::{BinOp, Expr, Name, Place, UnOp, copy_name};
use prem_text::lexing::token::{Mark, Spotted, Token};
use std::alloc::{AllocError, Global};
use std::mem;

/// The operand behind all that is open.
#[derive(Drop)]
pub enum Operand {
    /// There is none yet.
    Wanted,
    /// A name, which an index may follow.
    Named { at: Place, name: Name },
    /// Any other one.
    Whole { value: Expr },
}

/// Where the reader of an expression stands. It is changed in place by each token.
#[derive(Drop)]
pub struct State {
    open: OpenStack,
    operand: Operand,
}

/// What a token is to an expression.
#[derive(Drop)]
pub enum Move {
    /// One of its tokens.
    Goes,
    /// The first one behind it.
    Ends { value: Expr },
    /// No expression has it here.
    Stops,
}

/// The greatest number of tokens of an expression, and one more: past it nothing is left of the room.
pub const ROOM: u32 = 257;

fn infix_of(mark: Mark) -> Option<BinOp>
    ensures { result ≡ infix_of mark }
{
    match mark {
        Mark::OrOr => Some(BinOp::OrElse),
        Mark::AndAnd => Some(BinOp::AndAlso),
        Mark::Or => Some(BinOp::Or),
        Mark::Caret => Some(BinOp::Xor),
        Mark::And => Some(BinOp::And),
        Mark::EqualEqual => Some(BinOp::Eq),
        Mark::NotEqual => Some(BinOp::Ne),
        Mark::Less => Some(BinOp::Lt),
        Mark::LessEqual => Some(BinOp::Le),
        Mark::Greater => Some(BinOp::Gt),
        Mark::GreaterEqual => Some(BinOp::Ge),
        Mark::ShiftLeft => Some(BinOp::Shl),
        Mark::ShiftRight => Some(BinOp::Shr),
        Mark::Plus => Some(BinOp::Add),
        Mark::Minus => Some(BinOp::Sub),
        Mark::Star => Some(BinOp::Mul),
        Mark::Slash => Some(BinOp::Div),
        Mark::Percent => Some(BinOp::Rem),
        _ => None,
    }
}

fn prefix_of(mark: Mark) -> Option<UnOp>
    ensures { result ≡ prefix_of mark }
{
    match mark {
        Mark::Minus => Some(UnOp::Neg),
        Mark::Tilde => Some(UnOp::Flip),
        Mark::Bang => Some(UnOp::Not),
        _ => None,
    }
}

impl State {
    ghost use Rattle.std.specs.Prelude.{◌≡◌, ◌≢◌, IfOk};
    ghost use Rattle.std.specs.Option.{option_map};
    ghost use Rattle.prem_syntax.specs.Name.{name_bytes};
    ghost use Rattle.prem_syntax.specs.SyntaxOf.{expression_of};
    ghost use Rattle.prem_text.specs.Lexing.Token.Lexeme.{lexeme_of, seen_of};
    ghost use Rattle.prem_text.specs.Grammar.Expression.{bottom, wants, behind, closing, operand, operator, move as move_by};
    ghost use Rattle.prem_text.specs.Grammar.Statement.{is_start, lone_name};
    ghost use Rattle.prem_reader.specs.Expression.StateOf.{open_of, state_of, move_of};

    /// Before the first token of an expression.
    pub fn new(alloc: Global) -> State
        ensures { state_of result ≡ wants bottom }
    {
        State {
            open: OpenStack::new(alloc),
            operand: Operand::Wanted,
        }
    }

    /// Whether no token of the expression has been read.
    pub fn is_start(&self) -> bool
        ensures { result ≡ is_start (state_of self.now) }
    {
        matches!(self.operand, Operand::Wanted) && self.open.is_empty()
    }

    /// The name that is all of the expression so far. It fails only for want of memory.
    pub fn lone_name(&self, alloc: Global) -> Result<Option<Name>, AllocError>
        ensures { IfOk result (λ name. option_map name_bytes name ≡ lone_name (state_of self.now)) }
    {
        match &self.operand {
            Operand::Named { name, .. } if self.open.is_empty() => {
                Ok(Some(copy_name(alloc, name)?))
            }
            _ => Ok(None),
        }
    }

    /// A token where an operand is wanted. A name is moved out of it.
    fn operand(&mut self, spotted: &mut Spotted) -> Result<Move, AllocError>
        requires { self.old.operand ≡ Operand.Wanted }
        ensures moved { IfOk result (λ m. move_of m self.new ≡ operand (open_of self.old.open) (lexeme_of spotted.old.token) spotted.old.at) }
        ensures kept { IfOk result (λ m. m ≡ Move.Stops → spotted.new ≡ spotted.old) }
    {
        let at = spotted.at;
        match &spotted.token {
            Token::Literal { value, kind } => {
                let (value, kind) = (*value, *kind);
                let value = Expr::Literal { at, value, kind };
                self.operand = Operand::Whole { value };
            }
            Token::Name(_) => match take_name(spotted) {
                Some(name) => self.operand = Operand::Named { at, name },
                None => return Ok(Move::Stops),
            },
            Token::Mark(Mark::OpenParenthesis) => self.open.push(Open::Bracket)?,
            Token::Mark(mark) => match prefix_of(*mark) {
                Some(op) => self.open.push(Open::Under { at, op })?,
                None => return Ok(Move::Stops),
            },
            _ => return Ok(Move::Stops),
        }
        Ok(Move::Goes)
    }

    /// An operator behind an operand; at the bottom those looser than a level are behind the expression.
    fn operator(&mut self, least: u32, op: BinOp, at: Place, left: Expr) -> Result<Move, AllocError>
        requires { self.old.operand ≡ Operand.Wanted }
        ensures { IfOk result (λ m. move_of m self.new ≡ operator least op at (expression_of left, open_of self.old.open)) }
    {
        if self.open.is_empty() && level_of(op) < least {
            return Ok(Move::Ends { value: left });
        }
        self.open.push(Open::RightOf { left, at, op })?;
        Ok(Move::Goes)
    }

    /// A token behind an operand that is no operator.
    fn closing(&mut self, alloc: Global, value: Expr, token: &Token) -> Result<Move, AllocError>
        requires { self.old.operand ≡ Operand.Wanted }
        ensures { IfOk result (λ m. move_of m self.new ≡ closing (expression_of value, open_of self.old.open) (lexeme_of token.now)) }
    {
        let Some(inner) = self.open.pop() else {
            return Ok(Move::Ends { value });
        };
        let value = match (inner, token) {
            (Open::Bracket, Token::Mark(Mark::CloseParenthesis)) => value,
            (Open::IndexOf { at, name }, Token::Mark(Mark::CloseBracket)) => {
                let index = Box::new(alloc, value)?;
                Expr::Elem { at, name, index }
            }
            _ => return Ok(Move::Stops),
        };
        self.operand = Operand::Whole { value };
        Ok(Move::Goes)
    }

    /// A token behind an operand.
    fn behind(
        &mut self,
        alloc: Global,
        least: u32,
        value: Expr,
        spotted: &Spotted,
    ) -> Result<Move, AllocError>
        requires { self.old.operand ≡ Operand.Wanted }
        ensures { IfOk result (λ m. move_of m self.new ≡ behind least (expression_of value) (open_of self.old.open) (lexeme_of spotted.now.token) spotted.now.at) }
    {
        if let Token::Mark(mark) = &spotted.token
            && let Some(op) = infix_of(*mark)
        {
            let left = self.open.bind(alloc, level_of(op), value)?;
            return self.operator(least, op, spotted.at, left);
        }
        let value = self.open.bind(alloc, 0, value)?;
        self.closing(alloc, value, &spotted.token)
    }

    /// What a token is to the expression, which goes on with it where it is one of its tokens: a name is then moved out
    /// of it. Operators looser than `least` don't belong to the expression, outside parentheses and brackets; the levels
    /// go from 1, `||`, to 10, `*`. It fails only for want of memory.
    pub fn advance(
        &mut self,
        alloc: Global,
        least: u32,
        spotted: &mut Spotted,
    ) -> Result<Move, AllocError>
        ensures moved { IfOk result (λ m. move_of m self.new ≡ move_by least (state_of self.old) (seen_of spotted.old)) }
        ensures kept { IfOk result (λ m. m ≢ Move.Goes → spotted.new ≡ spotted.old) }
    {
        match mem::replace(&mut self.operand, Operand::Wanted) {
            Operand::Wanted => self.operand(spotted),
            Operand::Named { at, name } => {
                if is_left_bracket(&spotted.token) {
                    self.open.push(Open::IndexOf { at, name })?;
                    return Ok(Move::Goes);
                }
                self.behind(alloc, least, Expr::Var { at, name }, spotted)
            }
            Operand::Whole { value } => self.behind(alloc, least, value, spotted),
        }
    }
}
