// The statements of a function with their code, cut out of the function's pieces.
ghost use Rattle.std.specs.Prelude.{◌≡◌, ◌≤◌, ◌++◌, [], IfOk, OnOk, length, map};
ghost use Rattle.std.specs.Option.{option_map};
ghost use Rattle.prem_list.specs.Sequence.{items_of};
ghost use Rattle.prem_asm.specs.Pieces.{skip_words};
ghost use Rattle.prem_asm.specs.PiecesOf.{piece_of, pieces_of};
ghost use Rattle.prem_tree.specs.Resolve.ResolvedOf.{term_of};
ghost use Rattle.prem_wcet_laws.specs.Scopes.{globals_in_result, globals_in_term, globals_in_terms};
ghost use Rattle.prem_wcet.specs.Outlines.{calling, choice, ended, plain, turning};
ghost use Rattle.prem_wcet.specs.PartsOf.{IsOutline, behind_list, behind_step, cut_list, cut_step, joined, parts_of, plain_names};
ghost use Rattle.prem_wcet.specs.Sliced.{before_pieces, behind_pieces, behind_target, behind_term, behind_terms, body_in, first_side, head_in, operator_pieces, second_side, tail_of, turns_in};

use prem_asm::Piece;
use prem_list::Sequence;
use prem_plant::Target;
use prem_tree::resolve::{Routine, Step, Term};
use prem_word::BinOp;
use std::alloc::{AllocError, Global};

/// A statement with all its code and the globals that it names outside of other statements.
#[derive(Drop)]
pub enum Part<'a> {
    /// It calls nothing, and has no others inside.
    Plain {
        code: &'a [Piece],
        names: Sequence<usize>,
    },
    /// A call with so many arguments, and what brings its result to its target.
    Calling {
        code: &'a [Piece],
        names: Sequence<usize>,
        arguments: &'a [Piece],
        count: usize,
        callee: usize,
        landing: &'a [Piece],
    },
    /// A choice, with as many jumps over its other side.
    Choice {
        code: &'a [Piece],
        names: Sequence<usize>,
        condition: &'a [Piece],
        skips: u32,
        taken: Sequence<Part<'a>>,
        other: Sequence<Part<'a>>,
    },
    /// A loop: what stands before it; its head; and what stands before and behind the statements of its body.
    Turning {
        code: &'a [Piece],
        names: Sequence<usize>,
        first: &'a [Piece],
        turns: u32,
        head: &'a [Piece],
        before: &'a [Piece],
        body: Sequence<Part<'a>>,
        behind: &'a [Piece],
    },
}

impl<'a> Part<'a> {
    ghost use Rattle.std.specs.Prelude.{◌≡◌};
    ghost use Rattle.prem_asm.specs.PiecesOf.{pieces_of};
    ghost use Rattle.prem_wcet.specs.PartsOf.{part_code};

    /// All its code.
    pub fn code(&self) -> &'a [Piece]
        ensures { pieces_of result.now ≡ part_code self.now }
    {
        match self {
            Part::Plain { code, .. }
            | Part::Calling { code, .. }
            | Part::Choice { code, .. }
            | Part::Turning { code, .. } => code,
        }
    }
}

/// A function's code: what stands before the statements of its body, these, and what stands behind them.
#[derive(Drop)]
pub struct Outline<'a> {
    pub entry: &'a [Piece],
    pub entry_names: Sequence<usize>,
    pub body: Sequence<Part<'a>>,
    pub leaving: &'a [Piece],
    pub leaving_names: Sequence<usize>,
}

// ---- pieces one behind another

/// Behind the first piece.
fn tail(code: &[Piece]) -> &[Piece]
    ensures { pieces_of result.now ≡ tail_of (pieces_of code.now) }
{
    match code {
        [] => code,
        [_, rest @ ..] => rest,
    }
}

/// Behind the first two.
fn behind_two(code: &[Piece]) -> &[Piece]
    ensures { pieces_of result.now ≡ behind_pieces 2 (pieces_of code.now) }
{
    tail(tail(code))
}

/// Behind the first three.
fn behind_three(code: &[Piece]) -> &[Piece]
    ensures { pieces_of result.now ≡ behind_pieces 3 (pieces_of code.now) }
{
    behind_two(tail(code))
}

/// The pieces before others, which are the last ones.
fn before<'a>(code: &'a [Piece], last: &[Piece]) -> &'a [Piece]
    ensures { pieces_of result.now ≡ before_pieces (pieces_of code.now) (pieces_of last.now) }
{
    &code[..code.len().saturating_sub(last.len())]
}

/// The taken side of a choice.
fn taken_side(piece: &Piece) -> &[Piece]
    ensures { pieces_of result.now ≡ first_side (piece_of piece.now) }
{
    match piece {
        Piece::Either {
            test: _,
            taken,
            other: _,
        } => taken.items(),
        Piece::Straight(_) | Piece::Address { .. } | Piece::Repeat { .. } | Piece::CallTo { .. } =>
            &[],
    }
}

/// The taken side of the choice that pieces begin with.
fn first_side(code: &[Piece]) -> &[Piece]
    ensures { pieces_of result.now ≡ first_side (pieces_of code.now) }
{
    match code {
        [] => code,
        [piece, ..] => taken_side(piece),
    }
}

/// The other side of a choice.
fn other_side(piece: &Piece) -> &[Piece]
    ensures { pieces_of result.now ≡ second_side (piece_of piece.now) }
{
    match piece {
        Piece::Either {
            test: _,
            taken: _,
            other,
        } => other.items(),
        Piece::Straight(_) | Piece::Address { .. } | Piece::Repeat { .. } | Piece::CallTo { .. } =>
            &[],
    }
}

/// Its other side.
fn second_side(code: &[Piece]) -> &[Piece]
    ensures { pieces_of result.now ≡ second_side (pieces_of code.now) }
{
    match code {
        [] => code,
        [piece, ..] => other_side(piece),
    }
}

/// The greatest number of turns of the loop that pieces begin with.
fn turns_in(code: &[Piece]) -> u32
    ensures { result ≡ turns_in (pieces_of code.now) }
{
    match code.first() {
        Some(Piece::Repeat { turns, .. }) => *turns,
        _ => 0,
    }
}

/// The head of a loop.
fn head_side(piece: &Piece) -> &[Piece]
    ensures { pieces_of result.now ≡ head_in (piece_of piece.now) }
{
    match piece {
        Piece::Repeat {
            turns: _,
            head,
            test: _,
            body: _,
        } => head.items(),
        Piece::Straight(_) | Piece::Address { .. } | Piece::Either { .. } | Piece::CallTo { .. } =>
            &[],
    }
}

/// Its head.
fn head_in(code: &[Piece]) -> &[Piece]
    ensures { pieces_of result.now ≡ head_in (pieces_of code.now) }
{
    match code {
        [] => code,
        [piece, ..] => head_side(piece),
    }
}

/// The body of a loop.
fn body_side(piece: &Piece) -> &[Piece]
    ensures { pieces_of result.now ≡ body_in (piece_of piece.now) }
{
    match piece {
        Piece::Repeat {
            turns: _,
            head: _,
            test: _,
            body,
        } => body.items(),
        Piece::Straight(_) | Piece::Address { .. } | Piece::Either { .. } | Piece::CallTo { .. } =>
            &[],
    }
}

/// Its body.
fn body_in(code: &[Piece]) -> &[Piece]
    ensures { pieces_of result.now ≡ body_in (pieces_of code.now) }
{
    match code {
        [] => code,
        [piece, ..] => body_side(piece),
    }
}

/// How many jumps stand over the other side of a choice.
fn skips(other: &[Piece]) -> u32
    ensures count { result ≡ skip_words (pieces_of other.now) }
    ensures small { result ≤ 1 }
{
    match other {
        [] => 0,
        [_, ..] => 1,
    }
}

// ---- behind the code of terms

fn behind_operator(op: BinOp, target: Target, code: &[Piece]) -> &[Piece]
    ensures { pieces_of result.now ≡ behind_pieces (operator_pieces target op) (pieces_of code.now) }
{
    match (op, target) {
        (BinOp::AndAlso | BinOp::OrElse, _) => code,
        (BinOp::Mul, Target::Rv32i) => behind_three(code),
        (BinOp::Div | BinOp::Rem, Target::Rv32i) => tail(behind_three(code)),
        _ => tail(code),
    }
}

fn behind_term<'a>(term: &Term, target: Target, code: &'a [Piece]) -> &'a [Piece]
    ensures { pieces_of result.now ≡ behind_term target (term_of term.now) (pieces_of code.now) }
{
    match term {
        Term::Constant { .. } | Term::Local { .. } => tail(code),
        Term::Scalar { .. } => behind_two(code),
        Term::Element { index, .. } => behind_three(behind_term(index, target, code)),
        Term::Unary { operand, .. } => tail(behind_term(operand, target, code)),
        Term::Binary { op, operands, .. } => {
            let rest = behind_term(&operands.left, target, code);
            match op {
                BinOp::AndAlso | BinOp::OrElse => tail(rest),
                _ => behind_operator(*op, target, behind_term(&operands.right, target, rest)),
            }
        }
    }
}

/// Behind terms, each with a piece behind it.
fn behind_terms<'a>(terms: &[Term], target: Target, code: &'a [Piece]) -> &'a [Piece]
    ensures { pieces_of result.now ≡ behind_terms target (map term_of terms.now) (pieces_of code.now) }
{
    let mut rest = code;
    for term in terms {
        rest = tail(behind_term(term, target, rest));
    }
    rest
}

fn behind_target(to: Option<usize>, code: &[Piece]) -> &[Piece]
    ensures { pieces_of result.now ≡ behind_target to (pieces_of code.now) }
{
    match to {
        Some(_) => tail(code),
        None => code,
    }
}

/// Behind a step.
#[cycle(behind)]
fn behind_step<'a>(step: &Step, target: Target, code: &'a [Piece]) -> &'a [Piece]
    ensures { pieces_of result.now ≡ behind_step target step.now (pieces_of code.now) }
{
    match step {
        Step::Block { body } => behind_steps(body.items(), target, code),
        Step::SetLocal { value, .. } | Step::Output { value, .. } => {
            tail(behind_term(value, target, code))
        }
        Step::SetScalar { value, .. } => behind_two(behind_term(value, target, code)),
        Step::SetElement { index, value, .. } => {
            let rest = behind_term(value, target, code);
            behind_three(behind_term(index, target, rest))
        }
        Step::Input { .. } => tail(code),
        Step::If { condition, .. } => tail(behind_term(condition, target, code)),
        Step::For { low, .. } => behind_two(behind_term(low, target, code)),
        Step::While { .. } => behind_three(code),
        Step::Call {
            target: to,
            arguments,
            ..
        } => {
            let rest = behind_terms(arguments.items(), target, code);
            behind_target(*to, tail(rest))
        }
    }
}

#[cycle(behind)]
fn behind_steps<'a>(steps: &[Step], target: Target, code: &'a [Piece]) -> &'a [Piece]
    ensures { pieces_of result.now ≡ behind_list target steps.now (pieces_of code.now) }
{
    let mut rest = code;
    for step in steps {
        rest = behind_step(step, target, rest);
    }
    rest
}

// ---- globals that terms name

fn name_term(names: &mut Sequence<usize>, term: &Term) -> Result<(), AllocError>
    ensures { OnOk result (items_of names.new ≡ items_of names.old ++ globals_in_term (term_of term.now)) }
{
    match term {
        Term::Constant { .. } | Term::Local { .. } => Ok(()),
        Term::Scalar { global, .. } => {
            names.push(*global)?;
            Ok(())
        }
        Term::Element { global, index, .. } => {
            names.push(*global)?;
            name_term(names, index)
        }
        Term::Unary { operand, .. } => name_term(names, operand),
        Term::Binary { operands, .. } => {
            name_term(names, &operands.left)?;
            name_term(names, &operands.right)
        }
    }
}

fn name_terms(names: &mut Sequence<usize>, terms: &[Term]) -> Result<(), AllocError>
    ensures { OnOk result (items_of names.new ≡ items_of names.old ++ globals_in_terms (map term_of terms.now)) }
{
    for term in terms {
        name_term(names, term)?;
    }
    Ok(())
}

/// The globals that terms name.
fn named(alloc: Global, terms: &[Term]) -> Result<Sequence<usize>, AllocError>
    ensures { IfOk result (λ names. items_of names ≡ globals_in_terms (map term_of terms.now)) }
{
    let mut names = Sequence::new(alloc);
    name_terms(&mut names, terms)?;
    Ok(names)
}

fn named_by(alloc: Global, term: &Term) -> Result<Sequence<usize>, AllocError>
    ensures { IfOk result (λ names. items_of names ≡ globals_in_term (term_of term.now)) }
{
    let mut names = Sequence::new(alloc);
    name_term(&mut names, term)?;
    Ok(names)
}

fn named_by_both(alloc: Global, left: &Term, right: &Term) -> Result<Sequence<usize>, AllocError>
    ensures { IfOk result (λ names. items_of names ≡ globals_in_term (term_of left.now) ++ globals_in_term (term_of right.now)) }
{
    let mut names = Sequence::new(alloc);
    name_term(&mut names, left)?;
    name_term(&mut names, right)?;
    Ok(names)
}

fn named_by_result(alloc: Global, value: &Option<Term>) -> Result<Sequence<usize>, AllocError>
    ensures { IfOk result (λ names. items_of names ≡ globals_in_result (option_map term_of value.now)) }
{
    match value {
        Some(term) => named_by(alloc, term),
        None => Ok(Sequence::new(alloc)),
    }
}

/// The globals that a statement names, where it calls nothing and has no others inside.
fn named_by_plain(alloc: Global, step: &Step) -> Result<Sequence<usize>, AllocError>
    ensures { IfOk result (λ names. items_of names ≡ plain_names step.now) }
{
    let mut names = Sequence::new(alloc);
    match step {
        Step::SetLocal { value, .. } | Step::Output { value, .. } => name_term(&mut names, value)?,
        Step::SetScalar { global, value, .. } => {
            names.push(*global)?;
            name_term(&mut names, value)?;
        }
        Step::SetElement {
            global,
            index,
            value,
            ..
        } => {
            names.push(*global)?;
            name_term(&mut names, index)?;
            name_term(&mut names, value)?;
        }
        Step::Block { .. }
        | Step::Input { .. }
        | Step::If { .. }
        | Step::For { .. }
        | Step::While { .. }
        | Step::Call { .. } => (),
    }
    Ok(names)
}

// ---- statements

/// One that calls nothing, and has no others inside.
#[tactic(auto, using(crate::proofs::BlockCuts::plain_put))]
fn put_plain<'a>(
    code: &'a [Piece],
    names: Sequence<usize>,
    parts: &mut Sequence<Part<'a>>,
) -> Result<(), AllocError>
    ensures { OnOk result (parts_of (items_of parts.new) ≡ joined (parts_of (items_of parts.old)) (plain (pieces_of code.now) (items_of names) ended)) }
{
    parts.push(Part::Plain { code, names })?;
    Ok(())
}

/// A choice.
#[tactic(auto, using(crate::proofs::BlockCuts::choice_put))]
fn put_choice<'a>(
    code: &'a [Piece],
    names: Sequence<usize>,
    condition: &'a [Piece],
    skips: u32,
    taken: Sequence<Part<'a>>,
    other: Sequence<Part<'a>>,
    parts: &mut Sequence<Part<'a>>,
) -> Result<(), AllocError>
    ensures { OnOk result (parts_of (items_of parts.new) ≡ joined (parts_of (items_of parts.old))
        (choice (pieces_of code.now) (items_of names) (pieces_of condition.now) skips (parts_of (items_of taken.entry)) (parts_of (items_of other.entry)) ended)) }
{
    parts.push(Part::Choice {
        code,
        names,
        condition,
        skips,
        taken,
        other,
    })?;
    Ok(())
}

/// A call.
#[tactic(auto, using(crate::proofs::BlockCuts::calling_put))]
fn put_calling<'a>(
    code: &'a [Piece],
    names: Sequence<usize>,
    arguments: &'a [Piece],
    count: usize,
    callee: usize,
    landing: &'a [Piece],
    parts: &mut Sequence<Part<'a>>,
) -> Result<(), AllocError>
    ensures { OnOk result (parts_of (items_of parts.new) ≡ joined (parts_of (items_of parts.old))
        (calling (pieces_of code.now) (items_of names) (pieces_of arguments.now) count callee (pieces_of landing.now) ended)) }
{
    parts.push(Part::Calling {
        code,
        names,
        arguments,
        count,
        callee,
        landing,
    })?;
    Ok(())
}

/// A loop that stands at `at`.
#[tactic(auto, using(crate::proofs::BlockCuts::turning_put))]
fn put_turning<'a>(
    code: &'a [Piece],
    names: Sequence<usize>,
    first: &'a [Piece],
    at: &'a [Piece],
    before: &'a [Piece],
    body: Sequence<Part<'a>>,
    behind: &'a [Piece],
    parts: &mut Sequence<Part<'a>>,
) -> Result<(), AllocError>
    ensures { OnOk result (parts_of (items_of parts.new) ≡ joined (parts_of (items_of parts.old))
        (turning (pieces_of code.now) (items_of names) (pieces_of first.now) (turns_in (pieces_of at.now)) (head_in (pieces_of at.now)) (pieces_of before.now) (parts_of (items_of body.entry)) (pieces_of behind.now) ended)) }
{
    let turns = turns_in(at);
    let head = head_in(at);
    parts.push(Part::Turning {
        code,
        names,
        first,
        turns,
        head,
        before,
        body,
        behind,
    })?;
    Ok(())
}

/// A step's statements behind others, where these pieces begin with its code.
#[cycle(outlines)]
fn put_step<'a>(
    alloc: Global,
    step: &Step,
    code: &'a [Piece],
    target: Target,
    parts: &mut Sequence<Part<'a>>,
) -> Result<(), AllocError>
    ensures { OnOk result (parts_of (items_of parts.new) ≡ joined (parts_of (items_of parts.old)) (cut_step target step.now (pieces_of code.now))) }
{
    match step {
        Step::Block { body } => put_steps(alloc, body.items(), code, target, parts),
        Step::If {
            condition,
            taken,
            other,
            ..
        } => {
            let names = named_by(alloc, condition)?;
            let inside = behind_term(condition, target, code);
            let taken = parts_of_step(alloc, taken, first_side(inside), target)?;
            let second = second_side(inside);
            let other = parts_of_step(alloc, other, second, target)?;
            let all = before(code, tail(inside));
            let head = before(code, inside);
            put_choice(all, names, head, skips(second), taken, other, parts)
        }
        Step::For {
            low,
            high,
            body,
            ..
        } => {
            let names = named_by_both(alloc, low, high)?;
            let at = tail(behind_term(low, target, code));
            let inner = body_in(at);
            put_turns(alloc, names, body, code, at, inner, inner, target, parts)
        }
        Step::While {
            condition,
            body,
            ..
        } => {
            let names = named_by(alloc, condition)?;
            let at = behind_two(code);
            let inner = body_in(at);
            put_turns(
                alloc,
                names,
                body,
                code,
                at,
                inner,
                tail(inner),
                target,
                parts,
            )
        }
        Step::Call {
            callee,
            arguments,
            ..
        } => put_call(alloc, *callee, arguments.items(), step, code, target, parts),
        Step::SetLocal { .. }
        | Step::SetScalar { .. }
        | Step::SetElement { .. }
        | Step::Output { .. }
        | Step::Input { .. } => {
            let names = named_by_plain(alloc, step)?;
            put_plain(before(code, behind_step(step, target, code)), names, parts)
        }
    }
}

#[cycle(outlines)]
fn put_steps<'a>(
    alloc: Global,
    steps: &[Step],
    code: &'a [Piece],
    target: Target,
    parts: &mut Sequence<Part<'a>>,
) -> Result<(), AllocError>
    ensures { OnOk result (parts_of (items_of parts.new) ≡ joined (parts_of (items_of parts.old)) (cut_list target steps.now (pieces_of code.now))) }
{
    let mut rest = code;
    for step in steps {
        put_step(alloc, step, rest, target, parts)?;
        rest = behind_step(step, target, rest);
    }
    Ok(())
}

/// A step's statements alone.
#[cycle(outlines)]
fn parts_of_step<'a>(
    alloc: Global,
    step: &Step,
    code: &'a [Piece],
    target: Target,
) -> Result<Sequence<Part<'a>>, AllocError>
    ensures { IfOk result (λ parts. parts_of (items_of parts) ≡ cut_step target step.now (pieces_of code.now)) }
{
    let mut parts = Sequence::new(alloc);
    put_step(alloc, step, code, target, &mut parts)?;
    Ok(parts)
}

/// A loop that stands at `at`, and the statements of its body at `inside`.
#[cycle(outlines)]
fn put_turns<'a>(
    alloc: Global,
    names: Sequence<usize>,
    body: &Step,
    code: &'a [Piece],
    at: &'a [Piece],
    inner: &'a [Piece],
    inside: &'a [Piece],
    target: Target,
    parts: &mut Sequence<Part<'a>>,
) -> Result<(), AllocError>
    ensures { OnOk result (parts_of (items_of parts.new) ≡ joined (parts_of (items_of parts.old))
        (turning (before_pieces (pieces_of code.now) (tail_of (pieces_of at.now))) (items_of names) (before_pieces (pieces_of code.now) (pieces_of at.now)) (turns_in (pieces_of at.now)) (head_in (pieces_of at.now))
        (before_pieces (pieces_of inner.now) (pieces_of inside.now)) (cut_step target body.now (pieces_of inside.now)) (behind_step target body.now (pieces_of inside.now)) ended)) }
{
    let statements = parts_of_step(alloc, body, inside, target)?;
    let all = before(code, tail(at));
    let first = before(code, at);
    let start = before(inner, inside);
    let end = behind_step(body, target, inside);
    put_turning(all, names, first, at, start, statements, end, parts)
}

/// A call, which is this step.
fn put_call<'a>(
    alloc: Global,
    callee: usize,
    arguments: &[Term],
    step: &Step,
    code: &'a [Piece],
    target: Target,
    parts: &mut Sequence<Part<'a>>,
) -> Result<(), AllocError>
    ensures { OnOk result (parts_of (items_of parts.new) ≡ joined (parts_of (items_of parts.old))
        (calling (before_pieces (pieces_of code.now) (behind_step target step.now (pieces_of code.now))) (globals_in_terms (map term_of arguments.now)) (before_pieces (pieces_of code.now) (behind_terms target (map term_of arguments.now) (pieces_of code.now)))
        (length arguments.now) callee (before_pieces (tail_of (behind_terms target (map term_of arguments.now) (pieces_of code.now))) (behind_step target step.now (pieces_of code.now))) ended)) }
{
    let jump = behind_terms(arguments, target, code);
    let rest = behind_step(step, target, code);
    let names = named(alloc, arguments)?;
    let all = before(code, rest);
    let first = before(code, jump);
    let landing = before(tail(jump), rest);
    put_calling(all, names, first, arguments.len(), callee, landing, parts)
}

/// The outline of a function that has this code.
pub fn outline_of<'a>(
    alloc: Global,
    routine: &Routine<'_>,
    code: &'a [Piece],
    target: Target,
) -> Result<Outline<'a>, AllocError>
    ensures { IfOk result (IsOutline target routine.now (pieces_of code.now)) }
{
    let locals = routine.locals.items();
    let inside = behind_terms(locals, target, tail(code));
    let leaving = behind_step(&routine.body, target, inside);
    let entry_names = named(alloc, locals)?;
    let body = parts_of_step(alloc, &routine.body, inside, target)?;
    let leaving_names = named_by_result(alloc, &routine.result)?;
    Ok(Outline {
        entry: before(code, inside),
        entry_names,
        body,
        leaving,
        leaving_names,
    })
}
