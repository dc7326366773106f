// The first broken rule among those that are found.
ghost use Rattle.std.specs.Prelude.{◌≡◌, Option};
ghost use Rattle.prem_syntax.specs.Rules.{OfTypes, type_rank, rank, comes_before, first, first_of};
ghost use Rattle.prem_syntax.specs.Breaches.{broken_at, if_at};
ghost use Rattle.prem_check.specs.FoundOf.{rule_of, breach_of, found_of};

use prem_syntax::{Count, Name, Place, TypeRule};

/// A rule that is broken at a place, with the name that it is about.
#[derive(Clone, Copy)]
pub enum Rule<'a> {
    Unknown { name: &'a Name },
    Twice { name: &'a Name },
    OfTypes { rule: TypeRule },
    CallOrder,
    MarkedCall,
    SystemCall,
    LoopForm,
}

/// A rule that is broken, in the program as a whole or at a place.
#[derive(Clone, Copy)]
pub enum Broken<'a> {
    Limit { which: Count },
    NoJob,
    At { at: Place, rule: Rule<'a> },
}

fn type_rank(rule: TypeRule) -> u32
    ensures { result ≡ type_rank rule }
{
    match rule {
        TypeRule::Void => 0,
        TypeRule::Narrow => 1,
        TypeRule::Scalar => 2,
        TypeRule::Initial => 3,
        TypeRule::Count => 4,
        TypeRule::Target => 5,
        TypeRule::Return => 6,
        TypeRule::Marked => 7,
        TypeRule::Region => 8,
        TypeRule::Range => 9,
        TypeRule::Job => 10,
    }
}

fn rank(rule: Rule) -> u32
    ensures { result ≡ rank (rule_of rule.entry) }
{
    match rule {
        Rule::Unknown { .. } => 2,
        Rule::Twice { .. } => 3,
        Rule::OfTypes { rule } => 4 + type_rank(rule),
        Rule::CallOrder => 15,
        Rule::MarkedCall => 16,
        Rule::SystemCall => 17,
        Rule::LoopForm => 18,
    }
}

/// Whether one comes before another: the whole before all places, then by place, then by rule.
fn comes_before(a: Broken, b: Broken) -> bool
    ensures { result ≡ comes_before (breach_of a.entry) (breach_of b.entry) }
{
    match (a, b) {
        (Broken::At { at: p, rule }, Broken::At { at: q, rule: other }) => {
            p.line < q.line
                || (p.line == q.line
                    && (p.col < q.col || (p.col == q.col && rank(rule) < rank(other))))
        }
        (Broken::At { .. }, Broken::Limit { .. }) => false,
        (Broken::At { .. }, Broken::NoJob) => false,
        (Broken::Limit { .. }, Broken::Limit { .. }) => false,
        (Broken::Limit { .. }, Broken::NoJob) => true,
        (Broken::Limit { .. }, Broken::At { .. }) => true,
        (Broken::NoJob, Broken::Limit { .. }) => false,
        (Broken::NoJob, Broken::NoJob) => false,
        (Broken::NoJob, Broken::At { .. }) => true,
    }
}

/// The first of two, where there are any: the left one where neither comes before the other.
pub fn earlier<'a>(a: Option<Broken<'a>>, b: Option<Broken<'a>>) -> Option<Broken<'a>>
    ensures { found_of result ≡ first (found_of a.entry) (found_of b.entry) }
{
    match (a, b) {
        (None, _) => b,
        (Some(_), None) => a,
        (Some(left), Some(right)) => { if comes_before(right, left) { b } else { a } }
    }
}

/// A rule that is broken at a place.
pub fn broken_at<'a>(at: Place, rule: Rule<'a>) -> Option<Broken<'a>>
    ensures { found_of result ≡ first_of (broken_at at (rule_of rule.entry)) }
{
    Some(Broken::At { at, rule })
}

/// A rule at a place, where it is broken.
pub fn if_at<'a>(broken: bool, at: Place, rule: Rule<'a>) -> Option<Broken<'a>>
    ensures { found_of result ≡ first_of (if_at broken at (rule_of rule.entry)) }
{
    if broken { broken_at(at, rule) } else { None }
}

/// A rule on types at a place, where it is broken.
pub fn if_type_at<'a>(broken: bool, at: Place, rule: TypeRule) -> Option<Broken<'a>>
    ensures { found_of result ≡ first_of (if_at broken at (OfTypes rule)) }
{
    if_at(broken, at, Rule::OfTypes { rule })
}
