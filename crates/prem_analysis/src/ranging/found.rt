// The first broken rule among those that are found.
ghost use Rattle.std.specs.Prelude.{◌≡◌};
ghost use Rattle.prem_ranges.specs.RangeRules.{rank, comes_before, first, first_of, if_at};
ghost use Rattle.prem_analysis.specs.Ranging.View.{rule_of, breach_of, found_of};

use crate::ranging::range::Range;
use prem_syntax::Place;
use prem_word::Kind;

/// A local's kind, and the range in which its value lies.
#[derive(Clone, Copy)]
pub struct Known {
    pub kind: Kind,
    pub range: Range,
}

/// A rule on ranges that is broken.
#[derive(Clone, Copy)]
pub enum Rule {
    LoopBound,
    TooLarge,
    ZeroDivisor {
        range: Range,
    },
    IndexOutside {
        range: Range,
        len: u32,
    },
    RegionOutside {
        function: usize,
        range: Range,
        global: usize,
    },
    ArgRange {
        range: Range,
        stated: (i64, i64),
    },
}

/// A rule that is broken at a place.
#[derive(Clone, Copy)]
pub struct Broken {
    pub at: Place,
    pub rule: Rule,
}

fn rank(rule: Rule) -> u32
    ensures { result ≡ rank (rule_of rule) }
{
    match rule {
        Rule::LoopBound => 0,
        Rule::TooLarge => 1,
        Rule::ZeroDivisor { .. } => 2,
        Rule::IndexOutside { .. } => 3,
        Rule::RegionOutside { .. } => 4,
        Rule::ArgRange { .. } => 5,
    }
}

fn comes_before(a: Broken, b: Broken) -> bool
    ensures { result ≡ comes_before (breach_of a) (breach_of b) }
{
    let (p, q) = (a.at, b.at);
    p.line < q.line
        || (p.line == q.line && (p.col < q.col || (p.col == q.col && rank(a.rule) < rank(b.rule))))
}

/// The first of two, where there are any: the left one where neither comes before the other.
pub fn earlier(a: Option<Broken>, b: Option<Broken>) -> Option<Broken>
    ensures { found_of result ≡ first (found_of a) (found_of b) }
{
    match (a, b) {
        (None, _) => b,
        (Some(_), None) => a,
        (Some(left), Some(right)) => { if comes_before(right, left) { b } else { a } }
    }
}

/// A rule at a place, where it is broken.
pub fn if_at(broken: bool, at: Place, rule: Rule) -> Option<Broken>
    ensures { found_of result ≡ first_of (if_at broken at (rule_of rule)) }
{
    if broken {
        Some(Broken { at, rule })
    } else {
        None
    }
}
