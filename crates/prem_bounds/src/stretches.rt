// Four sums of cycles, which tell the greatest stretches of paths, and how they go together.
ghost use Rattle.std.specs.Prelude.{◌≡◌, ◌-◌, ◌≤◌};
ghost use Rattle.prem_layout.specs.Stretch.Sums.{among, both, chained, cut, greatest, most, or_none, taking, turned};
ghost use Rattle.prem_bounds.specs.ToldSums.{AreTold, clip, sums_of};
ghost use Rattle.prem_bounds.specs.Turns.{again, behind_turns, before_turns, between_turns, repeated};

use crate::scale::{ENOUGH, times};

/// Of some paths, in cycles: the greatest sum of one that isn't cut; of those that are, the greatest before the first
/// cut, between two cuts, and behind the last one.
#[derive(Clone, Copy)]
pub struct Sums {
    pub whole: Option<u64>,
    pub before: Option<u64>,
    pub between: Option<u64>,
    pub behind: Option<u64>,
}

/// The greater sum.
fn most(a: Option<u64>, b: Option<u64>) -> Option<u64>
    ensures { result ≡ most a b }
{
    match a {
        None => b,
        Some(x) => match b {
            None => Some(x),
            Some(y) => Some(x.max(y)),
        },
    }
}

/// Both sums together, told up to 2^41.
fn sum_of_both(a: Option<u64>, b: Option<u64>) -> Option<u64>
    ensures { result ≡ clip (both a b) }
{
    match a {
        None => None,
        Some(x) => match b {
            None => None,
            Some(y) => Some(x.saturating_add(y).min(ENOUGH)),
        },
    }
}

/// A sum, or 0 where there is none.
fn or_none(a: Option<u64>) -> u64
    ensures { result ≡ or_none a }
{
    match a {
        None => 0,
        Some(x) => x,
    }
}

/// One path that takes so many cycles.
pub fn taking(cycles: u64) -> Sums
    ensures { sums_of result ≡ taking cycles }
{
    Sums {
        whole: Some(cycles),
        before: None,
        between: None,
        behind: None,
    }
}

/// A cut.
pub fn cut() -> Sums
    ensures { sums_of result ≡ cut }
{
    Sums {
        whole: None,
        before: Some(0),
        between: None,
        behind: Some(0),
    }
}

/// One path or the other.
pub fn among(a: Sums, b: Sums) -> Sums
    ensures { sums_of result ≡ among (sums_of a) (sums_of b) }
{
    Sums {
        whole: most(a.whole, b.whole),
        before: most(a.before, b.before),
        between: most(a.between, b.between),
        behind: most(a.behind, b.behind),
    }
}

/// One path behind the other.
pub fn chained(a: Sums, b: Sums) -> Sums
    ensures { AreTold result (chained (sums_of a) (sums_of b)) }
{
    let whole = sum_of_both(a.whole, b.whole);
    let through = sum_of_both(a.whole, b.before);
    let across = sum_of_both(a.behind, b.before);
    let out = sum_of_both(a.behind, b.whole);
    Sums {
        whole,
        before: most(a.before, through),
        between: most(most(a.between, b.between), across),
        behind: most(b.behind, out),
    }
}

/// So many turns without a cut, and a sum behind them.
fn repeated(turns: u32, whole: Option<u64>, sum: Option<u64>) -> Option<u64>
    ensures { clip result ≡ clip (repeated turns whole sum) }
{
    sum_of_both(Some(times(turns, or_none(whole))), sum)
}

/// Between the cuts of two turns with as many turns between them as there may be.
fn again(turns: u32, turn: Sums) -> Option<u64>
    ensures { clip result ≡ clip (again turns (sums_of turn)) }
{
    if turns < 2 {
        return None;
    }
    let next = repeated(turns - 2, turn.whole, turn.before);
    sum_of_both(turn.behind, next)
}

fn before_turns(turns: u32, turn: Sums, out: Sums) -> Option<u64>
    requires { 1 ≤ turns }
    ensures { clip result ≡ clip (before_turns (turns - 1) turns (sums_of turn) (sums_of out)) }
{
    let inside = repeated(turns - 1, turn.whole, turn.before);
    let outside = repeated(turns, turn.whole, out.before);
    most(inside, outside)
}

fn between_turns(turns: u32, turn: Sums, out: Sums) -> Option<u64>
    requires { 1 ≤ turns }
    ensures { clip result ≡ clip (between_turns (turns - 1) turns (sums_of turn) (sums_of out)) }
{
    let inside = most(turn.between, out.between);
    let rest = repeated(turns - 1, turn.whole, out.before);
    let last = sum_of_both(turn.behind, rest);
    let again = again(turns, turn);
    most(inside, most(again, last))
}

fn behind_turns(turns: u32, turn: Sums, out: Sums) -> Option<u64>
    requires { 1 ≤ turns }
    ensures { clip result ≡ clip (behind_turns (turns - 1) (sums_of turn) (sums_of out)) }
{
    let rest = repeated(turns - 1, turn.whole, out.whole);
    let last = sum_of_both(turn.behind, rest);
    most(out.behind, last)
}

/// So many turns at most, and the way out behind them.
pub fn turned(turns: u32, turn: Sums, out: Sums) -> Sums
    ensures { AreTold result (turned turns (sums_of turn) (sums_of out)) }
{
    if turns == 0 {
        return out;
    }
    let whole = repeated(turns, turn.whole, out.whole);
    let before = before_turns(turns, turn, out);
    let between = between_turns(turns, turn, out);
    let behind = behind_turns(turns, turn, out);
    Sums {
        whole,
        before,
        between,
        behind,
    }
}

/// The greatest stretch.
pub fn greatest(a: Sums) -> u64
    ensures { result ≡ greatest (sums_of a) }
{
    let first = or_none(a.whole).max(or_none(a.before));
    let second = or_none(a.between).max(or_none(a.behind));
    first.max(second)
}
