// The numbers of a counting loop.
ghost use Rattle.std.specs.Prelude.{◌≡◌, ◌≤ℤ◌, ◌*◌, ◌+◌, ◌^◌, ◌≤◌, min, pos, negsuc};
ghost use Rattle.prem_word.specs.declared.kind.Kind.TheVariants.{Int};
ghost use Rattle.prem_word.specs.Ranges.{from_to, whole, encloses};
ghost use Rattle.prem_ranges.specs.RangeRules.{first_of};
ghost use Rattle.prem_ranges.specs.RangeBreaches.{in_turns, in_counting_loop};
ghost use Rattle.prem_ranges.specs.After.{end_of, turn_bound, body_range, range_behind};
ghost use Rattle.prem_analysis.specs.Ranging.View.{span_of, found_of};

use crate::ranging::found::{Broken, Rule, earlier, if_at};
use crate::ranging::range::Range;
use crate::ranging::table::whole_range;
use prem_syntax::Place;
use prem_word::Kind;

/// One past the greatest product of turn bounds that is allowed: products are counted so far.
const PAST: u64 = 1099511627777;

/// The least number that a loop's variable doesn't reach in the body.
pub fn end_of(closed: bool, high: Range) -> i64
    ensures end { result ≡ end_of closed (span_of high) }
    ensures least { negsuc 2147483647 ≤ℤ result }
    ensures greatest { result ≤ℤ pos 4294967296 }
{
    if closed { high.hi + 1 } else { high.hi }
}

/// Turns from the least first value up to the end, rounded up; none where there is no step.
pub fn turn_bound(low: Range, end: i64, step: u32) -> u64
    requires least { negsuc 2147483647 ≤ℤ end }
    requires greatest { end ≤ℤ pos 4294967296 }
    ensures { result ≡ turn_bound (span_of low).lo end step }
{
    if end <= low.lo || step == 0 {
        0
    } else {
        ((end - low.lo) as u64 + (u64::from(step) - 1)) / u64::from(step)
    }
}

/// The variable in the body.
pub fn body_range(low: Range, end: i64) -> Range
    requires least { negsuc 2147483647 ≤ℤ end }
    requires greatest { end ≤ℤ pos 4294967296 }
    ensures { span_of result ≡ body_range (span_of low) end }
{
    Range {
        lo: low.lo,
        hi: low.lo.max(end - 1),
    }
}

fn is_within_int(lo: i64, hi: i64) -> bool
    ensures { result ≡ encloses (whole Int) (from_to lo hi) }
{
    -2147483648 <= lo && hi <= 2147483647
}

/// The variable behind the loop: any int where the loop breaks a rule.
pub fn range_behind(low: Range, end: i64, step: u32) -> Range
    requires least { negsuc 2147483647 ≤ℤ end }
    requires greatest { end ≤ℤ pos 4294967296 }
    ensures { span_of result ≡ range_behind (span_of low) end step }
{
    let hi = low.hi.max(end - 1 + i64::from(step));
    if is_within_int(low.lo, hi) {
        return Range { lo: low.lo, hi };
    }
    whole_range(Kind::Int)
}

/// The product of turn bounds, counted up to one past the greatest that is allowed.
pub fn times(around: u64, turns: u64) -> u64
    ensures { result ≡ min (around * turns) (2 ^ 40 + 1) }
{
    around.saturating_mul(turns).min(PAST)
}

/// The first rule that a loop's size breaks, where the loops around it, and it, have so many turns.
pub fn in_turns(at: Place, turns: u64) -> Option<Broken>
    ensures { found_of result ≡ first_of (in_turns at turns) }
{
    if_at(1099511627776 < turns, at, Rule::TooLarge)
}

/// The first rule that a counting loop breaks.
#[tactic(auto, using(prem_ranges::proofs::FirstBreach::first_of_append))]
pub fn in_counting_loop(at: Place, end: i64, step: u32, turns: u64) -> Option<Broken>
    requires least { negsuc 2147483647 ≤ℤ end }
    requires greatest { end ≤ℤ pos 4294967296 }
    ensures { found_of result ≡ first_of (in_counting_loop at end step turns) }
{
    let past = 2147483647 < end - 1 + i64::from(step);
    earlier(if_at(past, at, Rule::LoopBound), in_turns(at, turns))
}
