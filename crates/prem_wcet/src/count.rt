// Totals and stretches of paths with marked calls.
ghost use Rattle.std.specs.Prelude.{◌≡◌};
ghost use Rattle.prem_plant.specs.Ranges.{IsPlant};
ghost use Rattle.prem_wcet_laws.specs.Counts.{either_count, no_count, quiet, then_count, turned_count};
ghost use Rattle.prem_wcet.specs.Alike.{AreAlike};
ghost use Rattle.prem_wcet.specs.CountOf.{count_in, marked_by};

use prem_bounds::scale::{plus, times};
use prem_bounds::stretches::{Sums, among, chained, taking, turned};
use prem_bounds::{line_cost, marked_sums};
use prem_plant::Plant;

/// Of some paths, in cycles, told up to 2^41: the greatest total, and the four sums between marked calls.
#[derive(Clone, Copy)]
pub struct PathCount {
    pub total: u64,
    pub sums: Sums,
}

/// Of no path.
pub fn no_count() -> PathCount
    ensures { count_in result ≡ no_count }
{
    PathCount {
        total: 0,
        sums: Sums {
            whole: None,
            before: None,
            between: None,
            behind: None,
        },
    }
}

/// Without marked calls.
pub fn quiet(cycles: u64) -> PathCount
    ensures { count_in result ≡ quiet cycles }
{
    PathCount {
        total: cycles,
        sums: taking(cycles),
    }
}

/// One path behind the other.
pub fn then_count(a: PathCount, b: PathCount) -> PathCount
    ensures { AreAlike (count_in result) (then_count (count_in a) (count_in b)) }
{
    PathCount {
        total: plus(a.total, b.total),
        sums: chained(a.sums, b.sums),
    }
}

/// One path or the other.
pub fn either_count(a: PathCount, b: PathCount) -> PathCount
    ensures { AreAlike (count_in result) (either_count (count_in a) (count_in b)) }
{
    PathCount {
        total: a.total.max(b.total),
        sums: among(a.sums, b.sums),
    }
}

/// So many turns at most, and then out.
pub fn turned_count(turns: u32, turn: PathCount, out: PathCount) -> PathCount
    ensures { AreAlike (count_in result) (turned_count turns (count_in turn) (count_in out)) }
{
    PathCount {
        total: plus(times(turns, turn.total), out.total),
        sums: turned(turns, turn.sums, out.sums),
    }
}

/// What a marked call of such a length counts behind its jump.
pub fn marked_count(stated: u32, p: &Plant) -> PathCount
    requires { IsPlant p.now }
    ensures { count_in result ≡ marked_by p.now stated }
{
    let miss = line_cost(p);
    let switch = u64::from(p.switch);
    PathCount {
        total: 1 + miss + switch + u64::from(stated) + switch + (2 + miss),
        sums: marked_sums(p),
    }
}
