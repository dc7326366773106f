// The breaches in globals and in regions of them.
ghost use Rattle.std.specs.Prelude.{◌≡◌, ◌||◌, nat_lt, nat_le, unwrap_or, map};
ghost use Rattle.std.specs.Option.{option_map};
ghost use Rattle.prem_syntax.specs.Name.{name_bytes};
ghost use Rattle.prem_syntax.specs.SyntaxOf.{initial_of, global_of, region_of, mark_of};
ghost use Rattle.prem_syntax.specs.Resolve.{find_global};
ghost use Rattle.prem_syntax.specs.Rules.{first_of};
ghost use Rattle.prem_syntax.specs.Breaches.{is_initial, in_global, in_region, in_regions, regions_of};
ghost use Rattle.prem_names.specs.Scopes.{scope_of};
ghost use Rattle.prem_check.specs.FoundOf.{found_of};

use crate::call::is_void;
use crate::declaration::has_name;
use crate::found::{Broken, Rule, broken_at, earlier, if_at, if_type_at};
use prem_names::{Index, Names};
use prem_syntax::{Global, Initial, Mark, Region, TypeRule};

fn is_initial(len: Option<u32>, initial: &Initial) -> bool
    ensures { result ≡ is_initial len (initial_of initial.now) }
{
    match initial {
        Initial::Absent => true,
        Initial::One { .. } => len.is_none(),
        Initial::Many { values } => match len {
            Some(n) => values.items().len() <= n as usize,
            None => false,
        },
    }
}

/// The first breach in a global, behind items with these names.
#[tactic(auto, using(crate::proofs::First::first_of_append))]
pub fn in_global<'a>(before: &Index, g: &'a Global) -> Option<Broken<'a>>
    ensures { found_of result ≡ first_of (in_global (before.now) (global_of g.now)) }
{
    let twice = if_at(
        has_name(before, &g.name),
        g.at,
        Rule::Twice { name: &g.name },
    );
    let void = if_type_at(is_void(g.ty), g.at, TypeRule::Void);
    let initial = if_type_at(!is_initial(g.len, &g.initial), g.at, TypeRule::Initial);
    earlier(earlier(twice, void), initial)
}

/// Whether a region isn't a range of a global's elements.
fn is_outside(r: &Region, g: &Global) -> bool
    ensures { result ≡ (nat_lt r.now.high r.now.low || nat_le (unwrap_or g.now.len 1) r.now.high) }
{
    r.high < r.low || g.len.unwrap_or(1) <= r.high
}

fn in_region<'a>(names: &Names, r: &'a Region) -> Option<Broken<'a>>
    ensures { found_of result ≡ first_of (in_region (region_of r.now) (find_global (scope_of names.now) (name_bytes r.now.name))) }
{
    match names.find_global(&r.name) {
        Some((_, g)) => if_type_at(is_outside(r, g), r.at, TypeRule::Region),
        None => broken_at(r.at, Rule::Unknown { name: &r.name }),
    }
}

#[tactic(auto, using(crate::proofs::First::first_none))]
fn in_regions<'a>(names: &Names, regions: &'a [Region]) -> Option<Broken<'a>>
    ensures { found_of result ≡ first_of (in_regions (scope_of names.now) (map region_of regions.now)) }
{
    let mut found = None;
    for region in regions {
        found = earlier(found, in_region(names, region));
    }
    found
}

/// The first breach in the regions of a mark.
pub fn in_mark<'a>(names: &Names, mark: &'a Option<Mark>) -> Option<Broken<'a>>
    ensures { found_of result ≡ first_of (in_regions (scope_of names.now) (regions_of (option_map mark_of mark.now))) }
{
    match mark {
        Some(mark) => in_regions(names, mark.regions.items()),
        None => None,
    }
}
