// The rules that an access can break.
ghost use Rattle.std.specs.Prelude.{◌≡◌, ◌&&◌, not, pos, ◌-ℤ◌, map, slice_get};
ghost use Rattle.prem_list.specs.Sequence.{items_of};
ghost use Rattle.prem_word.specs.Ranges.{from_to, encloses};
ghost use Rattle.prem_syntax.specs.SyntaxOf.{global_of};
ghost use Rattle.prem_syntax.specs.Reach.{is_in};
ghost use Rattle.prem_ranges.specs.Regions.{area_holds, areas_hold};
ghost use Rattle.prem_ranges.specs.RangeRules.{first_of};
ghost use Rattle.prem_ranges.specs.RangeBreaches.{length_of, in_watches, in_index, in_scalar, in_element};
ghost use Rattle.prem_analysis.specs.Ranging.View.{span_of, found_of};
ghost use Rattle.prem_analysis.specs.Ranging.SiteOf.{area_of, watches_at, site_of};

use crate::ranging::found::{Broken, Rule, earlier, if_at};
use crate::ranging::range::Range;
use crate::ranging::site::{Area, Marked, Site};
use prem_syntax::{Global, Place};

fn area_holds(g: usize, r: Range, a: Area) -> bool
    ensures { result ≡ area_holds g (span_of r) (area_of a) }
{
    a.global == g && i64::from(a.low) <= r.lo && r.hi <= i64::from(a.high)
}

/// Whether some area holds the elements of a range.
fn areas_hold(g: usize, r: Range, areas: &[Area]) -> bool
    ensures { result ≡ areas_hold g (span_of r) (map area_of areas.now) }
{
    for a in areas {
        if area_holds(g, r, *a) {
            return true;
        }
    }
    false
}

/// Whether a function is in a set of functions.
fn is_in(set: &[bool], n: usize) -> bool
    ensures { result ≡ is_in set.now n }
{
    set.get(n).copied().unwrap_or(false)
}

/// Whether a marked function watches over a function, and none of its areas holds the elements.
fn is_outside(number: usize, g: usize, r: Range, m: &Marked) -> bool
    ensures { result ≡ (is_in m.now.reached.items number && not (areas_hold g (span_of r) (map area_of (items_of m.now.areas)))) }
{
    is_in(&m.reached, number) && !areas_hold(g, r, m.areas.items())
}

/// The first watching function none of whose areas holds the elements.
fn in_watches(at: Place, g: usize, r: Range, number: usize, marked: &[Marked]) -> Option<Broken>
    ensures { found_of result ≡ first_of (in_watches at g (span_of r) (watches_at number marked.now)) }
{
    for m in marked {
        if is_outside(number, g, r, m) {
            return Some(Broken {
                at,
                rule: Rule::RegionOutside {
                    function: m.function,
                    range: r,
                    global: g,
                },
            });
        }
    }
    None
}

fn length_of(globals: &[&Global], g: usize) -> u32
    ensures { result ≡ length_of (slice_get (map (λ x. global_of x.now) globals.now) g) }
{
    match globals.get(g) {
        Some(global) => global.len.unwrap_or(1),
        None => 0,
    }
}

fn is_inside(r: Range, n: u32) -> bool
    ensures { result ≡ encloses (from_to (pos 0) (pos n -ℤ pos 1)) (span_of r) }
{
    0 <= r.lo && r.hi <= i64::from(n) - 1
}

fn in_index(at: Place, r: Range, n: u32) -> Option<Broken>
    ensures { found_of result ≡ first_of (in_index at (span_of r) n) }
{
    if_at(
        !is_inside(r, n),
        at,
        Rule::IndexOutside { range: r, len: n },
    )
}

/// The first rule that the access of a scalar breaks.
pub fn in_scalar(site: &Site, at: Place, g: usize) -> Option<Broken>
    ensures { found_of result ≡ first_of (in_scalar (site_of site.now) at g) }
{
    in_watches(at, g, Range { lo: 0, hi: 0 }, site.number, site.marked)
}

/// The first rule that the access of an element breaks.
#[tactic(auto, using(prem_ranges::proofs::FirstBreach::first_of_append))]
pub fn in_element(site: &Site, at: Place, g: usize, r: Range) -> Option<Broken>
    ensures { found_of result ≡ first_of (in_element (site_of site.now) at g (span_of r)) }
{
    earlier(
        in_index(at, r, length_of(site.globals, g)),
        in_watches(at, g, r, site.number, site.marked),
    )
}
