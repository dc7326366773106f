// The regions around elements of globals.
ghost use Rattle.std.specs.Prelude.{◌≡◌, ◌<◌, ◌++◌, ◌≤ℤ◌, pos, length, map, IfOk, OnOk};
ghost use Rattle.std.specs.Option.{option_map};
ghost use Rattle.prem_list.specs.Sequence.{items_of};
ghost use Rattle.prem_syntax.specs.SyntaxOf.{global_of, region_of};
ghost use Rattle.prem_annotating.specs.Reached.{element_number, region_of as region_in};
ghost use Rattle.prem_analysis.specs.Ranging.View.{span_of};
ghost use Rattle.prem_annotate.specs.Ranges.Outlook.{outlook_of};
ghost use Rattle.prem_annotate.specs.Regions.Elements.{elements_of};
ghost use Rattle.prem_annotate.specs.Regions.Found.{regions_around, regions_found};

use crate::ranges::Outlook;
use crate::regions::elements::elements;
use prem_analysis::marks::reach_set;
use prem_analysis::ranging::Range;
use prem_list::Sequence;
use prem_syntax::{Global, Place, Region, copy_name};
use std::alloc::{AllocError, Global as Allocator};

/// An element's number; an index may be below 0 where that breaks a rule of its own.
fn element_number(z: i64) -> u32
    requires { z ≤ℤ pos 4294967295 }
    ensures { result ≡ element_number z }
{
    z.max(0) as u32
}

/// The region from the least to the greatest element of a range.
fn region(alloc: Allocator, at: Place, global: &Global, r: Range) -> Result<Region, AllocError>
    ensures { IfOk result (λ q. region_of q ≡ record { at = at; name = (global_of global.now).name; low = element_number (span_of r).lo; high = element_number (span_of r).hi }) }
{
    Ok(Region {
        at,
        name: copy_name(alloc, &global.name)?,
        low: element_number(r.lo),
        high: element_number(r.hi),
    })
}

/// The region around the elements of a global, if there are any, is put behind others.
fn add_region(
    alloc: Allocator,
    at: Place,
    global: &Global,
    elements: Option<Range>,
    regions: &mut Sequence<Region>,
) -> Result<(), AllocError>
    ensures { OnOk result (map region_of (items_of regions.new) ≡ map region_of (items_of regions.old) ++ region_in at (global_of global.now).name (option_map span_of elements)) }
{
    if let Some(r) = elements {
        regions.push(region(alloc, at, global, r)?)?;
    }
    Ok(())
}

/// One region for each global that has elements.
fn regions_around(
    alloc: Allocator,
    at: Place,
    globals: &[&Global],
    elements: &[Option<Range>],
) -> Result<Sequence<Region>, AllocError>
    ensures { IfOk result (λ all. map region_of (items_of all) ≡ regions_around at (map (λ g. global_of g.now) globals.now) (elements_of elements.now)) }
{
    let mut all = Sequence::new(alloc);
    for k in 0..globals.len() {
        if k >= elements.len() {
            return Ok(all);
        }
        add_region(alloc, at, globals[k], elements[k], &mut all)?;
    }
    Ok(all)
}

/// The regions of a function, at its place: one for each global that it reaches, in the order of the globals.
///
/// What is found of all functions stands in their order, as do their callees. It fails only for want of memory.
pub fn regions_of(
    alloc: Allocator,
    at: Place,
    globals: &[&Global],
    table: &[Vec<usize>],
    outlooks: &[Outlook],
    n: usize,
) -> Result<Sequence<Region>, AllocError>
    requires { n < length table.now }
    ensures { IfOk result (λ all. map region_of (items_of all) ≡ regions_found at (map (λ g. global_of g.now) globals.now) (map (λ cs. cs.items) table.now) (map outlook_of outlooks.now) n) }
{
    let set = reach_set(alloc, table, n)?;
    let all = elements(alloc, globals, &set, outlooks)?;
    regions_around(alloc, at, globals, &all)
}
