// The areas of a marked function.
ghost use Rattle.std.specs.Prelude.{◌≡◌, ◌++◌, map, IfOk, OnOk};
ghost use Rattle.std.specs.List.{flat_map};
ghost use Rattle.std.specs.Option.{option_map};
ghost use Rattle.prem_list.specs.Sequence.{items_of};
ghost use Rattle.prem_syntax.specs.Name.{name_bytes};
ghost use Rattle.prem_syntax.specs.Syntax.{RegionText, GlobalVariable};
ghost use Rattle.prem_syntax.specs.SyntaxOf.{global_of, region_of};
ghost use Rattle.prem_syntax.specs.Resolve.{find_named};
ghost use Rattle.prem_ranges.specs.Regions.{area_of as area_in};
ghost use Rattle.prem_analysis.specs.Ranging.SiteOf.{area_of};

use crate::ranging::Area;
use prem_list::Sequence;
use prem_syntax::{Global, Name, Region};
use std::alloc::{AllocError, Global as Allocator};

/// The number of the first global with a name.
fn number_of(globals: &[&Global], name: &Name) -> Option<usize>
    ensures { result ≡ option_map (λ found. found.0) (find_named (λ (g : GlobalVariable). g.name) (name_bytes name.now) 0 (map (λ g. global_of g.now) globals.now)) }
{
    for (k, global) in globals.iter().enumerate() {
        if global.name.bytes() == name.bytes() {
            return Some(k);
        }
    }
    None
}

fn add_area(
    globals: &[&Global],
    region: &Region,
    areas: &mut Sequence<Area>,
) -> Result<(), AllocError>
    ensures { OnOk result (map area_of (items_of areas.new) ≡ map area_of (items_of areas.old)
        ++ area_in (region_of region.now) (find_named (λ (g : GlobalVariable). g.name) (name_bytes region.now.name) 0 (map (λ g. global_of g.now) globals.now))) }
{
    if let Some(global) = number_of(globals, &region.name) {
        areas.push(Area {
            global,
            low: region.low,
            high: region.high,
        })?;
    }
    Ok(())
}

/// The areas that regions state.
pub fn areas_of(
    alloc: Allocator,
    globals: &[&Global],
    regions: &[Region],
) -> Result<Sequence<Area>, AllocError>
    ensures { IfOk result (λ areas. map area_of (items_of areas)
        ≡ flat_map (λ (r : RegionText). area_in r (find_named (λ (g : GlobalVariable). g.name) r.name 0 (map (λ g. global_of g.now) globals.now))) (map region_of regions.now)) }
{
    let mut areas = Sequence::new(alloc);
    for region in regions {
        add_area(globals, region, &mut areas)?;
    }
    Ok(areas)
}
