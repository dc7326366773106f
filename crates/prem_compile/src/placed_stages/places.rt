// The rule on memory: the parts of a set have places.
ghost use Rattle.std.specs.Prelude.{◌≡◌, ◌≤◌, IfOk, None};
ghost use Rattle.prem_plant.specs.Places.{AreLawful, default_places, last_end};
ghost use Rattle.prem_plant.specs.Ranges.{IsPlant};
ghost use Rattle.prem_layout.specs.Rules.{refused_by, memory_rules};
ghost use Rattle.prem_prefetch.specs.Sizes.Sizes.{MayHavePlaces};
ghost use Rattle.prem_compile.specs.PlacedStages.Late.{EndsLate};

use crate::placed_stages::refusals::refused_whole;
use prem_plant::{Layout, PartSize, Plant, PlantFail};
use prem_prefetch::sizes::place;
use prem_tasks::{Rule, Stop};
use std::alloc::Global;

/// The places of the parts of a set, one behind another from address 0 up, or that the set as a whole passes the end of
/// memory.
pub fn places_of(alloc: Global, parts: &[PartSize], plant: &Plant) -> Result<Layout, Stop>
    requires parts { MayHavePlaces plant.now.line parts.now }
    requires plant { IsPlant plant.now }
    ensures ends { EndsLate result (refused_by None (memory_rules plant.now (default_places parts.now))) }
    ensures places { IfOk result (λ layout. layout ≡ default_places parts.now) }
    ensures lawful { IfOk result (AreLawful plant.now.line plant.now.memory parts.now) }
    ensures within { IfOk result (λ layout. last_end layout ≤ plant.now.memory) }
{
    match place(alloc, parts, plant) {
        Ok(layout) => Ok(layout),
        Err(PlantFail::MemoryFull { need, have }) => {
            Err(refused_whole(alloc, Rule::MemoryFull { need, have }))
        }
        Err(PlantFail::OutOfMemory) => Err(Stop::OutOfMemory),
    }
}
