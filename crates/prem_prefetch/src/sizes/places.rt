// The places of the parts of a set.
ghost use Rattle.std.specs.Prelude.{◌≡◌, ◌≤◌, IfOk, IfErr, OnOk, None};
ghost use Rattle.prem_plant.specs.Places.{AreLawful, default_places, last_end};
ghost use Rattle.prem_plant.specs.Ranges.{IsPlant};
ghost use Rattle.prem_layout.specs.Rules.{memory_rules};
ghost use Rattle.prem_prefetch.specs.Sizes.Sizes.{MayHavePlaces};
ghost use Rattle.prem_prefetch.specs.Sizes.Full.{TellsMemory};

use prem_plant::{Layout, PartSize, Plant, PlantFail, place_parts};
use std::alloc::Global;

/// Places the parts of a set one behind another from address 0 up, each at the next multiple of its alignment.
///
/// `MemoryFull` comes exactly where the last of them would end past memory, and tells its end and the bytes of memory;
/// `OutOfMemory` comes only for want of memory.
pub fn place(alloc: Global, parts: &[PartSize], plant: &Plant) -> Result<Layout, PlantFail>
    requires parts { MayHavePlaces plant.now.line parts.now }
    requires plant { IsPlant plant.now }
    ensures places { IfOk result (λ layout. layout ≡ default_places parts.now) }
    ensures lawful { IfOk result (AreLawful plant.now.line plant.now.memory parts.now) }
    ensures within { OnOk result (last_end (default_places parts.now) ≤ plant.now.memory) }
    ensures kept { OnOk result (memory_rules plant.now (default_places parts.now) ≡ None) }
    ensures full { IfErr result (TellsMemory (memory_rules plant.now (default_places parts.now))) }
{
    place_parts(alloc, parts, plant)
}
