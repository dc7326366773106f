//! Laws: the parts of each task of a set have places at which their code may stand.
ghost use Rattle.prem_place.specs.Stand.Lying.{PlacesLie, FirstStands, OthersLie};

/// Parts that have places within memory, of which no two share a byte, lie there one by one.
pub fn places_lie()
    ensures { PlacesLie }
{}

/// Where parts lie, those of the first task stand: they have addresses, and their code lies apart and ends within memory.
pub fn first_stands()
    ensures { FirstStands }
{}

/// Where parts lie, those behind the first task's parts do.
pub fn others_lie()
    ensures { OthersLie }
{}
