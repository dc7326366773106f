// The law of places, as the contract of a function that does nothing.
ghost use Rattle.prem_foot.specs.Laws.{PlacesAreExact};
ghost use Rattle.prem_foot.specs.Standing.{PlansStand};

/// The places of a program in memory are those of the program that it stands for.
pub fn places_are_exact()
    ensures { PlacesAreExact }
{}

/// Where the parts of a well-formed program stand, its plans may be looked at with their places.
pub fn plans_stand()
    ensures { PlansStand }
{}
