// Laws of what the generator asks of a program.
ghost use Rattle.prem_gen.specs.Codes.Codes.{WellFormedAreSmall, CalleesAreAmongAll};

/// In a well-formed program each function whose frame may be has small numbers.
pub fn well_formed_programs_are_small()
    ensures { WellFormedAreSmall }
{}

/// Where the frames of all functions may be, those of callees may.
pub fn callees_fit_where_all_do()
    ensures { CalleesAreAmongAll }
{}
