// Laws over the definitions; each is the contract of a function that does nothing.
ghost use Rattle.prem_compile.specs.Colors.{ColorsAreLawful, ColorsLeaveNoConflict};

/// Where all parts of a set have places with offsets, of which the last one ends within memory, these are lawful, and no task has a conflict in the
/// cache there.
pub fn colors_leave_no_conflict()
    ensures lawful { ColorsAreLawful }
    ensures conflict { ColorsLeaveNoConflict }
{}
