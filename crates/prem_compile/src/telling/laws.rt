// Laws over the definitions; each is the contract of a function that does nothing.
ghost use Rattle.prem_compile.specs.Telling.Laws.{PartsAreThere};

/// What the parts of a set are named by is there.
pub fn parts_are_there()
    ensures { PartsAreThere }
{}
