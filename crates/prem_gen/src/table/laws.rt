// Laws of the table.
ghost use Rattle.prem_gen.specs.Table.Table.{TableTells, StubsAreCounted};
ghost use Rattle.prem_gen.specs.Table.Same.{CodeIsByCalls};

/// The table has the frames, registers and parts that the templates name, and the globals stand behind the stubs.
pub fn table_tells_of_calls()
    ensures calls { TableTells }
    ensures globals { StubsAreCounted }
{}

/// The code of steps is by what is told of the functions that they call, and of the globals.
pub fn code_is_by_calls()
    ensures { CodeIsByCalls }
{}
