// What holds of line tables.
ghost use Rattle.prem_profile.specs.Lines.Laws.{LinesAreForWords, TablesAreOfFunctions};

/// Each word of the code of a function has a line, and so has each word of its terms and steps, whatever registers, slots and parts it names.
#[tactic(auto, using(crate::proofs::LinesLemmas::Words::lines_are_for_words))]
pub fn lines_are_for_words()
    ensures { LinesAreForWords }
{}

/// The line table that is made for a function in memory is that of the function for which it stands.
#[tactic(auto, using(crate::proofs::LinesLemmas::Before::routine_lines_are))]
pub fn tables_are_of_functions()
    ensures { TablesAreOfFunctions }
{}
