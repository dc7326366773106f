//! Laws: what the image of a task set that breaks no rule keeps of the set.
ghost use Rattle.prem_running.specs.SetLaws.Laws.{CompiledSetsKeepNames, LimitsAreSmall, RunFilesOfSetsFit};

/// The image of a set that breaks no rule has the set's names: run files speak of both by the same ones.
pub fn compiled_sets_keep_names()
    ensures { CompiledSetsKeepNames }
{}

/// So what is lawful by the names of such a set fits a run of its image.
pub fn run_files_of_sets_fit()
    ensures { RunFilesOfSetsFit }
{}

/// The jobs of a set that breaks no rule have ended by cycle 2^61.
pub fn limits_are_small()
    ensures { LimitsAreSmall }
{}
