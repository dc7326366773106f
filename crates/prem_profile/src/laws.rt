// What holds of all profiles.
ghost use Rattle.prem_profile.specs.Totals.{TotalsAreReported};
ghost use Rattle.prem_profile.specs.Entries.{LinesAddUp, ProfilesAreRead, RowsAddUp};
ghost use Rattle.prem_profile.specs.Answer.{ProfilesAddUp};

/// All that is spent in a run comes to what its report tells: the instructions that it executes, the cycles that pass, the misses, and the
/// lines that are written back.
#[tactic(auto, using(crate::proofs::Turns::totals_are_reported))]
pub fn totals_are_reported()
    ensures { TotalsAreReported }
{}

/// What all rows of a run's profile cost is all that is spent in the run.
#[tactic(auto, using(crate::proofs::RowsAdd::rows_add_up))]
pub fn rows_add_up()
    ensures { RowsAddUp }
{}

/// The text of a profile keeps to the grammar of callgrind's format, and its lines tell the costs of its rows, each at the place of its row.
#[tactic(auto, using(crate::proofs::Reading::profiles_are_read))]
pub fn profiles_are_read()
    ensures { ProfilesAreRead }
{}

/// What the lines of a profile tell adds up to what its rows cost.
#[tactic(auto, using(crate::proofs::Adding::lines_add_up))]
pub fn lines_add_up()
    ensures { LinesAddUp }
{}

/// The profile of a run keeps to the grammar, and its lines add up to the numbers of the run's report.
#[tactic(auto, using(crate::proofs::Summed::profiles_add_up))]
pub fn profiles_add_up()
    ensures { ProfilesAddUp }
{}
