//! Runs of task sets that break no rule: what a run file gives suits them, each of their states is good, and they end as finished or at their limit.
ghost use Rattle.prem_running.specs.RunSound.Runs.{InputsAreLawful, RunFilesSuit, SetReportsEnd, SetRunsAreGood, SoundReportsEnd, SoundRunsNeverFill};

/// What a run file in form gives, by the names of an image, suits its runs: a list of words for each task, and requests in order of cycle,
/// of devices and lines that exist, which put words. By the names of a set that breaks no rule it suits runs of the set's image.
pub fn inputs_are_lawful()
    ensures image { RunFilesSuit }
    ensures set { InputsAreLawful }
{}

/// A run of a sound image never traps, and fills no log before it has finished. So a report of it, up to any cycle, tells that it has
/// finished or that it was stopped there, and from the image's limit on that it has finished.
pub fn sound_runs_never_fill()
    ensures room { SoundRunsNeverFill }
    ensures reports { SoundReportsEnd }
{}

/// By any run file in form each state of the run of a set that breaks no rule is good, in the words of what its sources mean, and reports of
/// the run end so.
pub fn set_runs_are_good()
    ensures good { SetRunsAreGood }
    ensures reports { SetReportsEnd }
{}
