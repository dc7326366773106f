//! An image whose tasks run along weaves that give what is promised is sound.
ghost use Rattle.prem_sets_sound.specs.StubLaws.JoinedRuns.Joined.{JoinedImagesAreSound, JoinedRunsEnd};

/// An image is sound if, for all input words, the run of each task on its own goes along a weave that is due within the bounds of
/// its jobs, with the outputs, marks and final words that are promised.
pub fn joined_images_are_sound()
    ensures { JoinedImagesAreSound }
{}

/// Such a run ends without a trap, by as many instructions as the bounds of its jobs have cycles, with the outputs and the final words
/// that are promised.
pub fn joined_runs_end()
    ensures { JoinedRunsEnd }
{}
