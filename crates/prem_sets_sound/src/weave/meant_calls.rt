//! The marks of a woven run are the marked calls that the program means.
ghost use Rattle.prem_sets_sound.specs.Weave.MeantCalls.Shape.{JobsKeepShape};
ghost use Rattle.prem_sets_sound.specs.Weave.MeantCalls.Told.{MarksAreRead, MarksAreTold, WeavesTell};

/// A woven run tells its marks, and where it notes the marked calls of a program they are the same.
pub fn marks_are_told()
    ensures tells { WeavesTell }
    ensures marks { MarksAreTold }
    ensures reads { MarksAreRead }
    ensures shape { JobsKeepShape }
{}
