// What annotating promises.
ghost use Rattle.prem_annotating.specs.Laws.{SameMeaning, OnceIsEnough, RangesAreInferred, RangesAreLeast, AnnotatedStaysInRange, RegionsAreLeast, NewRangesHold, RangesFit, RegionsFit};

/// A program and its annotated one do the same, whatever their inputs and however many jobs: the outputs, the globals,
/// the marked calls and the number of input words used are the same, or both go wrong at the same line.
pub fn runs_stay_the_same()
    ensures { SameMeaning }
{}

/// Annotating an annotated program changes nothing.
pub fn annotating_again_changes_nothing()
    ensures { OnceIsEnough }
{}

/// A RANGE that stands stays. A parameter without one gets the least range around the arguments of all calls of the
/// annotated program, where that is narrower than its type's: each argument lies in it, and each end is one's end. So no
/// call breaks a RANGE that is new: what the calls break are RANGEs that stood.
pub fn ranges_are_the_least()
    ensures inferred { RangesAreInferred }
    ensures least { RangesAreLeast }
    ensures calls { NewRangesHold }
{}

/// A well-formed program that with its new ranges breaks no rule on ranges but for regions breaks none when it is
/// annotated.
pub fn annotated_programs_stay_in_range()
    ensures { AnnotatedStaysInRange }
{}

/// Each region of the annotated program goes from the least to the greatest element that its function and those that it
/// calls access: with one less at either end a rule on regions is broken.
pub fn regions_are_the_least()
    ensures { RegionsAreLeast }
{}

/// Where no other rule on ranges is broken, each RANGE of the annotated program, old or new, is a range of its parameter's kind,
/// and each region lies in the global that it names.
pub fn annotations_fit()
    ensures ranges { RangesFit }
    ensures regions { RegionsFit }
{}
