// What annotating a set promises.
ghost use Rattle.prem_annotate_answer.specs.Lengths.{LengthsFollowNoLength, AnnotatedBoundsStay};
ghost use Rattle.prem_annotate_answer.specs.Unplaced.{RunsFollowNoPlace};
ghost use Rattle.prem_annotate_answer.specs.Kept.{AnnotatedSetsStay, SetsAreAnnotated};

/// The bounds of marked functions don't rest on stated lengths: sets whose programs differ in these alone have the same
/// bounds.
pub fn lengths_follow_no_length()
    ensures { LengthsFollowNoLength }
{}

/// An annotated set has the same bounds whatever lengths are put: the bounds that are found before the lengths are put in are
/// those of the set that states them.
pub fn annotated_bounds_stay()
    ensures { AnnotatedBoundsStay }
{}

/// A set that is annotated breaks no rule. The text of each of its tasks is the old one but for edits at annotations, and is read as a
/// program that does what the old one does. Each new RANGE is the least around the arguments of all calls, no region can be smaller, and
/// each length is the greater one of what was stated and the function's bound in that set.
pub fn sets_are_annotated()
    ensures { SetsAreAnnotated }
{}

/// Programs that are the same, places aside, do the same: globals, outputs, marked calls and input words used are the same, and where one
/// goes wrong the other does.
pub fn runs_follow_no_place()
    ensures { RunsFollowNoPlace }
{}

/// An annotated set needs no other annotations: annotated once more it is accepted, and each of its texts stays byte by byte.
pub fn annotated_sets_stay()
    ensures { AnnotatedSetsStay }
{}
