//! From task sets that break no rule to what the machine's side of soundness asks of their images.
ghost use Rattle.prem_sets_sound.specs.ImagePremises.Accepted.{LaidOutImagesJoin, AcceptedSetsAreLaidOut, DefaultPlacesAreLawful, AcceptedSetsJoin, AcceptedSetsAreSound, AcceptedTasksKeepRules, LawfulSetsHaveValues};

/// The image of tasks at lawful places has all that makes it sound but the runs of its tasks: lawful records, a content of bytes, areas
/// that hold 0, own bytes that are apart and in no line of a device, and jobs that leave room in both logs and end by the limit.
pub fn laid_out_images_join()
    ensures { LaidOutImagesJoin }
{}

/// So has the image of a set that breaks no rule: at any lawful places of its parts, of which the default ones are some. Where the runs
/// of its tasks join, the image is sound within the limit that is told.
pub fn accepted_sets_join()
    ensures laid { AcceptedSetsAreLaidOut }
    ensures places { DefaultPlacesAreLawful }
    ensures joins { AcceptedSetsJoin }
    ensures sound { AcceptedSetsAreSound }
{}

/// A set in memory whose values are in their ranges is such a set as plain data.
pub fn lawful_sets_have_values()
    ensures { LawfulSetsHaveValues }
{}

/// Each placed task of a set that breaks no rule has a text that is read, a program that keeps the rules of programs and ranges, and code
/// that keeps those on registers, jumps, conflicts, bounds and stated lengths.
pub fn accepted_tasks_keep_rules()
    ensures { AcceptedTasksKeepRules }
{}
