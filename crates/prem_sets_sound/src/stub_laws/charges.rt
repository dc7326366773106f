//! An image whose tasks run along weaves that are parted into scopes goes by what these are charged.
ghost use Rattle.prem_sets_sound.specs.StubLaws.Charges.Charges.{JoinedImagesAreSoundByCharges, PacedTasksAreCharged, RoomIsCounted};

/// Such an image is sound, and each of its runs has finished from the cycle on that is the last release and what all jobs are charged.
pub fn joined_images_are_sound_by_charges()
    ensures { JoinedImagesAreSoundByCharges }
{}

/// A task that joins at its pace is such a task, where each of its instructions is a scope by itself: so all accepted sets have such
/// images, with the bounds of the rules.
pub fn paced_tasks_are_charged()
    ensures { PacedTasksAreCharged }
{}

/// A set of the cache has room for lines by the count that the rules take.
pub fn room_is_counted()
    ensures { RoomIsCounted }
{}
