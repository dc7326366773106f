// Laws over the definitions; each is the contract of a function that does nothing.
ghost use Rattle.prem_color.specs.Laws.{MovedPlacesAreLawful, MovedPlacesHaveRoom, PartsAlignLines, PlacedAreasAreLawful, WantsLeaveNoConflict, WantsLie};

/// Places with offsets are lawful, where the last one ends within memory: parts have their sizes, aligned and apart, and no line of a device's
/// area holds a byte of another part.
pub fn moved_places_are_lawful()
    ensures areas { PlacedAreasAreLawful }
    ensures moved { MovedPlacesAreLawful }
{}

/// At them no set of the cache is asked for more lines of a want than it has ways.
pub fn moved_places_have_room()
    ensures { MovedPlacesHaveRoom }
{}

/// So no task of a set has a conflict in the cache, where all wants of the set have room at the places of its parts.
pub fn wants_leave_no_conflict()
    ensures { WantsLeaveNoConflict }
{}

/// A line of the cache is a multiple of the alignment of each part of a set.
pub fn parts_align_lines()
    ensures { PartsAlignLines }
{}

/// The ranges of the wants of a set lie in its parts, where those of its plans are there.
pub fn wants_lie()
    ensures { WantsLie }
{}
