//! Every state of a run of two cores whose tasks keep to their scripts is good, and it finishes by its limit.
ghost use Rattle.prem_pair.specs.Laws.PairSound.{PairRoomIsFoundInOrder, PairsAreGood, PairsFinish, PairsFinishByTotals, PairsOfImagesAreSound};

/// Two cores, each with tasks that stay with bytes of their own and do what their scripts say, and the devices of the first. In every
/// state of every run each core is as good as where it is the only one: no task has trapped, each has put out a beginning of what is
/// promised, its predictable intervals are those of its marked calls, with their words at both ends, and have lasted as they state, no
/// instruction of an execution phase has missed, and none of a memory phase has stored. No cycle of the bus was wanted by two of the
/// cores and the gates, and each request that found room was transferred in order, once, or still waits.
pub fn pairs_are_good()
    ensures { PairsAreGood }
{}

/// From the limit on all jobs of both cores have ended: the greatest last release, what the jobs of both are due, and over all requests
/// the greatest cycle and the sum of their transfers' cycles; and so where their instructions are parted into scopes, from what these
/// are charged in place of what is due.
pub fn pairs_finish_by_their_limit()
    ensures dues { PairsFinish }
    ensures charges { PairsFinishByTotals }
{}

/// For two images whose tasks have scripts for all input words, of which the second has no device: whatever the input words and the
/// requests are, each state of a run of both is good, and from the limit on the run has finished.
pub fn pairs_of_images_are_sound()
    ensures { PairsOfImagesAreSound }
{}

/// Whatever the images, their tasks and the requests are: where requests stand in order of cycle, those that have found room
/// in their queues are some of those of the cycles that have passed, in their order, each once.
pub fn pair_requests_find_room_in_order()
    ensures { PairRoomIsFoundInOrder }
{}
