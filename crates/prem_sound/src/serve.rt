//! The requests of devices are held in order, each once, and a get has the last put.
ghost use Rattle.prem_sound.specs.Serve.Requests.{RequestsAreHeld, RoomIsFoundInOrder, WordsAreLastPuts};

/// Whatever the image, its tasks and the requests are, in every state of every run: of each device, the requests whose
/// transfers have ended, then the one that is carried, then those that wait are the requests that have found room, in order,
/// each once. Where requests stand in order of cycle, those that have found room are some of those of the cycles that have
/// passed, in their order.
pub fn requests_are_held()
    ensures held { RequestsAreHeld }
    ensures order { RoomIsFoundInOrder }
{}

/// Where tasks stay with bytes of their own, and no line of a device holds one of these, each word that a get has is that
/// of the last put before it to the same line of its device, or 0.
pub fn gets_have_the_last_puts()
    ensures { WordsAreLastPuts }
{}
