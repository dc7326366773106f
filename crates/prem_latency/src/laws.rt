// What the length of a busy period of the bus is good for.
ghost use Rattle.prem_latency.specs.Bus.{BehindBeginsFree, BusServesFirst};
ghost use Rattle.prem_latency.specs.Closed.{ChargedTasksClose, IdleTimeKeepsClosed, IntervalsKeepClosed, JobsKeepClosedByCharges, ScriptsOpen, ShorterCallsClose};
ghost use Rattle.prem_latency.specs.Images.{ChargedImagesServeDevices};
ghost use Rattle.prem_latency.specs.Joined.{ChargedTasksWait, JoinedImagesServeDevices, PacedTasksWait};
ghost use Rattle.prem_latency.specs.Opened.{CallsOpen, OpeningsJoin, QuietListsOpen, StrandsClose, TracesOpen};
ghost use Rattle.prem_latency.specs.Requests.{AllFindRoom, NoneIsDropped, RequestsAreServed};
ghost use Rattle.prem_latency.specs.Sets.{SetsServeDevices};
ghost use Rattle.prem_latency.specs.Timeline.{LevelsAreEnough, QueuesHaveRoom, RequestsEndInTime};
ghost use Rattle.prem_latency.specs.Turns.{NoneIsBefore, RoomIsThere};
ghost use Rattle.prem_latency.specs.Wait.{WaitsAreFound};
ghost use Rattle.prem_latency.specs.Waits.{ChargesDropNone, ChargesServeEach, ChargesServeInTime};

/// On a timeline of the bus each request of a level of devices has been transferred so many cycles behind its arrival as
/// are enough, and a request that comes finds fewer waiting than come in so many cycles.
pub fn requests_end_in_time()
    ensures ended { RequestsEndInTime }
    ensures room { QueuesHaveRoom }
{}

/// The length of the busy period of a device is enough, and the first number of cycles that is enough is that length.
pub fn waits_are_enough()
    ensures enough { LevelsAreEnough }
    ensures found { WaitsAreFound }
{}

/// No number of cycles is enough that is less than the one with which the search for a wait begins; and where shares of the bus, rounded
/// up, leave a part of it, so many cycles are enough as that part takes for what is owed with one transfer of each device and one job of
/// each task.
pub fn waits_are_bounded()
    ensures before { NoneIsBefore }
    ensures there { RoomIsThere }
{}

/// Where a request of the first devices waits, the cycle is one of a transfer of theirs, or of one behind them that goes on,
/// or the window is closed for the longest of theirs. A transfer of a device behind them that goes on where the window
/// isn't has begun in a cycle before, behind which none of theirs waited.
pub fn first_devices_are_served()
    ensures serves { BusServesFirst }
    ensures begins { BehindBeginsFree }
{}

/// In every run whose devices' requests keep their distances, whose tasks' jobs end in time and keep the bus closed for no
/// longer than is said, and in which core and gates never want one cycle both: each request of a device that has found room
/// has been transferred so many cycles behind its arrival as are enough, unless the run is over before, and none is dropped
/// where the queue holds as many as come in so many cycles.
pub fn requests_are_served()
    ensures served { RequestsAreServed }
    ensures kept { NoneIsDropped }
    ensures all { AllFindRoom }
{}

/// Where all tasks keep to their scripts and a task's instructions to their scopes, the core works for a job of it in no more cycles
/// in which the bus is closed for a transfer than its scopes are charged, where the interval of a call takes its stated length, or what
/// it takes to open and the transfer, whichever is less. So many cycles of each predictable interval are closed at most, and of
/// idle time the first one and those in which a transfer would pass the release that ends it.
pub fn jobs_keep_closed()
    ensures jobs { JobsKeepClosedByCharges }
    ensures intervals { IntervalsKeepClosed }
    ensures idle { IdleTimeKeepsClosed }
{}

/// Each call of a script opens within its stated length. What the jobs of a script are charged whose calls state such lengths or
/// longer ones is a bound of what jobs keep closed, and so is what the jobs of the task itself are charged.
pub fn charged_tasks_close()
    ensures opened { ScriptsOpen }
    ensures shorter { ShorterCallsClose }
    ensures charged { ChargedTasksClose }
{}

/// A run that executes just some instructions opens its calls as the list of these tells, and along a strand it keeps closed what the
/// strand is charged with shorter calls.
pub fn calls_open_and_close()
    ensures opens { TracesOpen }
    ensures joins { OpeningsJoin }
    ensures quiet { QuietListsOpen }
    ensures calls { CallsOpen }
    ensures strands { StrandsClose }
{}

/// Where all tasks keep to their scripts, are charged as loads tell, and have busy periods no longer than their periods, and the
/// devices' requests keep their distances: each request of a device that has found room has been transferred so many cycles behind its
/// arrival as its busy period of the bus lasts, unless the run has finished before. Where the queue holds as many as come in so many
/// cycles, none is dropped, and so each that comes has been transferred by then.
pub fn scripts_serve_in_time()
    ensures served { ChargesServeInTime }
    ensures kept { ChargesDropNone }
    ensures each { ChargesServeEach }
{}

/// The same of every run of an image whose tasks have scripts, whatever the input words are and whenever the devices ask, if
/// only each keeps its distance: each request of a device is transferred in time, unless the run has finished before, and none
/// is dropped.
pub fn images_serve_devices()
    ensures { ChargedImagesServeDevices }
{}

/// And so of an image whose tasks join along weaves that are parted into scopes.
pub fn joined_images_serve_devices()
    ensures { JoinedImagesServeDevices }
{}

/// Each task that is charged along its weave meets what is asked there, with the lengths that its calls state and with what its jobs are
/// charged; and so do the tasks of all accepted sets, with the bounds of the rules.
pub fn charged_tasks_wait()
    ensures charged { ChargedTasksWait }
    ensures paced { PacedTasksWait }
{}

/// And so of a set that breaks no rule, at any lawful places, whose tasks have busy periods within their periods by what their jobs take at
/// most, and keep the bus closed for what they take with calls that last until a transfer may start: each device that is named is served in
/// time, where those that aren't named make no request.
pub fn sets_serve_devices()
    ensures { SetsServeDevices }
{}
