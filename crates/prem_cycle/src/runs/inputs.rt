//! Input words that come while a run goes on: the machine's state is that of the run which has them from the start.
ghost use Rattle.prem_cycle.specs.Runs.Inputs.PastEnd.{ReadsAreWanted};
ghost use Rattle.prem_cycle.specs.Runs.Inputs.Extended.{CyclesLeaveTheWord, InputsExtend, ListsStayFit, ReadsStay, RunsGoOn};
ghost use Rattle.prem_cycle.specs.Runs.Inputs.History.{HistoriesAreRuns};
ghost use Rattle.prem_cycle.specs.Runs.Inputs.Taken.{RoomIsOfTheList, WordsAreTakenInOrder};

/// The words that a task has taken are those at the front of its list, and the others are left. So there is room for
/// one more exactly where the list has room.
pub fn words_are_taken_in_order()
    ensures taken { WordsAreTakenInOrder }
    ensures room { RoomIsOfTheList }
{}

/// A task has not read past the end of its list of input words exactly where at no cycle so far it was the one whose
/// `pm.in` was to issue with its list used up.
pub fn reads_are_wanted()
    ensures { ReadsAreWanted }
{}

/// Unless a task reads past the end of its list within some cycles, a word may as well be put behind its list before
/// them as after them. This holds from every state, also of a task that isn't there.
pub fn cycles_leave_the_word()
    ensures { CyclesLeaveTheWord }
{}

/// Where a task has not read past the end of its list before a word is put behind it, the state is then that of the
/// run which has had the longer list from the start. Where the task had room for the word, that run fits the machine.
pub fn inputs_extend()
    ensures state { InputsExtend }
    ensures fits { ListsStayFit }
{}

/// A run in which a task got a word so goes on as the run that has had the longer list from the start.
pub fn runs_go_on()
    ensures { RunsGoOn }
{}

/// In the run on the longer list the same tasks have read past the end so far, so the next word may come.
pub fn reads_stay()
    ensures { ReadsStay }
{}

/// Words may come time and again, for any tasks: where no task had read past the end of its list before a word was put
/// behind it, the state is that of the run on the lists with all appended words.
pub fn histories_are_runs()
    ensures { HistoriesAreRuns }
{}
