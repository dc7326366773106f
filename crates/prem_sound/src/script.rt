//! Scripts of tasks: the predictable intervals of a run on instructions alone, and what code has to show to have one.
ghost use Rattle.prem_sound.specs.Script.Conforms.{CallsAreDueBefore, CallsKeep, ConformingRunsHaveScripts, ConformingRunsKeepPromises, DuesJoin, MarksJoin, MarksRest, MemoryBegins, PiecesJoin, StretchesKeep};

/// A list of executed instructions that conforms to calls, whose run it is, gives the run's script, and that the run stays
/// with its own bytes. Where it gives what is promised, at each mark and in the end, the script keeps the promise.
pub fn conforming_runs_have_scripts()
    ensures scripts { ConformingRunsHaveScripts }
    ensures promises { ConformingRunsKeepPromises }
{}

/// Such a list is made of pieces: stretches outside of calls, `pm.mem` and the instructions of a call.
pub fn pieces_keep_calls()
    ensures join { PiecesJoin }
    ensures stretches { StretchesKeep }
    ensures memory { MemoryBegins }
    ensures calls { CallsKeep }
    ensures marks { MarksJoin }
    ensures no_marks { MarksRest }
    ensures dues { DuesJoin }
    ensures call_dues { CallsAreDueBefore }
{}
