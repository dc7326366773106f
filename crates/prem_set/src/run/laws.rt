// Laws on run files.
ghost use Rattle.prem_set.specs.Run.ReadBack.{ListsReplaceWords, RunsAreReadBack, RunsAreSpelledAgain, SetsGiveNames};

/// The text of lawful words and requests is a run file, which gives these.
#[tactic(auto, using(crate::proofs::RunLemmas::ReadingBack::runs_are_read_back))]
pub fn runs_are_read_back()
    ensures { RunsAreReadBack }
{}

/// So is the text of what any run file gives.
#[tactic(auto, using(crate::proofs::RunLemmas::GivenWords::runs_are_spelled_again))]
pub fn runs_are_spelled_again()
    ensures { RunsAreSpelledAgain }
{}

/// The lines of lists of words before those of a run file that give none are a run file, which gives these lists and the requests of that one.
#[tactic(auto, using(crate::proofs::RunLemmas::Replaced::lists_replace_words))]
pub fn lists_replace_words()
    ensures { ListsReplaceWords }
{}

/// The names that a set file gives are those of which the laws of run files speak.
#[tactic(auto, using(crate::proofs::RunLemmas::SetNames::sets_give_names))]
pub fn sets_give_names()
    ensures { SetsGiveNames }
{}
