// Laws over the definitions; each is the contract of a function that does nothing.
ghost use Rattle.prem_wcet.specs.Cut.{CutsAreOutlines, FunctionsAreCut};
ghost use Rattle.prem_wcet.specs.Outlined.{OutlinesCount};
ghost use Rattle.prem_wcet.specs.Sliced.{SlicesAreOutlines};

/// The outline of statements counts what they count: their least charge, and with marked calls what stands between these.
#[tactic(auto, using(crate::proofs::OutlineParted::outlines_count))]
pub fn outlines_count()
    ensures { OutlinesCount }
{}

/// What is cut out of pieces that begin with the code of statements is their outline.
#[tactic(auto, using(crate::proofs::Slices::slices_are_outlines))]
pub fn slices_are_outlines()
    ensures { SlicesAreOutlines }
{}

/// So is what is cut out for statements in memory.
#[tactic(auto, using(crate::proofs::Cuts::cuts_are_outlines))]
pub fn cuts_are_outlines()
    ensures { CutsAreOutlines }
{}

/// So is what is cut out for a whole function in memory, with what stands before and behind the statements of its body.
#[tactic(auto, using(crate::proofs::FunctionCuts::functions_are_cut))]
pub fn functions_are_cut()
    ensures { FunctionsAreCut }
{}
