//! Laws: the numbers in resolved terms are small.
ghost use Rattle.prem_gen.specs.Numbers.Small.{ResolvedAreSmall};
ghost use Rattle.prem_gen.specs.Numbers.Steps.{FunctionsAreSmall};
ghost use Rattle.prem_gen.specs.Numbers.Trees.{TreesAreSmall};

pub use crate::term::TermFail;

/// Where there are few locals and globals, what a term in memory names has a small number.
pub fn resolved_terms_are_small()
    ensures { ResolvedAreSmall }
{}

/// In a well-formed program each function whose frame may be has small numbers: of locals, globals, steps of loops, and of
/// the functions that it calls, which stand before it. So has its tree in memory.
pub fn functions_are_small()
    ensures plain { FunctionsAreSmall }
    ensures trees { TreesAreSmall }
{}
