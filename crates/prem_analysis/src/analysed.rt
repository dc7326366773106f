// Programs that never go wrong.
ghost use Rattle.std.specs.Prelude.{◌≡◌};
ghost use Rattle.prem_syntax.specs.SyntaxOf.{program_of};
ghost use Rattle.prem_syntax.specs.Literals.{ProgramHasWords};
ghost use Rattle.prem_syntax.specs.ProgramRules.{IsWellFormed};
ghost use Rattle.prem_tree.specs.Checked.{checked_program};
ghost use Rattle.prem_ranges.specs.RangesKept.{StaysInRange, turn_bounds};
ghost use Rattle.prem_analysis.specs.Words.{have_words_prop};

use prem_tree::Checked;

/// A checked program that breaks no rule on ranges, with the turn bounds of its counting loops.
///
/// Contracts see the program as `analysed_checked`.
#[derive(Drop)]
pub struct Analysed {
    checked: Checked,
    turns: Vec<u64>,
    ghost well_formed: { IsWellFormed (program_of (checked_program checked)) },
    ghost words: { ProgramHasWords (program_of (checked_program checked)) } by { have_words_prop (program_of (checked_program checked)) },
    ghost stays: { StaysInRange (program_of (checked_program checked)) },
    ghost bounds: { turns.items ≡ turn_bounds (program_of (checked_program checked)) },
}

impl Analysed {
    ghost use Rattle.std.specs.Prelude.{◌≡◌, ◌<◌, ◌^◌, All, slice_get};
    ghost use Rattle.prem_syntax.specs.SyntaxOf.{program_of};
    ghost use Rattle.prem_syntax.specs.Literals.{ProgramHasWords};
    ghost use Rattle.prem_syntax.specs.ProgramRules.{IsWellFormed};
    ghost use Rattle.prem_tree.specs.Checked.{checked_program};
    ghost use Rattle.prem_ranges.specs.RangesKept.{StaysInRange, turn_bounds};
    ghost use Rattle.prem_analysis.specs.Analysed.{analysed_checked, analysed_text, NeverGoesWrong};

    /// A program of which it is known that it breaks no rule, with its turn bounds.
    pub fn adopt(checked: Checked, turns: Vec<u64>) -> Analysed
        requires well_formed { IsWellFormed (program_of (checked_program checked)) }
        requires words { ProgramHasWords (program_of (checked_program checked)) }
        requires stays { StaysInRange (program_of (checked_program checked)) }
        requires bounds { turns.items ≡ turn_bounds (program_of (checked_program checked)) }
        ensures { analysed_checked result ≡ checked }
    {
        Analysed { checked, turns }
    }

    /// The checked program. It never goes wrong: whatever its inputs and however many jobs it does, each counting loop keeps
    /// to its turn bound, and each marked function, with what it reaches, to its regions.
    pub fn checked(&self) -> &Checked
        ensures checked { result.now ≡ analysed_checked self.now }
        ensures well_formed { IsWellFormed (analysed_text self.now) }
        ensures words { ProgramHasWords (analysed_text self.now) }
        ensures stays { StaysInRange (analysed_text self.now) }
        ensures sound { NeverGoesWrong (analysed_text self.now) }
    {
        &self.checked
    }

    /// The turn bounds of all counting loops, in the order of the text. Each is a word.
    pub fn bounds(&self) -> &[u64]
        ensures listed { result.now ≡ turn_bounds (analysed_text self.now) }
        ensures words { All (λ t. t < 2 ^ 32) result.now }
    {
        self.turns.as_slice()
    }

    /// The turn bound of a counting loop, by its number in the order of the text; none where there is no such loop.
    pub fn turns(&self, n: u32) -> Option<u32>
        ensures { result ≡ slice_get (turn_bounds (analysed_text self.now)) n }
    {
        match self.turns.get(n as usize) {
            Some(turns) => Some(*turns as u32),
            None => None,
        }
    }
}
