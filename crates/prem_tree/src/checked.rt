// Programs that break no rule.
ghost use Rattle.prem_syntax.specs.SyntaxOf.{program_of};
ghost use Rattle.prem_syntax.specs.ProgramRules.{IsWellFormed};

use prem_syntax::Program;

/// A well-formed program: its names are known and distinct, its types fit, its calls go to earlier functions, and its
/// loops have the form of a counting or a bounded loop.
///
/// Contracts see the program as `checked_program`.
#[derive(Drop)]
pub struct Checked {
    program: Program,
    ghost well_formed: { IsWellFormed (program_of program) },
}

impl Checked {
    ghost use Rattle.std.specs.Prelude.{◌≡◌};
    ghost use Rattle.prem_syntax.specs.SyntaxOf.{program_of};
    ghost use Rattle.prem_syntax.specs.ProgramRules.{IsWellFormed};
    ghost use Rattle.prem_tree.specs.Checked.{checked_program};

    /// Takes a program of which it is known that it breaks no rule.
    pub fn adopt(p: Program) -> Checked
        requires { IsWellFormed (program_of p) }
        ensures { checked_program result ≡ p }
    {
        Checked { program: p }
    }

    /// The program.
    pub fn program(&self) -> &Program
        ensures program { result.now ≡ checked_program self.now }
        ensures well_formed { IsWellFormed (program_of result.now) }
    {
        &self.program
    }
}
