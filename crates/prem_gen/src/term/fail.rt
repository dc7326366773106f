// Why an expression or a function has no code.
ghost use Rattle.std.specs.Prelude.{◌≡◌};
ghost use Rattle.prem_gen.specs.Term.Excess.{gen_fail};

use prem_line::Failing;
use prem_syntax::Place;
use prem_word::FnId;
use std::alloc::AllocError;

/// Why an expression has no code: the one at this place would be evaluated into x22, or there was no memory.
pub type TermFail = Failing<Place>;

/// Why a function, or an expression in one, has no code.
#[derive(Clone, Copy, Debug, PartialEq, Eq)]
pub enum GenFail {
    /// The function's frame passes 2032 bytes.
    Frame { function: FnId },
    /// An expression on this line would be evaluated into x22.
    Depth { line: u32 },
    OutOfMemory,
}

impl From<AllocError> for GenFail {
    ghost use Rattle.std.specs.Prelude.{◌≡◌};
    ghost use Rattle.prem_gen.specs.declared.term.fail.GenFail.TheVariants.{OutOfMemory};

    ghost from_gives = { λ _ e. e ≡ OutOfMemory };

    fn from(_error: AllocError) -> GenFail {
        GenFail::OutOfMemory
    }
}

/// What a refusal of a term is for its whole function.
pub fn gen_fail(e: TermFail) -> GenFail
    ensures { result ≡ gen_fail e }
{
    match e {
        TermFail::Refused(at) => GenFail::Depth { line: at.line },
        TermFail::OutOfMemory => GenFail::OutOfMemory,
    }
}
