// A status with its text, and why a stage of the work gives nothing to the next one.
ghost use Rattle.std.specs.Prelude.{◌≡◌, IfOk};
ghost use Rattle.prem_answer.specs.Stages.{form_by, form_reply, missing_reply, reply_of};
ghost use Rattle.prem_answer.specs.declared.answer.Halt.TheVariants.{OutOfMemory};

use crate::status::Status;
use std::alloc::{AllocError, Global};

/// A status with its text.
#[derive(Drop)]
pub struct Answer {
    pub status: Status,
    pub text: Vec<u8>,
}

/// What an answer tells of a file that isn't in its form.
#[derive(Clone, Copy, Debug, PartialEq, Eq)]
pub enum Telling {
    /// Its name, and why.
    Whole,
    /// Its name alone.
    Brief,
}

/// Why a stage of the work gives nothing to the next one.
#[derive(Drop)]
pub enum Halt {
    /// The work ends with this answer.
    Answered(Answer),
    /// The store counted a fault.
    ReadFault,
    /// There was no memory.
    OutOfMemory,
}

impl From<AllocError> for Halt {
    ghost from_gives = { λ _ halt. halt ≡ OutOfMemory };

    fn from(_error: AllocError) -> Halt {
        Halt::OutOfMemory
    }
}

/// `missing FILE`.
pub fn missing(alloc: Global, name: &str) -> Result<Answer, AllocError>
    ensures { IfOk result (λ a. reply_of a ≡ missing_reply name.now) }
{
    Ok(Answer {
        status: Status::Missing,
        text: format!(in alloc; "missing {name}\n")?.into_bytes(),
    })
}

/// `form FILE WHY`.
pub fn form(alloc: Global, name: &str, why: &str) -> Result<Answer, AllocError>
    ensures { IfOk result (λ a. reply_of a ≡ form_reply name.now why.now) }
{
    Ok(Answer {
        status: Status::Form,
        text: format!(in alloc; "form {name} {why}\n")?.into_bytes(),
    })
}

/// `form FILE WHY`, or `form FILE`.
pub fn form_by(alloc: Global, telling: Telling, name: &str, why: &str) -> Result<Answer, AllocError>
    ensures { IfOk result (λ a. reply_of a ≡ form_by telling name.now why.now) }
{
    match telling {
        Telling::Whole => form(alloc, name, why),
        Telling::Brief => Ok(Answer {
            status: Status::Form,
            text: format!(in alloc; "form {name}\n")?.into_bytes(),
        }),
    }
}
