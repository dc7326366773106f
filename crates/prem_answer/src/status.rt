// How the program ends.

/// How the program ends.
#[derive(Clone, Copy, Debug, PartialEq, Eq)]
pub enum Status {
    /// The answer is written.
    Done,
    /// A program breaks a rule.
    Refused,
    /// The words are no command.
    Usage,
    /// A file is not in its form.
    Form,
    /// The store counted a fault; nothing is written.
    ReadFault,
    /// The sink counted a fault; a part of the answer is written.
    WriteFault,
    /// There was no memory; nothing is written.
    OutOfMemory,
    /// There is no such file.
    Missing,
    /// A run was stopped by a trap.
    Trap,
}

impl Status {
    ghost use Rattle.std.specs.Prelude.{◌≡◌};
    ghost use Rattle.prem_answer.specs.Stages.{status_code};

    /// The exit status, from 0 to 8 in the order of the variants.
    pub fn code(self) -> u8
        ensures { result ≡ status_code self }
    {
        match self {
            Status::Done => 0,
            Status::Refused => 1,
            Status::Usage => 2,
            Status::Form => 3,
            Status::ReadFault => 4,
            Status::WriteFault => 5,
            Status::OutOfMemory => 6,
            Status::Missing => 7,
            Status::Trap => 8,
        }
    }
}

/// How a program ends of which no answer tells of a trap.
#[derive(Clone, Copy, Debug, PartialEq, Eq)]
pub enum PlainStatus {
    /// The answer is written.
    Done,
    /// A program breaks a rule.
    Refused,
    /// The words are not those of the usage line.
    Usage,
    /// A file is not in its form.
    Form,
    /// The store counted a fault; nothing is written.
    ReadFault,
    /// The sink counted a fault; a part of the answer is written.
    WriteFault,
    /// There was no memory; nothing is written.
    OutOfMemory,
    /// There is no such file.
    Missing,
}

impl PlainStatus {
    ghost use Rattle.std.specs.Prelude.{◌≡◌};
    ghost use Rattle.prem_answer.specs.Statuses.{plain_code};

    /// The exit status, from 0 to 7 in the order of the variants.
    pub fn code(self) -> u8
        ensures { result ≡ plain_code self }
    {
        match self {
            PlainStatus::Done => 0,
            PlainStatus::Refused => 1,
            PlainStatus::Usage => 2,
            PlainStatus::Form => 3,
            PlainStatus::ReadFault => 4,
            PlainStatus::WriteFault => 5,
            PlainStatus::OutOfMemory => 6,
            PlainStatus::Missing => 7,
        }
    }
}
