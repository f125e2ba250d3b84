//! The status of a run, which becomes the exit status of the program.

ghost use Rattle.std.specs.Prelude.{◌≡◌};
ghost use Rattle.wh_top_naming.specs.Status.{number_of_status, status_of};

use wh_answer::Report;

/// How a run ended; `number` is the program's exit status.
#[derive(Clone, Copy)]
pub enum Status {
    /// 0: the answer was written.
    Answered,
    /// 1: the certificate is rejected for the reason that was written.
    Rejected,
    /// 2: the words are none of the program's.
    BadWords,
    /// 3: the system is refused.
    Refused,
    /// 4: a file could not be read.
    ReadFault,
    /// 5: the output could not be written; the first bytes of it may have been.
    WriteFault,
    /// 6: there was no memory.
    NoMemory,
    /// 7: a file, or the certificate that was found, is longer than its limit.
    TooLong,
    /// 8: a value passed a limit in the evaluation of a side.
    TooBig,
}

impl Status {
    /// The exit status, 0 to 8.
    pub fn number(self) -> u8
        ensures { result ≡ number_of_status self }
    {
        match self {
            Status::Answered => 0,
            Status::Rejected => 1,
            Status::BadWords => 2,
            Status::Refused => 3,
            Status::ReadFault => 4,
            Status::WriteFault => 5,
            Status::NoMemory => 6,
            Status::TooLong => 7,
            Status::TooBig => 8,
        }
    }
}

/// The status that a run with this answer ends with.
pub fn status_of(report: &Report) -> Status
    ensures { result ≡ status_of report.now }
{
    match report {
        Report::Yes | Report::No | Report::Maybe(_) => Status::Answered,
        Report::Rejected(_) => Status::Rejected,
        Report::Refused(_, _) => Status::Refused,
        Report::BadWords => Status::BadWords,
        Report::ReadFault(_) => Status::ReadFault,
        Report::OutOfMemory => Status::NoMemory,
        Report::TooLong(_) => Status::TooLong,
        Report::Overflow(_) | Report::TooLarge(_) => Status::TooBig,
    }
}
