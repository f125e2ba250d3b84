//! The answers of a reader of pieces: the next bytes, the end of the file, or a fault.

ghost use Rattle.std.specs.Prelude.{◌≡◌};
ghost use Rattle.wh_io.specs.Pieces.{answer_of};

use crate::read::ReadFault;

/// What the next piece of a file is.
#[derive(Clone, Copy)]
pub enum Next {
    /// This number of bytes, at least one. They stand at the front of the buffer.
    Bytes(usize),
    /// There are no more bytes: the file ends here.
    End,
}

/// How reading a file has ended.
#[derive(Clone, Copy)]
pub enum Ended {
    /// All bytes were given.
    Whole,
    /// There are more bytes than the limit.
    TooLong,
    /// The shelf failed.
    Failed,
}

impl Ended {
    /// The answer that a reader gives once reading has ended in this way: the end, or the fault.
    pub fn answer(self) -> Result<Next, ReadFault>
        ensures { result ≡ answer_of self }
    {
        match self {
            Ended::Whole => Ok(Next::End),
            Ended::TooLong => Err(ReadFault::TooLong),
            Ended::Failed => Err(ReadFault::Failed),
        }
    }
}
