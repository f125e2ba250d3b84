//! Reading a whole file, up to a limit.
//!
//! `read_whole` asks for one byte past the limit at most, which is enough to know that a file is too long, so a file
//! with no end is refused as one that is too long.

ghost use Rattle.std.specs.Prelude.{◌≡◌, ◌≤◌, ℕ, List, length, Some, IfOk, vec_len};
ghost use Rattle.wh_io.specs.Reading.{ReadsWhole, FaultsTell};

use crate::next::Next;
use crate::pieces::Pieces;
use crate::shelf::Shelf;
use std::alloc::{AllocError, Global};
use thiserror::Error;
use wh_types::{Bytes, Or};

/// How many bytes are asked for at once.
const PIECE: usize = 65536;

/// Why a file was not read.
#[derive(Debug, Drop, Error)]
pub enum ReadFault {
    /// The shelf failed.
    #[error("the file could not be read")]
    Failed,
    /// The file has more bytes than the limit.
    #[error("the file is too long")]
    TooLong,
}

impl From<ReadFault> for Or<ReadFault> {
    ghost use Rattle.std.specs.Prelude.{◌≡◌};
    ghost use Rattle.wh_types.specs.declared.want.Or.TheVariants.{Because};

    ghost from_gives = { λ fault e. e ≡ Because fault };

    fn from(fault: ReadFault) -> Self {
        Or::Because(fault)
    }
}

/// The bytes of the file of that name. It is read to its end, or to one byte past `limit`, which
/// is enough to know that it is too long.
///
/// # Errors
/// `Failed` where a read under that name failed, and `TooLong` where the file gave more than
/// `limit` bytes.
pub fn read_whole<S: Shelf>(
    alloc: Global,
    shelf: &mut S,
    name: &str,
    limit: u64,
) -> Result<Bytes, Or<ReadFault>>
    ensures whole { (file : List ℕ) → S.held shelf.old name.now ≡ Some file → ReadsWhole file limit result }
    ensures short { IfOk result (λ bytes. length bytes ≤ limit) }
    ensures cause { FaultsTell (S.faults shelf.old name.now) (S.faults shelf.new name.now) result }
    ensures later { (other : List ℕ) → S.faults shelf.old other ≤ S.faults shelf.new other }
    ensures kept { (other : List ℕ) → S.held shelf.new other ≡ S.held shelf.old other }
{
    let mut bytes = Bytes::new(alloc);
    let mut buffer = zeros(alloc, PIECE)?;
    let mut pieces = Pieces::new(limit);
    loop {
        let piece = &mut buffer[..];
        match pieces.next(shelf, name, piece)? {
            Next::Bytes(count) => bytes.append(&piece[..count])?,
            Next::End => return Ok(bytes),
        }
    }
}

/// A buffer of that size, on the heap.
fn zeros(alloc: Global, size: usize) -> Result<Vec<u8>, AllocError>
    ensures { IfOk result (λ buffer. vec_len buffer ≡ size) }
{
    vec![in alloc; 0u8; size]
}
