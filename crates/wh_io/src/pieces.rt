//! Reading a file piece by piece, up to a limit. `Pieces::next` asks a shelf for the next bytes and keeps how reading
//! has ended; `read_whole` is for a file that is wanted as a whole.

ghost use Rattle.std.specs.Prelude.{◌≡◌, ◌≤◌, ◌<◌, ℕ, List, length, Some, None};
ghost use Rattle.wh_io.specs.Pieces.{PiecesState, GivesPiece, Advances, PieceFaults, answer_of};
ghost use Rattle.wh_io.specs.declared.next.Ended.{Ended};

use crate::next::{Ended, Next};
use crate::read::ReadFault;
use crate::shelf::Shelf;
use std::marker::Model;

/// How far a file was read: the limit, how many bytes were given, and how the reading has ended, if it has.
#[derive(Drop)]
pub struct Pieces {
    limit: u64,
    given: u64,
    ended: Option<Ended>,
}

impl Model for Pieces {
    ghost use Rattle.std.specs.Prelude.{◌≤◌};
    ghost use Rattle.wh_io.specs.Pieces.{PiecesState};

    ghost Value = { PiecesState };

    ghost view = { λ pieces. record { limit = pieces.limit; given = pieces.given; ended = pieces.ended } };

    ghost invariant = { λ pieces. pieces.given ≤ pieces.limit };
}

impl Pieces {
    /// The reader before the first piece of a file of which at most `limit` bytes are wanted.
    pub fn new(limit: u64) -> Pieces
        ensures { result ≡ record { limit = limit; given = 0; ended = None } }
    {
        Pieces {
            limit,
            given: 0,
            ended: None,
        }
    }

    /// The next bytes of the file, behind those that were given, at the front of `into`. It takes no memory. Once `End`
    /// or a fault has come it comes at each call, without a read.
    ///
    /// # Errors
    /// `Failed` where the read failed, and `TooLong` where the file gave more than `limit` bytes.
    pub fn next<S: Shelf>(
        &mut self,
        shelf: &mut S,
        name: &str,
        into: &mut [u8],
    ) -> Result<Next, ReadFault>
        requires { 0 < length into.old }
        ensures piece { self.old.ended ≡ None → (file : List ℕ) → S.held shelf.old name.now ≡ Some file
            → GivesPiece file self.old.limit self.old.given into.new result }
        ensures moves { self.old.ended ≡ None → Advances self.old self.new (length into.old) result }
        ensures cause { self.old.ended ≡ None
            → PieceFaults (S.faults shelf.old name.now) (S.faults shelf.new name.now) result }
        ensures again { (ended : Ended) → self.old.ended ≡ Some ended
            → (result ≡ answer_of ended) × (self.new ≡ self.old) × (shelf.new ≡ shelf.old) × (into.new ≡ into.old) }
        ensures later { (other : List ℕ) → S.faults shelf.old other ≤ S.faults shelf.new other }
        ensures kept { (other : List ℕ) → S.held shelf.new other ≡ S.held shelf.old other }
    {
        if let Some(ended) = self.ended {
            return ended.answer();
        }
        let left = self.limit - self.given;
        let ask = left.max(1).min(into.len() as u64);
        let count = match shelf.read_at(name, self.given, &mut into[..ask as usize]) {
            Ok(count) => count,
            Err(_) => return self.end(Ended::Failed),
        };
        if count == 0 {
            return self.end(Ended::Whole);
        }
        if left == 0 {
            return self.end(Ended::TooLong);
        }
        self.given += count as u64;
        Ok(Next::Bytes(count))
    }

    /// Keeps how the reading has ended, and answers with it.
    fn end(&mut self, ended: Ended) -> Result<Next, ReadFault>
        ensures answer { result ≡ answer_of ended }
        ensures state { self.new ≡ record self.old { ended = Some ended } }
    {
        self.ended = Some(ended);
        ended.answer()
    }
}
