//! Lists of moves, and lists of such lists: one for each rule or pair, as a certificate has them.

use crate::expression::Move;
use wh_types::List;

/// A list of moves.
pub type Moves = List<Move>;

/// A list of lists of moves.
pub type Covers = List<Moves>;
