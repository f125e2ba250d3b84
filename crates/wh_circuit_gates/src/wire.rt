//! Wires of a circuit: literals of its formula.

use wh_sat_trail::Literal;
use wh_types::List;

/// A variable of a circuit's formula, or its negation.
pub type Wire = Literal;

/// A list of wires; of a number the lowest bit stands first.
pub type Wires = List<Wire>;
