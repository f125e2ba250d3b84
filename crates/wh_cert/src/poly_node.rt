//! Nodes of interpretations: polynomials for symbols, and moves that cover rules and pairs.

use wh_hopoly::Covers;
use wh_poly::Poly;
use wh_text::Name;
use wh_types::{List, Numbers};

/// Interpretations under which no rule that is to be covered and no pair grows, and some pairs shrink.
#[derive(Drop)]
pub struct PolyNode {
    /// The numbers of the rules that are to be covered; `None` in version 1 of the format, where all are.
    pub usable: Option<Numbers>,
    /// The interpretations of the symbols.
    pub funs: Interps,
    /// The interpretations of the marked symbols.
    pub marks: Interps,
    /// The moves for each rule that is to be covered.
    pub rules: Covers,
    /// The moves for each pair.
    pub pairs: Covers,
    /// The pairs that shrink.
    pub drop: Numbers,
}

/// A symbol, and the polynomial that it is read as.
#[derive(Drop)]
pub struct Interp {
    /// The name of the symbol.
    pub name: Name,
    /// The polynomial.
    pub poly: Poly,
}

/// A list of interpretations.
pub type Interps = List<Interp>;
