//! The names of a system, which its terms and its texts are printed with.

use wh_text::Name;
use wh_types::List;

/// The names of a system's sorts, symbols and meta-variables, by number.
#[derive(Drop)]
pub struct SystemNames {
    /// The names of the sorts.
    pub sorts: List<Name>,
    /// The names of the symbols.
    pub funs: List<Name>,
    /// The names of the meta-variables of each rule.
    pub metas: Vec<List<Name>>,
}
