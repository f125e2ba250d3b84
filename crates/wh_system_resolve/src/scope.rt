//! The scope of a rule's sides: the tables in which their names are looked up.

ghost use Rattle.std.specs.Prelude.{◌≡◌, length};

use wh_system_parts::NameTable;
use wh_terms::{Metas, Types};

/// What the names in a rule's sides may stand for: the sorts, the symbols with their types, and the rule's
/// meta-variables with their declarations.
#[derive(Drop)]
pub struct Scope<'a> {
    /// The names of the sorts.
    pub sorts: &'a NameTable,
    /// The names of the symbols.
    pub funs: &'a NameTable,
    /// The type of each symbol.
    pub kinds: &'a Types,
    /// The names of the meta-variables.
    pub metas: &'a NameTable,
    /// The declaration of each meta-variable.
    pub declared: &'a Metas,
    ghost each_fun: { length funs.now ≡ length kinds.now },
    ghost each_meta: { length metas.now ≡ length declared.now },
}
