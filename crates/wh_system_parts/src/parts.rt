//! The parts of a system text: its declarations and rules, before their names are looked up. A reader makes them.

use wh_text::{Name, RawTerm, RawType, RawTypes};
use wh_types::List;

/// A declared name, and the offset where it stands.
#[derive(Drop)]
pub struct RawName {
    /// The name.
    pub name: Name,
    /// The offset of its first byte.
    pub at: u32,
}

/// A declared symbol.
#[derive(Drop)]
pub struct RawFun {
    /// The name of the symbol.
    pub name: RawName,
    /// The type of the symbol.
    pub kind: RawType,
}

/// A declared meta-variable of a rule.
#[derive(Drop)]
pub struct RawMeta {
    /// The name of the meta-variable.
    pub name: RawName,
    /// The types in its brackets, which are those of its arguments.
    pub args: RawTypes,
    /// The type behind the brackets, which its applications have.
    pub result: RawType,
}

/// A list of declared names.
pub type RawNames = List<RawName>;

/// A list of declared symbols.
pub type RawFuns = List<RawFun>;

/// A list of declared meta-variables.
pub type RawMetas = List<RawMeta>;

/// A rule.
#[derive(Drop)]
pub struct RawRule {
    /// The meta-variables of the rule, in order.
    pub metas: RawMetas,
    /// The left side.
    pub left: RawTerm,
    /// The right side.
    pub right: RawTerm,
    /// The offset of the keyword `rule`.
    pub at: u32,
}

/// A list of rules.
pub type RawRules = List<RawRule>;

/// What a system text says: its sorts, its symbols and its rules, in order.
#[derive(Drop)]
pub struct Parts {
    /// The names of the sorts.
    pub sorts: RawNames,
    /// The symbols with their types.
    pub funs: RawFuns,
    /// The rules.
    pub rules: RawRules,
}
