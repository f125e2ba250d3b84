//! The state of the walk over a side: the binders that it has passed, and the terms that it has resolved.

use crate::kind::Kind;
use wh_terms::{Term, Terms};
use wh_text::RawBinder;
use wh_types::{List, SimpleType};

/// A binder around the place of a walk, with the type of its variable.
#[derive(Drop)]
pub struct Around<'a> {
    /// The binder.
    pub binder: &'a RawBinder,
    /// The type of its variable.
    pub kind: SimpleType,
}

/// A resolved term: the term that a raw term stands for, and its type.
#[derive(Drop)]
pub struct Resolved<'a> {
    /// The term.
    pub term: Term,
    /// The type of the term.
    pub kind: Kind<'a>,
}

/// Resolved terms: those that raw terms stand for, one after another, and their types.
#[derive(Drop)]
pub struct ResolvedList<'a> {
    /// The terms.
    pub trees: Terms,
    /// The types of the terms.
    pub kinds: List<Kind<'a>>,
}
