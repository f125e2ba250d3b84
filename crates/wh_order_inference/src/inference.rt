//! Inferences of the path order, as a certificate writes them: trees of letters, each of which says how a claim is
//! shown.

use wh_types::List;

/// How a claim about two trees is shown: each letter has claims that it is for, a condition, and claims for its parts.
#[derive(Clone, Copy)]
pub enum Letter {
    /// `=`: the trees are the same.
    Same,
    /// `l`: the two trees are abstractions over one type; by the bodies.
    Lam,
    /// `m`: the two trees have the same head, which is no symbol; by the arguments, some of which get smaller.
    Mono,
    /// `s`: by an argument on the left that is at least the right tree.
    Sub,
    /// `p`: the symbol on the right is of lower precedence; by the arguments on the right.
    Prec,
    /// `x`: the symbols are of equal precedence, and the first arguments that differ get smaller.
    Lex,
    /// `a`: no symbol heads the right tree; by its head and its arguments.
    App,
    /// `b`: the right tree is an abstraction; by its body.
    Bind,
    /// `v`: the right tree is a variable of a binder that was passed.
    Var,
    /// `z`: the right tree is a meta-variable that an argument on the left is.
    Meta,
}

/// An inference: a letter, a place where it has one, and an inference for each part.
#[derive(Drop)]
pub struct Inference {
    /// Which inference it is.
    pub letter: Letter,
    /// A place counted from 1; 0 where none is written.
    pub place: u32,
    /// The inferences of its parts, in order.
    pub parts: Inferences,
}

/// A list of inferences.
pub type Inferences = List<Inference>;
