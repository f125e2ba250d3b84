//! A spine taken apart: its head and its arguments from left to right.

ghost use Rattle.std.specs.Prelude.{◌≡◌, IfOk};
ghost use Rattle.wh_terms.specs.Erase.{tm};
ghost use Rattle.wh_terms.specs.Tree.{head};
ghost use Rattle.wh_pairs.specs.Spines.{spine_arguments};
ghost use Rattle.wh_pairs_calls.specs.Views.{trees};

use std::alloc::{AllocError, Global};
use wh_terms::Term;

/// The head of a spine and its arguments from left to right.
#[derive(Drop)]
pub struct Spine<'a> {
    /// The head, which is no application.
    pub head: &'a Term,
    /// The arguments.
    pub arguments: Vec<&'a Term>,
}

/// The spine that a term is.
pub fn spine_of<'a>(alloc: Global, term: &'a Term) -> Result<Spine<'a>, AllocError>
    ensures head { IfOk result (λ spine. tm spine.head.now ≡ head (tm term.now)) }
    ensures arguments { IfOk result (λ spine. trees spine.arguments.items ≡ spine_arguments (tm term.now)) }
{
    let mut head = term;
    let mut arguments = Vec::new(alloc);
    while let Term::App(function, argument) = head {
        let argument: &Term = argument;
        arguments.push(argument)?;
        head = function;
    }
    arguments.reverse();
    Ok(Spine { head, arguments })
}
