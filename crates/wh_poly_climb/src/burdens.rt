//! Burdens: how long it takes to evaluate a condition, as far as its sides tell. A climb spends its looks by them.

ghost use Rattle.wh_poly_guesses.specs.Tasks.{IsTaskOf};

use std::alloc::{AllocError, Global};
use wh_reduction_pairs::Task;
use wh_terms::Term;

// How many abstractions on the sides of a condition count for nothing.
const FREE: u64 = 4;

/// For each condition, those of the rules first, as how many further looks its evaluation counts: one for each
/// abstraction of its sides beyond four. An abstraction stands for a function of polynomials. Where abstractions are
/// handed on within one another, evaluation takes longer for each of them.
pub fn burdens_of<'a>(alloc: Global, task: &Task<'a>) -> Result<Vec<u64>, AllocError>
    requires { IsTaskOf task.now }
{
    let mut burdens = Vec::new(alloc);
    for number in task.covered {
        let rule = &task.system.rules()[*number as usize];
        let count = abstractions(&rule.left).saturating_add(abstractions(&rule.right));
        burdens.push(count.saturating_sub(FREE))?;
    }
    for number in task.set {
        let pair = &task.pairs[*number as usize];
        let left = abstractions_in(pair.left.as_slice());
        let count = left.saturating_add(abstractions_in(pair.right.as_slice()));
        burdens.push(count.saturating_sub(FREE))?;
    }
    Ok(burdens)
}

// How many abstractions the terms have.
#[cycle(abstractions)]
fn abstractions_in(terms: &[Term]) -> u64 {
    let mut count: u64 = 0;
    for term in terms {
        count = count.saturating_add(abstractions(term));
    }
    count
}

// How many abstractions the term has.
#[cycle(abstractions)]
fn abstractions(term: &Term) -> u64 {
    match term {
        Term::Bound(_) | Term::Free(_, _) | Term::Fun(_) => 0,
        Term::Meta(_, items) => abstractions_in(items.as_slice()),
        Term::Lam(_, body) => abstractions(body).saturating_add(1),
        Term::App(function, argument) => {
            abstractions(function).saturating_add(abstractions(argument))
        }
    }
}
