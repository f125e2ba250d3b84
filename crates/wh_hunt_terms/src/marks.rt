//! Marks of terms: numbers by which most terms that differ are told apart at once.

use wh_terms::Term;

// The factor of a multiplicative hash: 2^64 divided by the golden ratio.
const FACTOR: u64 = 0x9e37_79b9_7f4a_7c15;

// The mark of a term whose first and second part have these marks.
fn mixed(first: u64, second: u64) -> u64 {
    let mark = first
        .wrapping_mul(FACTOR)
        .wrapping_add(second)
        .wrapping_mul(FACTOR);
    mark ^ (mark >> 29)
}

/// The mark of a term. Equal terms have one mark; types do not count.
pub fn mark(term: &Term) -> u64 {
    match term {
        Term::Bound(number) => mixed(1, u64::from(*number)),
        Term::Free(number, _) => mixed(2, u64::from(*number)),
        Term::Fun(symbol) => mixed(3, u64::from(*symbol)),
        Term::Meta(number, _) => mixed(4, u64::from(*number)),
        Term::Lam(_, body) => mixed(5, mark(body)),
        Term::App(function, argument) => mixed(mark(function), mark(argument)),
    }
}
