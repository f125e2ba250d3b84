//! Marks of terms: numbers by which most terms that differ are told apart at once. Nothing rests on a mark but that
//! equal terms have equal ones. So whether a term is new is found without a walk over the whole list.

ghost use Rattle.std.specs.Prelude.{◌≡◌, ◌<◌, ◌^◌, ◌≤◌};
ghost use Rattle.wh_terms.specs.Erase.{tm};
ghost use Rattle.wh_loop_reached.specs.Marks.{key_of, mark, mixed};

use wh_terms::Term;

/// How many rows there are.
pub const KEYS: usize = 16384;

// Marks are below this prime, but for those of single variables and symbols.
const MODULUS: u64 = 1_000_003;

// A quotient joins, so that it counts in which order a mark was built.
fn mixed(sum: u64) -> u64
    requires { sum < 2 ^ 60 }
    ensures value { result ≡ mixed sum }
    ensures small { result < 2 ^ 33 }
{
    (sum + sum / 61) % MODULUS
}

// The mark of a term.
fn mark(term: &Term) -> u64
    ensures value { result ≡ mark (tm term.now) }
    ensures small { result < 2 ^ 33 }
{
    match term {
        Term::Bound(number) => u64::from(*number),
        Term::Free(number, _) => u64::from(*number) + 1,
        Term::Fun(symbol) => u64::from(*symbol) + 2,
        Term::Meta(number, _) => u64::from(*number) + 3,
        Term::Lam(_, body) => mixed(3 * mark(body) + 5),
        Term::App(function, argument) => mixed(31 * mark(function) + 17 * mark(argument) + 7),
    }
}

/// The row of a term.
pub fn key_of(term: &Term) -> usize
    ensures value { result ≡ key_of (tm term.now) }
    ensures small { result < 16384 }
{
    mark(term) as usize % KEYS
}
