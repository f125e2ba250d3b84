//! The height and the size of a term. The limits on terms speak of both; `limits` tests them in a walk that stops
//! early.

ghost use Rattle.std.specs.Prelude.{◌≡◌, ◌≤◌, ◌<◌, ◌^◌};
ghost use Rattle.wh_terms.specs.Erase.{tm, tms};
ghost use Rattle.wh_terms.specs.Measures.{size, sizes, height, heights, nesting, nestings, risen};

use crate::term::{Term, Terms};

/// The height of a term. A spine with arguments, and a meta-variable with arguments, is one higher than its highest
/// part; an abstraction is one higher than its body; each other term has height 0.
#[cycle(height)]
pub fn height(t: &Term) -> u32
    requires { nesting (tm t.now) < 2 ^ 30 }
    ensures { result ≡ height (tm t.now) }
{
    match t {
        Term::Bound(_) | Term::Free(..) | Term::Fun(_) => 0,
        Term::Meta(_, items) => {
            if items.as_slice().is_empty() {
                0
            } else {
                1 + greatest_height(items)
            }
        }
        Term::Lam(_, body) => 1 + height(body),
        Term::App(function, argument) => {
            let front = height(function);
            let last = height(argument);
            risen(function, front).max(1 + last)
        }
    }
}

// The greatest height of the terms, 0 if there are none.
#[cycle(height)]
fn greatest_height(items: &Terms) -> u32
    requires { nestings (tms items.now) < 2 ^ 30 }
    ensures { result ≡ heights (tms items.now) }
{
    let mut greatest = 0;
    for item in items.as_slice() {
        let here = height(item);
        greatest = greatest.max(here);
    }
    greatest
}

// What a function of the height `height` gives to the height of the spine that it begins: a longer front part has
// counted the step to its own parts already.
fn risen(function: &Term, height: u32) -> u32
    requires { height < 2 ^ 30 }
    ensures { result ≡ risen (tm function.now) height }
{
    match function {
        Term::App(..) => height,
        _ => height + 1,
    }
}

/// The size of a term: it counts symbols, variables, meta-applications, abstractions and binary applications.
#[cycle(size)]
pub fn size(t: &Term) -> u64
    requires { size (tm t.now) ≤ 2 ^ 40 }
    ensures { result ≡ size (tm t.now) }
{
    match t {
        Term::Bound(_) | Term::Free(..) | Term::Fun(_) => 1,
        Term::Meta(_, items) => 1 + total_size(items),
        Term::Lam(_, body) => 1 + size(body),
        Term::App(function, argument) => 1 + size(function) + size(argument),
    }
}

// The sizes of the terms together.
#[cycle(size)]
fn total_size(items: &Terms) -> u64
    requires { sizes (tms items.now) ≤ 2 ^ 40 }
    ensures { result ≡ sizes (tms items.now) }
{
    let mut total = 0;
    for item in items.as_slice() {
        let here = size(item);
        total += here;
    }
    total
}
