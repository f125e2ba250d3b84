//! A side of a pair as a term: the symbol with its arguments.

ghost use Rattle.std.specs.Prelude.{◌≡◌, IfOk, map};
ghost use Rattle.wh_terms.specs.Erase.{tm};
ghost use Rattle.wh_terms.specs.Tree.{fun, spine};

use std::alloc::{AllocError, Global};
use wh_terms::{Term, Terms, copy_term};

/// The symbol, applied to copies of the arguments.
pub fn call(alloc: Global, symbol: u32, arguments: &Terms) -> Result<Box<Term>, AllocError>
    ensures { IfOk result (λ made. tm made.value ≡ spine (fun symbol) (map tm arguments.now)) }
{
    let mut made = Box::new(alloc, Term::Fun(symbol))?;
    for argument in arguments.as_slice() {
        let last = Box::new(alloc, copy_term(alloc, argument)?)?;
        made = Box::new(alloc, Term::App(made, last))?;
    }
    Ok(made)
}
