//! The terms of a generated system, as a text has them.

ghost use Rattle.std.specs.Prelude.{◌≡◌, [], ◌∷◌, IfOk};
ghost use Rattle.wh_text.specs.Erase.{rtm, rtms};
ghost use Rattle.wh_text.specs.Words.{IsWord};
ghost use Rattle.wh_gen.specs.Family.{map_name};
ghost use Rattle.wh_gen.specs.RawFamily.{raw_plain, raw_image, raw_mapped, raw_call, raw_cons, raw_map_of};

use crate::types::nat;
use std::alloc::{AllocError, Global};
use wh_text::{Name, RawBinder, RawTerm, RawTerms, print_number};
use wh_types::Bytes;

/// The name of the function with that number.
pub fn map_name(alloc: Global, number: u32) -> Result<Name, AllocError>
    ensures { IfOk result (λ name. name ≡ map_name number) }
{
    let mut bytes = Bytes::new(alloc);
    bytes.push(b'm')?;
    print_number(&mut bytes, number)?;
    Name::new(alloc, bytes.as_slice())
}

/// A plain name: a symbol, or a meta-variable without arguments.
pub fn plain(alloc: Global, name: &[u8]) -> Result<RawTerm, AllocError>
    requires { IsWord name.now }
    ensures { IfOk result (λ raw. rtm raw ≡ raw_plain name.now) }
{
    Ok(RawTerm::Named(Name::new(alloc, name)?, 0))
}

// The list of one term.
fn single(alloc: Global, term: RawTerm) -> Result<RawTerms, AllocError>
    ensures { IfOk result (λ terms. terms ≡ term ∷ []) }
{
    let mut terms = RawTerms::new(alloc);
    terms.push(term)?;
    Ok(terms)
}

// The list of two terms.
fn pair(alloc: Global, first: RawTerm, second: RawTerm) -> Result<RawTerms, AllocError>
    ensures { IfOk result (λ terms. terms ≡ first ∷ second ∷ []) }
{
    let mut terms = single(alloc, first)?;
    terms.push(second)?;
    Ok(terms)
}

/// `F` of the term.
pub fn image(alloc: Global, term: RawTerm) -> Result<RawTerm, AllocError>
    ensures { IfOk result (λ raw. rtm raw ≡ raw_image (rtm term)) }
{
    let arguments = single(alloc, term)?;
    Ok(RawTerm::Meta(Name::new(alloc, b"F")?, arguments, 0))
}

// `\x:nat.F[x]`
fn mapped(alloc: Global) -> Result<RawTerm, AllocError>
    ensures { IfOk result (λ raw. rtm raw ≡ raw_mapped) }
{
    let kind = Box::new(alloc, nat(alloc)?)?;
    let body = Box::new(alloc, image(alloc, RawTerm::Numbered(0, 0))?)?;
    Ok(RawTerm::Lam(RawBinder::Numbered(0), kind, body, 0))
}

// The symbol of that name with its arguments.
fn call(alloc: Global, name: &[u8], arguments: RawTerms) -> Result<RawTerm, AllocError>
    requires { IsWord name.now }
    ensures { IfOk result (λ raw. rtm raw ≡ raw_call name.now (rtms arguments)) }
{
    let head = Box::new(alloc, plain(alloc, name)?)?;
    Ok(RawTerm::Spine(head, arguments, 0))
}

/// The list with this head and this tail.
pub fn cons(alloc: Global, head: RawTerm, tail: RawTerm) -> Result<RawTerm, AllocError>
    ensures { IfOk result (λ raw. rtm raw ≡ raw_cons (rtm head) (rtm tail)) }
{
    call(alloc, b"cons", pair(alloc, head, tail)?)
}

/// The function of that name applied to `\x:nat.F[x]` and the list.
pub fn map_of(alloc: Global, name: &[u8], list: RawTerm) -> Result<RawTerm, AllocError>
    requires { IsWord name.now }
    ensures { IfOk result (λ raw. rtm raw ≡ raw_map_of name.now (rtm list)) }
{
    let function = mapped(alloc)?;
    call(alloc, name, pair(alloc, function, list)?)
}
