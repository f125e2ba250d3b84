//! The spelling of raw trees. Each printer appends to a list of bytes, in one walk over its tree; `print_raw` answers
//! with the text of a term. Where memory is wanting the list may have got the first bytes of the spelling.

ghost use Rattle.std.specs.Prelude.{◌≡◌, [], ◌∷◌, ◌++◌, IfOk, OnOk};
ghost use Rattle.std.specs.Fmt.{decimal};
ghost use Rattle.wh_text.specs.Pushes.{Pushes};
ghost use Rattle.wh_text.specs.Spelling.{put_part, put_arguments, put_binder, put_term, put_each, put_bracketed, spelled};
ghost use Rattle.wh_text.specs.Erase.{rty, rtys, rbinder, rtm, rtms};

use crate::raw::{RawBinder, RawTerm, RawTerms, RawType, RawTypes};
use std::alloc::{AllocError, Global};
use wh_types::Bytes;

/// Appends a number in decimal digits.
pub fn print_number(out: &mut Bytes, n: u32) -> Result<(), AllocError>
    ensures { OnOk result (out.new ≡ out.old ++ decimal n) }
{
    if n >= 10 {
        print_number(out, n / 10)?;
    }
    out.push(b'0' + (n % 10) as u8)
}

/// Appends the spelling of a type as a part of something else, with a functional type in parentheses.
#[cycle(print_part)]
pub fn print_part(out: &mut Bytes, raw: &RawType) -> Result<(), AllocError>
    ensures { OnOk result (Pushes out.old out.new (put_part (rty raw.now))) }
{
    if raw.args.as_slice().is_empty() {
        return out.append(raw.sort.bytes());
    }
    out.push(b'(')?;
    print_types(out, &raw.args)?;
    out.append(raw.sort.bytes())?;
    out.push(b')')
}

/// Appends each type with an arrow behind it.
#[cycle(print_part)]
fn print_types(out: &mut Bytes, args: &RawTypes) -> Result<(), AllocError>
    ensures { OnOk result (Pushes out.old out.new (put_arguments (rtys args.now))) }
{
    for arg in args.as_slice() {
        print_part(out, arg)?;
        out.append(b"->")?;
    }
    Ok(())
}

/// Appends a binder.
fn print_binder(out: &mut Bytes, binder: &RawBinder) -> Result<(), AllocError>
    ensures { OnOk result (Pushes out.old out.new (put_binder (rbinder binder.now))) }
{
    match binder {
        RawBinder::Named(name) => out.append(name.bytes()),
        RawBinder::Numbered(n) => {
            out.push(b'$')?;
            print_number(out, *n)
        }
    }
}

/// Appends the spelling of a term.
#[cycle(print_term)]
pub fn print_term(out: &mut Bytes, term: &RawTerm) -> Result<(), AllocError>
    ensures { OnOk result (Pushes out.old out.new (put_term (rtm term.now))) }
{
    match term {
        RawTerm::Named(name, _) => out.append(name.bytes()),
        RawTerm::Numbered(n, _) => {
            out.push(b'$')?;
            print_number(out, *n)
        }
        RawTerm::Free(n, a, _) => {
            out.push(b'%')?;
            print_number(out, *n)?;
            out.push(b':')?;
            print_part(out, a)
        }
        RawTerm::Meta(name, args, _) => {
            out.append(name.bytes())?;
            print_bracketed(out, args)
        }
        RawTerm::Lam(binder, a, body, _) => {
            out.append(b"(\\")?;
            print_binder(out, binder)?;
            out.push(b':')?;
            print_part(out, a)?;
            out.push(b'.')?;
            print_term(out, body)?;
            out.push(b')')
        }
        RawTerm::Spine(head, args, _) => {
            out.push(b'(')?;
            print_term(out, head)?;
            print_each(out, b' ', b' ', args)?;
            out.push(b')')
        }
    }
}

/// Appends the arguments of a meta-variable in brackets, and nothing where there are none.
#[cycle(print_term)]
fn print_bracketed(out: &mut Bytes, args: &RawTerms) -> Result<(), AllocError>
    ensures { OnOk result (Pushes out.old out.new (put_bracketed (rtms args.now))) }
{
    if args.as_slice().is_empty() {
        return Ok(());
    }
    print_each(out, b'[', b',', args)?;
    out.push(b']')
}

/// Appends each term behind a sign, one for the first term and one for the others.
#[cycle(print_term)]
fn print_each(out: &mut Bytes, first: u8, other: u8, terms: &RawTerms) -> Result<(), AllocError>
    ensures { OnOk result (Pushes out.old out.new (put_each first other (rtms terms.now))) }
{
    let mut sign = first;
    for term in terms.as_slice() {
        out.push(sign)?;
        print_term(out, term)?;
        sign = other;
    }
    Ok(())
}

/// The canonical text of a term.
pub fn print_raw(alloc: Global, term: &RawTerm) -> Result<Bytes, AllocError>
    ensures { IfOk result (λ bytes. bytes ≡ spelled (rtm term.now)) }
{
    let mut out = Bytes::new(alloc);
    print_term(&mut out, term)?;
    Ok(out)
}
