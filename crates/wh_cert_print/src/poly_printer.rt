//! The text of polynomials. Each printer appends to a list of bytes. Where memory is wanting the list may have got the
//! first bytes of the text.

ghost use Rattle.std.specs.Prelude.{◌≡◌, ◌++◌, OnOk};
ghost use Rattle.std.specs.Fmt.{decimal};
ghost use Rattle.wh_text.specs.Pushes.{Pushes};
ghost use Rattle.wh_poly.specs.Erase.{poly, atoms, polys, sum_of, arguments_of};
ghost use Rattle.wh_cert.specs.PolyText.{put_poly, put_sum, put_factors, put_polys, put_more};

use std::alloc::AllocError;
use wh_poly::{Atoms, Monomial, Poly, Polys};
use wh_text::print_number;
use wh_types::Bytes;

/// Appends a number in decimal digits.
pub fn print_big(out: &mut Bytes, number: u128) -> Result<(), AllocError>
    ensures { OnOk result (out.new ≡ out.old ++ decimal number) }
{
    if number >= 10 {
        print_big(out, number / 10)?;
    }
    out.push(b'0' + (number % 10) as u8)
}

/// Appends a polynomial.
#[cycle(print_poly)]
pub fn print_poly(out: &mut Bytes, p: &Poly) -> Result<(), AllocError>
    ensures { OnOk result (Pushes out.old out.new (put_poly (poly p.now))) }
{
    match p.as_slice().split_first() {
        None => out.push(b'0'),
        Some((first, rest)) => {
            print_big(out, first.coefficient)?;
            print_factors(out, &first.atoms)?;
            print_sum(out, rest)
        }
    }
}

/// Appends monomials, a `+` before each.
#[cycle(print_poly)]
fn print_sum(out: &mut Bytes, items: &[Monomial]) -> Result<(), AllocError>
    ensures { OnOk result (Pushes out.old out.new (put_sum (sum_of items.now))) }
{
    for item in items {
        out.push(b'+')?;
        print_big(out, item.coefficient)?;
        print_factors(out, &item.atoms)?;
    }
    Ok(())
}

/// Appends factors, a `*` before each.
#[cycle(print_poly)]
fn print_factors(out: &mut Bytes, us: &Atoms) -> Result<(), AllocError>
    ensures { OnOk result (Pushes out.old out.new (put_factors (atoms us.now))) }
{
    for item in us.as_slice() {
        out.append(b"*y")?;
        print_number(out, item.head)?;
        print_polys(out, &item.args)?;
    }
    Ok(())
}

/// Appends arguments in parentheses, where there are some.
#[cycle(print_poly)]
fn print_polys(out: &mut Bytes, ps: &Polys) -> Result<(), AllocError>
    ensures { OnOk result (Pushes out.old out.new (put_polys (polys ps.now))) }
{
    match ps.as_slice().split_first() {
        None => Ok(()),
        Some((first, rest)) => {
            out.push(b'(')?;
            print_poly(out, first)?;
            print_more(out, rest)
        }
    }
}

/// Appends arguments, a comma before each, and the end of their parenthesis.
#[cycle(print_poly)]
fn print_more(out: &mut Bytes, items: &[Poly]) -> Result<(), AllocError>
    ensures { OnOk result (Pushes out.old out.new (put_more (arguments_of items.now))) }
{
    for item in items {
        out.push(b',')?;
        print_poly(out, item)?;
    }
    out.push(b')')
}
