//! Rows of tokens and of printed texts.

ghost use Rattle.wh_text.specs.Words.{IsWord};

use crate::comparing::expect_text;
use std::alloc::{AllocError, Global};
use std::process::Abort;
use std::test::Fail;
use wh_cert::{CertSyntax, Certificate, Put};
use wh_cert_text::read_certificate;
use wh_text::{
    Name, RawBinder, RawTerm, RawTerms, RawType, RawTypes, Token, TokenKind, print_number,
    print_part, print_raw, tokens,
};
use wh_types::{Bytes, Or};

/// What the token is.
fn add_kind(text: &mut String, kind: TokenKind) -> Result<(), AllocError> {
    match kind {
        TokenKind::Name => text.push_str("Name"),
        TokenKind::Keyword => text.push_str("Keyword"),
        TokenKind::Sign => text.push_str("Sign"),
        TokenKind::Dollar(number) => write!(text, "Dollar({number})"),
        TokenKind::Percent(number) => write!(text, "Percent({number})"),
    }
}

/// The token with its place, in brackets.
fn add_token(text: &mut String, token: &Token) -> Result<(), AllocError> {
    text.push('[')?;
    add_kind(text, token.kind)?;
    let from = token.from;
    let to = token.to;
    write!(text, " {from} {to}]")
}

/// The tokens.
fn add_tokens(text: &mut String, found: &[Token]) -> Result<(), AllocError> {
    for token in found {
        add_token(text, token)?;
    }
    Ok(())
}

/// The tokens of a text, or the fault.
fn add_cut(alloc: Global, out: &mut String, text: &[u8]) -> Result<(), AllocError> {
    if text.len() > 8_388_608 {
        return Err(AllocError);
    }
    match tokens(alloc, text) {
        Ok(found) => add_tokens(out, found.as_slice()),
        Err(Or::Because(fault)) => write!(out, "{fault}"),
        Err(Or::NoMemory) => Err(AllocError),
    }
}

/// Compares the tokens of a text, or the fault.
fn expect_cut(
    rt: &impl Abort,
    alloc: Global,
    text: &[u8],
    expected: &str,
) -> Result<(), AllocError> {
    let mut found = String::new(alloc);
    add_cut(alloc, &mut found, text)?;
    assert_eq!(rt; found.as_str(), expected);
    Ok(())
}

/// Texts with their tokens.
const TOKENS: &[(&[u8], &str)] = &[
    (
        b"sort nat;# all \xff\r of it\nfun s' :\t(_x->y)\r\n=>$0%65535.",
        "[Keyword 0 4][Name 5 8][Sign 8 9][Keyword 24 27][Name 28 30][Sign 31 32][Sign 33 34][Name 34 36][Sign 36 38][Name 38 39][Sign 39 40][Sign 42 44][Dollar(0) 44 46][Percent(65535) 46 52][Sign 52 53]",
    ),
    (
        b"\\,[]{}rule sorts",
        "[Sign 0 1][Sign 1 2][Sign 2 3][Sign 3 4][Sign 4 5][Sign 5 6][Keyword 6 10][Name 11 16]",
    ),
    (b"a # b", "[Name 0 1]"),
    (b"", ""),
    (b"sort nat;\n\x80", "a byte that begins no token, at 10"),
    (b"a - ", "a byte that begins no token, at 2"),
    (b"a =x", "a byte that begins no token, at 2"),
    (b"a $", "a byte that begins no token, at 2"),
    (b"a 'b", "a byte that begins no token, at 2"),
    (b"$01", "a bad number, at 1"),
    (b" %65536 \x80", "a bad number, at 2"),
    (
        b"abcdefghijklmnopqrstuvwxyz0123456789_'ABCDEFGHIJKLMNOPQRSTUVWXYZ",
        "[Name 0 64]",
    ),
    (
        b" abcdefghijklmnopqrstuvwxyz0123456789_'ABCDEFGHIJKLMNOPQRSTUVWXYZZ",
        "a name that is too long, at 1",
    ),
];

#[test]
fn cuts_texts(rt: HostRuntime) -> Result<(), Fail> {
    for (text, expected) in TOKENS {
        expect_cut(&rt, rt.alloc(), *text, *expected)?;
    }
    Ok(())
}

/// A sort as a type.
fn sort(alloc: Global, name: &[u8]) -> Result<RawType, AllocError>
    requires { IsWord name.now }
{
    Ok(RawType {
        args: RawTypes::new(alloc),
        sort: Name::new(alloc, name)?,
        at: 0,
    })
}

/// The sort `nat` joins the types.
fn add_nat(alloc: Global, types: &mut RawTypes) -> Result<(), AllocError> {
    let nat = sort(alloc, b"nat")?;
    types.push(nat)
}

/// The type of functions from the sort `nat` to the sort `o`.
fn function(alloc: Global) -> Result<Box<RawType>, AllocError> {
    let mut kind = sort(alloc, b"o")?;
    add_nat(alloc, &mut kind.args)?;
    Ok(Box::new(alloc, kind)?)
}

/// A name joins the terms.
fn add_name(alloc: Global, terms: &mut RawTerms, name: &[u8]) -> Result<(), AllocError>
    requires { IsWord name.now }
{
    let name = Name::new(alloc, name)?;
    terms.push(RawTerm::Named(name, 0))
}

/// Two names.
fn add_two_names(alloc: Global, terms: &mut RawTerms) -> Result<(), AllocError> {
    add_name(alloc, terms, b"a")?;
    add_name(alloc, terms, b"x")
}

/// A meta-variable with two names.
fn meta(alloc: Global) -> Result<RawTerm, AllocError> {
    let mut args = RawTerms::new(alloc);
    add_two_names(alloc, &mut args)?;
    Ok(RawTerm::Meta(Name::new(alloc, b"Z")?, args, 0))
}

/// A meta-variable in a box.
fn boxed_meta(alloc: Global) -> Result<Box<RawTerm>, AllocError> {
    let meta = meta(alloc)?;
    Ok(Box::new(alloc, meta)?)
}

/// An abstraction whose binder has a name, which no canonical tree has.
fn abstraction(alloc: Global) -> Result<RawTerm, AllocError> {
    let kind = function(alloc)?;
    let body = boxed_meta(alloc)?;
    let name = Name::new(alloc, b"x")?;
    Ok(RawTerm::Lam(RawBinder::Named(name), kind, body, 0))
}

/// The text of a raw term, on a line.
fn add_raw(alloc: Global, out: &mut Bytes, raw: &RawTerm) -> Result<(), AllocError> {
    let text = print_raw(alloc, raw)?;
    out.append(text.as_slice())?;
    out.push(b'\n')
}

/// What a line puts: the type as a part of something else, and the term.
fn add_put(alloc: Global, out: &mut Bytes, put: &Put) -> Result<(), AllocError> {
    print_part(out, &put.kind)?;
    out.push(b' ')?;
    add_raw(alloc, out, &put.term)
}

/// What each line puts.
fn add_each_put(alloc: Global, out: &mut Bytes, puts: &[Put]) -> Result<(), AllocError> {
    for put in puts {
        add_put(alloc, out, put)?;
    }
    Ok(())
}

/// What the lines of a certificate of non-termination put.
fn add_puts_of(
    alloc: Global,
    out: &mut Bytes,
    outcome: &Result<Certificate, Or<CertSyntax>>,
) -> Result<(), AllocError> {
    match outcome {
        Ok(Certificate::No(no)) => add_each_put(alloc, out, no.puts.as_slice()),
        _ => Err(AllocError),
    }
}

/// Appends what the certificate that a text spells puts for variables.
fn add_puts(alloc: Global, out: &mut Bytes, text: &[u8]) -> Result<(), AllocError> {
    if text.len() > 8_388_608 {
        return Err(AllocError);
    }
    let outcome = read_certificate(alloc, text);
    add_puts_of(alloc, out, &outcome)
}

/// The abstraction.
fn add_abstraction(alloc: Global, out: &mut Bytes) -> Result<(), AllocError> {
    let raw = abstraction(alloc)?;
    add_raw(alloc, out, &raw)
}

/// A type of functions on functions, and a free variable of a functional type.
const FUNCTIONAL: &[u8] = b"NO 1\nterm a\nat /\nput %0:((nat->o)->list) %65535:(nat->o)\nend\n";

/// All these, and the greatest number.
fn add_texts(alloc: Global, out: &mut Bytes) -> Result<(), AllocError> {
    add_puts(alloc, out, FUNCTIONAL)?;
    add_abstraction(alloc, out)?;
    print_number(out, 4_294_967_295)
}

/// What is expected of them.
const PRINTED: &[u8] = b"((nat->o)->list) %65535:(nat->o)\n(\\x:(nat->o).Z[a,x])\n4294967295";

#[test]
fn prints_texts(rt: HostRuntime) -> Result<(), Fail> {
    let mut out = Bytes::new(rt.alloc());
    add_texts(rt.alloc(), &mut out)?;
    expect_text(&rt, out.as_slice(), PRINTED);
    Ok(())
}
