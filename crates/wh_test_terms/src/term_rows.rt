//! Rows of terms: types, measures, limits, parts, patterns, opening, closing and substitution.

ghost use Rattle.std.specs.Prelude.{◌≡◌, ◌<◌, ◌^◌, All, IfOk};
ghost use Rattle.wh_terms.specs.Erase.{tm};
ghost use Rattle.wh_terms.specs.Measures.{Manageable};
ghost use Rattle.wh_terms.specs.Tree.{app, bound, lam, meta, more, none};
ghost use Rattle.wh_types.specs.Ty.{sort as sort_type};

use crate::asking::{Asked, Question, expect_answers};
use crate::calls::Call;
use crate::spelling::{spell, spell_option, spell_type};
use crate::stack::{add_balanced, add_repeated, term_of};
use std::alloc::{AllocError, Global};
use std::test::Fail;
use wh_match::is_pattern;
use wh_system::System;
use wh_terms::{
    Metas, Path, Signature, Subst, SubstEntry, Term, Terms, close, fits, height, open_with,
    opened_at, size, substitute, subterm_at, type_of,
};
use wh_types::{Bytes, SimpleType};

/// One sort, a symbol of it, one of functions on it, and a rule with one meta-variable, which takes an argument.
const TYPED: &[u8] =
    b"sort o;fun a:o;fun b:o->o;fun c:(o->o)->o;rule {F:[o]o} c (\\x:o.F[x]) => a;";

/// The type, or `none`.
fn add_type_option(out: &mut Bytes, kind: Option<&SimpleType>) -> Result<(), AllocError> {
    match kind {
        Some(kind) => spell_type(out, kind),
        None => out.append(b"none"),
    }
}

/// The type of the term over the symbols and the meta-variables.
fn add_type(
    alloc: Global,
    out: &mut Bytes,
    signature: &Signature,
    metas: &Metas,
    term: &Term,
) -> Result<(), AllocError> {
    let kind = type_of(alloc, signature, metas, term)?;
    add_type_option(out, kind.as_ref())
}

/// The type of the term, over the symbols and the meta-variables of the one rule, or `none`.
fn add_type_in(
    alloc: Global,
    out: &mut Bytes,
    system: &System,
    term: &Term,
) -> Result<(), AllocError> {
    match system.rules() {
        [rule] => add_type(alloc, out, system.signature(), &rule.metas, term),
        _ => Err(AllocError),
    }
}

/// Appends the type of the term that a text spells.
pub fn add_type_of(
    alloc: Global,
    out: &mut Bytes,
    system: &System,
    text: &[u8],
) -> Result<(), AllocError> {
    let term = term_of(alloc, text)?;
    add_type_in(alloc, out, system, &term)
}

/// Terms with their types.
const TYPES: &[(Asked, &[u8])] = &[
    (Asked::In(TYPED, Question::Type(b"0\\")), b"(0->0)"),
    (Asked::In(TYPED, Question::Type(b"0\\a@")), b"0"),
    (Asked::In(TYPED, Question::Type(b"b0\\a@@")), b"0"),
    (Asked::In(TYPED, Question::Type(b"xF")), b"0"),
    // a symbol of the sort as a function, and an argument of another type
    (Asked::In(TYPED, Question::Type(b"aa@")), b"none"),
    (Asked::In(TYPED, Question::Type(b"bb@")), b"none"),
    // a loose variable, also under a binder
    (Asked::In(TYPED, Question::Type(b"0")), b"none"),
    (Asked::In(TYPED, Question::Type(b"1\\")), b"none"),
    // a sort that is not declared
    (Asked::In(TYPED, Question::Type(b"a/")), b"none"),
    (Asked::In(TYPED, Question::Type(b"y")), b"none"),
    // a symbol and a meta-variable that are not declared, and an argument of another type
    (Asked::In(TYPED, Question::Type(b"d")), b"none"),
    (Asked::In(TYPED, Question::Type(b"aG")), b"none"),
    (Asked::In(TYPED, Question::Type(b"bF")), b"none"),
];

#[test]
fn tells_types(rt: HostRuntime) -> Result<(), Fail> {
    expect_answers(&rt, rt.alloc(), TYPES)?;
    Ok(())
}

/// The height and the size of a term that fits.
fn measured(alloc: Global, text: &[u8]) -> Result<(u32, u64), AllocError> {
    let term = term_of(alloc, text)?;
    if !fits(&term) {
        return Err(AllocError);
    }
    Ok((height(&term), size(&term)))
}

/// Terms with their heights and sizes: a spine of two arguments of which the first is the highest, and a head that is
/// an abstraction.
const MEASURES: &[(&[u8], (u32, u64))] = &[(b"a10Z\\\\@b@", (4, 9)), (b"0\\a@", (2, 4))];

#[test]
fn measures_terms(rt: HostRuntime) -> Result<(), Fail> {
    for (text, expected) in MEASURES {
        assert!(rt; measured(rt.alloc(), *text)? == *expected);
    }
    Ok(())
}

/// Whether the term of a text fits.
fn text_fits(alloc: Global, text: &[u8]) -> Result<bool, AllocError> {
    let term = term_of(alloc, text)?;
    Ok(fits(&term))
}

/// Whether a symbol with an item `times` times behind it fits.
fn repeated_fits(alloc: Global, item: &[u8], times: u32) -> Result<bool, AllocError> {
    let mut text = Bytes::new(alloc);
    add_repeated(&mut text, item, times)?;
    text_fits(alloc, text.as_slice())
}

/// Whether a tree that branches at each of 15 levels fits, with such an end.
fn balanced_fits(alloc: Global, end: &[u8]) -> Result<bool, AllocError> {
    let mut text = Bytes::new(alloc);
    add_balanced(&mut text, 15)?;
    text.append(end)?;
    text_fits(alloc, text.as_slice())
}

#[test]
fn keeps_the_limits_of_terms(rt: HostRuntime) -> Result<(), Fail> {
    // 200 abstractions, one in another, and 32 arguments of a symbol
    for (item, most) in [(b"\\".as_slice(), 200), (b"b@".as_slice(), 32)] {
        assert!(rt; repeated_fits(rt.alloc(), item, most)?);
        assert!(rt; !repeated_fits(rt.alloc(), item, most + 1)?);
    }
    // the sizes 65,536 and 65,537
    assert!(rt; balanced_fits(rt.alloc(), b"\\")?);
    assert!(rt; !balanced_fits(rt.alloc(), b"\\\\")?);
    Ok(())
}

/// A path of these digits.
fn path_of(alloc: Global, digits: &[u8]) -> Result<Path, AllocError> {
    let mut path = Path::new(alloc);
    for digit in digits {
        path.push(if *digit == b'0' { 0 } else { 1 })?;
    }
    Ok(path)
}

/// What stands at the path in the term of a text.
fn add_part_at(alloc: Global, out: &mut Bytes, text: &[u8], path: &Path) -> Result<(), AllocError> {
    let term = term_of(alloc, text)?;
    spell_option(out, subterm_at(&term, path))
}

/// What stands at the path of these digits.
pub fn add_part(
    alloc: Global,
    out: &mut Bytes,
    text: &[u8],
    digits: &[u8],
) -> Result<(), AllocError> {
    let path = path_of(alloc, digits)?;
    add_part_at(alloc, out, text, &path)
}

/// Terms and paths, with what stands there.
const PARTS: &[(Asked, &[u8])] = &[
    (Asked::Part(b"cb0@\\@", b""), b"(f2 \\0.(f1 #0))"),
    (Asked::Part(b"cb0@\\@", b"101"), b"#0"),
    (Asked::Part(b"cb0@\\@", b"1010"), b"none"),
    // an abstraction is left by 0 alone
    (Asked::Part(b"0\\", b"1"), b"none"),
];

#[test]
fn follows_paths(rt: HostRuntime) -> Result<(), Fail> {
    expect_answers(&rt, rt.alloc(), PARTS)?;
    Ok(())
}

/// The function applied to the argument.
fn applied(alloc: Global, function: Term, argument: Term) -> Result<Term, AllocError>
    ensures { IfOk result (λ t. tm t ≡ app (tm function) (tm argument)) }
{
    Ok(Term::App(Box::new(alloc, function)?, Box::new(alloc, argument)?))
}

/// The abstraction over a variable of the sort 0.
fn abstracted(alloc: Global, body: Term) -> Result<Term, AllocError>
    ensures { IfOk result (λ t. tm t ≡ lam (sort_type 0) (tm body)) }
{
    Ok(Term::Lam(SimpleType::Sort(0), Box::new(alloc, body)?))
}

/// A meta-variable with two bound variables as its arguments.
fn meta_of_bound(alloc: Global, i: u32, j: u32) -> Result<Term, AllocError>
    ensures { IfOk result (λ t. tm t ≡ meta 0 (more (bound i) (more (bound j) none))) }
{
    let mut items = Terms::new(alloc);
    items.push(Term::Bound(i))?;
    items.push(Term::Bound(j))?;
    Ok(Term::Meta(0, items))
}

/// A symbol applied to an abstraction over two variables, whose body is a meta-variable with two bound variables.
fn under_two(alloc: Global, i: u32, j: u32) -> Result<Term, AllocError>
    requires first { i < 2 ^ 30 }
    requires second { j < 2 ^ 30 }
    ensures { IfOk result (λ t. Manageable (tm t)) }
{
    let inner = abstracted(alloc, meta_of_bound(alloc, i, j)?)?;
    applied(alloc, Term::Fun(0), abstracted(alloc, inner)?)
}

/// Whether a meta-variable with the outer one of two variables and the variable `j` is a pattern.
fn binds_a_pattern(alloc: Global, j: u32) -> Result<bool, AllocError>
    requires { j < 2 ^ 30 }
{
    let term = under_two(alloc, 1, j)?;
    Ok(is_pattern(&term))
}

/// Whether a symbol with an argument is a pattern.
fn spine_is_a_pattern(alloc: Global) -> Result<bool, AllocError> {
    let spine = applied(alloc, Term::Fun(0), Term::Fun(1))?;
    Ok(is_pattern(&spine))
}

/// Whether an abstraction with an argument is a pattern.
fn redex_is_a_pattern(alloc: Global) -> Result<bool, AllocError> {
    let redex = applied(alloc, abstracted(alloc, Term::Bound(0))?, Term::Fun(0))?;
    Ok(is_pattern(&redex))
}

#[test]
fn tells_patterns(rt: HostRuntime) -> Result<(), Fail> {
    // two variables, a repeated one, and a loose one
    for (j, expected) in [(0, true), (1, false), (2, false)] {
        assert!(rt; binds_a_pattern(rt.alloc(), j)? == expected);
    }
    assert!(rt; spine_is_a_pattern(rt.alloc())?);
    // an abstraction as a head
    assert!(rt; !redex_is_a_pattern(rt.alloc())?);
    Ok(())
}

/// Terms of functions of two arguments.
const BINARY: &[u8] = b"sort o;fun q:o->o->o;fun p:o->(o->o)->o;fun a:o;";

/// What stands at the path, opened from the number 5 on.
pub fn add_opened_at(
    alloc: Global,
    out: &mut Bytes,
    term: &Term,
    at: &Path,
) -> Result<(), AllocError>
    requires { Manageable (tm term.now) }
{
    if at.as_slice().len() > 100 {
        return Err(AllocError);
    }
    let part = opened_at(alloc, term, at, 5)?;
    spell_option(out, part.as_ref())
}

/// The body of `\x. \y. q y x`, a part of it, and no part.
const PASSED: &[(Asked, &[u8])] = &[
    (
        Asked::In(
            BINARY,
            Question::Call(
                Call::OpenAt,
                b"NO 1\nterm (\\$0:o.(\\$1:o.(q $1 $0)))\nat /00\nend\n",
            ),
        ),
        b"((f0 %6:0) %5:0)",
    ),
    (
        Asked::In(
            BINARY,
            Question::Call(
                Call::OpenAt,
                b"NO 1\nterm (\\$0:o.(\\$1:o.(q $1 $0)))\nat /0001\nend\n",
            ),
        ),
        b"%6:0",
    ),
    (
        Asked::In(
            BINARY,
            Question::Call(
                Call::OpenAt,
                b"NO 1\nterm (\\$0:o.(\\$1:o.(q $1 $0)))\nat /00011\nend\n",
            ),
        ),
        b"none",
    ),
];

#[test]
fn passed_binders_are_numbered_from_the_outside(rt: HostRuntime) -> Result<(), Fail> {
    expect_answers(&rt, rt.alloc(), PASSED)?;
    Ok(())
}

/// The body of an abstraction with the symbol 2 for its variable.
fn add_opened(alloc: Global, out: &mut Bytes, body: &Term) -> Result<(), AllocError>
    requires { Manageable (tm body.now) }
{
    let opened = open_with(alloc, body, &Term::Fun(2))?;
    spell(out, &opened)
}

/// The body of the abstraction with the symbol 2 for its variable.
fn add_inner_opened(alloc: Global, out: &mut Bytes, term: &Term) -> Result<(), AllocError>
    requires { Manageable (tm term.now) }
{
    match term {
        Term::Lam(_, body) => add_opened(alloc, out, body),
        _ => Err(AllocError),
    }
}

/// The body of the inner abstraction with the symbol 2 for its variable.
pub fn add_body_opened(alloc: Global, out: &mut Bytes, term: &Term) -> Result<(), AllocError>
    requires { Manageable (tm term.now) }
{
    match term {
        Term::Lam(_, body) => add_inner_opened(alloc, out, body),
        _ => Err(AllocError),
    }
}

/// The term with its variable 2 of the sort 0 closed.
pub fn add_closed(alloc: Global, out: &mut Bytes, term: &Term) -> Result<(), AllocError>
    requires { Manageable (tm term.now) }
{
    let closed = close(alloc, term, 2, &SimpleType::Sort(0))?;
    spell(out, &closed)
}

/// The nearest loose variable for the variable 3 of the sort 0.
fn bound_for_free(alloc: Global) -> Result<Subst, AllocError>
    ensures { IfOk result (λ by. All (λ entry. Manageable (tm entry.value)) by) }
{
    let mut by = Subst::new(alloc);
    by.push(SubstEntry {
        number: 3,
        kind: SimpleType::Sort(0),
        value: Term::Bound(0),
    })?;
    Ok(by)
}

/// The term after a substitution.
fn add_value(alloc: Global, out: &mut Bytes, term: &Term, by: &Subst) -> Result<(), AllocError>
    requires term_in_range { Manageable (tm term.now) }
    requires values_in_range { All (λ entry. Manageable (tm entry.value)) by.now }
{
    let value = substitute(alloc, term, by)?;
    spell(out, &value)
}

/// The term with the nearest loose variable for its variable 3.
pub fn add_substituted(alloc: Global, out: &mut Bytes, term: &Term) -> Result<(), AllocError>
    requires { Manageable (tm term.now) }
{
    let by = bound_for_free(alloc)?;
    add_value(alloc, out, term, &by)
}

/// Terms with what becomes of them.
const CHANGED: &[(Asked, &[u8])] = &[
    (
        Asked::In(
            BINARY,
            Question::Call(
                Call::Open,
                b"NO 1\nterm (\\$0:o.(\\$1:o.(q $1 $0)))\nat /\nend\n",
            ),
        ),
        b"((f0 f2) #0)",
    ),
    // variables of one number and two types are two variables
    (
        Asked::In(
            BINARY,
            Question::Call(Call::Close, b"NO 1\nterm (p %2:o %2:(o->o))\nat /\nend\n"),
        ),
        b"((f1 #0) %2:(0->0))",
    ),
    // below the binder the loose variable 0 is the loose variable 1
    (
        Asked::In(
            BINARY,
            Question::Call(
                Call::Substitute,
                b"NO 1\nterm (\\$0:o.(q $0 %3:o))\nat /\nend\n",
            ),
        ),
        b"\\0.((f0 #0) #1)",
    ),
];

#[test]
fn opens_closes_and_substitutes(rt: HostRuntime) -> Result<(), Fail> {
    expect_answers(&rt, rt.alloc(), CHANGED)?;
    Ok(())
}
