//! Rows of steps, over systems and certificates that are read from texts.

ghost use Rattle.wh_terms.specs.Erase.{tm};
ghost use Rattle.wh_terms.specs.Measures.{Fits};
ghost use Rattle.wh_terms.specs.Sight.{IsTerm, LooseBelow};

use crate::asking::{Asked, Question, expect_answer, expect_answers};
use crate::calls::Call;
use crate::spelling::{spell, spell_option};
use std::alloc::{AllocError, Global};
use std::process::Abort;
use std::test::Fail;
use wh_step::{StepFault, reducts, replay, step_at};
use wh_system::System;
use wh_terms::{Step, Term};
use wh_text::print_number;
use wh_types::Bytes;

/// A loop below a binder.
const UNDER_BINDER: &[u8] =
    b"sort o;\nfun k : (o -> o) -> o;\nfun g : o -> o;\nrule {X:o} g X => k (\\x:o.g x);\n";

/// Two constants that lead to each other.
const SWAP: &[u8] = b"sort o;fun a:o;fun b:o;rule {} a => b;rule {} b => a;";

/// A meta-variable under a binder whose variable is no argument of it.
const CONSTANT: &[u8] = b"sort o;fun c:o;fun m:(o->o)->o;rule {F:o} m (\\x:o.F) => F;";

/// A meta-variable that occurs twice.
const TWICE: &[u8] = b"sort o;fun a:o;fun b:o;fun q:o->o->o;rule {X:o} q X X => X;";

/// A meta-variable with the variables of two binders, the inner one first.
const EXCHANGE: &[u8] =
    b"sort o;fun a:o;fun b:o;fun q:o->o->o;fun n:(o->o->o)->o;rule {F:[o,o]o} n (\\x:o.\\y:o.F[y,x]) => F[a,b];";

/// A meta-variable whose value is a function.
const FUNCTIONS: &[u8] =
    b"sort o;fun q:o->o->o;fun n:(o->o->o)->o;fun p:(o->o->o)->o;rule {F:[o]o->o} n (\\x:o.F[x]) => p (\\x:o.F[x]);";

/// A system, a term of it in a certificate, and the reducts of the term.
const REDUCTS: &[(Asked, &[u8])] = &[
    // by preorder
    (
        Asked::In(
            UNDER_BINDER,
            Question::Call(
                Call::Reducts,
                b"NO 1\nterm ((\\$0:o.(g $0)) (g %0:o))\nat /\nend\n",
            ),
        ),
        b" (f1 (f1 %0:0)) (\\0.(f0 \\0.(f1 #0)) (f1 %0:0)) (\\0.(f1 #0) (f0 \\0.(f1 #0)))",
    ),
    // a body has no variable of a binder that is no argument
    (
        Asked::In(
            CONSTANT,
            Question::Call(Call::Reducts, b"NO 1\nterm (m (\\$0:o.$0))\nat /\nend\n"),
        ),
        b"",
    ),
    (
        Asked::In(
            CONSTANT,
            Question::Call(Call::Reducts, b"NO 1\nterm (m (\\$0:o.c))\nat /\nend\n"),
        ),
        b" f0",
    ),
    // a repeated meta-variable has one body
    (
        Asked::In(
            TWICE,
            Question::Call(Call::Reducts, b"NO 1\nterm (q a b)\nat /\nend\n"),
        ),
        b"",
    ),
    (
        Asked::In(
            TWICE,
            Question::Call(Call::Reducts, b"NO 1\nterm (q a a)\nat /\nend\n"),
        ),
        b" f0",
    ),
    // an argument becomes a parameter
    (
        Asked::In(
            b"sort o;fun a:o;fun q:o->o->o;fun m:(o->o)->o;rule {F:[o]o} m (\\x:o.F[x]) => F[a];",
            Question::Call(
                Call::Reducts,
                b"NO 1\nterm (m (\\$0:o.(q $0 $0)))\nat /\nend\n",
            ),
        ),
        b" ((f1 f0) f0)",
    ),
    // arguments may come in another order
    (
        Asked::In(
            EXCHANGE,
            Question::Call(
                Call::Reducts,
                b"NO 1\nterm (n (\\$0:o.(\\$1:o.(q $0 $1))))\nat /\nend\n",
            ),
        ),
        b" ((f2 f1) f0)",
    ),
    // a value takes the arguments below the binders of the body
    (
        Asked::In(
            FUNCTIONS,
            Question::Call(
                Call::Reducts,
                b"NO 1\nterm (n (\\$0:o.(\\$1:o.(q $0 $1))))\nat /\nend\n",
            ),
        ),
        b" (f2 \\0.\\0.((f0 #1) #0))",
    ),
];

/// Each of the terms, behind a blank.
fn spell_list(out: &mut Bytes, terms: &[Term]) -> Result<(), AllocError> {
    for term in terms {
        out.push(b' ')?;
        spell(out, term)?;
    }
    Ok(())
}

/// The reducts of a term.
pub fn add_reducts(
    alloc: Global,
    out: &mut Bytes,
    system: &System,
    term: &Term,
) -> Result<(), AllocError>
    requires fits { Fits (tm term.now) }
    requires shut { LooseBelow 0 (tm term.now) }
    requires plain { IsTerm (tm term.now) }
{
    system.is_well_made();
    let found = reducts(alloc, system.rules(), term)?;
    spell_list(out, found.as_slice())
}

#[test]
fn lists_reducts(rt: HostRuntime) -> Result<(), Fail> {
    expect_answers(&rt, rt.alloc(), REDUCTS)?;
    Ok(())
}

/// The result of the one step.
pub fn add_step(
    alloc: Global,
    out: &mut Bytes,
    system: &System,
    term: &Term,
    steps: &[Step],
) -> Result<(), AllocError>
    requires fits { Fits (tm term.now) }
    requires shut { LooseBelow 0 (tm term.now) }
    requires plain { IsTerm (tm term.now) }
{
    let [step] = steps else {
        return Err(AllocError);
    };
    system.is_well_made();
    let result = step_at(alloc, system.rules(), term, &step.path, step.rule)?;
    spell_option(out, result.as_ref())
}

/// A term of two redexes, one in the other, with a step at each of two places.
const STEPS: &[(Asked, &[u8])] = &[
    (
        Asked::In(
            UNDER_BINDER,
            Question::Call(
                Call::Step,
                b"NO 1\nterm ((\\$0:o.(g $0)) (g %0:o))\nstep 0 /1\nat /\nend\n",
            ),
        ),
        b"(\\0.(f1 #0) (f0 \\0.(f1 #0)))",
    ),
    (
        Asked::In(
            UNDER_BINDER,
            Question::Call(
                Call::Step,
                b"NO 1\nterm ((\\$0:o.(g $0)) (g %0:o))\nstep 0 /0\nat /\nend\n",
            ),
        ),
        b"none",
    ),
];

#[test]
fn steps_at_its_place_alone(rt: HostRuntime) -> Result<(), Fail> {
    expect_answers(&rt, rt.alloc(), STEPS)?;
    Ok(())
}

/// What befell a step, and its index.
fn add_fault(out: &mut Bytes, what: &[u8], index: u32) -> Result<(), AllocError> {
    out.append(what)?;
    print_number(out, index)
}

/// The last term, or which step fails.
fn add_outcome(out: &mut Bytes, outcome: &Result<Term, StepFault>) -> Result<(), AllocError> {
    match outcome {
        Ok(end) => spell(out, end),
        Err(StepFault::Fails { index }) => add_fault(out, b"fails ", *index),
        Err(StepFault::TooBig { index }) => add_fault(out, b"too big ", *index),
    }
}

/// Where the steps lead, or which step fails.
pub fn add_end(
    alloc: Global,
    out: &mut Bytes,
    system: &System,
    term: &Term,
    steps: &[Step],
) -> Result<(), AllocError>
    requires fits { Fits (tm term.now) }
    requires shut { LooseBelow 0 (tm term.now) }
    requires plain { IsTerm (tm term.now) }
{
    if steps.len() > 20_000 {
        return Err(AllocError);
    }
    system.is_well_made();
    let outcome = replay(alloc, system.rules(), term, steps)?;
    add_outcome(out, &outcome)
}

/// A symbol that is passed without its argument, and a loop.
const PARTIAL: &[u8] =
    b"sort nat;fun zero:nat;fun f:nat->nat;fun h:(nat->nat)->nat;rule {X:nat} f X => h f;rule {F:nat->nat} h F => F zero;";

/// Certificates of leftmost-outermost steps, which the row of `reduce` with the same terms goes, too; and some whose
/// second step fails.
const REPLAYED: &[(Asked, &[u8])] = &[
    (
        Asked::In(
            PARTIAL,
            Question::Call(
                Call::Replay,
                b"NO 1\nterm (f zero)\nstep 0 /\nstep 1 /\nat /\nend\n",
            ),
        ),
        b"(f1 f0)",
    ),
    (
        Asked::In(
            UNDER_BINDER,
            Question::Call(
                Call::Replay,
                b"NO 1\nterm (g %0:o)\nstep 0 /\nstep 0 /10\nat /\nend\n",
            ),
        ),
        b"(f0 \\0.(f0 \\0.(f1 #0)))",
    ),
    (
        Asked::In(
            SWAP,
            Question::Call(
                Call::Replay,
                b"NO 1\nterm a\nstep 0 /\nstep 1 /1\nat /\nend\n",
            ),
        ),
        b"fails 1",
    ),
    (
        Asked::In(
            SWAP,
            Question::Call(
                Call::Replay,
                b"NO 1\nterm a\nstep 0 /\nstep 2 /\nat /\nend\n",
            ),
        ),
        b"fails 1",
    ),
    (
        Asked::In(
            SWAP,
            Question::Call(
                Call::Replay,
                b"NO 1\nterm a\nstep 0 /\nstep 0 /\nat /\nend\n",
            ),
        ),
        b"fails 1",
    ),
];

#[test]
fn tells_where_steps_lead_or_which_fails(rt: HostRuntime) -> Result<(), Fail> {
    expect_answers(&rt, rt.alloc(), REPLAYED)?;
    Ok(())
}

/// The item `times` times.
fn add_times(text: &mut Vec<u8>, times: u32, item: &[u8]) -> Result<(), AllocError> {
    for _ in 0..times {
        text.extend_from_slice(item)?;
    }
    Ok(())
}

/// A number of items, what stands in their middle, and something behind it for each.
fn add_nest(
    text: &mut Vec<u8>,
    times: u32,
    open: &[u8],
    middle: &[u8],
    close: &[u8],
) -> Result<(), AllocError> {
    add_times(text, times, open)?;
    text.extend_from_slice(middle)?;
    add_times(text, times, close)
}

/// A certificate of 10,000 steps round a loop.
fn add_long(text: &mut Vec<u8>) -> Result<(), AllocError> {
    text.extend_from_slice(b"NO 1\nterm a\n".as_slice())?;
    add_nest(text, 5_000, b"step 0 /\nstep 1 /\n", b"at /\nend\n", b"")
}

/// A term of which beta makes one of height 250.
fn add_high(text: &mut Vec<u8>) -> Result<(), AllocError> {
    text.extend_from_slice(b"NO 1\nterm ((\\$0:o.".as_slice())?;
    add_nest(text, 150, b"(f ", b"$0", b")")?;
    text.extend_from_slice(b") ".as_slice())?;
    add_nest(text, 100, b"(f ", b"c", b")")?;
    text.extend_from_slice(b")\nstep beta /\nat /\nend\n".as_slice())
}

/// A tree of a binary symbol with 2^levels leaves.
fn add_doubled(text: &mut Vec<u8>, leaf: &[u8], levels: u32) -> Result<(), AllocError> {
    if levels == 0 {
        return text.extend_from_slice(leaf);
    }
    text.extend_from_slice(b"(d ".as_slice())?;
    add_doubled(text, leaf, levels - 1)?;
    text.push(b' ')?;
    add_doubled(text, leaf, levels - 1)?;
    text.push(b')')?;
    Ok(())
}

/// A term of which beta makes one of size 131,069.
fn add_large(text: &mut Vec<u8>) -> Result<(), AllocError> {
    text.extend_from_slice(b"NO 1\nterm ((\\$0:o.".as_slice())?;
    add_doubled(text, b"$0", 8)?;
    text.extend_from_slice(b") ".as_slice())?;
    add_doubled(text, b"c", 7)?;
    text.extend_from_slice(b")\nstep beta /\nat /\nend\n".as_slice())
}

/// Symbols to build large terms of, and two constants that lead to each other.
const BUILDERS: &[u8] =
    b"sort o;fun a:o;fun b:o;fun c:o;fun f:o->o;fun d:o->o->o;rule {} a => b;rule {} b => a;";

/// A certificate: `l` is long, `h` grows high, and `s` grows in size.
fn add_grown(text: &mut Vec<u8>, how: u8) -> Result<(), AllocError> {
    match how {
        b'l' => add_long(text),
        b'h' => add_high(text),
        _ => add_large(text),
    }
}

/// Compares where the steps of such a certificate lead.
fn expect_end(rt: &impl Abort, alloc: Global, how: u8, expected: &[u8]) -> Result<(), AllocError> {
    let mut text = Vec::new(alloc);
    add_grown(&mut text, how)?;
    expect_answer(
        rt,
        alloc,
        Asked::In(BUILDERS, Question::Call(Call::Replay, text.as_slice())),
        expected,
    )
}

/// Such certificates, with where their steps lead.
const GROWN: &[(u8, &[u8])] = &[(b'l', b"f0"), (b'h', b"too big 0"), (b's', b"too big 0")];

#[test]
fn replays_to_the_end_or_a_limit(rt: HostRuntime) -> Result<(), Fail> {
    for (how, expected) in GROWN {
        expect_end(&rt, rt.alloc(), *how, *expected)?;
    }
    Ok(())
}
