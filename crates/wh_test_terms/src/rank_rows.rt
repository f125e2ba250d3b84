//! Rows of ranks. The definitions at systems of which the answers were found by hand: each function that does nothing
//! proves its clause. And ranks that are found for systems that are read from texts.

ghost use Rattle.std.specs.Prelude.{◌≡◌, Some, None, [], ◌∷◌};
ghost use Rattle.wh_access.specs.Demands.{IsStrictCycle};
ghost use Rattle.wh_access.specs.Passing.{IsFirstBreak, Passing};
ghost use Rattle.wh_access.specs.Readings.{reading_of};
ghost use Rattle.wh_access.specs.Samples.{
  apply_cons,
  apply_rules,
  below_bound,
  function_lists,
  lists,
  map_rules,
  ordinal_rules,
  ordinals,
  place,
  read_twice,
  untyped,
  untyped_rules,
};
ghost use Rattle.wh_step_laws.specs.Ranks.{rank_of};

use crate::asking::{Asked, Question, expect_answers};
use std::alloc::{AllocError, Global};
use std::test::Fail;
use wh_access::{NoRanks, check_ranks, find_ranks};
use wh_system::System;
use wh_text::print_number;
use wh_types::{Bytes, Or, Ranks};

// The function of a list of functions is read behind the first place of fcons, the rest behind its second, and the
// last argument with nothing on the way.
fn ways_of_functions()
    ensures function { reading_of apply_cons.left 0 ≡ Some (place 1 0 ∷ []) }
    ensures rest { reading_of apply_cons.left 1 ≡ Some (place 1 1 ∷ []) }
    ensures last { reading_of apply_cons.left 2 ≡ Some [] }
{}

// In an argument of a bound variable nothing is read, and the first reading counts.
fn odd_ways()
    ensures bound { reading_of below_bound 0 ≡ None }
    ensures twice { reading_of read_twice 0 ≡ Some (place 1 0 ∷ []) }
{}

fn functions_pass_below_their_lists()
    ensures { Passing function_lists (rank_of (0 ∷ 1 ∷ [])) apply_rules }
{}

fn maps_pass_under_equal_ranks()
    ensures { Passing lists (rank_of (0 ∷ 0 ∷ [])) map_rules }
{}

fn functions_break_beside_their_lists()
    ensures { IsFirstBreak function_lists (rank_of (0 ∷ 0 ∷ [])) apply_rules 1 0 }
{}

fn untyped_terms_demand_a_cycle()
    ensures { IsStrictCycle untyped untyped_rules (0 ∷ []) }
{}

fn ordinals_demand_a_cycle()
    ensures { IsStrictCycle ordinals ordinal_rules (1 ∷ []) }
{}

#[test]
fn definitions_meet_the_rows() {
    ways_of_functions();
    odd_ways();
    functions_pass_below_their_lists();
    maps_pass_under_equal_ranks();
    functions_break_beside_their_lists();
    untyped_terms_demand_a_cycle();
    ordinals_demand_a_cycle();
}

/// A list of numbers, each behind a blank.
fn add_numbers(out: &mut Bytes, numbers: &[u32]) -> Result<(), AllocError> {
    for number in numbers {
        out.push(b' ')?;
        print_number(out, *number)?;
    }
    Ok(())
}

/// The rank of each sort.
fn add_ranks(out: &mut Bytes, ranks: &Ranks) -> Result<(), AllocError> {
    for sort in 0..ranks.count() {
        add_numbers(out, &[ranks.of(sort)])?;
    }
    Ok(())
}

/// A word, and numbers behind it.
fn add_words(out: &mut Bytes, word: &[u8], numbers: &[u32]) -> Result<(), AllocError> {
    out.append(word)?;
    add_numbers(out, numbers)
}

/// The ranks, behind what their check says.
fn add_checked(out: &mut Bytes, passes: bool, ranks: &Ranks) -> Result<(), AllocError> {
    out.append(if passes { b"ranks" } else { b"fails" })?;
    add_ranks(out, ranks)
}

/// Why there are no ranks.
fn add_cause(out: &mut Bytes, cause: &NoRanks) -> Result<(), AllocError> {
    match cause {
        NoRanks::Cycle(sorts) => add_words(out, b"cycle", sorts.as_slice()),
        NoRanks::Unread { rule, meta } => add_words(out, b"unread", &[*rule, *meta]),
    }
}

/// The ranks that are found for a system, or why there are none.
pub fn add_found_ranks(alloc: Global, out: &mut Bytes, system: &System) -> Result<(), AllocError> {
    match find_ranks(alloc, system) {
        Ok(ranks) => add_checked(out, check_ranks(system, &ranks).is_ok(), &ranks),
        Err(Or::Because(cause)) => add_cause(out, &cause),
        Err(Or::NoMemory) => Err(AllocError),
    }
}

/// Systems with the ranks that are found.
const FOUND: &[(Asked, &[u8])] = &[
    // no sorts, no ranks
    (Asked::In(b"", Question::Ranks), b"ranks"),
    // the sorts 0 and 1 demand each other, and 2 strictly 0: a rank counts the sorts that come before
    (
        Asked::In(
            b"sort s;sort t;sort u;fun p:u->u;fun q:(u->u)->s;fun r:s->t;fun v:t->s;fun d:u->u;fun e:s->u->u;fun f:t->s;fun g:s->t;rule {X:u} d (p X) => X;rule {F:[u]u,X:u} e (q (\\x:u.F[x])) X => F[X];rule {X:s} f (r X) => X;rule {X:t} g (v X) => X;",
            Question::Ranks,
        ),
        b"ranks 2 2 0",
    ),
    // the sort 1 demands 2 strictly, which leads back by 3; the sort 0 comes before these
    (
        Asked::In(
            b"sort z;sort s;sort t;sort u;fun p:(s->s)->t;fun q:t->u;fun r:u->s;fun v:(z->z)->s;fun d:t->s->s;fun e:u->t;fun f:s->u;fun g:s->z->z;rule {F:[s]s,X:s} d (p (\\x:s.F[x])) X => F[X];rule {X:t} e (q X) => X;rule {X:u} f (r X) => X;rule {F:[z]z,X:z} g (v (\\x:z.F[x])) X => F[X];",
            Question::Ranks,
        ),
        b"cycle 2 3 1",
    ),
];

#[test]
fn finds_ranks(rt: HostRuntime) -> Result<(), Fail> {
    expect_answers(&rt, rt.alloc(), FOUND)?;
    Ok(())
}
