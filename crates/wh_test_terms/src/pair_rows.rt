//! `subsumed`, over pairs of systems that differ in the right side of their last rule. What the pairs of a system are
//! is told by the rows of the program (examples/rows).

use crate::reading::read;
use std::alloc::{AllocError, Global};
use std::test::Fail;
use wh_pairs::PairList;
use wh_pairs_making::{pairs, subsumed};
use wh_read::Refused;
use wh_system::System;
use wh_types::Or;

/// A call with no condition.
const FREE: &[u8] =
    b"sort o;fun g:o->o;fun p:(o->o->o)->o->o;rule {X:o} g X => X;rule {F:[o,o]o,X:o} p (\\x:o.\\y:o.F[x,y]) X => g X;";

/// A call stands below the first argument of one occurrence of a meta-variable and the second argument of another.
const BOTH: &[u8] =
    b"sort o;fun g:o->o;fun p:(o->o->o)->o->o;rule {X:o} g X => X;rule {F:[o,o]o,X:o} p (\\x:o.\\y:o.F[x,y]) X => F[F[X,g X],X];";

/// A call stands below the second argument of a meta-variable alone.
const SECOND: &[u8] =
    b"sort o;fun g:o->o;fun p:(o->o->o)->o->o;rule {X:o} g X => X;rule {F:[o,o]o,X:o} p (\\x:o.\\y:o.F[x,y]) X => F[X,g X];";

/// A call with a condition, over another type.
const OTHER: &[u8] =
    b"sort n;sort o;fun g:o->o;fun p:(o->o->o)->o->o;rule {X:o} g X => X;rule {F:[o,o]o,X:o} p (\\x:o.\\y:o.F[x,y]) X => F[g X,X];";

/// The dependency pairs of the system that is read.
fn pairs_from(
    alloc: Global,
    outcome: &Result<System, Or<Refused>>,
) -> Result<PairList, AllocError> {
    match outcome {
        Ok(system) => pairs(alloc, system).map_err(|_| AllocError),
        Err(_) => Err(AllocError),
    }
}

/// The dependency pairs of the system of a text.
fn pairs_in(alloc: Global, text: &[u8]) -> Result<PairList, AllocError> {
    let outcome = read(alloc, text);
    pairs_from(alloc, &outcome)
}

/// Whether the one pair of the first list is subsumed by that of the second.
fn list_is_subsumed(first: &PairList, second: &PairList) -> Result<bool, AllocError> {
    match (first.as_slice(), second.as_slice()) {
        ([first], [second]) => Ok(subsumed(first, second)),
        _ => Err(AllocError),
    }
}

/// Whether the one pair of the first system is subsumed by that of the second.
fn is_subsumed(alloc: Global, first: &[u8], second: &[u8]) -> Result<bool, AllocError> {
    let first = pairs_in(alloc, first)?;
    let second = pairs_in(alloc, second)?;
    list_is_subsumed(&first, &second)
}

/// Systems, with whether the pair of the first is subsumed by that of the second.
const SUBSUMED: &[(&[u8], &[u8], bool)] = &[
    (BOTH, FREE, true),
    (FREE, BOTH, false),
    (BOTH, SECOND, true),
    (OTHER, FREE, false),
];

#[test]
fn fewer_conditions_subsume(rt: HostRuntime) -> Result<(), Fail> {
    for (first, second, expected) in SUBSUMED {
        assert!(rt; is_subsumed(rt.alloc(), *first, *second)? == *expected);
    }
    Ok(())
}
