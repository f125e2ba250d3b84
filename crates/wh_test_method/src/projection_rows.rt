//! Rows of the search for projections: small systems, and a ring in which one projection of very many is the answer.

use crate::method_rows::all_of;
use std::alloc::{AllocError, Global};
use std::test::Fail;
use wh_find_subterm::{ProjectionFound, find_projection};
use wh_pairs::PairList;
use wh_pairs_making::pairs;
use wh_read::read_system;
use wh_sat::Search;
use wh_system::System;

/// The system of a text that is one, and its pairs; want of memory stands for all else.
fn problem_of(alloc: Global, text: &[u8]) -> Result<(System, PairList), AllocError> {
    if text.len() > 1_048_576 {
        return Err(AllocError);
    }
    let system = read_system(alloc, text).map_err(|_| AllocError)?;
    let list = pairs(alloc, &system).map_err(|_| AllocError)?;
    Ok((system, list))
}

/// What is found for all pairs of the system of a text; want of memory stands for all that has no pairs.
fn search(alloc: Global, text: &[u8], budget: u64) -> Result<Search<ProjectionFound>, AllocError> {
    let (system, list) = problem_of(alloc, text)?;
    let set = all_of(alloc, &list)?;
    if set.as_slice().is_empty() {
        return Err(AllocError);
    }
    find_projection(alloc, &system, &list, &set, budget)
}

/// The symbols with their arguments, and the pairs that are dropped.
fn add_found(text: &mut String, found: &ProjectionFound) -> Result<(), AllocError> {
    text.push_str("found")?;
    for choice in found.args.as_slice() {
        let symbol = choice.symbol;
        let argument = choice.argument;
        write!(text, " {symbol}:{argument}")?;
    }
    text.push_str(" drop")?;
    for number in found.drop.as_slice() {
        write!(text, " {number}")?;
    }
    Ok(())
}

/// What the answer is.
fn told(alloc: Global, answer: Search<ProjectionFound>) -> Result<String, AllocError> {
    let mut text = String::new(alloc);
    match answer {
        Search::Found(found) => add_found(&mut text, &found)?,
        Search::Nothing => text.push_str("nothing")?,
        Search::Spent(learnt) => {
            let count = learnt.as_slice().len();
            write!(text, "spent {count}")?;
        }
    }
    Ok(text)
}

/// `map` over lists.
const MAP: &[u8] =
    b"sort nat;\nsort list;\nfun zero : nat;\nfun s : nat -> nat;\nfun nil : list;\nfun cons : nat -> list -> list;\nfun map : (nat -> nat) -> list -> list;\nrule {F:[nat] nat} map (\\x:nat.F[x]) nil => nil;\nrule {F:[nat] nat, X:nat, Y:list} map (\\x:nat.F[x]) (cons X Y) => cons F[X] (map (\\x:nat.F[x]) Y);\n";

/// A call below a binder that is an argument.
const ETA: &[u8] =
    b"sort nat;\nfun s : nat -> nat;\nfun g : nat -> nat;\nfun k : (nat -> nat) -> nat;\nrule {X:nat} g (s X) => k (\\y:nat.g y);\n";

/// Two symbols that call each other.
const EVEN_ODD: &[u8] =
    b"sort nat;\nfun s : nat -> nat;\nfun e : nat -> nat;\nfun d : nat -> nat;\nrule {X:nat} e (s X) => d X;\nrule {X:nat} d (s X) => e X;\n";

/// Two calls: the second argument gets smaller in the first one alone, and the third in both.
const TWO_CALLS: &[u8] =
    b"sort o;fun s:o->o;fun c:o->o->o;fun f:o->o->o->o;rule {X:o,Y:o,Z:o} f X (s Y) (s Z) => c (f X Y Z) (f (s X) (s Y) Z);";

/// Systems and budgets with the answers.
const ANSWERS: &[(&[u8], u64, &str)] = &[
    (MAP, 100, "found 4:2 drop 0"),
    (MAP, 0, "spent 0"),
    (ETA, 100, "nothing"),
    (EVEN_ODD, 100, "found 1:1 2:1 drop 0 1"),
    (TWO_CALLS, 100, "found 2:3 drop 0 1"),
];

#[test]
fn finds_projections(rt: HostRuntime) -> Result<(), Fail> {
    let alloc = rt.alloc();
    for (system, budget, expected) in ANSWERS {
        let answer = told(alloc, search(alloc, *system, *budget)?)?;
        assert_eq!(rt; answer.as_str(), *expected);
    }
    Ok(())
}

/// The symbols of a ring.
fn add_symbols(text: &mut String, rules: u32) -> Result<(), AllocError> {
    for number in 0..rules {
        write!(text, "fun f{number}:o->o->o->o->o;")?;
    }
    Ok(())
}

/// The rules of a ring: each symbol calls the next one, and the fourth argument alone gets smaller.
fn add_rules(text: &mut String, rules: u32) -> Result<(), AllocError> {
    for number in 0..rules {
        let next = (number + 1) % rules;
        write!(
            text,
            "rule {{X:o,Y:o,Z:o,W:o}} f{number} X Y Z (s W) => f{next} (s X) (s Y) (s Z) W;"
        )?;
    }
    Ok(())
}

/// The text of a ring of `rules` rules.
fn ring(alloc: Global, rules: u32) -> Result<String, AllocError> {
    let mut text = String::new(alloc);
    text.push_str("sort o;fun s:o->o;")?;
    add_symbols(&mut text, rules)?;
    add_rules(&mut text, rules)?;
    Ok(text)
}

/// Whether the fourth argument of each symbol is chosen, behind the symbol `s`, and each pair is dropped.
fn is_all_fourth(found: &ProjectionFound, rules: u32) -> bool {
    let (args, drop) = (found.args.as_slice(), found.drop.as_slice());
    for number in 0..rules {
        match (args.get(number as usize), drop.get(number as usize)) {
            (Some(choice), Some(pair)) => if (choice.symbol, choice.argument, *pair)
                != (number + 1, 4, number)
            {
                return false;
            },
            _ => return false,
        }
    }
    args.len() == rules as usize && drop.len() == rules as usize
}

#[test]
fn finds_the_projection_of_a_ring(rt: HostRuntime) -> Result<(), Fail> {
    let alloc = rt.alloc();
    let text = ring(alloc, 30)?;
    match search(alloc, text.as_bytes(), 1_000_000)? {
        Search::Found(found) => assert!(rt; is_all_fourth(&found, 30)),
        _ => panic!(rt; "there is a projection"),
    }
    Ok(())
}
