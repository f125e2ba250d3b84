//! Rows of the finders that `prove` asks about one set. That the conditions of a node that is found hold is a clause of
//! their calls.

ghost use Rattle.std.specs.Prelude.{◌≤◌, ◌<◌, All, IfOk, length};
ghost use Rattle.wh_types.specs.Limits.{most_pairs};
ghost use Rattle.wh_system.specs.SystemView.{system_data};
ghost use Rattle.wh_pairs.specs.SystemPairs.{HasPairs};
ghost use Rattle.wh_pairs.specs.Views.{pairs_data};
ghost use Rattle.wh_find_flat.specs.Answers.{IsClosedList};

use std::alloc::{AllocError, Global};
use std::test::Fail;
use wh_cert::{Node, OrderNode};
use wh_find_flat::{find_by_circuit, is_flat};
use wh_find_order::find_order;
use wh_pairs::{PairList, PairSet};
use wh_pairs_making::pairs;
use wh_read::{Refused, read_system};
use wh_sat::Search;
use wh_system::System;
use wh_test_samples::{HALVES, IDENTITY, MAP, PARTIAL, QUADRUPLE};
use wh_types::{Numbers, Or};
use wh_usable_rules::usable_rules;

/// A finder that is asked about a set.
#[derive(Clone, Copy)]
enum Finder {
    /// One formula for interpretations that cover all rules.
    Flat,
    /// One formula for interpretations that cover the usable rules.
    FlatUsable,
    /// The search for path orders.
    Order,
}

/// Which finder is asked about which pair, and how many clauses may be learnt.
#[derive(Clone, Copy)]
struct Question {
    finder: Finder,
    pair: u32,
    budget: u64,
}

/// The answer about a pair of the system of a text; want of memory stands for all that has no such pair.
fn answer(alloc: Global, text: &[u8], question: Question) -> Result<String, AllocError> {
    if text.len() > 1_048_576 {
        return Err(AllocError);
    }
    let outcome = read_system(alloc, text);
    answer_from(alloc, &outcome, question)
}

/// The answer to a question about the system that was read, or that none was.
fn answer_from(
    alloc: Global,
    outcome: &Result<System, Or<Refused>>,
    question: Question,
) -> Result<String, AllocError> {
    match outcome {
        Ok(system) => answer_about(alloc, system, question),
        Err(_) => Err(AllocError),
    }
}

/// The answer to a question about the system and its pairs.
fn answer_about(alloc: Global, system: &System, question: Question) -> Result<String, AllocError> {
    let list = pairs_of(alloc, system)?;
    answer_of(alloc, system, &list, question)
}

/// The pairs of the system; want of memory stands for too many.
fn pairs_of(alloc: Global, system: &System) -> Result<PairList, AllocError>
    ensures pairs { IfOk result (λ list. HasPairs (system_data system.now) (pairs_data list)) }
    ensures few { IfOk result (λ list. length list ≤ most_pairs) }
{
    match pairs(alloc, system) {
        Ok(list) => Ok(list),
        Err(_) => Err(AllocError),
    }
}

/// The answer about the pair with the question's number.
fn answer_of(
    alloc: Global,
    system: &System,
    list: &PairList,
    question: Question,
) -> Result<String, AllocError>
    requires pairs { HasPairs (system_data system.now) (pairs_data list.now) }
    requires few { length list.now ≤ most_pairs }
{
    let Question {
        finder,
        pair,
        budget,
    } = question;
    if pair as usize >= list.as_slice().len() {
        return Err(AllocError);
    }
    let mut set = PairSet::new(alloc);
    set.push(pair)?;
    match finder {
        Finder::Flat => answer_over(alloc, system, list, &set, None, budget),
        Finder::FlatUsable => match usable_rules(alloc, system, list, &set)? {
            Some(listed) => answer_over(alloc, system, list, &set, Some(listed), budget),
            None => String::from_str(alloc, "no list"),
        },
        Finder::Order => {
            let found = find_order(alloc, system, list, &set, budget)?;
            told_of_order(alloc, found)
        }
    }
}

/// The answer about a set where the rules of the list are to be covered, or all rules where there is none.
fn answer_over(
    alloc: Global,
    system: &System,
    list: &PairList,
    set: &PairSet,
    usable: Option<Numbers>,
    budget: u64,
) -> Result<String, AllocError>
    requires pairs { HasPairs (system_data system.now) (pairs_data list.now) }
    requires few { length list.now ≤ most_pairs }
    requires set { All (λ n. n < length list.now) set.now }
    requires some { 1 ≤ length set.now }
    requires usable { IsClosedList (system_data system.now) (pairs_data list.now) set.now usable }
{
    if !is_flat(alloc, system, list, set, &usable)? {
        return String::from_str(alloc, "not flat");
    }
    told(
        alloc,
        find_by_circuit(alloc, system, list, set, usable, budget)?,
    )
}

/// What is found: how many pairs a node drops and how many rules it lists, or how many clauses were learnt.
fn told(alloc: Global, found: Search<Node>) -> Result<String, AllocError> {
    match found {
        Search::Found(Node::Poly(node)) => {
            let count = node.drop.as_slice().len();
            match &node.usable {
                Some(listed) => {
                    let rules = listed.as_slice().len();
                    format!(in alloc; "found, {count} dropped, {rules} rules")
                }
                None => format!(in alloc; "found, {count} dropped"),
            }
        }
        Search::Found(_) => String::from_str(alloc, "found another node"),
        Search::Nothing => String::from_str(alloc, "nothing"),
        Search::Spent(learnt) => {
            let count = learnt.as_slice().len();
            format!(in alloc; "spent {count}")
        }
    }
}

/// Tells what a search for path orders found.
fn told_of_order(alloc: Global, found: Search<OrderNode>) -> Result<String, AllocError> {
    match found {
        Search::Found(node) => {
            let count = node.drop.as_slice().len();
            format!(in alloc; "found, {count} dropped")
        }
        Search::Nothing => String::from_str(alloc, "nothing"),
        Search::Spent(list) => {
            let count = list.as_slice().len();
            format!(in alloc; "spent {count}")
        }
    }
}

/// Each order for the first pair picks the place of `i`: where `i` keeps it, the last rule asks for `i` above `s`, and
/// `t` for the other way around.
const PICKED: &[u8] =
    b"sort o;\nfun s : o -> o;\nfun i : o -> o;\nfun t : o -> o;\nrule {X:o} t (s X) => t (i X);\nrule {X:o} i X => X;\nrule {X:o} i (s X) => s (i X);\n";

/// `f` has to keep both places, and shrinks at the second one alone.
const SECOND_PLACE: &[u8] =
    b"sort o;\nfun s : o -> o;\nfun f : o -> o -> o;\nfun t : o -> o;\nrule {X:o,Y:o} t (f X (s Y)) => t (f X Y);\nrule {X:o,Y:o} f X Y => X;\nrule {X:o,Y:o} f X Y => Y;\n";

/// What shrinks stands under a binder.
const UNDER_BINDER: &[u8] =
    b"sort o;\nfun s : o -> o;\nfun l : (o -> o) -> o;\nrule {F:[o] o} l (\\x:o.s F[x]) => l (\\x:o.F[x]);\n";

/// What grows stands under a binder: there is no order, but a circuit does not tell that.
const GROWS_UNDER_BINDER: &[u8] =
    b"sort o;\nfun s : o -> o;\nfun l : (o -> o) -> o;\nrule {F:[o] o} l (\\x:o.F[x]) => l (\\x:o.s F[x]);\n";

/// Systems, finders, pairs and budgets with the answers.
const ANSWERS: &[(&[u8], Finder, u32, u64, &str)] = &[
    (IDENTITY, Finder::Flat, 0, 10_000, "found, 1 dropped"),
    (QUADRUPLE, Finder::Flat, 0, 1_000_000, "nothing"),
    (MAP, Finder::Flat, 0, 10_000, "not flat"),
    (HALVES, Finder::Flat, 0, 1_000_000, "nothing"),
    (
        HALVES,
        Finder::FlatUsable,
        0,
        10_000,
        "found, 1 dropped, 3 rules",
    ),
    (MAP, Finder::FlatUsable, 0, 10_000, "no list"),
    (PARTIAL, Finder::Order, 1, 1_000_000, "nothing"),
    (MAP, Finder::Order, 0, 0, "spent 0"),
    (QUADRUPLE, Finder::Order, 0, 1_000_000, "found, 1 dropped"),
    (QUADRUPLE, Finder::Order, 0, 1, "found, 1 dropped"),
    (PICKED, Finder::Order, 0, 1_000_000, "found, 1 dropped"),
    (
        SECOND_PLACE,
        Finder::Order,
        0,
        1_000_000,
        "found, 1 dropped",
    ),
    (
        UNDER_BINDER,
        Finder::Order,
        0,
        1_000_000,
        "found, 1 dropped",
    ),
    (GROWS_UNDER_BINDER, Finder::Order, 0, 2, "spent 2"),
];

#[test]
fn sets_of_one_pair_are_answered(rt: HostRuntime) -> Result<(), Fail> {
    let alloc = rt.alloc();
    for (system, finder, pair, budget, expected) in ANSWERS {
        let question = Question {
            finder: *finder,
            pair: *pair,
            budget: *budget,
        };
        let text = answer(alloc, *system, question)?;
        assert_eq!(rt; text.as_str(), *expected);
    }
    Ok(())
}
