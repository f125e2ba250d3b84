//! Rows of the calls of the method over systems that are read from texts: ranks, projections, the graph and its
//! components. Each value is made in a function of its own, which hands it on by reference, as the outcome that it
//! comes in: a function that holds several, or takes one out of an outcome, takes the prover long.

ghost use Rattle.std.specs.Prelude.{◌<◌, All, IfOk, length};

use std::alloc::{AllocError, Global};
use std::process::Abort;
use std::test::Fail;
use wh_access::{Inaccessible, NoRanks, check_ranks, find_ranks};
use wh_graph::{BlockFault, check_blocks, components, may_follow};
use wh_pairs::{PairList, PairSet};
use wh_pairs_making::{TooManyPairs, pairs};
use wh_read::{Refused, read_system};
use wh_subterm::{Choice, Projection, SubtermFault, check_projection};
use wh_system::System;
use wh_test_samples::{
    APART, BETA, ETA, EVEN_ODD, FUNCTION_LIST, IDENTITY, MAP, ORDINALS, UNTYPED,
};
use wh_types::{Blocks, Numbers, Or, Ranks};

/// A question about a system.
#[derive(Clone, Copy)]
enum Question<'a> {
    /// What becomes of the search for ranks.
    FoundRanks,
    /// What is wrong with these ranks.
    Ranks(&'a [u32]),
    /// A question about all its pairs.
    OfPairs(PairQuestion<'a>),
}

/// A question about all pairs of a system.
#[derive(Clone, Copy)]
enum PairQuestion<'a> {
    /// What is wrong with the projection of one symbol to an argument, where pair 0 is to be dropped.
    Choice { symbol: u32, argument: u32 },
    /// Whether the one pair may follow itself.
    Follows,
    /// Whether these are the components.
    Components(&'a [&'a [u32]]),
    /// What is wrong with these blocks.
    Blocks(&'a [&'a [u32]]),
}

/// An answer: a word, and the numbers that it is about. The word is empty where nothing is wrong.
type Told = (&'static str, u32, u32);

/// The answer where nothing is wrong.
const FINE: Told = ("", 0, 0);

/// An answer that no row expects.
const OTHER: Told = ("other", 0, 0);

/// The answer about the system of a text; want of memory stands for all that does not read.
fn answer(alloc: Global, text: &[u8], question: Question) -> Result<Told, AllocError> {
    if text.len() > 1_048_576 {
        return Err(AllocError);
    }
    let outcome = read_system(alloc, text);
    answer_from(alloc, &outcome, question)
}

/// The answer about the system that is read.
fn answer_from(
    alloc: Global,
    outcome: &Result<System, Or<Refused>>,
    question: Question,
) -> Result<Told, AllocError> {
    match outcome {
        Ok(system) => answer_about(alloc, system, question),
        Err(_) => Err(AllocError),
    }
}

/// The answer about the system.
fn answer_about(alloc: Global, system: &System, question: Question) -> Result<Told, AllocError> {
    match question {
        Question::FoundRanks => told_of_search(alloc, system),
        Question::Ranks(numbers) => told_of_ranks(alloc, system, numbers),
        Question::OfPairs(question) => answer_of_pairs(alloc, system, question),
    }
}

/// The answer about all pairs of the system.
fn answer_of_pairs(
    alloc: Global,
    system: &System,
    question: PairQuestion,
) -> Result<Told, AllocError> {
    let outcome = pairs(alloc, system);
    answer_of_found(alloc, system, &outcome, question)
}

/// The answer about the pairs that are found.
fn answer_of_found(
    alloc: Global,
    system: &System,
    outcome: &Result<PairList, Or<TooManyPairs>>,
    question: PairQuestion,
) -> Result<Told, AllocError> {
    match outcome {
        Ok(list) => answer_of_list(alloc, system, list, question),
        Err(_) => Err(AllocError),
    }
}

/// All pairs of a list.
pub fn all_of(alloc: Global, list: &PairList) -> Result<PairSet, AllocError>
    ensures { IfOk result (λ set. All (λ n. n < length list.now) set) }
{
    let count = u32::try_from(list.as_slice().len()).or(Err(AllocError))?;
    let mut set = PairSet::new(alloc);
    for number in 0..count {
        set.push(number)?;
    }
    Ok(set)
}

/// The answer about all pairs of the list.
fn answer_of_list(
    alloc: Global,
    system: &System,
    list: &PairList,
    question: PairQuestion,
) -> Result<Told, AllocError> {
    let set = all_of(alloc, list)?;
    answer_of_set(alloc, system, list, &set, question)
}

/// The answer about the pairs of the set.
fn answer_of_set(
    alloc: Global,
    system: &System,
    list: &PairList,
    set: &PairSet,
    question: PairQuestion,
) -> Result<Told, AllocError>
    requires { All (λ n. n < length list.now) set.now }
{
    match question {
        PairQuestion::Choice { symbol, argument } => {
            told_of_choice(alloc, system, list, set, Choice { symbol, argument })
        }
        PairQuestion::Follows => Ok(told_of_following(system, list)),
        PairQuestion::Components(classes) => told_of_components(alloc, system, list, set, classes),
        PairQuestion::Blocks(blocks) => told_of_blocks(alloc, system, list, set, blocks),
    }
}

/// Compares the answer with the one that is expected.
fn expect_answer(
    rt: &impl Abort,
    alloc: Global,
    text: &[u8],
    question: Question,
    expected: Told,
) -> Result<(), AllocError> {
    let found = answer(alloc, text, question)?;
    assert_eq!(rt; found, expected);
    Ok(())
}

/// Compares the answer of each row.
fn expect_answers(
    rt: &impl Abort,
    alloc: Global,
    rows: &[(&[u8], Question, Told)],
) -> Result<(), AllocError> {
    for (text, question, expected) in rows {
        expect_answer(rt, alloc, *text, *question, *expected)?;
    }
    Ok(())
}

/// How the ranks of two sorts stand.
fn told_of_found(ranks: &Ranks) -> Told {
    if ranks.count() == 2 && ranks.of(0) < ranks.of(1) {
        ("rising", 0, 0)
    } else {
        OTHER
    }
}

/// Why there are no ranks: a cycle by its one sort, or a meta-variable by its rule and its number.
fn told_of_cause(cause: &NoRanks) -> Told {
    match cause {
        NoRanks::Cycle(sorts) => match sorts.as_slice() {
            [sort] => ("cycle", *sort, 0),
            _ => OTHER,
        },
        NoRanks::Unread { rule, meta } => ("unread", *rule, *meta),
    }
}

/// How the ranks stand that are found, or why there are none.
fn told_of_outcome(outcome: &Result<Ranks, Or<NoRanks>>) -> Result<Told, AllocError> {
    match outcome {
        Ok(ranks) => Ok(told_of_found(ranks)),
        Err(Or::Because(cause)) => Ok(told_of_cause(cause)),
        Err(Or::NoMemory) => Err(AllocError),
    }
}

/// How the ranks stand that the search for ranks of the system finds, or why there are none.
fn told_of_search(alloc: Global, system: &System) -> Result<Told, AllocError> {
    let outcome = find_ranks(alloc, system);
    told_of_outcome(&outcome)
}

/// Systems, with what becomes of the search for ranks.
const SEARCHES: &[(&[u8], Question, Told)] = &[
    (FUNCTION_LIST, Question::FoundRanks, ("rising", 0, 0)),
    (ORDINALS, Question::FoundRanks, ("cycle", 1, 0)),
    (UNTYPED, Question::FoundRanks, ("cycle", 0, 0)),
    // A meta-variable that stands in an argument of a bound variable alone.
    (
        b"sort o;fun f:((o->o)->o)->o;rule {Z:o} f (\\x:(o->o).x Z) => Z;",
        Question::FoundRanks,
        ("unread", 0, 0),
    ),
];

#[test]
fn finds_ranks(rt: HostRuntime) -> Result<(), Fail> {
    expect_answers(&rt, rt.alloc(), SEARCHES)?;
    Ok(())
}

/// What is wrong with the ranks: the first meta-variable that is not accessible under them, by its rule and its number.
fn told_of_check(system: &System, ranks: &Ranks) -> Told {
    if ranks.count() != system.signature().sorts {
        return OTHER;
    }
    match check_ranks(system, ranks) {
        Ok(()) => FINE,
        Err(Inaccessible { rule, meta }) => ("inaccessible", rule, meta),
    }
}

/// What is wrong with the ranks that these two numbers give.
fn told_of_ranks(alloc: Global, system: &System, numbers: &[u32]) -> Result<Told, AllocError> {
    let [first, second] = numbers else {
        return Err(AllocError);
    };
    let ranks = Ranks::new(alloc, &[*first, *second])?;
    Ok(told_of_check(system, &ranks))
}

/// Ranks of two sorts, with what is wrong with them.
const RANKS: &[(&[u8], Question, Told)] = &[
    (
        FUNCTION_LIST,
        Question::Ranks(&[0, 0]),
        ("inaccessible", 1, 0),
    ),
    (FUNCTION_LIST, Question::Ranks(&[0, 1]), FINE),
];

#[test]
fn checks_ranks(rt: HostRuntime) -> Result<(), Fail> {
    expect_answers(&rt, rt.alloc(), RANKS)?;
    Ok(())
}

/// Whether these are a choice of the argument 2 and one of the argument 1.
fn are_in_order(choices: &[Choice]) -> bool {
    match choices {
        [first, second] => (first.argument, second.argument) == (2, 1),
        _ => false,
    }
}

/// Whether two choices keep their order.
fn keeps_order(alloc: Global) -> Result<bool, AllocError> {
    let mut args = Projection::new(alloc);
    args.push(Choice {
        symbol: 4,
        argument: 2,
    })?;
    args.push(Choice {
        symbol: 7,
        argument: 1,
    })?;
    Ok(are_in_order(args.as_slice()))
}

#[test]
fn keeps_choices_in_order(rt: HostRuntime) -> Result<(), Fail> {
    assert!(rt; keeps_order(rt.alloc())?);
    Ok(())
}

/// What is wrong with a projection, and at which symbol or pair.
fn told_of_projection(answer: Result<(), SubtermFault>) -> Told {
    match answer {
        Ok(()) => FINE,
        Err(SubtermFault::NotDecreasing { pair }) => ("not decreasing", pair, 0),
        Err(SubtermFault::BadArgument { symbol }) => ("bad argument", symbol, 0),
        Err(_) => OTHER,
    }
}

/// What is wrong with the projection that has this choice alone, where pair 0 is to be dropped.
fn told_of_choice(
    alloc: Global,
    system: &System,
    list: &PairList,
    set: &PairSet,
    choice: Choice,
) -> Result<Told, AllocError>
    requires { All (λ n. n < length list.now) set.now }
{
    let mut args = Projection::new(alloc);
    args.push(choice)?;
    Ok(told_of_projection(check_projection(system, list, set, &args, &[0])))
}

/// Projections, with what is wrong with them. `map` is symbol 4, `g` is symbol 1.
const PROJECTIONS: &[(&[u8], Question, Told)] = &[
    (
        MAP,
        Question::OfPairs(PairQuestion::Choice {
            symbol: 4,
            argument: 2,
        }),
        FINE,
    ),
    (
        MAP,
        Question::OfPairs(PairQuestion::Choice {
            symbol: 4,
            argument: 1,
        }),
        ("not decreasing", 0, 0),
    ),
    (
        ETA,
        Question::OfPairs(PairQuestion::Choice {
            symbol: 1,
            argument: 1,
        }),
        ("not decreasing", 0, 0),
    ),
    (
        MAP,
        Question::OfPairs(PairQuestion::Choice {
            symbol: 4,
            argument: 3,
        }),
        ("bad argument", 4, 0),
    ),
];

#[test]
fn checks_projections(rt: HostRuntime) -> Result<(), Fail> {
    expect_answers(&rt, rt.alloc(), PROJECTIONS)?;
    Ok(())
}

/// Whether the one pair of the list may follow itself.
fn told_of_following(system: &System, list: &PairList) -> Told {
    match list.as_slice() {
        [pair] if may_follow(system, pair, pair) => FINE,
        _ => OTHER,
    }
}

#[test]
fn a_beta_redex_may_become_a_call(rt: HostRuntime) -> Result<(), Fail> {
    expect_answer(
        &rt,
        rt.alloc(),
        BETA,
        Question::OfPairs(PairQuestion::Follows),
        FINE,
    )?;
    Ok(())
}

/// Whether the blocks have these numbers.
fn are_these(blocks: &[Numbers], classes: &[&[u32]]) -> bool {
    if blocks.len() != classes.len() {
        return false;
    }
    for (block, class) in blocks.iter().zip(classes.iter()) {
        if block.as_slice() != *class {
            return false;
        }
    }
    true
}

/// Whether these are the components of the set.
fn told_of_components(
    alloc: Global,
    system: &System,
    list: &PairList,
    set: &PairSet,
    classes: &[&[u32]],
) -> Result<Told, AllocError>
    requires { All (λ n. n < length list.now) set.now }
{
    let found = components(alloc, system, list, set)?;
    Ok(if are_these(found.as_slice(), classes) {
        FINE
    } else {
        OTHER
    })
}

/// Systems with the components of all their pairs.
const COMPONENTS: &[(&[u8], Question, Told)] = &[
    (
        EVEN_ODD,
        Question::OfPairs(PairQuestion::Components(&[&[0, 1]])),
        FINE,
    ),
    (
        IDENTITY,
        Question::OfPairs(PairQuestion::Components(&[&[0], &[1]])),
        FINE,
    ),
];

#[test]
fn finds_components(rt: HostRuntime) -> Result<(), Fail> {
    expect_answers(&rt, rt.alloc(), COMPONENTS)?;
    Ok(())
}

/// A block of these numbers joins the others.
fn add_block(alloc: Global, blocks: &mut Blocks, items: &[u32]) -> Result<(), AllocError> {
    let mut block = Numbers::new(alloc);
    for item in items {
        block.push(*item)?;
    }
    blocks.push(block)
}

/// Blocks of these numbers.
fn blocks_of(alloc: Global, items: &[&[u32]]) -> Result<Blocks, AllocError> {
    let mut blocks = Blocks::new(alloc);
    for item in items {
        add_block(alloc, &mut blocks, *item)?;
    }
    Ok(blocks)
}

/// What is wrong with blocks, and at which pairs.
fn told_of_partition(answer: Result<(), BlockFault>) -> Told {
    match answer {
        Ok(()) => FINE,
        Err(BlockFault::BackEdge { a, b }) => ("back edge", a, b),
        Err(BlockFault::NotPartition { pair }) => ("not partition", pair, 0),
        Err(BlockFault::FewBlocks) => ("few blocks", 0, 0),
    }
}

/// What is wrong with blocks of these numbers.
fn told_of_blocks(
    alloc: Global,
    system: &System,
    list: &PairList,
    set: &PairSet,
    items: &[&[u32]],
) -> Result<Told, AllocError>
    requires { All (λ n. n < length list.now) set.now }
{
    let blocks = blocks_of(alloc, items)?;
    Ok(told_of_partition(check_blocks(system, list, set, blocks.as_slice())))
}

/// Systems with blocks of all their pairs, and what is wrong with these, if something is.
const BLOCKS: &[(&[u8], Question, Told)] = &[
    (
        EVEN_ODD,
        Question::OfPairs(PairQuestion::Blocks(&[&[0], &[1]])),
        ("back edge", 1, 0),
    ),
    (
        EVEN_ODD,
        Question::OfPairs(PairQuestion::Blocks(&[&[0, 1], &[1]])),
        ("not partition", 1, 0),
    ),
    (
        APART,
        Question::OfPairs(PairQuestion::Blocks(&[&[0], &[2], &[1]])),
        ("back edge", 1, 0),
    ),
    (
        APART,
        Question::OfPairs(PairQuestion::Blocks(&[&[2], &[1, 0]])),
        FINE,
    ),
    (
        IDENTITY,
        Question::OfPairs(PairQuestion::Blocks(&[&[0], &[1]])),
        FINE,
    ),
    (
        IDENTITY,
        Question::OfPairs(PairQuestion::Blocks(&[&[0, 1]])),
        ("few blocks", 0, 0),
    ),
];

#[test]
fn checks_blocks(rt: HostRuntime) -> Result<(), Fail> {
    expect_answers(&rt, rt.alloc(), BLOCKS)?;
    Ok(())
}
