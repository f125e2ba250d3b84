//! Why a search gave up: the pairs that are left, and what stops each way that was tried.

ghost use Rattle.std.specs.Prelude.{◌≤◌};
ghost use Rattle.wh_system.specs.SystemView.{system_data};
ghost use Rattle.wh_pairs.specs.SystemPairs.{HasPairs};
ghost use Rattle.wh_pairs.specs.Views.{pairs_data};

use crate::guessed::put_best_guess;
use std::alloc::{AllocError, Global};
use wh_access::NoRanks;
use wh_pairs::PairSet;
use wh_prover::{Answer, Cause, Finder, Options, prove};
use wh_tell::Piece::{Named, Number, Unknown};
use wh_tell::{Text, names_of_rule, names_of_system, put_demands, put_pairs, tell, tell_line};
use wh_tell_parts::{is_within, put_closest_projection};
use wh_top_judging::Problem;

// What a search came to that ended on a set of pairs.
const NONE_LETS_GO: &str =
    "No projection drops a pair of the set below, and no interpretation and no path order of those that are tried.\n";

/// Appends why nothing was found under these options.
pub fn put_cause(
    alloc: Global,
    text: &mut Text,
    problem: &Problem,
    options: &Options,
    cause: &Cause,
) -> Result<(), AllocError>
    requires { HasPairs (system_data problem.now.system) (pairs_data problem.now.pairs) }
{
    text.say("\n");
    match cause {
        Cause::NoRanks(cause) => put_no_ranks(alloc, text, problem, cause),
        Cause::Stuck(set) => {
            text.say(NONE_LETS_GO);
            let words = "No loop of at most @ steps begins at the left side of a rule.";
            tell_line(text, 0, words, &[Number(options.depth)]);
            put_stuck(alloc, text, problem, set)
        }
        Cause::Spent { finder, set, .. } => {
            put_spent(text, *finder);
            put_stuck(alloc, text, problem, set)
        }
        Cause::Full(_) => {
            text.say(NONE_LETS_GO);
            text.say("The search for loops found none, and kept as many terms as it may.\n");
            put_without_loops(alloc, text, problem, options)
        }
    }
}

// Appends that ranks can't be found.
fn put_no_ranks(
    alloc: Global,
    text: &mut Text,
    problem: &Problem,
    cause: &NoRanks,
) -> Result<(), AllocError> {
    match cause {
        NoRanks::Unread { rule, meta } => {
            let names = names_of_rule(&problem.system, *rule);
            tell_line(
                text,
                0,
                "Rule @ uses @, which its left side has only within an argument of a bound variable.",
                &[Number(*rule), Unknown(names.metas, *meta)],
            );
        }
        NoRanks::Cycle(sorts) => {
            put_cycle(text, problem, sorts.as_slice());
            put_demands(alloc, text, &problem.system)?;
        }
    }
    text.say("So no certificate of this format is a proof for the system.\n");
    Ok(())
}

// Appends the cycle of sorts.
fn put_cycle(text: &mut Text, problem: &Problem, sorts: &[u32]) {
    let names = names_of_system(&problem.system);
    let mut words: &[u8] =
        b"No ranks of sorts serve, since each of these would have to be below itself: ";
    for sort in sorts {
        text.spell(words);
        tell(text, "@", &[Named(names.sorts, *sort)]);
        words = b", ";
    }
    text.say(".\nWhat rules take out of their arguments asks for it:\n");
}

// Appends which search ended without an answer.
fn put_spent(text: &mut Text, finder: Finder) {
    match finder {
        Finder::Subterm => text.say("The search for a projection ended without an answer.\n"),
        Finder::Poly => {
            text.say("No projection drops a pair of the set below, ");
            text.say("and the search for an interpretation ended without an answer.\n");
        }
        Finder::Order => {
            text.say("No projection drops a pair of the set below, ");
            text.say("and no interpretation of those that are tried.\n");
            text.say("The search for a path order ended without an answer.\n");
        }
    }
    text.say("No loop was found.\n");
}

// Searches once more for a proof alone, for the set on which that ends.
fn put_without_loops(
    alloc: Global,
    text: &mut Text,
    problem: &Problem,
    options: &Options,
) -> Result<(), AllocError>
    requires { HasPairs (system_data problem.now.system) (pairs_data problem.now.pairs) }
{
    let alone = Options {
        tries: options.tries,
        depth: 0,
        visited: 10_000,
    };
    match prove(alloc, &problem.system, &problem.pairs, &alone)? {
        Answer::Maybe(Cause::Stuck(set)) => put_stuck(alloc, text, problem, &set),
        _ => Ok(()),
    }
}

// Appends the pairs that are left, and what stops each way to drop one.
fn put_stuck(
    alloc: Global,
    text: &mut Text,
    problem: &Problem,
    set: &PairSet,
) -> Result<(), AllocError>
    requires { HasPairs (system_data problem.now.system) (pairs_data problem.now.pairs) }
{
    tell_line(text, 0, "The set that is left:", &[]);
    put_pairs(
        text,
        &problem.system,
        problem.pairs.as_slice(),
        set.as_slice(),
        1,
    );
    put_closest_projection(alloc, text, &problem.system, problem.pairs.as_slice(), set)?;
    if is_within(set, problem.pairs.as_slice().len()) {
        put_best_guess(alloc, text, problem, set)?;
    }
    Ok(())
}
