//! Solves the formula of a file in DIMACS form. With the word `list` behind the file it prints a list that shows that
//! there is no model, in the LRAT format; with the name of such a list it checks that one. It stands here to be timed
//! by `bench/sat.py` beside other solvers.
#![tactic(auto)]

mod dimacs;
mod lrat;

ghost use Rattle.wh_sat_trail.specs.Propagation.{Within};

use dimacs::read;
use lrat::{are_short, lrat, read_list};
use std::alloc::{AllocError, Global};
use std::process::ExitCode;
use std::rt::{Env, Files};
use std::{env, fs};
use wh_refute::check_refutation;
use wh_sat::{Outcome, solve_owned};
use wh_sat_listed::{Listed, solve_listed};
use wh_sat_trail::{Formula, Refutation};
use wh_types::Or;

// How many clauses may be learnt.
const BUDGET: u64 = 1_000_000;

// How many clauses a formula, and entries a list, may have where lists are made or checked.
const MOST_CLAUSES: usize = 1_000_000_000;

fn main(rt: HostRuntime) -> ExitCode {
    let Ok(text) = answer(&rt) else {
        return ExitCode::from(1);
    };
    match println!(rt; "{text}") {
        Ok(()) => ExitCode::from(0),
        Err(_) => ExitCode::from(2),
    }
}

// The answer to the words; want of memory stands for all else.
fn answer<R: Env + Files + AllocGlobal>(rt: &R) -> Result<String, AllocError> {
    let alloc = rt.alloc();
    let mut words = env::args(rt).or(Err(AllocError))?.skip(1);
    let file = words.next().ok_or(AllocError)?;
    let text = fs::read_to_string(rt, file.as_str()).or(Err(AllocError))?;
    let formula = read(alloc, text.as_str())?;
    let Some(word) = words.next() else {
        return solved(alloc, formula);
    };
    if word.as_str() == "list" {
        return listed(alloc, &formula);
    }
    let text = fs::read_to_string(rt, word.as_str()).or(Err(AllocError))?;
    let list = read_list(alloc, text.as_str())?;
    checked(alloc, &formula, &list)
}

// The word for the answer about the formula.
fn solved(alloc: Global, formula: Formula) -> Result<String, AllocError>
    requires { Within formula.variables formula.clauses }
{
    let word = match solve_owned(alloc, formula, BUDGET)? {
        Outcome::Sat(_) => "SAT",
        Outcome::Unsat => "UNSAT",
        Outcome::Spent(_) => "SPENT",
    };
    String::from_str(alloc, word)
}

// The word for the answer; where there is no model, the list that shows it.
fn listed(alloc: Global, formula: &Formula) -> Result<String, AllocError>
    requires { Within formula.now.variables formula.now.clauses }
{
    let given = formula.clauses.as_slice().len();
    if given > MOST_CLAUSES {
        return Err(AllocError);
    }
    match solve_listed(alloc, formula, BUDGET)? {
        Listed::Sat(_) => String::from_str(alloc, "SAT"),
        Listed::Unsat(list) => lrat(alloc, given, list.as_slice()),
        Listed::Spent(_) => String::from_str(alloc, "SPENT"),
    }
}

// What the checker says of the list.
fn checked(alloc: Global, formula: &Formula, list: &Refutation) -> Result<String, AllocError>
    requires { Within formula.now.variables formula.now.clauses }
{
    let clauses = formula.clauses.as_slice().len();
    let entries = list.as_slice();
    if clauses > MOST_CLAUSES || entries.len() > MOST_CLAUSES || !are_short(entries) {
        return Err(AllocError);
    }
    match check_refutation(alloc, formula, list) {
        Ok(refuted) => {
            let count = refuted.entries;
            format!(in alloc; "REFUTED {count}")
        }
        Err(Or::Because(_)) => String::from_str(alloc, "BAD LIST"),
        Err(Or::NoMemory) => Err(AllocError),
    }
}
