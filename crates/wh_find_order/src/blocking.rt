//! The search by guesses: each guess under which a condition fails is shut out by a clause, and a solver tells the next
//! one, or chance does where many have joined.

ghost use Rattle.std.specs.Prelude.{◌≡◌, ◌+◌, ◌<◌, ◌≤◌, IfOk, OnOk, length};
ghost use Rattle.wh_types.specs.Limits.{most_pairs};
ghost use Rattle.wh_poly_blocking.specs.Sizes.{value_of};
ghost use Rattle.wh_sat.specs.Solving.{Solves};
ghost use Rattle.wh_sat.specs.State.{Extends, Sound, clauses_of};
ghost use Rattle.wh_find_order.specs.Answers.{IsAnswer};
ghost use Rattle.wh_find_order.specs.Encodings.{IsBlocking, IsEncoding, IsNext, ShutsOut, system_in, task_in};
ghost use Rattle.wh_find_order.specs.Trials.{HasFailed, IsLooked};

use crate::chance::Chance;
use crate::decoding::order_by;
use crate::encoding::Encoding;
use crate::failing::failing_line;
use crate::node::{Weighing, node_of_order};
use std::alloc::{AllocError, Global};
use wh_cert::OrderNode;
use wh_poly_blocking::{Bits, Held, clause_of, copy_clauses};
use wh_sat::{Learner, Next, Search};
use wh_sat_trail::{Clause, Clauses, Formula};
use wh_types::Or;

// How many clauses join before guesses are made by chance.
const BY_SOLVER: usize = 2_000;

/// The outcome of a look at a guess.
#[derive(Drop)]
pub enum Looked {
    /// All conditions hold: the node of the order that the guess writes.
    Found(OrderNode),
    /// A condition that fails.
    Failing(Failing),
}

/// A condition that fails under a guess.
#[derive(Clone, Copy)]
pub enum Failing {
    /// The symbol with this number: the bits have to write a proper filter, and a precedence that is tried.
    Symbol(usize),
    /// The condition on lines that has this number.
    Line(usize),
}

/// Looks for orders guess by guess, beginning with the one that bits with these values write; those that are missing
/// are false.
pub fn search_from<'a>(
    alloc: Global,
    encoding: &Encoding<'a>,
    first: Vec<bool>,
    budget: u64,
) -> Result<Search<OrderNode>, AllocError>
    requires few { length encoding.now.task.pairs.now ≤ most_pairs }
    requires encoding { IsEncoding encoding.now }
    requires room { 0 < budget }
    ensures { IfOk result (IsAnswer (system_in encoding.now) (task_in encoding.now).pairs (task_in encoding.now).set budget) }
{
    let mut learner = learner_for(alloc, encoding, budget)?;
    search(alloc, encoding, first, &mut learner, budget)
}

// A learner over the bits, without clauses.
fn learner_for<'a>(
    alloc: Global,
    encoding: &Encoding<'a>,
    budget: u64,
) -> Result<Learner, AllocError>
    requires { IsEncoding encoding.now }
    ensures blocking { IfOk result (IsBlocking encoding.now) }
    ensures none { IfOk result (λ made. length (clauses_of made) ≡ 0) }
    ensures left { IfOk result (λ made. made.left ≡ budget) }
{
    let variables = encoding.first_bits[encoding.scopes.len()];
    let clauses = Clauses::new(alloc);
    let learner = Learner::new(alloc, Formula { variables, clauses }, budget)?;
    Ok(learner)
}

// Shuts out the guesses under which a condition fails, one after the other, until none fails or no clause may join any
// more.
fn search<'a>(
    alloc: Global,
    encoding: &Encoding<'a>,
    first: Vec<bool>,
    learner: &mut Learner,
    budget: u64,
) -> Result<Search<OrderNode>, AllocError>
    requires few { length encoding.now.task.pairs.now ≤ most_pairs }
    requires encoding { IsEncoding encoding.now }
    requires blocking { IsBlocking encoding.now learner.old }
    requires solves { Solves (value_of first.items) (clauses_of learner.old) }
    requires room { 0 < learner.old.left }
    requires budget { length (clauses_of learner.old) + learner.old.left ≡ budget }
    ensures { IfOk result (IsAnswer (system_in encoding.now) (task_in encoding.now).pairs (task_in encoding.now).set budget) }
{
    let mut chance = Chance::new(alloc);
    let mut held = Held::new(alloc)?;
    let mut values = first;
    'guesses: loop {
        let failing = match look(alloc, encoding, &values, &mut held)? {
            Looked::Found(node) => return Ok(Search::Found(node)),
            Looked::Failing(failing) => failing,
        };
        block(alloc, encoding, &values, learner, failing)?;
        match next_guess(encoding, &mut chance, learner, &values, failing, budget)? {
            Next::Model(next) => values = next,
            Next::Exhausted => return Ok(Search::Nothing),
            Next::Spent => {
                let clauses = copy_clauses(alloc, &learner.formula().clauses)?;
                return Ok(Search::Spent(clauses));
            }
        }
    }
}

// The next guess: by chance, where many clauses have joined, or else by the solver.
fn next_guess<'a>(
    encoding: &Encoding<'a>,
    chance: &mut Chance,
    learner: &mut Learner,
    last: &[bool],
    failing: Failing,
    budget: u64,
) -> Result<Next, AllocError>
    requires sound { Sound learner.old }
    requires budget { length (clauses_of learner.old) + learner.old.left ≡ budget }
    ensures sound { OnOk result (Sound learner.new) }
    ensures extends { OnOk result (Extends learner.old learner.new) }
    ensures next { IfOk result (IsNext learner.new) }
{
    let clauses = learner.formula().clauses.as_slice();
    if clauses.len() >= BY_SOLVER && (clauses.len() as u64) < budget {
        if let Some(next) = chance.change(encoding, clauses, last, failing)? {
            return Ok(Next::Model(next));
        }
    }
    learner.next()
}

// The node of the order that the bits write, or a condition that fails.
fn look<'a>(
    alloc: Global,
    encoding: &Encoding<'a>,
    values: &[bool],
    held: &mut Held,
) -> Result<Looked, AllocError>
    requires few { length encoding.now.task.pairs.now ≤ most_pairs }
    requires encoding { IsEncoding encoding.now }
    ensures { IfOk result (IsLooked encoding.now (value_of values.now)) }
{
    let filters = match order_by(alloc, encoding, values) {
        Ok(filters) => filters,
        Err(Or::Because(number)) => return Ok(Looked::Failing(Failing::Symbol(number))),
        Err(Or::NoMemory) => return Err(AllocError),
    };
    let bits = Bits {
        values,
        first_bits: &encoding.first_bits,
        numbers: &encoding.numbers,
    };
    if let Some(number) = failing_line(alloc, encoding, &filters, bits, held)? {
        return Ok(Looked::Failing(Failing::Line(number)));
    }
    match node_of_order(alloc, &encoding.task, &filters)? {
        Weighing::Found(node) => Ok(Looked::Found(node)),
        Weighing::Failing(number) => Ok(Looked::Failing(Failing::Line(number))),
    }
}

// Gives the clause that shuts out the guess, by a condition that fails under it.
fn block<'a>(
    alloc: Global,
    encoding: &Encoding<'a>,
    values: &[bool],
    learner: &mut Learner,
    failing: Failing,
) -> Result<(), AllocError>
    requires encoding { IsEncoding encoding.now }
    requires blocking { IsBlocking encoding.now learner.old }
    requires solves { Solves (value_of values.now) (clauses_of learner.old) }
    requires room { 0 < learner.old.left }
    requires fails { HasFailed encoding.now (value_of values.now) failing }
    ensures blocking { OnOk result (IsBlocking encoding.now learner.new) }
    ensures count { OnOk result (length (clauses_of learner.new) ≡ length (clauses_of learner.old) + 1) }
    ensures left { OnOk result (learner.new.left + 1 ≡ learner.old.left) }
{
    let clause = clause_for(alloc, encoding, values, failing)?;
    learner.give(clause)?;
    Ok(())
}

// The clause that shuts out the guess: the literals that are false under it, on the bits of the symbols in the
// condition.
fn clause_for<'a>(
    alloc: Global,
    encoding: &Encoding<'a>,
    values: &[bool],
    failing: Failing,
) -> Result<Clause, AllocError>
    requires encoding { IsEncoding encoding.now }
    requires fails { HasFailed encoding.now (value_of values.now) failing }
    ensures { IfOk result (ShutsOut encoding.now (value_of values.now)) }
{
    match failing {
        Failing::Symbol(number) => clause_of(alloc, values, &encoding.first_bits, &[number]),
        Failing::Line(number) => clause_of(
            alloc,
            values,
            &encoding.first_bits,
            &encoding.numbers[number],
        ),
    }
}
