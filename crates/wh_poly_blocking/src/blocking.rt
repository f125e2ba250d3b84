//! The search by guesses: each guess under which a condition fails is shut out by a clause, and a solver tells the next
//! one.

ghost use Rattle.std.specs.Prelude.{◌≡◌, ◌+◌, ◌<◌, ◌≤◌, IfOk, OnOk, length};
ghost use Rattle.wh_types.specs.Limits.{most_pairs};
ghost use Rattle.wh_poly_blocking.specs.Answers.{IsAnswer};
ghost use Rattle.wh_poly_blocking.specs.Encodings.{IsBlocking, IsEncoding, IsWritten, system_in, task_in};
ghost use Rattle.wh_poly_blocking.specs.Sizes.{value_of};
ghost use Rattle.wh_poly_guesses.specs.Conditions.{Fails};
ghost use Rattle.wh_poly_guesses.specs.Tasks.{guess_data};
ghost use Rattle.wh_sat.specs.Solving.{Solves};
ghost use Rattle.wh_sat.specs.State.{clauses_of};

use crate::clauses::{clause_of, copy_clauses};
use crate::encoding::Encoding;
use crate::guessing::{WrittenGuess, rewrite, write};
use crate::held::Bits;
use crate::hints::Hints;
use std::alloc::{AllocError, Global};
use wh_cert::Node;
use wh_poly_guesses::Weighing;
use wh_sat::{Learner, Next, Search};
use wh_sat_trail::{Clauses, Formula};

/// Looks for interpretations guess by guess, beginning with the one that bits with these values write.
pub fn search_from<'a>(
    alloc: Global,
    encoding: &Encoding<'a>,
    first: Vec<bool>,
    budget: u64,
) -> Result<Search<Node>, AllocError>
    requires few { length encoding.now.task.pairs.now ≤ most_pairs }
    requires encoding { IsEncoding encoding.now }
    requires room { 0 < budget }
    ensures { IfOk result (IsAnswer (system_in encoding.now) (task_in encoding.now).pairs (task_in encoding.now).set budget) }
{
    let mut hints = Hints::new(alloc, &encoding.numbers, &encoding.sizes)?;
    let mut written = write(alloc, encoding, first)?;
    let mut learner = learner_for(alloc, encoding, budget)?;
    let found = search(alloc, encoding, &mut hints, &mut written, &mut learner)?;
    Ok(found)
}

// A learner over the bits, without clauses.
fn learner_for<'a>(
    alloc: Global,
    encoding: &Encoding<'a>,
    budget: u64,
) -> Result<Learner, AllocError>
    requires { IsEncoding encoding.now }
    ensures blocking { IfOk result (IsBlocking encoding.now) }
    ensures none { IfOk result (λ made. length (clauses_of made) ≡ 0) }
    ensures left { IfOk result (λ made. made.left ≡ budget) }
{
    let variables = encoding.first_bits[encoding.sizes.len()];
    let clauses = Clauses::new(alloc);
    let learner = Learner::new(alloc, Formula { variables, clauses }, budget)?;
    Ok(learner)
}

// Shuts out the guesses under which a condition fails, one after the other, until none fails or no clause may join any
// more.
fn search<'a>(
    alloc: Global,
    encoding: &Encoding<'a>,
    hints: &mut Hints,
    written: &mut WrittenGuess,
    learner: &mut Learner,
) -> Result<Search<Node>, AllocError>
    requires few { length encoding.now.task.pairs.now ≤ most_pairs }
    requires encoding { IsEncoding encoding.now }
    requires written { IsWritten encoding.now written.old }
    requires blocking { IsBlocking encoding.now learner.old }
    requires solves { Solves (value_of written.old.values.items) (clauses_of learner.old) }
    requires room { 0 < learner.old.left }
    ensures { IfOk result (IsAnswer (system_in encoding.now) (task_in encoding.now).pairs (task_in encoding.now).set
        (length (clauses_of learner.old) + learner.old.left)) }
{
    'guesses: loop {
        let bits = Bits {
            values: &written.values,
            first_bits: &encoding.first_bits,
            numbers: &encoding.numbers,
        };
        let number = match hints.weigh(alloc, &encoding.task, &written.guess, bits)? {
            Weighing::Found(node) => return Ok(Search::Found(node)),
            Weighing::Failing(number) => number,
        };
        block(alloc, encoding, written, learner, number)?;
        match learner.next()? {
            Next::Model(values) => rewrite(alloc, encoding, written, values)?,
            Next::Exhausted => return Ok(Search::Nothing),
            Next::Spent => {
                let clauses = copy_clauses(alloc, &learner.formula().clauses)?;
                return Ok(Search::Spent(clauses));
            }
        }
    }
}

// Gives the clause that shuts out the guess, by a condition that fails under it.
fn block<'a>(
    alloc: Global,
    encoding: &Encoding<'a>,
    written: &WrittenGuess,
    learner: &mut Learner,
    number: usize,
) -> Result<(), AllocError>
    requires encoding { IsEncoding encoding.now }
    requires written { IsWritten encoding.now written.now }
    requires blocking { IsBlocking encoding.now learner.old }
    requires solves { Solves (value_of written.now.values.items) (clauses_of learner.old) }
    requires room { 0 < learner.old.left }
    requires fails { Fails (task_in encoding.now) (guess_data written.now.guess) number }
    ensures blocking { OnOk result (IsBlocking encoding.now learner.new) }
    ensures count { OnOk result (length (clauses_of learner.new) ≡ length (clauses_of learner.old) + 1) }
    ensures left { OnOk result (learner.new.left + 1 ≡ learner.old.left) }
{
    let numbers = &encoding.numbers[number];
    let clause = clause_of(alloc, &written.values, &encoding.first_bits, numbers)?;
    learner.give(clause)?;
    Ok(())
}
