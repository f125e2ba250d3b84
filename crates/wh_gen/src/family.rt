//! The generated system: its parts as a text says them, and the system that these say.

ghost use Rattle.std.specs.Prelude.{◌≡◌, ◌≤◌, IfOk};
ghost use Rattle.wh_types.specs.Limits.{most_generated};
ghost use Rattle.wh_types.specs.Outcome.{MatchOr};
ghost use Rattle.wh_system_parts.specs.Erase.{rparts};
ghost use Rattle.wh_system.specs.SystemView.{system_data};
ghost use Rattle.wh_gen.specs.Family.{gen_data, IsOutOfRange};
ghost use Rattle.wh_gen.specs.RawFamily.{raw_family};

use crate::declarations::{funs, sorts};
use crate::rules::rules;
use std::alloc::{AllocError, Global};
use wh_system::System;
use wh_system_making::system_of;
use wh_system_parts::Parts;
use wh_types::Or;

/// The number of functions is 0 or above 200: there is no such generated system.
#[derive(Clone, Copy)]
pub struct GenTooMany;

/// The system of `n` functions like `map` on lists of numbers: the first goes down the list, and each further one goes
/// down the list and calls the one before it. The cause of a failure is that `n` is 0 or above 200.
pub fn generate(alloc: Global, n: u32) -> Result<System, Or<GenTooMany>>
    ensures { MatchOr result (λ s. (1 ≤ n) × (n ≤ most_generated) × (system_data s ≡ gen_data n)) (λ _. IsOutOfRange n) }
{
    if n == 0 || 200 < n {
        return Err(Or::Because(GenTooMany));
    }
    let parts = family(alloc, n)?;
    match system_of(alloc, &parts) {
        Ok(system) => Ok(system),
        Err(Or::NoMemory) => Err(Or::NoMemory),
        Err(Or::Because(_)) => unreachable!(),
    }
}

// The parts of the system of `count` functions.
fn family(alloc: Global, count: u32) -> Result<Parts, AllocError>
    ensures { IfOk result (λ parts. rparts parts ≡ raw_family count) }
{
    let sorts = sorts(alloc)?;
    let funs = funs(alloc, count)?;
    let rules = rules(alloc, count)?;
    Ok(Parts { sorts, funs, rules })
}
