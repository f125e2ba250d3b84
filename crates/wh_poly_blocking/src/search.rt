//! The search for interpretations by guesses. A solver proposes them, and learns from those that fail.

ghost use Rattle.std.specs.Prelude.{◌≤◌, IfOk, length};
ghost use Rattle.wh_types.specs.Limits.{most_pairs};
ghost use Rattle.wh_pairs.specs.Marked.{AreMarked};
ghost use Rattle.wh_system.specs.SystemView.{system_data};
ghost use Rattle.wh_reduction_pairs.specs.TaskView.{task_data};
ghost use Rattle.wh_poly_guesses.specs.Tasks.{IsTaskOf};
ghost use Rattle.wh_poly_blocking.specs.Answers.{IsAnswer};

use crate::bits::bits_by;
use crate::blocking::search_from;
use crate::encoding::encoding_of;
use std::alloc::{AllocError, Global};
use wh_cert::Node;
use wh_reduction_pairs::Task;
use wh_sat::Search;
use wh_sat_trail::Clauses;

/// Looks for interpretations guess by guess, beginning with these coefficients. Each guess under which a condition
/// fails is shut out by a clause over the bits of the symbols in that condition.
pub fn find_by_guesses<'a>(
    alloc: Global,
    task: &Task<'a>,
    marked: &'a [u32],
    lists: &[Vec<u8>],
    budget: u64,
) -> Result<Search<Node>, AllocError>
    requires few { length task.now.pairs.now ≤ most_pairs }
    requires task { IsTaskOf task.now }
    requires marked { AreMarked (task_data task.now).pairs (task_data task.now).set marked.now }
    ensures { IfOk result (IsAnswer (system_data task.now.system.now) (task_data task.now).pairs (task_data task.now).set budget) }
{
    if budget == 0 {
        let none = Clauses::new(alloc);
        return Ok(Search::Spent(none));
    }
    let encoding = encoding_of(alloc, task, marked)?;
    let first = bits_by(alloc, lists, &encoding.sizes)?;
    let found = search_from(alloc, &encoding, first, budget)?;
    Ok(found)
}
