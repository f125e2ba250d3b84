//! How the interpretations for a task are written by bits, and which symbols stand in each condition.

ghost use Rattle.std.specs.Prelude.{◌≡◌, IfOk};
ghost use Rattle.wh_poly_blocking.specs.Encodings.{IsEncoding};
ghost use Rattle.wh_poly_guesses.specs.Tasks.{IsTaskOf};
ghost use Rattle.wh_pairs.specs.Marked.{AreMarked};
ghost use Rattle.wh_reduction_pairs.specs.TaskView.{task_data};

use crate::bits::first_bits;
use crate::numbers::numbers_of_conditions;
use std::alloc::{AllocError, Global};
use wh_poly_guesses::{sizes_of, uses_of};
use wh_reduction_pairs::Task;

/// A task with the marked symbols of its set, and what the search looks up: how many monomials each symbol, and then
/// each marked symbol, has, and which bit comes first; and for each condition the numbers of the symbols in it.
#[derive(Drop)]
pub struct Encoding<'a> {
    pub task: Task<'a>,
    pub marked: &'a [u32],
    pub sizes: Vec<usize>,
    pub first_bits: Vec<u32>,
    pub numbers: Vec<Vec<usize>>,
}

/// The encoding of the guesses for a task. It fails also where there are more bits than a solver has variables.
pub fn encoding_of<'a>(
    alloc: Global,
    task: &Task<'a>,
    marked: &'a [u32],
) -> Result<Encoding<'a>, AllocError>
    requires task { IsTaskOf task.now }
    requires marked { AreMarked (task_data task.now).pairs (task_data task.now).set marked.now }
    ensures encoding { IfOk result IsEncoding }
    ensures task { IfOk result (λ made. made.task ≡ task.now) }
{
    let sizes = sizes_of(alloc, task, marked)?;
    let first_bits = first_bits(alloc, &sizes)?;
    let uses = uses_of(alloc, task, marked)?;
    let numbers = numbers_of_conditions(alloc, &uses, task.covered.len())?;
    Ok(Encoding {
        task: *task,
        marked,
        sizes,
        first_bits,
        numbers,
    })
}
