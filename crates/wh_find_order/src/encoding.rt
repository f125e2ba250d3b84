//! How the orders for a task are written by bits, and which symbols stand in each condition.

ghost use Rattle.std.specs.Prelude.{◌≡◌, ◌++◌, IfOk, OnOk, map};
ghost use Rattle.wh_types.specs.Erase.{ty};
ghost use Rattle.wh_types.specs.Ty.{arguments};
ghost use Rattle.wh_pairs.specs.Marked.{AreMarked};
ghost use Rattle.wh_polycheck.specs.Marks.{marked_types};
ghost use Rattle.wh_reduction_pairs.specs.TaskView.{task_data};
ghost use Rattle.wh_system.specs.SystemView.{system_data};
ghost use Rattle.wh_poly_guesses.specs.Coefficients as g;
ghost use Rattle.wh_poly_guesses.specs.Tasks.{IsTaskOf};
ghost use Rattle.wh_find_order.specs.Encodings.{IsEncoding};
ghost use Rattle.wh_order_space.specs.Spotted.{types_in};

use crate::tables::precedence_bits;
use std::alloc::{AllocError, Global};
use wh_order_space::first_bits;
use wh_poly_blocking::numbers_of_conditions;
use wh_poly_guesses::{arguments_of, uses_of};
use wh_polycheck::kind_of_mark;
use wh_reduction_pairs::Task;
use wh_system::System;
use wh_types::{SimpleType, counted};

/// A task with the marked symbols of its set, and what the search looks up: for each symbol, and then for each marked
/// one, the types of its arguments and its first bit; how many bits a precedence has; and for each condition on lines
/// the numbers of the symbols in it.
#[derive(Drop)]
pub struct Encoding<'a> {
    pub task: Task<'a>,
    pub marked: &'a [u32],
    pub scopes: Vec<Vec<SimpleType>>,
    pub precedence_bits: usize,
    pub first_bits: Vec<u32>,
    pub numbers: Vec<Vec<usize>>,
}

/// The encoding of the orders for a task. Fails also where there are more bits than a solver has variables, or where a
/// precedence has more than 31.
pub fn encoding_of<'a>(
    alloc: Global,
    task: &Task<'a>,
    marked: &'a [u32],
) -> Result<Encoding<'a>, AllocError>
    requires task { IsTaskOf task.now }
    requires marked { AreMarked (task_data task.now).pairs (task_data task.now).set marked.now }
    ensures encoding { IfOk result IsEncoding }
    ensures task { IfOk result (λ made. made.task ≡ task.now) }
{
    task.system.is_well_made();
    let scopes = scopes_of(alloc, task, marked)?;
    let precedence_bits = precedence_bits(scopes.len());
    if precedence_bits >= 32 {
        return Err(AllocError);
    }
    let width = counted(precedence_bits)?;
    let first_bits = first_bits(alloc, &scopes, width)?;
    let uses = uses_of(alloc, task, marked)?;
    let numbers = numbers_of_conditions(alloc, &uses, task.covered.len())?;
    Ok(Encoding {
        task: *task,
        marked,
        scopes,
        precedence_bits,
        first_bits,
        numbers,
    })
}

// The types of the arguments of each symbol, and then of each marked one.
fn scopes_of<'a>(
    alloc: Global,
    task: &Task<'a>,
    marked: &[u32],
) -> Result<Vec<Vec<SimpleType>>, AllocError>
    ensures { IfOk result (λ scopes. types_in scopes.items ≡ g.scopes_of (task_data task.now) marked.now) }
{
    let mut scopes = symbol_scopes(alloc, task.system.signature().funs.as_slice())?;
    add_mark_scopes(alloc, task.system, marked, &mut scopes)?;
    Ok(scopes)
}

// The types of the arguments of each of these types.
fn symbol_scopes(alloc: Global, kinds: &[SimpleType]) -> Result<Vec<Vec<SimpleType>>, AllocError>
    ensures { IfOk result (λ scopes. types_in scopes.items ≡ map (λ kind. arguments (ty kind)) kinds.now) }
{
    let mut scopes = Vec::new(alloc);
    for kind in kinds {
        scopes.push(arguments_of(alloc, kind)?)?;
    }
    Ok(scopes)
}

// The types of the arguments of each marked symbol join.
fn add_mark_scopes(
    alloc: Global,
    system: &System,
    marked: &[u32],
    scopes: &mut Vec<Vec<SimpleType>>,
) -> Result<(), AllocError>
    ensures { OnOk result (types_in scopes.new.items ≡ types_in scopes.old.items
        ++ map (marked_types (system_data system.now).symbols (system_data system.now).rules) marked.now) }
{
    for symbol in marked {
        let kind = kind_of_mark(alloc, system, *symbol)?;
        scopes.push(arguments_of(alloc, &kind)?)?;
    }
    Ok(())
}
