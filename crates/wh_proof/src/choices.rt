//! The choices of arguments that the lines `arg` of a node say, with names looked up.

ghost use Rattle.std.specs.Prelude.{◌≡◌, ◌≤◌, ◌<◌, ◌^◌, ◌↔◌, ℕ, List, IfOk, IsTrue, MatchOption, Some, length, map, slice_get};
ghost use Rattle.wh_pairs.specs.PairData.{IsIncreasing};
ghost use Rattle.wh_system.specs.SystemView.{system_data};
ghost use Rattle.wh_subterm.specs.Projections.{Chosen};
ghost use Rattle.wh_subterm.specs.SubtermRows.{chosen, chosen_symbols};
ghost use Rattle.wh_cert.specs.Said.{said_arg};
ghost use Rattle.wh_proof.specs.Looked.{SayChoices};

use std::alloc::{AllocError, Global};
use wh_cert::Arg;
use wh_subterm::{Choice, Projection};
use wh_system::System;
use wh_text::Name;

/// The choices that the lines say, by one walk over the names of the symbols; `None` where none whose symbols are in
/// order of declaration are said.
pub fn choices_of(
    alloc: Global,
    system: &System,
    args: &[Arg],
) -> Result<Option<Projection>, AllocError>
    ensures { IfOk result (λ found. MatchOption found
        ((cs : List Chosen) → SayChoices (system_data system.now) (map said_arg args.now) cs → IsIncreasing (chosen_symbols cs) → ⊥)
        (λ cs. SayChoices (system_data system.now) (map said_arg args.now) (map chosen cs))) }
{
    system.is_well_made();
    let names = system.fun_names();
    let mut choices = Projection::new(alloc);
    let mut next = 0;
    for arg in args {
        let symbol = symbol_from(names, next, &arg.name);
        if symbol == names.len() {
            return Ok(None);
        }
        choices.push(Choice {
            symbol: symbol as u32,
            argument: arg.place,
        })?;
        next = symbol + 1;
    }
    Ok(Some(choices))
}

// The first symbol from that one on which has the name, or else how many symbols there are.
fn symbol_from(names: &[Name], start: usize, name: &Name) -> usize
    requires { start ≤ length names.now }
    ensures within { result ≤ length names.now }
    ensures later { start ≤ result }
    ensures found { result < length names.now → slice_get names.now result ≡ Some name.now }
    ensures first { (k : ℕ) → start ≤ k → k < result → slice_get names.now k ≡ Some name.now → ⊥ }
{
    for symbol in start..names.len() {
        if names[symbol].bytes() == name.bytes() {
            return symbol;
        }
    }
    names.len()
}
