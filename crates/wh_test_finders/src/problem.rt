//! A system that is read from a text, and its pairs.

ghost use Rattle.std.specs.Prelude.{IfOk, map};
ghost use Rattle.wh_system.specs.SystemView.{system_data};
ghost use Rattle.wh_pairs.specs.PairData.{pair_data};
ghost use Rattle.wh_pairs.specs.SystemPairs.{HasPairs};

use std::alloc::{AllocError, Global};
use wh_pairs::PairList;
use wh_pairs_making::pairs;
use wh_read::read_system;
use wh_system::System;

/// The system of a text that is one; want of memory stands for all else.
pub fn system_of(alloc: Global, text: &[u8]) -> Result<System, AllocError> {
    if text.len() > 1_048_576 {
        return Err(AllocError);
    }
    match read_system(alloc, text) {
        Ok(system) => Ok(system),
        Err(_) => Err(AllocError),
    }
}

/// The pairs of a system that has a list of them.
pub fn pairs_of(alloc: Global, system: &System) -> Result<PairList, AllocError>
    ensures { IfOk result (λ list. HasPairs (system_data system.now) (map pair_data list)) }
{
    match pairs(alloc, system) {
        Ok(list) => Ok(list),
        Err(_) => Err(AllocError),
    }
}
