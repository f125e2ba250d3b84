//! Systems and terms from texts; want of memory stands for all that does not read.

ghost use Rattle.std.specs.Prelude.{IfOk};
ghost use Rattle.wh_system.specs.SystemView.{system_data};
ghost use Rattle.wh_terms.specs.Erase.{tm};
ghost use Rattle.wh_terms.specs.Measures.{Fits, Manageable};
ghost use Rattle.wh_terms.specs.Sight.{IsTerm, LooseBelow};

use std::alloc::{AllocError, Global};
use wh_read::{Refused, read_system};
use wh_system::System;
use wh_system_making::NameTables;
use wh_terms::{Term, fits};
use wh_text::RawTerm;
use wh_types::Or;

/// Reads the system of a text. The outcome is handed on as it is: to take the system out of it takes the prover long.
pub fn read(alloc: Global, text: &[u8]) -> Result<System, Or<Refused>> {
    if text.len() > 1_048_576 {
        return Err(Or::NoMemory);
    }
    read_system(alloc, text)
}

/// The term of the system that a raw term stands for, if it fits.
pub fn term_in(alloc: Global, system: &System, raw: &RawTerm) -> Result<Term, AllocError>
    ensures fits { IfOk result (λ t. Fits (tm t)) }
    ensures shut { IfOk result (λ t. LooseBelow 0 (tm t)) }
    ensures plain { IfOk result (λ t. IsTerm (tm t)) }
    ensures in_range { IfOk result (λ t. Manageable (tm t)) }
{
    let names = NameTables::of(alloc, system)?;
    match names.resolve(alloc, system, raw)? {
        Some(term) if fits(&term) => Ok(term),
        _ => Err(AllocError),
    }
}
