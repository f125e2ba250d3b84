//! Printing a whole system: `print_system` gives its canonical text.

ghost use Rattle.std.specs.Prelude.{◌≡◌, IfOk};
ghost use Rattle.wh_system.specs.SystemView.{system_data};
ghost use Rattle.wh_system_print.specs.SystemText.{system_text};

use crate::declarations::{print_funs, print_sorts};
use crate::rules::print_rules;
use std::alloc::{AllocError, Global};
use wh_system::System;
use wh_types::Bytes;

/// The canonical text of a system: a line for each sort, each symbol and each rule, in order.
pub fn print_system(alloc: Global, system: &System) -> Result<Bytes, AllocError>
    ensures { IfOk result (λ text. text ≡ system_text (system_data system.now)) }
{
    let mut out = Bytes::new(alloc);
    print_sorts(&mut out, system.sort_names())?;
    print_funs(
        &mut out,
        system.sort_names(),
        system.fun_names(),
        system.signature().funs.as_slice(),
    )?;
    print_rules(&mut out, system)?;
    Ok(out)
}
