//! Copies of steps that a walk keeps.

ghost use Rattle.std.specs.Prelude.{◌≡◌, IfOk};
ghost use Rattle.wh_terms.specs.Places.{IsPath};

use std::alloc::{AllocError, Global};
use wh_terms::{Path, Step};

/// The path that goes these ways.
pub fn path_of(alloc: Global, ways: &[u8]) -> Result<Path, AllocError>
    requires { IsPath ways.now }
    ensures { IfOk result (λ path. path ≡ ways.now) }
{
    let mut path = Path::new(alloc);
    for way in ways {
        path.push(*way)?;
    }
    Ok(path)
}

/// An equal step.
pub fn copy_step(alloc: Global, step: &Step) -> Result<Step, AllocError>
    ensures { IfOk result (λ copy. copy ≡ step.now) }
{
    let path = path_of(alloc, step.path.as_slice())?;
    Ok(Step {
        rule: step.rule,
        path,
    })
}
