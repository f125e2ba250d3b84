//! Ways: positions in a term, as they grow while a term is gone through.

use std::alloc::{AllocError, Global};
use wh_terms::{Path, Step};

/// A position in a term: `false` leads to the function of an application or the body of an abstraction, `true` to the
/// argument of an application.
pub type Way = Vec<bool>;

/// The one way and behind it the other.
pub fn joined(alloc: Global, front: &[bool], back: &[bool]) -> Result<Way, AllocError> {
    let mut way = Vec::new(alloc);
    for turn in front {
        way.push(*turn)?;
    }
    for turn in back {
        way.push(*turn)?;
    }
    Ok(way)
}

/// The way as a path.
pub fn path_of(alloc: Global, way: &[bool]) -> Result<Path, AllocError> {
    let mut path = Path::new(alloc);
    for turn in way {
        if *turn {
            path.push(1)?;
        } else {
            path.push(0)?;
        }
    }
    Ok(path)
}

/// The step at the end of the way, by the rule with the number, or by beta where there is none.
pub fn step_of(alloc: Global, rule: Option<u32>, way: &[bool]) -> Result<Step, AllocError> {
    let path = path_of(alloc, way)?;
    Ok(Step { rule, path })
}
