//! Counts the components of all dependency pairs of a system. It stands here to be timed by the scripts in `bench/`,
//! since no command of the program finds components alone.

ghost use Rattle.std.specs.Prelude.{◌<◌, All, IfOk, length};

use crate::SYSTEM_LIMIT;
use std::alloc::{AllocError, Global};
use wh_graph::components;
use wh_pairs::{PairList, PairSet};
use wh_pairs_making::pairs;
use wh_read::read_system;
use wh_types::Bytes;

/// The line with the number of components that the pairs of the system of a text have joins the text; want of memory
/// stands for all else.
pub fn add_count(alloc: Global, system: &Bytes, text: &mut Bytes) -> Result<(), AllocError> {
    let count = count_components(alloc, system.as_slice())?;
    let line = format!(in alloc; "COMPONENTS {count}\n")?;
    text.append(line.as_bytes())
}

/// How many components the pairs of the system of a text have.
fn count_components(alloc: Global, bytes: &[u8]) -> Result<usize, AllocError> {
    if bytes.len() as u64 > SYSTEM_LIMIT {
        return Err(AllocError);
    }
    let system = read_system(alloc, bytes).or(Err(AllocError))?;
    let list = pairs(alloc, &system).or(Err(AllocError))?;
    let set = all_of(alloc, &list)?;
    let blocks = components(alloc, &system, &list, &set)?;
    Ok(blocks.as_slice().len())
}

/// The set of all pairs of a list.
fn all_of(alloc: Global, list: &PairList) -> Result<PairSet, AllocError>
    ensures { IfOk result (λ set. All (λ n. n < length list.now) set) }
{
    let count = u32::try_from(list.as_slice().len()).or(Err(AllocError))?;
    let mut set = PairSet::new(alloc);
    for number in 0..count {
        set.push(number)?;
    }
    Ok(set)
}
