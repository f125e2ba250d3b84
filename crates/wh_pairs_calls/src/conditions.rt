//! The conditions of a call, a list in increasing order: a further condition joins at its place.

ghost use Rattle.std.specs.Prelude.{◌≡◌, IfOk, map};
ghost use Rattle.wh_pairs.specs.PairData.{within};
ghost use Rattle.wh_pairs.specs.Conditions.{precedes, with_condition};

use std::alloc::{AllocError, Global};
use wh_pairs::Condition;

// Whether a condition comes before another one: by the meta-variable, then by the place.
fn precedes(a: Condition, b: Condition) -> bool
    ensures { result ≡ precedes (within a) (within b) }
{
    a.meta < b.meta || (a.meta == b.meta && a.place < b.place)
}

/// The conditions, which are in increasing order, with a further one at its place.
pub fn with_condition(
    alloc: Global,
    conditions: &[Condition],
    added: Condition,
) -> Result<Vec<Condition>, AllocError>
    ensures { IfOk result (λ all. map within all.items ≡ with_condition (within added) (map within conditions.now)) }
{
    let mut all = Vec::from_slice(alloc, conditions)?;
    for (i, condition) in conditions.iter().enumerate() {
        if precedes(added, *condition) {
            all.insert(i, added)?;
            return Ok(all);
        }
        if added == *condition {
            return Ok(all);
        }
    }
    all.push(added)?;
    Ok(all)
}
