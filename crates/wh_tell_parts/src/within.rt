//! The test that a set has only numbers of pairs that are there.

ghost use Rattle.std.specs.Prelude.{◌<◌, All, IsTrue};

use wh_pairs::PairSet;

/// Whether all numbers of the set are below the count.
pub fn is_within(set: &PairSet, count: usize) -> bool
    ensures { IsTrue result → All (λ n. n < count) set.now }
{
    match set.as_slice().last() {
        Some(last) => (*last as usize) < count,
        None => true,
    }
}
