//! Where numbers stand in blocks: the numbers that keep blocks from being a partition.

ghost use Rattle.std.specs.Prelude.{◌≡◌, ◌<◌, ◌≤◌, ℕ, length};
ghost use Rattle.wh_pairs.specs.PairData.{IsIncreasing};
ghost use Rattle.wh_graph.specs.Components.{IsIn};
ghost use Rattle.wh_graph.specs.Blocks.{IsMisplaced};
ghost use Rattle.wh_graph.specs.Least.{LeastOf};
ghost use Rattle.wh_graph.specs.Times.{AreAdded, AreCounted, IsStray, IsStrayIn, IsUneven, plus};

use crate::least::smaller;
use wh_types::{Numbers, is_in};

// How many numbers of a set are counted at once: their counts stand on the stack.
const PIECE: usize = 4096;

/// How often a number is listed in blocks.
#[derive(Clone, Copy)]
pub enum Times {
    /// The number is not listed.
    Never,
    /// The number is listed once.
    Once,
    /// The number is listed more than once.
    Often,
}

/// The least number that is listed more than once, or listed and not in the set, or in the set and not listed.
pub fn first_misplaced(set: &[u32], blocks: &[Numbers]) -> Option<u32>
    requires { IsIncreasing set.now }
    ensures { LeastOf (IsMisplaced set.now blocks.now) result }
{
    smaller(least_stray(set, blocks), least_uneven(set, blocks))
}

// The least number that is listed and not in the set.
fn least_stray(set: &[u32], blocks: &[Numbers]) -> Option<u32>
    requires { IsIncreasing set.now }
    ensures { LeastOf (IsStray set.now blocks.now) result }
{
    let mut least = None;
    for block in blocks {
        least = smaller(least, least_stray_in(set, block.as_slice()));
    }
    least
}

// The least number of the list that is not in the set.
fn least_stray_in(set: &[u32], list: &[u32]) -> Option<u32>
    requires { IsIncreasing set.now }
    ensures { LeastOf (IsStrayIn set.now list.now) result }
{
    let mut least = None;
    for number in list {
        if set.binary_search(number).is_err() {
            least = smaller(least, Some(*number));
        }
    }
    least
}

// The least number of the set that is not listed once. The set is taken by pieces.
fn least_uneven(set: &[u32], blocks: &[Numbers]) -> Option<u32>
    requires { IsIncreasing set.now }
    ensures { LeastOf (IsUneven set.now blocks.now) result }
{
    if set.len() <= PIECE {
        return first_uneven(set, blocks);
    }
    smaller(
        first_uneven(&set[..PIECE], blocks),
        least_uneven(&set[PIECE..], blocks),
    )
}

// The first number of the piece that is not listed once.
fn first_uneven(set: &[u32], blocks: &[Numbers]) -> Option<u32>
    requires increasing { IsIncreasing set.now }
    requires few { length set.now ≤ PIECE }
    ensures { LeastOf (IsUneven set.now blocks.now) result }
{
    let times = count(set, blocks);
    for (place, number) in set.iter().enumerate() {
        match times[place] {
            Times::Once => {}
            Times::Never | Times::Often => return Some(*number),
        }
    }
    None
}

// How often each number of the piece is listed, at its place.
fn count(set: &[u32], blocks: &[Numbers]) -> [Times; PIECE]
    requires increasing { IsIncreasing set.now }
    requires few { length set.now ≤ PIECE }
    ensures { AreCounted set.now blocks.now (length blocks.now) result }
{
    let mut times = [Times::Never; PIECE];
    for block in blocks {
        count_in(set, block.as_slice(), &mut times);
    }
    times
}

// Counts how often each number of the piece stands in the list.
fn count_in(set: &[u32], list: &[u32], times: &mut [Times; PIECE])
    requires increasing { IsIncreasing set.now }
    requires few { length set.now ≤ PIECE }
    ensures { AreAdded set.now list.now (length list.now) times.old times.new }
{
    for number in list {
        match set.binary_search(number) {
            Ok(place) => times[place] = plus(times[place], Times::Once),
            Err(_) => {}
        }
    }
}

// The two together.
fn plus(a: Times, b: Times) -> Times
    ensures { result ≡ plus a b }
{
    match (a, b) {
        (Times::Never, _) => b,
        (_, Times::Never) => a,
        _ => Times::Often,
    }
}

/// The number of the first block that has the number, or else how many blocks there are.
pub fn block_of(blocks: &[Numbers], number: u32) -> usize
    ensures within { result ≤ length blocks.now }
    ensures found { result < length blocks.now → IsIn blocks.now result number }
    ensures first { (i : ℕ) → i < result → IsIn blocks.now i number → ⊥ }
{
    for (i, block) in blocks.iter().enumerate() {
        if is_in(block.as_slice(), number) {
            return i;
        }
    }
    blocks.len()
}
