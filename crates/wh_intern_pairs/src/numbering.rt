//! Numbering the sides of pairs: their arguments join one table, and left sides that pairs share join once.

ghost use Rattle.std.specs.Prelude.{◌≡◌, ◌↔◌, ◌⊎◌, ◌<◌, ◌-◌, Contains, IfOk, IsTrue, OnOk, Some, length, map, slice_get, take};
ghost use Rattle.wh_terms.specs.Erase.{tm};
ghost use Rattle.wh_terms.specs.Tree.{Tm};
ghost use Rattle.wh_system.specs.Systems.{SystemData};
ghost use Rattle.wh_pairs.specs.PairData.{PairData, pair_data};
ghost use Rattle.wh_pairs.specs.SystemPairs.{HasPairs};
ghost use Rattle.wh_intern.specs.TableTrees.{trees};
ghost use Rattle.wh_intern_pairs.specs.NumberedSides.{AreNumbersOf, AreSides, AreSidesOf, IsPartOfOne, IsPartOfSides, Joins};

use std::alloc::{AllocError, Global};
use wh_intern::{Sides, SidesList, Table};
use wh_pairs::{Pair, PairList};
use wh_terms::Term;
use wh_types::Numbers;

/// One entry for each pair, in order: its heads, and the numbers of its arguments, which join the table.
///
/// The pairs must be those of a system. Earlier numbers keep their trees, and only arguments of the pairs and parts of
/// arguments join: all of them, or some where memory ends. The left side of a rule is numbered once, for the first of
/// its pairs.
pub fn number_pairs(
    alloc: Global,
    pairs: &PairList,
    table: &mut Table,
) -> Result<SidesList, AllocError>
    requires { (d : SystemData) × HasPairs d (map pair_data pairs.now) }
    ensures sides { IfOk result (λ sides. AreSides (trees table.new) sides (map pair_data pairs.now)) }
    ensures parts { OnOk result ((s : Tm) → Contains (trees table.new) s
        ↔ (Contains (trees table.old) s ⊎ IsPartOfSides (map pair_data pairs.now) s)) }
    ensures joins { Joins (trees table.old) (trees table.new) (IsPartOfSides (map pair_data pairs.now)) }
{
    let list = numbered(alloc, pairs.as_slice(), table)?;
    table.has_parts();
    Ok(list)
}

// Numbers the sides of the pairs one after another.
fn numbered(alloc: Global, pairs: &[Pair], table: &mut Table) -> Result<SidesList, AllocError>
    requires { (d : SystemData) × HasPairs d (map pair_data pairs.now) }
    ensures sides { IfOk result (λ sides. AreSides (trees table.new) sides (map pair_data pairs.now)) }
    ensures joins { Joins (trees table.old) (trees table.new) (IsPartOfSides (map pair_data pairs.now)) }
{
    let mut list = SidesList::new(alloc);
    for place in 0..pairs.len() {
        let sides = sides_at(alloc, pairs, place, list.as_slice(), table)?;
        list.push(sides)?;
    }
    Ok(list)
}

// The entry of the pair at that place, behind those of the pairs before it.
fn sides_at(
    alloc: Global,
    pairs: &[Pair],
    place: usize,
    before: &[Sides],
    table: &mut Table,
) -> Result<Sides, AllocError>
    requires pairs { (d : SystemData) × HasPairs d (map pair_data pairs.now) }
    requires within { place < length pairs.now }
    requires before { AreSides (trees table.old) before.now (map pair_data (take place pairs.now)) }
    ensures sides { IfOk result (λ s. (p : PairData) → slice_get (map pair_data pairs.now) place ≡ Some p
        → AreSidesOf (trees table.new) s p) }
    ensures joins { Joins (trees table.old) (trees table.new) (IsPartOfSides (map pair_data pairs.now)) }
{
    let left = left_numbers(alloc, pairs, place, before, table)?;
    let pair = &pairs[place];
    let right = numbers_of(alloc, pair.right.as_slice(), table)?;
    Ok(Sides {
        left_fun: pair.left_fun,
        left,
        right_fun: pair.right_fun,
        right,
    })
}

// The numbers of its left arguments: those of the pair before it, where both are pairs of one rule.
fn left_numbers(
    alloc: Global,
    pairs: &[Pair],
    place: usize,
    before: &[Sides],
    table: &mut Table,
) -> Result<Numbers, AllocError>
    requires pairs { (d : SystemData) × HasPairs d (map pair_data pairs.now) }
    requires within { place < length pairs.now }
    requires before { AreSides (trees table.old) before.now (map pair_data (take place pairs.now)) }
    ensures numbers { IfOk result (λ ns. (p : PairData) → slice_get (map pair_data pairs.now) place ≡ Some p
        → AreNumbersOf (trees table.new) ns p.left) }
    ensures joins { Joins (trees table.old) (trees table.new) (IsPartOfSides (map pair_data pairs.now)) }
{
    if follows_its_rule(pairs, place) {
        copied(alloc, before[place - 1].left.as_slice())
    } else {
        numbers_of(alloc, pairs[place].left.as_slice(), table)
    }
}

// Whether the pair before it is one of the same rule.
fn follows_its_rule(pairs: &[Pair], place: usize) -> bool
    requires { place < length pairs.now }
    ensures some { IsTrue result → 0 < place }
    ensures one { IsTrue result → (p q : PairData) → slice_get (map pair_data pairs.now) (place - 1) ≡ Some p
        → slice_get (map pair_data pairs.now) place ≡ Some q → p.rule ≡ q.rule }
{
    if place == 0 {
        return false;
    }
    pairs[place - 1].rule == pairs[place].rule
}

// Copies the numbers.
fn copied(alloc: Global, numbers: &[u32]) -> Result<Numbers, AllocError>
    ensures { IfOk result (λ copy. copy ≡ numbers.now) }
{
    let mut copy = Numbers::new(alloc);
    for number in numbers {
        copy.push(*number)?;
    }
    Ok(copy)
}

// The numbers of the terms, which join the table.
fn numbers_of(alloc: Global, terms: &[Term], table: &mut Table) -> Result<Numbers, AllocError>
    ensures numbers { IfOk result (λ ns. AreNumbersOf (trees table.new) ns (map tm terms.now)) }
    ensures joins { Joins (trees table.old) (trees table.new) (IsPartOfOne (map tm terms.now)) }
{
    let mut numbers = Numbers::new(alloc);
    for term in terms {
        let number = table.add(term)?;
        numbers.push(number)?;
    }
    Ok(numbers)
}
