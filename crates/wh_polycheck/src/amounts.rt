//! What the moves take from left monomials and bring to right ones. No memory is taken: the sums of `WIDTH` monomials
//! at a time stand in an array, and each such array takes one walk over the moves.

ghost use Rattle.std.specs.Prelude.{ℕ, ◌≡◌, ◌≤◌, ◌<◌, ◌+◌, ◌-◌, ◌^◌, ◌↔◌, IsTrue, MatchOption, get_or, length};
ghost use Rattle.wh_poly.specs.Polynomials.{Factors};
ghost use Rattle.wh_poly.specs.Erase.{sum_of};
ghost use Rattle.wh_hopoly.specs.Erase.{transfers};
ghost use Rattle.wh_hopoly.specs.Moves.{Covered, MonomialAt, NotOverSpent, given_by, taken_by};
ghost use Rattle.wh_polycheck.specs.CoverFaults.{IsFirstNotCovered, IsFirstOverSpent, IsNotCovered, IsOverSpent, LeavesConstant};

use wh_hopoly::Move;
use wh_poly::Monomial;

// How many sums are taken at a time: 64 kilobytes on the stack, and 16 walks for 65,536 monomials.
const WIDTH: usize = 4096;

/// The first left monomial from which the moves take more than its coefficient.
pub fn first_over_spent(items: &[Monomial], moves: &[Move]) -> Option<u32>
    requires { length items.now ≤ 2 ^ 32 }
    ensures { MatchOption result ((i : ℕ) → NotOverSpent (sum_of items.now) (transfers moves.now) i)
        (IsFirstOverSpent (sum_of items.now) (transfers moves.now)) }
{
    let mut sums = [0; WIDTH];
    let mut base = 0;
    while base < items.len() {
        if let Some(found) = over_spent_from(&mut sums, items, base, moves) {
            return Some(found as u32);
        }
        base += WIDTH;
    }
    None
}

// The first one of those from `base` on that the sums have room for.
fn over_spent_from(
    sums: &mut [u128],
    items: &[Monomial],
    base: usize,
    moves: &[Move],
) -> Option<usize>
    requires { base < length items.now }
    ensures { MatchOption result ((k : ℕ) → k < length sums.old → NotOverSpent (sum_of items.now) (transfers moves.now) (base + k))
        (λ i. base ≤ i × IsOverSpent (sum_of items.now) (transfers moves.now) i
        × ((k : ℕ) → base + k < i → NotOverSpent (sum_of items.now) (transfers moves.now) (base + k))) }
{
    let width = set_out(sums, items, base);
    let least = take_away(sums, base, width, moves);
    if least < width {
        Some(base + least)
    } else {
        None
    }
}

/// The first right monomial to which the moves bring less than its coefficient.
pub fn first_not_covered(items: &[Monomial], moves: &[Move]) -> Option<u32>
    requires { length items.now ≤ 2 ^ 32 }
    ensures { MatchOption result ((i : ℕ) → Covered (sum_of items.now) (transfers moves.now) i)
        (IsFirstNotCovered (sum_of items.now) (transfers moves.now)) }
{
    let mut sums = [0; WIDTH];
    let mut base = 0;
    while base < items.len() {
        if let Some(found) = not_covered_from(&mut sums, items, base, moves) {
            return Some(found as u32);
        }
        base += WIDTH;
    }
    None
}

// The first one of those from `base` on that the sums have room for.
fn not_covered_from(
    sums: &mut [u128],
    items: &[Monomial],
    base: usize,
    moves: &[Move],
) -> Option<usize>
    requires { base < length items.now }
    ensures { MatchOption result ((k : ℕ) → k < length sums.old → Covered (sum_of items.now) (transfers moves.now) (base + k))
        (λ i. base ≤ i × IsNotCovered (sum_of items.now) (transfers moves.now) i
        × ((k : ℕ) → base + k < i → Covered (sum_of items.now) (transfers moves.now) (base + k))) }
{
    let width = set_out(sums, items, base);
    fill_up(sums, base, moves);
    let least = first_wanting(sums, width);
    if least < width {
        Some(base + least)
    } else {
        None
    }
}

// The coefficients from `base` on, as many as the sums have room for; how many these are.
fn set_out(sums: &mut [u128], items: &[Monomial], base: usize) -> usize
    requires { base < length items.now }
    ensures room { result ≤ length sums.old }
    ensures within { base + result ≤ length items.now }
    ensures all { (k : ℕ) → k < length sums.old → base + k < length items.now → k < result }
    ensures set { (k c : ℕ) (us : Factors) → k < result → MonomialAt (sum_of items.now) (base + k) c us → get_or sums.new k 0 ≡ c }
{
    let width = sums.len().min(items.len() - base);
    for k in 0..width {
        sums[k] = items[base + k].coefficient;
    }
    width
}

// What the moves take goes from the first `width` sums; the first sum that has too little for it, or else `width`.
fn take_away(sums: &mut [u128], base: usize, width: usize, moves: &[Move]) -> usize
    requires { width ≤ length sums.old }
    ensures within { result ≤ width }
    ensures enough { (k : ℕ) → k < result → given_by (base + k) (transfers moves.now) ≤ get_or sums.old k 0 }
    ensures short { result < width → get_or sums.old result 0 < given_by (base + result) (transfers moves.now) }
{
    let mut least = width;
    for item in moves {
        let from = item.from as usize;
        if from >= base && from - base < least {
            match sums[from - base].checked_sub(item.amount) {
                Some(left) => sums[from - base] = left,
                None => least = from - base,
            }
        }
    }
    least
}

// What the moves bring goes from the sums, as far as there is something to go from.
fn fill_up(sums: &mut [u128], base: usize, moves: &[Move])
    ensures { (k : ℕ) → k < length sums.old → get_or sums.new k 0 ≡ get_or sums.old k 0 - taken_by (base + k) (transfers moves.now) }
{
    for item in moves {
        let to = item.to as usize;
        if to >= base && to - base < sums.len() {
            sums[to - base] = sums[to - base].saturating_sub(item.amount);
        }
    }
}

// The first of the first `width` sums that is not 0, or else `width`.
fn first_wanting(sums: &[u128], width: usize) -> usize
    requires { width ≤ length sums.now }
    ensures within { result ≤ width }
    ensures none { (k : ℕ) → k < result → get_or sums.now k 0 ≡ 0 }
    ensures some { result < width → 0 < get_or sums.now result 0 }
{
    for k in 0..width {
        if sums[k] > 0 {
            return k;
        }
    }
    width
}

/// Whether the left polynomial has a constant, and the moves leave some of it.
pub fn leaves_constant(items: &[Monomial], moves: &[Move]) -> bool
    ensures { IsTrue result ↔ LeavesConstant (sum_of items.now) (transfers moves.now) }
{
    match items.first() {
        Some(first) => {
            first.atoms.as_slice().is_empty() && left_of_first(first.coefficient, moves) > 0
        }
        None => false,
    }
}

// What the moves leave of the first monomial.
fn left_of_first(coefficient: u128, moves: &[Move]) -> u128
    ensures { result ≡ coefficient - given_by 0 (transfers moves.now) }
{
    let mut left = coefficient;
    for item in moves {
        if item.from == 0 {
            left = left.saturating_sub(item.amount);
        }
    }
    left
}
