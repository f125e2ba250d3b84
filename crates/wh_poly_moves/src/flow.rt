//! Flows of units from the monomials of one polynomial to those of another: the moves so far, what each left monomial
//! still has free, and what each right one still wants. A flow changes in two ways: units that are free go to where
//! they are wanted, and units of a move go back.

ghost use Rattle.std.specs.Prelude.{All, ◌≡◌, ◌≤◌, ◌<◌, ◌+◌, ◌-◌, ◌^◌, ◌++◌, ◌∷◌, [], IfOk, OnOk, MatchOption, length, map, slice_index, slice_set};
ghost use Rattle.wh_types.specs.Limits.{coefficient_end};
ghost use Rattle.wh_poly.specs.declared.polynomial.Monomial.{out-Monomial};
ghost use Rattle.wh_hopoly.specs.Erase.{transfers};
ghost use Rattle.wh_poly_moves.specs.Flows.{HasGiven, HasTakenBack, IsBetween, IsFlow, IsRerouted, IsSomeFlow, NoneBetween, move_at};

use std::alloc::{AllocError, Global};
use wh_hopoly::Move;
use wh_poly::Monomial;

/// Moves, and what they leave of both sides.
#[derive(Drop)]
pub struct Flow {
    /// What each left monomial has left to give.
    pub free: Vec<u128>,
    /// What each right monomial still wants.
    pub want: Vec<u128>,
    /// The moves so far; an amount may be 0.
    pub moves: Vec<Move>,
}

impl Flow {
    /// The flow without moves.
    pub fn start(alloc: Global, left: &[Monomial], right: &[Monomial]) -> Result<Flow, AllocError>
        ensures flow { IfOk result (IsFlow left.now right.now) }
        ensures none { IfOk result (λ flow. flow.moves.items ≡ []) }
    {
        let free = coefficients(alloc, left)?;
        let want = coefficients(alloc, right)?;
        Ok(Flow {
            free,
            want,
            moves: Vec::new(alloc),
        })
    }

    /// `amount` units go from where they are free to where they are wanted.
    pub fn give(&mut self, giver: usize, taker: usize, amount: u128) -> Result<(), AllocError>
        requires flow { IsSomeFlow self.old }
        requires giver_here { giver < length self.old.free.items }
        requires taker_here { taker < length self.old.want.items }
        requires giver_small { giver < 2 ^ 32 }
        requires taker_small { taker < 2 ^ 32 }
        requires free { amount ≤ slice_index self.old.free.items giver }
        requires wanted { amount ≤ slice_index self.old.want.items taker }
        ensures { OnOk result (HasGiven self.old giver taker amount self.new) }
    {
        match place_of(self.moves.as_slice(), giver, taker) {
            None => self.give_first(giver, taker, amount),
            Some(place) => {
                self.moves[place].amount += amount;
                self.spend(giver, taker, amount);
                Ok(())
            }
        }
    }

    /// The giver gives the amount to the taker, where no move is between the two yet.
    pub fn give_first(&mut self, giver: usize, taker: usize, amount: u128) -> Result<(), AllocError>
        requires giver_here { giver < length self.old.free.items }
        requires taker_here { taker < length self.old.want.items }
        requires giver_small { giver < 2 ^ 32 }
        requires taker_small { taker < 2 ^ 32 }
        requires free { amount ≤ slice_index self.old.free.items giver }
        requires wanted { amount ≤ slice_index self.old.want.items taker }
        requires first { NoneBetween giver taker (transfers self.old.moves.items) }
        ensures given { OnOk result (HasGiven self.old giver taker amount self.new) }
        ensures joined { OnOk result (transfers self.new.moves.items ≡ transfers self.old.moves.items ++ record
            { from = giver; to = taker; amount = amount } ∷ []) }
    {
        self.moves.push(Move {
            from: giver as u32,
            to: taker as u32,
            amount,
        })?;
        self.spend(giver, taker, amount);
        Ok(())
    }

    // The units are no longer free, nor wanted.
    fn spend(&mut self, giver: usize, taker: usize, amount: u128)
        requires giver_here { giver < length self.old.free.items }
        requires taker_here { taker < length self.old.want.items }
        requires free { amount ≤ slice_index self.old.free.items giver }
        requires wanted { amount ≤ slice_index self.old.want.items taker }
        ensures free { self.new.free.items ≡ slice_set self.old.free.items giver (slice_index self.old.free.items giver - amount) }
        ensures want { self.new.want.items ≡ slice_set self.old.want.items taker (slice_index self.old.want.items taker - amount) }
        ensures moves { self.new.moves.items ≡ self.old.moves.items }
    {
        self.free[giver] -= amount;
        self.want[taker] -= amount;
    }

    // `amount` units of a move go back.
    fn take_back(&mut self, place: usize, amount: u128)
        requires flow { IsSomeFlow self.old }
        requires here { place < length self.old.moves.items }
        requires enough { amount ≤ (move_at (transfers self.old.moves.items) place).amount }
        ensures { HasTakenBack self.old place amount self.new }
    {
        let item = &mut self.moves[place];
        item.amount -= amount;
        let (giver, taker) = (item.from as usize, item.to as usize);
        self.free[giver] += amount;
        self.want[taker] += amount;
    }

    /// Units of a move come from another giver instead, as many as the move has and that giver has free. The answer is
    /// the first giver, which has these units free then.
    pub fn reroute(&mut self, place: usize, giver: usize) -> Result<usize, AllocError>
        requires flow { IsSomeFlow self.old }
        requires here { place < length self.old.moves.items }
        requires giver_here { giver < length self.old.free.items }
        requires giver_small { giver < 2 ^ 32 }
        ensures { IfOk result (λ first. IsRerouted self.old place giver first self.new) }
    {
        let item = &self.moves[place];
        let (first, taker) = (item.from as usize, item.to as usize);
        let amount = item.amount.min(self.free[giver]);
        self.take_back(place, amount);
        self.give(giver, taker, amount)?;
        Ok(first)
    }
}

// The coefficients of the monomials.
fn coefficients(alloc: Global, items: &[Monomial]) -> Result<Vec<u128>, AllocError>
    ensures same { IfOk result (λ list. list.items ≡ map (λ x. (out-Monomial x).coefficient) items.now) }
    ensures fit { IfOk result (λ list. All (λ c. c < coefficient_end) list.items) }
{
    let mut list = Vec::new(alloc);
    for item in items {
        list.push(item.coefficient)?;
    }
    Ok(list)
}

// Where the move between the two stands, if there is one.
fn place_of(moves: &[Move], giver: usize, taker: usize) -> Option<usize>
    ensures { MatchOption result (NoneBetween giver taker (transfers moves.now)) (IsBetween giver taker (transfers moves.now)) }
{
    for (place, item) in moves.iter().enumerate() {
        if item.from as usize == giver && item.to as usize == taker {
            return Some(place);
        }
    }
    None
}
