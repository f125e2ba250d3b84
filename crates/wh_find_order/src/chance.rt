//! Guesses by chance: one symbol of the condition that failed last gets another filter, or another precedence.
//!
//! Where many guesses are shut out, a solver has many long clauses to learn from, and each clause that it learns takes
//! it long. A guess by chance takes a look at the clauses alone, and it never writes a filter that is not proper.

ghost use Rattle.std.specs.Bool.{OnTrue};
ghost use Rattle.std.specs.Prelude.{◌≡◌, ◌≤◌, IfOk, IfSome, OnOk, length, true};
ghost use Rattle.wh_poly_blocking.specs.Sizes.{value_of};
ghost use Rattle.wh_sat.specs.Solving.{Solves, clause_true, literal_true};

use crate::blocking::Failing;
use crate::encoding::Encoding;
use std::alloc::{AllocError, Global};
use wh_poly_blocking::bit;
use wh_poly_space::Random;
use wh_sat_trail::{Clause, Literal};
use wh_types::SimpleType;

// How many changes are tried for one guess.
const TRIES: u64 = 64;

/// The state of guesses by chance: a generator of random numbers, and for each clause the place of a literal that was
/// true in it last.
#[derive(Drop)]
pub struct Chance {
    alloc: Global,
    random: Random,
    places: Vec<usize>,
}

/// Where the bits of a symbol stand.
#[derive(Clone, Copy)]
struct Spot<'a> {
    /// The number of the symbol's first bit.
    from: usize,
    /// The types of the symbol's arguments.
    scope: &'a [SimpleType],
}

impl Chance {
    /// Nothing was guessed yet.
    pub fn new(alloc: Global) -> Chance {
        Chance {
            alloc,
            random: Random::new(),
            places: Vec::new(alloc),
        }
    }

    /// A guess that differs from the last one in the bits of one symbol of the condition that failed there, and under
    /// which all clauses are true, if one of some changes gives one.
    pub fn change<'a>(
        &mut self,
        encoding: &Encoding<'a>,
        clauses: &[Clause],
        last: &[bool],
        failing: Failing,
    ) -> Result<Option<Vec<bool>>, AllocError>
        ensures { IfOk result (λ found. IfSome found (λ next. Solves (value_of next.items) clauses.now)) }
    {
        self.make_room(clauses.len())?;
        for _ in 0..TRIES {
            let number = self.symbol_of(encoding, failing);
            let next = self.changed(encoding, last, number)?;
            if self.are_true(clauses, &next) {
                return Ok(Some(next));
            }
        }
        Ok(None)
    }

    // There is a place for each of `clauses` clauses.
    fn make_room(&mut self, clauses: usize) -> Result<(), AllocError> {
        for _ in self.places.len()..clauses {
            self.places.push(0)?;
        }
        Ok(())
    }

    // A number below the bound; 0 where there is none.
    fn below(&mut self, bound: usize) -> usize {
        if bound == 0 {
            return 0;
        }
        self.random.below(bound as u64) as usize
    }

    // The number of a symbol that is used in the condition.
    fn symbol_of<'a>(&mut self, encoding: &Encoding<'a>, failing: Failing) -> usize {
        match failing {
            Failing::Symbol(number) => number,
            Failing::Line(number) => match encoding.numbers.get(number) {
                Some(numbers) => {
                    let place = self.below(numbers.len());
                    numbers.get(place).copied().unwrap_or(0)
                }
                None => 0,
            },
        }
    }

    // The bits, but that the symbol with this number has another precedence or another filter.
    fn changed<'a>(
        &mut self,
        encoding: &Encoding<'a>,
        bits: &[bool],
        number: usize,
    ) -> Result<Vec<bool>, AllocError> {
        let count = encoding.first_bits.last().copied().unwrap_or(0);
        let mut next = Vec::new(self.alloc);
        for place in 0..count {
            next.push(bit(bits, place as usize))?;
        }
        if let Some(spot) = spot_of(encoding, number) {
            match self.below(3) {
                0 => self.refilter(&mut next, spot),
                1 => self.turn(&mut next, spot),
                _ => self.rank(&mut next, spot, encoding),
            }
        }
        Ok(next)
    }

    // Another filter: it keeps some places, or picks one where a sort stands.
    fn refilter<'a>(&mut self, bits: &mut [bool], spot: Spot<'a>) {
        let places = spot.scope.len();
        let picked = self.below(places);
        let picks = self.below(3) == 0 && is_sort(spot.scope, picked);
        for place in 0..places {
            let keeps = !picks && self.below(2) == 0;
            set(bits, kept_at(spot, place), keeps);
            set(bits, picked_at(spot, place), picks && place == picked);
        }
    }

    // One place more is kept, or one less, and none is picked.
    fn turn<'a>(&mut self, bits: &mut [bool], spot: Spot<'a>) {
        let places = spot.scope.len();
        let place = self.below(places);
        let keeps = !bit(bits, kept_at(spot, place));
        for other in 0..places {
            set(bits, picked_at(spot, other), false);
        }
        if place < places {
            set(bits, kept_at(spot, place), keeps);
        }
    }

    // Another precedence.
    fn rank<'a>(&mut self, bits: &mut [bool], spot: Spot<'a>, encoding: &Encoding<'a>) {
        let from = picked_at(spot, spot.scope.len());
        let mut left = self.below(encoding.scopes.len());
        for place in 0..encoding.precedence_bits {
            set(bits, from.saturating_add(place), left % 2 == 1);
            left /= 2;
        }
    }

    // Whether all clauses are true under the values. The latest one comes first: it is the most likely one to be false.
    fn are_true(&mut self, clauses: &[Clause], values: &[bool]) -> bool
        ensures { OnTrue result (Solves (value_of values.now) clauses.now) }
    {
        let mut left = clauses.len();
        while left > 0 {
            left -= 1;
            let clause = clauses[left].as_slice();
            if !self.was_true(left, clause, values) && !self.is_true(left, clause, values) {
                return false;
            }
        }
        true
    }

    // Whether the literal that was true last in the clause with this number is true under the values.
    fn was_true(&self, number: usize, clause: &[Literal], values: &[bool]) -> bool
        ensures { OnTrue result (clause_true (value_of values.now) clause.now ≡ true) }
    {
        if let Some(place) = self.places.get(number) {
            if *place < clause.len() {
                return holds(values, clause[*place]);
            }
        }
        false
    }

    // Whether some literal of the clause with this number is true under the values; its place is kept.
    fn is_true(&mut self, number: usize, clause: &[Literal], values: &[bool]) -> bool
        ensures { OnTrue result (clause_true (value_of values.now) clause.now ≡ true) }
    {
        for (place, literal) in clause.iter().enumerate() {
            if holds(values, *literal) {
                self.keep(number, place);
                return true;
            }
        }
        false
    }

    // The literal at this place was true last in the clause with this number.
    fn keep(&mut self, number: usize, place: usize) {
        if let Some(kept) = self.places.get_mut(number) {
            *kept = place;
        }
    }
}

// Whether the literal is true under the values.
fn holds(values: &[bool], literal: Literal) -> bool
    ensures { result ≡ literal_true (value_of values.now) literal }
{
    bit(values, literal.variable as usize) == literal.positive
}

// Where the bits of the symbol with this number stand, if there is one.
fn spot_of<'a, 'b>(encoding: &'b Encoding<'a>, number: usize) -> Option<Spot<'b>> {
    let scope = encoding.scopes.get(number)?;
    let from = encoding.first_bits.get(number)?;
    Some(Spot {
        from: *from as usize,
        scope,
    })
}

// The number of the bit that the place is kept.
fn kept_at<'a>(spot: Spot<'a>, place: usize) -> usize {
    spot.from.saturating_add(place)
}

// The number of the bit that the place is picked.
fn picked_at<'a>(spot: Spot<'a>, place: usize) -> usize {
    kept_at(spot, spot.scope.len()).saturating_add(place)
}

// Whether a sort stands at the place.
fn is_sort(scope: &[SimpleType], place: usize) -> bool {
    matches!(scope.get(place), Some(SimpleType::Sort(_)))
}

// The bit with this number, if there is one, has this value.
fn set(bits: &mut [bool], number: usize, value: bool) {
    if let Some(slot) = bits.get_mut(number) {
        *slot = value;
    }
}
