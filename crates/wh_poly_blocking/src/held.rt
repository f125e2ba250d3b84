//! Conditions that held under some bits, so that they are not looked at again.
//!
//! The bits of the symbols in a condition decide whether it holds. This table only says where a search has to look, and
//! nothing is claimed of it. A condition that fails is told by a look at it, and a guess under which none is found to
//! fail is looked at as a whole.

use crate::bits::bit;
use std::alloc::{AllocError, Global};

// How many conditions are kept at most, each with the bits under which it held.
const SLOTS: usize = 4096;

/// Bits, and on which of them each condition depends.
#[derive(Clone, Copy)]
pub struct Bits<'a> {
    /// The values of the bits; those that are missing are false.
    pub values: &'a [bool],
    /// The first bit of each symbol, and behind these how many bits there are.
    pub first_bits: &'a [u32],
    /// The numbers of the symbols in each condition.
    pub numbers: &'a [Vec<usize>],
}

impl<'a> Bits<'a> {
    /// A key made of the number of the condition and of the bits of the symbols in it. Two conditions or guesses may
    /// have one key.
    pub fn key_of(self, condition: usize) -> u64 {
        let mut key = mixed(condition as u64, 1);
        if let Some(numbers) = self.numbers.get(condition) {
            for number in numbers {
                key = self.mixed_in(*number, key);
            }
        }
        key
    }

    // The key with the bits of what has the number mixed in.
    fn mixed_in(self, number: usize, key: u64) -> u64 {
        let mut key = key;
        for place in self.first_bit(number)..self.first_bit(number.saturating_add(1)) {
            key = mixed(key, bit(self.values, place as usize) as u64);
        }
        key
    }

    // The first bit of what has the number.
    fn first_bit(self, number: usize) -> u32 {
        self.first_bits.get(number).copied().unwrap_or(0)
    }
}

/// Conditions that held, each by its key.
#[derive(Drop)]
pub struct Held {
    keys: Vec<u64>,
}

impl Held {
    /// The table in which no condition is known to have held.
    pub fn new(alloc: Global) -> Result<Held, AllocError> {
        Ok(Held {
            keys: vec![in alloc; 0; SLOTS]?,
        })
    }

    /// Whether the condition with this key is known to have held.
    pub fn has(&self, key: u64) -> bool {
        match self.keys.get(slot_of(key)) {
            Some(kept) => *kept == key,
            None => false,
        }
    }

    /// The condition with this key holds. Another one in its slot is forgotten.
    pub fn keep(&mut self, key: u64) {
        if let Some(slot) = self.keys.get_mut(slot_of(key)) {
            *slot = key;
        }
    }
}

// The slot of a key.
fn slot_of(key: u64) -> usize {
    (key % SLOTS as u64) as usize
}

// The key with a word mixed in: a step of a linear congruence, of which high and low bits change places.
fn mixed(key: u64, word: u64) -> u64 {
    key.wrapping_add(word)
        .wrapping_mul(0x9e37_79b9_7f4a_7c15)
        .wrapping_add(word)
        .rotate_left(29)
}
