//! The bits of coefficients, two for each: which bit a coefficient has first.

ghost use Rattle.std.specs.Prelude.{◌≡◌, ◌+◌, ◌≤◌, ◌<◌, ◌^◌, ℕ, get_or, length};
ghost use Rattle.wh_poly_blocking.specs.Sizes.{bits_in, first_of};

/// How many coefficients each symbol has, and then each of the marked symbols of a set, and which bit of all of them
/// comes first.
#[derive(Drop)]
pub struct Bits {
    /// How many coefficients each symbol has.
    pub sizes: Vec<usize>,
    /// The first bit of each symbol, and behind all how many bits there are.
    pub firsts: Vec<u32>,
    ghost count: { length firsts.items ≡ length sizes.items + 1 },
    ghost each: { (n : ℕ) → n ≤ length sizes.items → get_or firsts.items n 0 ≡ first_of sizes.items n },
    ghost few: { bits_in sizes.items < 2 ^ 32 },
}

impl Bits {
    ghost use Rattle.std.specs.Prelude.{◌≡◌, MatchOption};
    ghost use Rattle.wh_poly_blocking.specs.Sizes.{bits_in};
    ghost use Rattle.wh_find_flat.specs.Lists.{IsAbsent, IsWrittenAt};

    /// How many bits there are.
    pub fn count(&self) -> usize
        ensures { result ≡ bits_in self.now.sizes.items }
    {
        self.firsts[self.sizes.len()] as usize
    }

    /// The first of the two bits of a coefficient, if that coefficient is there.
    pub fn of_coefficient(&self, number: usize, place: usize) -> Option<u32>
        ensures { MatchOption result (IsAbsent self.now.sizes.items number place) (IsWrittenAt self.now.sizes.items number place) }
    {
        if number < self.sizes.len() && place < self.sizes[number] {
            Some(self.firsts[number] + 2 * place as u32)
        } else {
            None
        }
    }
}
