//! A small generator of pseudo-random numbers. It begins with a fixed number, so each search goes the same way when it
//! is run again.

ghost use Rattle.std.specs.Prelude.{◌<◌};

/// A linear congruence on 64 bits (Knuth), of which the high bits are given.
#[derive(Clone, Copy)]
pub struct Random {
    state: u64,
}

impl Random {
    /// The generator at its beginning.
    pub fn new() -> Random {
        Random {
            state: 0x9e37_79b9_7f4a_7c15,
        }
    }

    // The next number, of 31 bits.
    fn next(&mut self) -> u64 {
        self.state = self
            .state
            .wrapping_mul(6_364_136_223_846_793_005)
            .wrapping_add(1_442_695_040_888_963_407);
        self.state >> 33
    }

    /// A number below the bound.
    pub fn below(&mut self, bound: u64) -> u64
        requires { 0 < bound }
        ensures { result < bound }
    {
        self.next() % bound
    }
}
