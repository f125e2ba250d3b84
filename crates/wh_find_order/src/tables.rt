//! How many bits the precedence of a symbol has.

ghost use Rattle.std.specs.Prelude.{◌≡◌, ◌-◌};
ghost use Rattle.wh_order_space.specs.Bits.{binary_length};

/// How many bits a precedence has where there are `symbols` symbols: as many as the greatest precedence needs, which is
/// one less than that number.
pub fn precedence_bits(symbols: usize) -> usize
    ensures { result ≡ binary_length symbols (symbols - 1) }
{
    let mut bits = 0;
    let mut left = symbols.saturating_sub(1);
    while left > 0 {
        left /= 2;
        bits += 1;
    }
    bits
}
