//! Demands on bits, as data: formulas of bits without negations but at the bits.

/// What bits have to meet.
#[derive(Drop)]
pub enum Demand {
    /// Nothing.
    Always,
    /// The demand cannot be met.
    Never,
    /// The bit with this number is set.
    Bit(u32),
    /// The bit with this number is not set.
    NoBit(u32),
    /// The two demands are met.
    Both(Box<Demand>, Box<Demand>),
    /// At least one of the two demands is met.
    Either(Box<Demand>, Box<Demand>),
}
