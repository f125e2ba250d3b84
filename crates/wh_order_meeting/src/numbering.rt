//! Inputs for the bits that a demand names, so that the circuit has no others.

ghost use Rattle.std.specs.Prelude.{◌≡◌, ◌+◌, ℕ, List, IfOk, OnOk, length};
ghost use Rattle.wh_order_meeting.specs.Meeting.{AreNumbered};

use std::alloc::{AllocError, Global};
use wh_types::counted;

/// Bits and their inputs.
#[derive(Drop)]
pub struct Numbering {
    /// For each bit its input, if it has one.
    pub places: Vec<Option<u32>>,
    /// For each input its bit.
    pub bits: Vec<u32>,
}

/// An input for each bit that is named.
pub fn numbered(alloc: Global, named: &[bool]) -> Result<Numbering, AllocError>
    ensures { IfOk result (λ made. AreNumbered made.places.items made.bits.items) }
{
    let mut places = Vec::new(alloc);
    let mut bits = Vec::new(alloc);
    for bit in 0..named.len() {
        put_bit(named[bit], counted(bit)?, &mut places, &mut bits)?;
    }
    Ok(Numbering { places, bits })
}

// Puts the next bit at the end, with an input if it is named.
fn put_bit(
    named: bool,
    bit: u32,
    places: &mut Vec<Option<u32>>,
    bits: &mut Vec<u32>,
) -> Result<(), AllocError>
    requires { bit ≡ length places.old.items }
    ensures numbered { OnOk result (AreNumbered places.old.items bits.old.items → AreNumbered places.new.items bits.new.items) }
    ensures count { OnOk result (length places.new.items ≡ length places.old.items + 1) }
{
    if named {
        put_named(bit, places, bits)
    } else {
        put_unnamed(places)
    }
}

// A bit that is named.
fn put_named(bit: u32, places: &mut Vec<Option<u32>>, bits: &mut Vec<u32>) -> Result<(), AllocError>
    requires { bit ≡ length places.old.items }
    ensures numbered { OnOk result (AreNumbered places.old.items bits.old.items → AreNumbered places.new.items bits.new.items) }
    ensures count { OnOk result (length places.new.items ≡ length places.old.items + 1) }
{
    let input = counted(bits.len())?;
    places.push(Some(input))?;
    bits.push(bit)?;
    Ok(())
}

// One that is not.
fn put_unnamed(places: &mut Vec<Option<u32>>) -> Result<(), AllocError>
    ensures numbered { OnOk result ((bits : List ℕ) → AreNumbered places.old.items bits → AreNumbered places.new.items bits) }
    ensures count { OnOk result (length places.new.items ≡ length places.old.items + 1) }
{
    places.push(None)?;
    Ok(())
}
