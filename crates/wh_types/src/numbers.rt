//! Counts as numbers of 32 bits. `counted` and `sum` fail where the result needs more than 32 bits: no memory holds as
//! many things as it would count, so the callers get the error for want of memory.

ghost use Rattle.std.specs.Prelude.{◌≡◌, ◌↔◌, ◌+◌, Contains, IfOk, IsTrue};

use std::alloc::AllocError;

/// A length as a number of 32 bits.
pub fn counted(length: usize) -> Result<u32, AllocError>
    ensures { IfOk result (λ number. number ≡ length) }
{
    u32::try_from(length).or(Err(AllocError))
}

/// The sum of two numbers of binders, of arguments or of variables.
pub fn sum(a: u32, b: u32) -> Result<u32, AllocError>
    ensures { IfOk result (λ sum. sum ≡ a + b) }
{
    a.checked_add(b).ok_or(AllocError)
}

/// Whether the list has the number.
pub fn is_in(list: &[u32], number: u32) -> bool
    ensures { IsTrue result ↔ Contains list.now number }
{
    list.contains(&number)
}
