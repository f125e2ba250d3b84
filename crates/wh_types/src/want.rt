//! Want of memory as an error of its own, beside the cause of a call.
//!
//! A call that takes memory, and that can fail for a reason of its own, answers `Or<E>`. Want of memory is a variant
//! beside the reasons, so no caller takes it for one of them.

ghost use Rattle.std.specs.Prelude.{◌≡◌};
ghost use Rattle.wh_types.specs.declared.want.Or.TheVariants.{NoMemory};

use std::alloc::{AllocError, AllocFailed};

/// Why a call that takes memory gave no value: it got no memory, or the cause that it names.
#[derive(Drop)]
pub enum Or<E> {
    /// There was no memory. No clause says when this comes.
    NoMemory,
    /// The cause of the call's own.
    Because(E),
}

impl<E> From<AllocError> for Or<E> {
    ghost from_gives = { λ _ e. e ≡ NoMemory };

    fn from(_: AllocError) -> Self {
        Or::NoMemory
    }
}

impl<E, T: Drop> From<AllocFailed<T>> for Or<E> {
    ghost from_gives = { λ _ e. e ≡ NoMemory };

    fn from(_: AllocFailed<T>) -> Self {
        Or::NoMemory
    }
}
