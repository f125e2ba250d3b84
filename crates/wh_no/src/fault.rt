//! The faults of NO certificates: why one is refused.

/// The first condition of a valid certificate that is false. Indices count from 0.
#[derive(Clone, Copy)]
pub enum NoFault {
    /// The names do not stand for a well-typed term that fits.
    NotATerm,
    /// There is no step.
    NoStep,
    /// This step is the first that does not apply.
    StepFails { index: u32 },
    /// The result of this step is the first that does not fit.
    TooBig { index: u32 },
    /// This line of a term that is put for a variable is the first whose names stand for nothing, whose term has
    /// another type than its variable, or whose number is not above the one before.
    BadPut { index: u32 },
    /// The last term has no such position, or the part that stands there is not the instance.
    NoInstance,
}
