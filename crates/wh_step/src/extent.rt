//! The extent of a term that fits: its size, its height and the length of its spine. From the extents of its parts
//! follows the extent of a term.

ghost use Rattle.std.specs.Prelude.{◌≤◌};
ghost use Rattle.wh_types.specs.Limits.{most_arguments, greatest_height, greatest_size};

/// The measures of a term that fits.
#[derive(Clone, Copy)]
pub struct Extent {
    /// The size of the term.
    pub size: u32,
    /// The height of the term.
    pub height: u32,
    /// The number of arguments of the spine that it is.
    pub arguments: u32,
    ghost small: { size ≤ greatest_size },
    ghost low: { height ≤ greatest_height },
    ghost narrow: { arguments ≤ most_arguments },
}

/// The term does not fit.
#[derive(Drop)]
pub struct PastLimit;
