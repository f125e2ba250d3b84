//! Joints: what a part of a term that fits brings to the height of the term and to its spine. They are enough to know
//! the measures of the whole term.

ghost use Rattle.std.specs.Prelude.{◌≤◌};
ghost use Rattle.wh_types.specs.Limits.{most_arguments, greatest_height};

/// What the part brings to the term.
#[derive(Clone, Copy)]
pub struct Joint {
    /// The height that the term has by it.
    pub height: u32,
    /// The number of arguments of the spine that it joins.
    pub arguments: u32,
    /// Whether that is the spine at the root.
    pub is_front: bool,
    /// Whether the term with the part is an application.
    pub is_applied: bool,
    ghost low: { height ≤ greatest_height },
    ghost narrow: { arguments ≤ most_arguments },
}
