//! The faults of parts: why they are no system, each with the offset where the trouble stands.

use thiserror::Error;
use wh_types::Or;

/// Why parts are no system: the first reason in the order of the tests, with the offset where it stands.
#[derive(Clone, Copy, Debug, Error)]
pub enum SystemFault {
    /// A sort, variable, meta-variable or symbol is not there.
    #[error("an unknown name, at {at}")]
    UnknownName {
        /// The offset of the name.
        at: u32,
    },
    /// A sort, symbol or meta-variable is declared again, or a meta-variable has a symbol's name.
    #[error("a name declared twice, at {at}")]
    Twice {
        /// The offset of the later name.
        at: u32,
    },
    /// An argument does not have the type that is wanted, or the sides of a rule have different types.
    #[error("ill typed, at {at}")]
    IllTyped {
        /// The offset of the argument, of a meta-variable with a wrong number of arguments, or of the right side.
        at: u32,
    },
    /// A part of a left side is no pattern.
    #[error("not a pattern, at {at}")]
    NotPattern {
        /// The offset of the first such part.
        at: u32,
    },
    /// A side has a free variable.
    #[error("a free variable in a side, at {at}")]
    OpenSide {
        /// The offset of the first one.
        at: u32,
    },
    /// A meta-variable of the right side is not in the left.
    #[error("a new meta-variable on the right, at {at}")]
    NewMeta {
        /// The offset of its first occurrence.
        at: u32,
    },
    /// The left side's head is no symbol.
    #[error("a left side that no symbol heads, at {at}")]
    HeadNotFun {
        /// The offset of the left side.
        at: u32,
    },
    /// An earlier rule of the same symbol has another number of arguments.
    #[error("rules of one symbol with different numbers of arguments, at {at}")]
    UnevenRules {
        /// The offset of the left side.
        at: u32,
    },
    /// A limit is passed.
    #[error("too many, at {at}")]
    TooMany {
        /// The offset of the first thing past it; for height and size of a side the side.
        at: u32,
    },
}

impl From<SystemFault> for Or<SystemFault> {
    ghost use Rattle.std.specs.Prelude.{◌≡◌};
    ghost use Rattle.wh_types.specs.declared.want.Or.TheVariants.{Because};

    ghost from_gives = { λ fault e. e ≡ Because fault };

    fn from(fault: SystemFault) -> Self {
        Or::Because(fault)
    }
}
