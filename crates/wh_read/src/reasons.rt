//! The reasons for which a text is refused. The program prints each as a word and an offset.

/// Why a text is refused.
#[derive(Clone, Copy)]
pub enum Reason {
    /// A byte begins no token.
    BadByte,
    /// Digits have a leading zero, or spell more than 65,535.
    BadNumber,
    /// A name has more than 64 bytes.
    NameTooLong,
    /// No system text has the token behind those before it, or the text ends too early.
    Syntax,
    /// A sort, variable, meta-variable or symbol is not there.
    UnknownName,
    /// A sort, symbol or meta-variable is declared again, or a meta-variable has a symbol's name.
    Twice,
    /// An argument does not have the type that is wanted, or the sides of a rule have different types.
    IllTyped,
    /// A part of a left side is no pattern.
    NotPattern,
    /// A side has a free variable.
    OpenSide,
    /// A meta-variable of a right side is not in the left.
    NewMeta,
    /// The head of a left side is no symbol.
    HeadNotFun,
    /// An earlier rule of the same symbol has another number of arguments.
    UnevenRules,
    /// A limit is passed.
    TooMany,
}

/// Why a text is refused, and where: the first reason in the order of the tests, which are those of tokens, then those
/// of the grammar, then those of systems.
#[derive(Clone, Copy)]
pub struct Refused {
    /// The reason.
    pub reason: Reason,
    /// The offset of the byte where the trouble stands.
    pub at: u32,
}
