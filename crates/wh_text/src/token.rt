//! Tokens of a text, with the offsets where they stand. `cut` makes them.

use thiserror::Error;
use wh_types::{List, Or};

/// What a token is. The bytes of a name, a keyword or a sign are those of the text where it stands.
#[derive(Clone, Copy)]
pub enum TokenKind {
    /// A name.
    Name,
    /// One of the words `sort`, `fun` and `rule`.
    Keyword,
    /// `$` with this number.
    Dollar(u32),
    /// `%` with this number.
    Percent(u32),
    /// A sign, of one byte or an arrow.
    Sign,
}

/// A token; its text is the bytes from `from` up to, not including, `to`.
#[derive(Clone, Copy)]
pub struct Token {
    /// What it is.
    pub kind: TokenKind,
    /// The offset of its first byte.
    pub from: u32,
    /// The offset behind its last byte.
    pub to: u32,
}

/// A list of tokens.
pub type Tokens = List<Token>;

/// The first offset at which a text can't be cut into tokens.
#[derive(Clone, Copy, Debug, Error)]
pub enum TextFault {
    /// A byte that begins no token, an arrow without its head, or `$` or `%` without a digit.
    #[error("a byte that begins no token, at {at}")]
    BadByte {
        /// The offset of the byte.
        at: u32,
    },
    /// Digits with a leading zero, or of a number above 65,535.
    #[error("a bad number, at {at}")]
    BadNumber {
        /// The offset of the first digit.
        at: u32,
    },
    /// A name of more than 64 bytes.
    #[error("a name that is too long, at {at}")]
    NameTooLong {
        /// The offset of its first byte.
        at: u32,
    },
}

impl From<TextFault> for Or<TextFault> {
    ghost use Rattle.std.specs.Prelude.{◌≡◌};
    ghost use Rattle.wh_types.specs.declared.want.Or.TheVariants.{Because};

    ghost from_gives = { λ fault e. e ≡ Because fault };

    fn from(fault: TextFault) -> Self {
        Or::Because(fault)
    }
}
