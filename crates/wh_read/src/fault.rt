//! The faults of the grammar: why tokens are no system text, and at which token.

use wh_types::Or;

/// Why tokens are no system text: the first token at fault.
#[derive(Clone, Copy)]
pub enum SyntaxFault {
    /// No system text has this token behind those before it, or the text ends too early.
    Syntax {
        /// The place of the token; the length of the text where that ends too early.
        at: u32,
    },
    /// The token opens one level too many: terms nest 400 deep, the parentheses of types 16.
    TooMany {
        /// The place of the token.
        at: u32,
    },
}

impl From<SyntaxFault> for Or<SyntaxFault> {
    ghost use Rattle.std.specs.Prelude.{◌≡◌};
    ghost use Rattle.wh_types.specs.declared.want.Or.TheVariants.{Because};

    ghost from_gives = { λ fault e. e ≡ Because fault };

    fn from(fault: SyntaxFault) -> Self {
        Or::Because(fault)
    }
}
