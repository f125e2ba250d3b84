//! Argument filters (argument filterings): which arguments of a symbol a path order looks at.

use wh_types::Numbers;

/// Which of its arguments a symbol keeps, or which one it gives way to (Arts and Giesl 2000; Kop 2012). Places are
/// counted from 1.
#[derive(Drop)]
pub enum Filter {
    /// The symbol stays, with some of its arguments.
    Keep {
        /// How it is compared with other symbols: a greater number is a greater symbol.
        prec: u32,
        /// The places of the arguments that stay, in order.
        places: Numbers,
    },
    /// The symbol gives way to one of its arguments.
    Pick {
        /// The place of this argument.
        place: u32,
    },
}
