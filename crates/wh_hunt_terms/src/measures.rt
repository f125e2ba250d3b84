//! Heads and sizes of terms.

use wh_terms::Term;

/// The symbol at the head of a spine, and how many arguments it has there.
#[derive(Clone, Copy)]
pub struct Head {
    /// The symbol.
    pub symbol: u32,
    /// The number of its arguments.
    pub arguments: u32,
}

/// The head of the spine that the term is, where that is a symbol.
pub fn head_of(term: &Term) -> Option<Head> {
    match term {
        Term::App(function, _) => {
            let head = head_of(function)?;
            Some(Head {
                symbol: head.symbol,
                arguments: head.arguments.saturating_add(1),
            })
        }
        Term::Fun(symbol) => Some(Head {
            symbol: *symbol,
            arguments: 0,
        }),
        _ => None,
    }
}

/// What is left of the room when the size of the term is taken from it; `None` where the term is larger than the room.
pub fn room_behind(term: &Term, room: u32) -> Option<u32> {
    let rest = room.checked_sub(1)?;
    match term {
        Term::Bound(_) | Term::Free(..) | Term::Fun(_) | Term::Meta(..) => Some(rest),
        Term::Lam(_, body) => room_behind(body, rest),
        Term::App(function, argument) => {
            let left = room_behind(function, rest)?;
            room_behind(argument, left)
        }
    }
}
