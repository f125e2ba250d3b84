//! The answers of the checker of lists of clauses.

/// The list shows that the formula has no model.
#[derive(Clone, Copy)]
pub struct Refuted {
    /// How many entries it has.
    pub entries: u32,
}

/// What is first wrong with a list: of its entries in order, and in each in the order of the first three variants.
#[derive(Clone, Copy)]
pub enum RefuteFault {
    /// A literal of this entry has a variable that the formula does not have.
    BadLiteral {
        /// The number of the entry, from 0.
        entry: u32,
    },
    /// A hint of this entry names no earlier clause; or its clause is false, and it is not the last hint; or two
    /// literals of its clause are not false; or one alone is not, which is true already.
    BadHint {
        /// The number of the entry, from 0.
        entry: u32,
        /// The number of the hint in it, from 0.
        hint: u32,
    },
    /// No hint of this entry has a clause that was false.
    Open {
        /// The number of the entry, from 0.
        entry: u32,
    },
    /// The list does not end with the empty clause.
    NoEmpty,
}

/// What is wrong with one entry.
#[derive(Clone, Copy)]
pub enum EntryFault {
    /// A literal has a variable that the formula does not have.
    Literal,
    /// The hint with this number is wrong.
    Hint(u32),
    /// No hint had a clause that was false.
    Open,
}
