//! The words that the lines of a sheet begin with.

/// What a line asks for.
#[derive(Clone, Copy)]
pub enum Verb {
    /// Nothing.
    Remark,
    /// A text gets a name.
    Let,
    /// A text that repeats another one gets a name.
    Each,
    /// The words of the runs that follow.
    Words,
    /// The bytes of the file `system`.
    System,
    /// The bytes of the file `certificate`.
    Certificate,
    /// One text of the certificate in the place of another.
    Change,
    /// What fails in the next run.
    Faults,
    /// A run ends with the status and writes the text.
    Writes,
    /// A run ends with the status.
    Ends,
    /// What a run writes begins with the text.
    Begins,
    /// What it writes ends with the text.
    Closes,
    /// A search finds what begins with the text.
    Finds,
    /// What is shown of the system reads back.
    Rereads,
    /// Each front of the certificate is rejected.
    Cuts,
    /// A byte that no certificate has is rejected, wherever it stands.
    Foreign,
    /// A certificate with one byte next to its own is accepted or rejected.
    Neighbours,
    /// The fault of a write leaves what was written before.
    Fronts,
    /// No line begins with this word.
    Unknown,
}

/// What the word asks for.
pub fn verb_of(word: &str) -> Verb {
    match word {
        "" | "#" => Verb::Remark,
        "let" => Verb::Let,
        "each" => Verb::Each,
        "words" => Verb::Words,
        "system" => Verb::System,
        "certificate" => Verb::Certificate,
        "change" => Verb::Change,
        "faults" => Verb::Faults,
        _ => row_of(word),
    }
}

// The rows.
fn row_of(word: &str) -> Verb {
    match word {
        "writes" => Verb::Writes,
        "ends" => Verb::Ends,
        "begins" => Verb::Begins,
        "closes" => Verb::Closes,
        "finds" => Verb::Finds,
        "rereads" => Verb::Rereads,
        "cuts" => Verb::Cuts,
        "foreign" => Verb::Foreign,
        "neighbours" => Verb::Neighbours,
        "fronts" => Verb::Fronts,
        _ => Verb::Unknown,
    }
}
