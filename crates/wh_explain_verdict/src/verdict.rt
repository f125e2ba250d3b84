//! Verdicts: what an explanation says of a certificate, and the words that it begins with.

ghost use Rattle.std.specs.Prelude.{◌≡◌};
ghost use Rattle.wh_explain_verdict.specs.FirstWords.{first_words, verdict_of};

use wh_answer::Report;

/// What an explanation says of a certificate, or of a search for one.
#[derive(Clone, Copy)]
pub enum Verdict {
    /// The check accepts the certificate: every well-typed term is bounded.
    Proof,
    /// The check accepts the certificate: some term has reductions of every length.
    Loop,
    /// The text is no certificate, or a condition does not hold.
    Rejected,
    /// A coefficient of a value exceeds its limit.
    Overflow,
    /// A value is too large.
    TooLarge,
    /// No certificate was found.
    Open,
}

/// What the answer of a check says of a certificate. Answers that are about none are `Open`.
pub fn verdict_of(report: &Report) -> Verdict
    ensures { result ≡ verdict_of report.now }
{
    match report {
        Report::Yes => Verdict::Proof,
        Report::No => Verdict::Loop,
        Report::Rejected(_) => Verdict::Rejected,
        Report::Overflow(_) => Verdict::Overflow,
        Report::TooLarge(_) => Verdict::TooLarge,
        Report::Maybe(_)
        | Report::Refused(..)
        | Report::BadWords
        | Report::ReadFault(_)
        | Report::OutOfMemory
        | Report::TooLong(_) => Verdict::Open,
    }
}

/// The words that an explanation begins with.
pub fn first_words(verdict: Verdict) -> &'static [u8]
    ensures { result.now ≡ first_words verdict }
{
    match verdict {
        Verdict::Proof => b"YES: this is a proof, which the check accepts.",
        Verdict::Loop => b"NO: this is a loop, which the check accepts.",
        Verdict::Rejected => b"REJECTED: the check does not accept this certificate.",
        Verdict::Overflow => b"OVERFLOW: the check does not accept this certificate.",
        Verdict::TooLarge => b"TOO LARGE: the check does not accept this certificate.",
        Verdict::Open => b"MAYBE: no certificate was found.",
    }
}
