//! How far the bytes of a certificate have led, whether it is a YES or a NO certificate.

ghost use Rattle.std.specs.Prelude.{◌≡◌};
ghost use Rattle.wh_cert_machines.specs.declared.progress.Progress.TheVariants.{Refused};

use crate::line_reader::NoLine;
use crate::yes_line::YesLine;
use wh_cert::CertSyntax;
use wh_types::Numbers;

/// The lines of a YES certificate since the last item, and what is known of those before.
#[derive(Drop)]
pub struct YesItems {
    /// The lines.
    pub line: YesLine,
    /// The version, once it was read.
    pub version: u32,
    /// The ranks, until they are handed out.
    pub ranks: Numbers,
    /// How many nodes are still wanted.
    pub wanted: u64,
}

/// Where the bytes have led.
#[derive(Drop)]
pub enum Progress {
    /// No byte was taken.
    Unread,
    /// The bytes are in a YES certificate.
    Yes(Box<YesItems>),
    /// The bytes are in a NO certificate.
    No(Box<NoLine>),
    /// The byte behind those that were taken is wrong.
    Refused,
    /// There was no memory to keep where the bytes have led.
    Lost,
}

impl Progress {
    /// The bytes are refused from now on. `taken` of them can begin a certificate.
    pub fn refuse(&mut self, taken: u32) -> CertSyntax
        ensures place { result.at ≡ taken }
        ensures at { self.new ≡ Refused }
    {
        *self = Progress::Refused;
        CertSyntax {
            at: u64::from(taken),
        }
    }
}
