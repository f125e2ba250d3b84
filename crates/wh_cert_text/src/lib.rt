//! Reading certificates from their bytes: whole by `read_certificate`, in pieces by `Reading`, or item by item by
//! `CertReader`.
#![tactic(auto)]

mod cert_reader;
mod items_out;
mod laws;
mod reading;

pub use cert_reader::{CertReader, Portion};
pub use laws::{
    no_proper_prefix, one_certificate, one_place, one_text, polynomials_short, text_or_fault,
};
pub use reading::{Reading, read_certificate};
