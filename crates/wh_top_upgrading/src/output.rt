//! The text of a certificate, as far as an output may be long.

ghost use Rattle.std.specs.Prelude.{◌≤◌, IfOk, length};
ghost use Rattle.wh_types.specs.Limits.{certificate_limit};
ghost use Rattle.wh_cert.specs.Limits.{IsCert};
ghost use Rattle.wh_cert.specs.Said.{said};
ghost use Rattle.wh_top_upgrading.specs.Output.{IsTextOf};

use std::alloc::Global;
use wh_answer::{Report, Role};
use wh_cert::Certificate;
use wh_cert_print::print_certificate;
use wh_top_judging::CERTIFICATE_LIMIT;
use wh_types::{Bytes, Or};

/// The text of a certificate; `Err` tells that it is longer than an output may be, which is 8,388,608 bytes.
pub fn certificate_text(alloc: Global, certificate: &Certificate) -> Result<Bytes, Or<Report>>
    requires { IsCert (said certificate.now) }
    ensures text { IsTextOf (said certificate.now) result }
    ensures within { IfOk result (λ text. length text ≤ certificate_limit) }
{
    let text = print_certificate(alloc, certificate)?;
    if text.as_slice().len() as u64 > CERTIFICATE_LIMIT {
        return Err(Or::Because(Report::TooLong(Role::Output)));
    }
    Ok(text)
}
