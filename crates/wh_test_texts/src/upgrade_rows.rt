//! Certificates of version 1 as those of version 2.

use crate::certificates::{LOOP, ORDER, PUT, USABLE};
use crate::comparing::expect_text;
use std::alloc::{AllocError, Global};
use std::process::Abort;
use std::test::Fail;
use wh_cert::Certificate;
use wh_cert_print::print_certificate;
use wh_cert_text::read_certificate;
use wh_cert_upgrade::upgrade;
use wh_types::{Bytes, Or};

/// Texts of certificates, each with a number of rules, and the texts of the upgraded ones.
const UPGRADED: &[(&[u8], u32, &[u8])] = &[
    (
        b"YES 1\nranks 0 2\npairs 3\nblocks 2\nblock 0 2\nblock 1\npoly\nfun g 1+2*y0(1*y0)\nmark g 3\nrule\nrule 0>1:5 1>0:2\npair\npair\ndrop 0\npoly\ndrop 2\ndone\nsubterm\narg f 1\ndrop 1\ndone\nend\n",
        3,
        b"YES 2\nranks 0 2\npairs 3\nblocks 2\nblock 0 2\nblock 1\npoly\nusable 0 1 2\nfun g 1+2*y0(1*y0)\nmark g 3\nrule\nrule 0>1:5 1>0:2\npair\npair\ndrop 0\npoly\nusable 0 1 2\ndrop 2\ndone\nsubterm\narg f 1\ndrop 1\ndone\nend\n",
    ),
    // no rules, and no node of interpretations
    (
        b"YES 1\nranks\npairs 0\npoly\ndrop\ndone\nend\n",
        0,
        b"YES 2\nranks\npairs 0\npoly\nusable\ndrop\ndone\nend\n",
    ),
    (
        b"YES 1\nranks\npairs 1\nalone\nend\n",
        2,
        b"YES 2\nranks\npairs 1\nalone\nend\n",
    ),
    // of version 2, and of non-termination
    (ORDER, 3, ORDER),
    (USABLE, 3, USABLE),
    (LOOP, 2, LOOP),
    (PUT, 1, PUT),
    (
        b"NO 1\nterm ((\\$0:(o->(o->o)->o).$0) %65535:(o->o))\nstep beta /0\nat /\nend\n",
        1,
        b"NO 1\nterm ((\\$0:(o->(o->o)->o).$0) %65535:(o->o))\nstep beta /0\nat /\nend\n",
    ),
];

/// The certificate of a text.
fn certificate_of(alloc: Global, text: &[u8]) -> Result<Certificate, AllocError> {
    if text.len() > 8_388_608 {
        return Err(AllocError);
    }
    match read_certificate(alloc, text) {
        Ok(certificate) => Ok(certificate),
        Err(Or::Because(_) | Or::NoMemory) => Err(AllocError),
    }
}

/// The text of the upgraded certificate.
fn upgraded_text(alloc: Global, text: &[u8], rules: u32) -> Result<Bytes, AllocError> {
    let certificate = certificate_of(alloc, text)?;
    let upgraded = upgrade(alloc, &certificate, rules)?;
    print_certificate(alloc, &upgraded)
}

/// Compares the text of the upgraded certificate.
fn expect_upgraded(
    rt: &impl Abort,
    alloc: Global,
    text: &[u8],
    rules: u32,
    expected: &[u8],
) -> Result<(), AllocError> {
    let found = upgraded_text(alloc, text, rules)?;
    expect_text(rt, found.as_slice(), expected);
    Ok(())
}

#[test]
fn upgrades_certificates_of_version_one(rt: HostRuntime) -> Result<(), Fail> {
    for (text, rules, expected) in UPGRADED {
        expect_upgraded(&rt, rt.alloc(), *text, *rules, *expected)?;
    }
    Ok(())
}
