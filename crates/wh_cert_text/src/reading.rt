//! Certificates, read from their bytes.

ghost use Rattle.std.specs.Prelude.{◌≡◌, ◌++◌, ◌+◌, ◌<◌, ◌≤◌, ◌^◌, [], ℕ, List, IfOk, OnOk, length, take};
ghost use Rattle.wh_types.specs.Outcome.{IfBecause};
ghost use Rattle.wh_text.specs.Erase.{rtm};
ghost use Rattle.wh_cert.specs.CertText.{CertText, FaultAt};
ghost use Rattle.wh_cert.specs.Items.{at as at_item, node as node_item, put as put_item, step as step_item};
ghost use Rattle.wh_cert.specs.Said.{said, said_item, said_node, said_put};
ghost use Rattle.wh_cert.specs.Written.{no as no_cert, yes as yes_cert};
ghost use Rattle.wh_cert_text.specs.Gathering.{HasRead, ReadsAs, with_item};

use crate::cert_reader::{CertReader, Portion};
use std::alloc::{AllocError, Global};
use wh_cert::{
    CertSyntax, Certificate, Item, NoCertificate, Node, Nodes, Put, Puts, Steps, YesCertificate,
};
use wh_terms::{Path, Step};
use wh_text::RawTerm;
use wh_types::{Numbers, Or};

/// A certificate that is read while its bytes come. Its items are kept, and of its bytes those of the present lines.
#[derive(Drop)]
pub struct Reading {
    reader: CertReader,
    certificate: Certificate,
    alloc: Global,
}

impl Reading {
    /// The reading before the first byte.
    pub fn new(alloc: Global) -> Reading
        ensures { HasRead result [] }
    {
        Reading {
            reader: CertReader::new(alloc),
            certificate: yes_head(alloc, 0, Numbers::new(alloc), 0),
            alloc,
        }
    }

    /// Takes all of these bytes. Without memory the reading stands for nothing any more.
    pub fn take_all(&mut self, piece: &[u8]) -> Result<(), AllocError>
        requires { (bytes : List ℕ) × HasRead self.old bytes × (length bytes + length piece.now < 2 ^ 32) }
        ensures { OnOk result ((bytes : List ℕ) → HasRead self.old bytes → length bytes + length piece.now < 2 ^ 32
            → HasRead self.new (bytes ++ piece.now)) }
    {
        let mut at = 0;
        while at < piece.len() {
            at += self.take(&piece[at..])?;
        }
        Ok(())
    }

    /// Takes bytes up to the last one of an item, or all of them; the answer is how many were taken.
    fn take(&mut self, bytes: &[u8]) -> Result<usize, AllocError>
        requires few { (before : List ℕ) × HasRead self.old before × (length before + length bytes.now < 2 ^ 32) }
        requires some { 0 < length bytes.now }
        ensures count { IfOk result (λ count. (0 < count) × (count ≤ length bytes.now)) }
        ensures read { IfOk result (λ count. (before : List ℕ) → HasRead self.old before
            → length before + length bytes.now < 2 ^ 32 → HasRead self.new (before ++ take count bytes.now)) }
    {
        let portion = match self.reader.feed_some(bytes) {
            Ok(portion) => portion,
            Err(Or::Because(_)) => return Ok(bytes.len()),
            Err(Or::NoMemory) => return Err(AllocError),
        };
        let Portion { taken, item } = portion;
        match item {
            None => Ok(taken),
            Some(item) => {
                add(&mut self.certificate, self.alloc, item)?;
                Ok(taken)
            }
        }
    }

    /// Gives the certificate whose text the bytes are that came.
    ///
    /// # Errors
    /// The bytes are no certificate's text; the fault has the number of bytes that begin such a text.
    pub fn finish(self) -> Result<Certificate, CertSyntax>
        ensures { (bytes : List ℕ) → HasRead self bytes → length bytes < 2 ^ 32 → ReadsAs bytes result }
    {
        match self.reader.finish() {
            Ok(()) => Ok(self.certificate),
            Err(fault) => Err(fault),
        }
    }
}

/// Adds an item to a certificate.
fn add(certificate: &mut Certificate, alloc: Global, item: Item) -> Result<(), AllocError>
    ensures { OnOk result (said certificate.new ≡ with_item (said certificate.old) (said_item item)) }
{
    match item {
        Item::YesHead {
            version,
            ranks,
            pairs,
        } => {
            *certificate = yes_head(alloc, version, ranks, pairs);
            Ok(())
        }
        Item::NoHead { term } => {
            *certificate = no_head(alloc, term);
            Ok(())
        }
        Item::Node(node) => add_node(certificate, node),
        Item::Step(step) => add_step(certificate, step),
        Item::At(at) => {
            set_place(certificate, at);
            Ok(())
        }
        Item::Put(put) => add_put(certificate, put),
        Item::End => Ok(()),
    }
}

/// A YES certificate before its nodes.
fn yes_head(alloc: Global, version: u32, ranks: Numbers, pairs: u32) -> Certificate
    ensures { said result ≡ yes_cert version ranks pairs [] }
{
    Certificate::Yes(YesCertificate {
        version,
        ranks,
        pairs,
        nodes: Nodes::new(alloc),
    })
}

/// A NO certificate before its steps.
fn no_head(alloc: Global, term: Box<RawTerm>) -> Certificate
    ensures { said result ≡ no_cert (rtm term.value) [] [] [] }
{
    Certificate::No(NoCertificate {
        term: Box::into_inner(term),
        steps: Steps::new(alloc),
        at: Path::new(alloc),
        puts: Puts::new(alloc),
    })
}

/// Adds a node to a YES certificate.
fn add_node(certificate: &mut Certificate, node: Box<Node>) -> Result<(), AllocError>
    ensures { OnOk result (said certificate.new ≡ with_item (said certificate.old) (node_item (said_node node.value))) }
{
    match certificate {
        Certificate::Yes(yes) => yes.nodes.push(Box::into_inner(node)),
        Certificate::No(_) => Ok(()),
    }
}

/// Adds a step to a NO certificate.
fn add_step(certificate: &mut Certificate, step: Step) -> Result<(), AllocError>
    ensures { OnOk result (said certificate.new ≡ with_item (said certificate.old) (step_item step)) }
{
    match certificate {
        Certificate::Yes(_) => Ok(()),
        Certificate::No(no) => no.steps.push(step),
    }
}

/// Sets the place of the instance in a NO certificate.
fn set_place(certificate: &mut Certificate, at: Path)
    ensures { said certificate.new ≡ with_item (said certificate.old) (at_item at) }
{
    match certificate {
        Certificate::Yes(_) => {}
        Certificate::No(no) => no.at = at,
    }
}

/// Adds what is put for a variable to a NO certificate.
fn add_put(certificate: &mut Certificate, put: Box<Put>) -> Result<(), AllocError>
    ensures { OnOk result (said certificate.new ≡ with_item (said certificate.old) (put_item (said_put put.value))) }
{
    match certificate {
        Certificate::Yes(_) => Ok(()),
        Certificate::No(no) => no.puts.push(Box::into_inner(put)),
    }
}

/// The certificate whose text the bytes are. The fault of bytes that are no certificate's text has the number of bytes
/// that begin such a text.
pub fn read_certificate(alloc: Global, bytes: &[u8]) -> Result<Certificate, Or<CertSyntax>>
    requires { length bytes.now < 2 ^ 32 }
    ensures read { IfOk result (λ certificate. CertText bytes.now (said certificate)) }
    ensures fault { IfBecause result (λ fault. FaultAt bytes.now fault.at) }
{
    let mut reading = Reading::new(alloc);
    reading.take_all(bytes)?;
    match reading.finish() {
        Ok(certificate) => Ok(certificate),
        Err(fault) => Err(Or::Because(fault)),
    }
}
