//! Reading a system from its text. `read_system` cuts the bytes into tokens, parses these, and tests what they say.

ghost use Rattle.std.specs.Prelude.{◌≡◌, ◌≤◌, length, IfOk};
ghost use Rattle.wh_types.specs.Limits.{most_bytes};
ghost use Rattle.wh_types.specs.Outcome.{IfBecause};
ghost use Rattle.wh_system.specs.SystemView.{system_data};
ghost use Rattle.wh_read.specs.Reading.{Reads, Refuses, text_refused, syntax_refused, system_refused};

use crate::fault::SyntaxFault;
use crate::parsing::parse;
use crate::reasons::{Reason, Refused};
use std::alloc::Global;
use wh_system::System;
use wh_system_making::system_of;
use wh_system_parts::SystemFault;
use wh_text::{TextFault, tokens};
use wh_types::Or;

/// The refusal of a text for a reason at an offset.
fn refused(reason: Reason, at: u32) -> Refused
    ensures { result ≡ record { reason = reason; at = at } }
{
    Refused { reason, at }
}

/// The refusal of a text for a fault of its tokens.
fn by_text(fault: TextFault) -> Refused
    ensures { result ≡ text_refused fault }
{
    match fault {
        TextFault::BadByte { at } => refused(Reason::BadByte, at),
        TextFault::BadNumber { at } => refused(Reason::BadNumber, at),
        TextFault::NameTooLong { at } => refused(Reason::NameTooLong, at),
    }
}

/// The refusal of a text for a fault of the grammar.
fn by_syntax(fault: SyntaxFault) -> Refused
    ensures { result ≡ syntax_refused fault }
{
    match fault {
        SyntaxFault::Syntax { at } => refused(Reason::Syntax, at),
        SyntaxFault::TooMany { at } => refused(Reason::TooMany, at),
    }
}

/// The refusal of a text whose parts are no system.
fn by_system(fault: SystemFault) -> Refused
    ensures { result ≡ system_refused fault }
{
    match fault {
        SystemFault::UnknownName { at } => refused(Reason::UnknownName, at),
        SystemFault::Twice { at } => refused(Reason::Twice, at),
        SystemFault::IllTyped { at } => refused(Reason::IllTyped, at),
        SystemFault::NotPattern { at } => refused(Reason::NotPattern, at),
        SystemFault::OpenSide { at } => refused(Reason::OpenSide, at),
        SystemFault::NewMeta { at } => refused(Reason::NewMeta, at),
        SystemFault::HeadNotFun { at } => refused(Reason::HeadNotFun, at),
        SystemFault::UnevenRules { at } => refused(Reason::UnevenRules, at),
        SystemFault::TooMany { at } => refused(Reason::TooMany, at),
    }
}

/// The system that the bytes are a text of; else the first reason why they are none: a fault of tokens, then one of the
/// grammar or a level too many, whichever comes first, then the first test of systems that fails.
pub fn read_system(alloc: Global, bytes: &[u8]) -> Result<System, Or<Refused>>
    requires { length bytes.now ≤ most_bytes }
    ensures read { IfOk result (λ system. Reads bytes.now (system_data system)) }
    ensures refused { IfBecause result (λ why. Refuses bytes.now why) }
{
    let found = match tokens(alloc, bytes) {
        Ok(found) => found,
        Err(Or::NoMemory) => return Err(Or::NoMemory),
        Err(Or::Because(fault)) => return Err(Or::Because(by_text(fault))),
    };
    let parts = match parse(alloc, bytes, found.as_slice()) {
        Ok(parts) => parts,
        Err(Or::NoMemory) => return Err(Or::NoMemory),
        Err(Or::Because(fault)) => return Err(Or::Because(by_syntax(fault))),
    };
    match system_of(alloc, &parts) {
        Ok(system) => Ok(system),
        Err(Or::NoMemory) => Err(Or::NoMemory),
        Err(Or::Because(fault)) => Err(Or::Because(by_system(fault))),
    }
}
