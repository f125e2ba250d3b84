//! Making the certificate of a loop: `certificate_of` writes a start, steps and an instance as a NO certificate.

ghost use Rattle.std.specs.Prelude.{◌≡◌, ◌<◌, ◌≤◌, ◌^◌, ℕ, All, IfOk, length, map};
ghost use Rattle.wh_terms.specs.Erase.{tm};
ghost use Rattle.wh_terms.specs.Tree.{Tm};
ghost use Rattle.wh_terms.specs.Measures.{Fits};
ghost use Rattle.wh_step.specs.Replay.{Replays};
ghost use Rattle.wh_system.specs.SystemView.{system_data};
ghost use Rattle.wh_cert.specs.Said.{said_no, said_put};
ghost use Rattle.wh_no.specs.Entry.{entry_put, entry_puts};
ghost use Rattle.wh_no.specs.Valid.{IsPutOver};
ghost use Rattle.wh_loop_starts.specs.Starts.{IsSomeStart};
ghost use Rattle.wh_loop_starts.specs.Found.{IsInstanceIn, IsLoopCertificate};
ghost use Rattle.wh_loop_starts.specs.Lines.{line_of};

use crate::instance::Instance;
use std::alloc::{AllocError, Global};
use wh_cert::{NoCertificate, Put, Puts, Steps};
use wh_system::System;
use wh_system_making::{raw_term, raw_type};
use wh_terms::{SubstEntry, Term};

// The line that says what the entry puts.
fn line_of(alloc: Global, system: &System, entry: &SubstEntry) -> Result<Put, AllocError>
    requires { IsPutOver (system_data system.now).symbols (entry_put entry.now) }
    ensures { IfOk result (λ line. said_put line ≡ line_of (system_data system.now) (entry_put entry.now)) }
{
    system.is_well_made();
    let kind = raw_type(alloc, system.sort_names(), &entry.kind)?;
    let term = raw_term(alloc, system, &entry.value)?;
    Ok(Put {
        number: entry.number,
        kind,
        term,
    })
}

// The lines that say what the entries put, one for each.
fn lines_of(alloc: Global, system: &System, entries: &[SubstEntry]) -> Result<Puts, AllocError>
    requires { All (IsPutOver (system_data system.now).symbols) (entry_puts entries.now) }
    ensures { IfOk result (λ lines. map said_put lines ≡ map (line_of (system_data system.now)) (entry_puts entries.now)) }
{
    let mut lines = Puts::new(alloc);
    for entry in entries {
        lines.push(line_of(alloc, system, entry)?)?;
    }
    Ok(lines)
}

/// The certificate of a loop: the start, the steps from it, and the instance of it in the last term.
pub fn certificate_of(
    alloc: Global,
    system: &System,
    start: &Term,
    steps: Steps,
    instance: Instance,
) -> Result<NoCertificate, AllocError>
    requires start { IsSomeStart (system_data system.now).rules (tm start.now) }
    requires fits { Fits (tm start.now) }
    requires some { 0 < length steps }
    requires leads { (last : Tm) × Replays (system_data system.now).rules steps (tm start.now) last
        × IsInstanceIn (system_data system.now).symbols (tm start.now) last instance }
    ensures { (depth : ℕ) → length steps ≤ depth → depth < 2 ^ 32
        → IfOk result (λ c. IsLoopCertificate (system_data system.now) depth (said_no c)) }
{
    system.is_well_made();
    let Instance { at, puts } = instance;
    let lines = lines_of(alloc, system, &puts)?;
    let term = raw_term(alloc, system, start)?;
    Ok(NoCertificate {
        term,
        steps,
        at,
        puts: lines,
    })
}
