//! The steps of a NO certificate, checked as they are read. Steps wait until there are 65,536, since to go over some of
//! them copies the term.

ghost use Rattle.std.specs.Prelude.{◌≡◌, ◌<◌, ◌+◌, ◌^◌, [], List, ℕ, length};
ghost use Rattle.wh_types.specs.Outcome.{MatchOr};
ghost use Rattle.wh_text.specs.Erase.{rtm};
ghost use Rattle.wh_system.specs.SystemView.{system_data};
ghost use Rattle.wh_cert.specs.Items.{no_head, step, at};
ghost use Rattle.wh_no.specs.Faults as claims;
ghost use Rattle.wh_checker_walk.specs.Walking.{AtSteps, CanCome, CanStand, HasNothing, IsRefused, Leads, Stays};

use std::alloc::Global;
use wh_no::{NoFault, check_term};
use wh_step::{StepFault, replay};
use wh_system::System;
use wh_system_making::NameTables;
use wh_terms::{Step, Term, copy_term};
use wh_text::RawTerm;
use wh_types::Or;

// How many steps may wait before they are replayed together: each replay copies the term.
const MOST_WAITING: usize = 65_536;

/// The state of a check between two steps.
#[derive(Drop)]
pub struct Steps {
    /// The names of the system.
    pub names: NameTables,
    /// The term of the certificate.
    pub term: Term,
    /// The term that the replayed steps lead to.
    pub last: Term,
    /// The number of replayed steps.
    pub taken: u32,
    // The steps behind them.
    waiting: Vec<Step>,
}

impl Steps {
    /// The check before the first step.
    pub fn new(alloc: Global, system: &System, raw: &RawTerm) -> Result<Steps, Or<NoFault>>
        ensures { MatchOr result
            (λ new. Leads HasNothing (no_head (rtm raw.now)) (AtSteps (system_data system.now) new))
            (λ f. Leads HasNothing (no_head (rtm raw.now)) (IsRefused (system_data system.now) f)) }
    {
        let names = NameTables::of(alloc, system)?;
        let term = check_term(alloc, system, &names, raw)?;
        let last = copy_term(alloc, &term)?;
        Ok(Steps {
            names,
            term,
            last,
            taken: 0,
            waiting: Vec::new(alloc),
        })
    }

    /// Takes one more step.
    pub fn take(&mut self, alloc: Global, system: &System, next: Step) -> Result<(), Or<NoFault>>
        requires { CanCome (AtSteps (system_data system.now) self.old) (step next) }
        ensures { MatchOr result
            (λ _. Leads (AtSteps (system_data system.now) self.old) (step next) (AtSteps (system_data system.now) self.new))
            (λ f. Leads (AtSteps (system_data system.now) self.old) (step next) (IsRefused (system_data system.now) f)) }
    {
        self.waiting.push(next)?;
        if self.waiting.len() < MOST_WAITING {
            return Ok(());
        }
        self.go_over(alloc, system)
    }

    /// Replays the steps that wait.
    pub fn go_over(&mut self, alloc: Global, system: &System) -> Result<(), Or<NoFault>>
        requires { CanStand (AtSteps (system_data system.now) self.old) }
        ensures { MatchOr result
            (λ _. Stays (AtSteps (system_data system.now) self.old) (AtSteps (system_data system.now) self.new)
            × (self.new.waiting.items ≡ []))
            (λ f. Stays (AtSteps (system_data system.now) self.old) (IsRefused (system_data system.now) f)) }
    {
        system.is_well_made();
        let outcome = replay(alloc, system.rules(), &self.last, &self.waiting)?;
        match outcome {
            Ok(last) => {
                self.taken += self.waiting.len() as u32;
                self.last = last;
                self.waiting = Vec::new(alloc);
                Ok(())
            }
            Err(fault) => match fault {
                StepFault::Fails { index } => Err(Or::Because(NoFault::StepFails {
                    index: self.taken + index,
                })),
                StepFault::TooBig { index } => Err(Or::Because(NoFault::TooBig {
                    index: self.taken + index,
                })),
            },
        }
    }
}
