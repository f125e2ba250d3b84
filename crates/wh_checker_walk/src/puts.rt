//! The terms that a NO certificate puts for variables, checked line by line as they are read.

ghost use Rattle.std.specs.Prelude.{◌≡◌, List, ℕ};
ghost use Rattle.wh_types.specs.Outcome.{MatchOr};
ghost use Rattle.wh_system.specs.SystemView.{system_data};
ghost use Rattle.wh_pairs.specs.PairData.{PairData};
ghost use Rattle.wh_cert.specs.Items.{at as place, put, end};
ghost use Rattle.wh_cert.specs.Said.{said_put};
ghost use Rattle.wh_checker.specs.declared.checking.Accepted.TheVariants.{No as answer};
ghost use Rattle.wh_checker_walk.specs.Walking.{AtPuts, AtSteps, CanCome, IsRefused, IsWhole, Leads};

use crate::copies::path_of;
use crate::steps::Steps;
use std::alloc::Global;
use wh_cert::Put;
use wh_no::{AcceptedNo, NoFault, add_put, check_instance};
use wh_system::System;
use wh_terms::{Path, SubstEntry};
use wh_types::Or;

/// The state of a check between two lines of terms that are put for variables.
#[derive(Drop)]
pub struct Puts {
    // The steps, which are all gone over.
    steps: Box<Steps>,
    // The place of the instance in the last term.
    at: Path,
    entries: Vec<SubstEntry>,
}

impl Puts {
    /// The check before the first line, behind all steps and the place of the instance.
    pub fn new(
        alloc: Global,
        system: &System,
        mut steps: Box<Steps>,
        at: &Path,
    ) -> Result<Puts, Or<NoFault>>
        requires { CanCome (AtSteps (system_data system.now) steps.value) (place at.now) }
        ensures { MatchOr result
            (λ new. Leads (AtSteps (system_data system.now) steps.value) (place at.now) (AtPuts (system_data system.now) new))
            (λ f. Leads (AtSteps (system_data system.now) steps.value) (place at.now) (IsRefused (system_data system.now) f)) }
    {
        steps.go_over(alloc, system)?;
        if steps.taken == 0 {
            return Err(Or::Because(NoFault::NoStep));
        }
        let at = path_of(alloc, at.as_slice())?;
        Ok(Puts {
            steps,
            at,
            entries: Vec::new(alloc),
        })
    }

    /// Takes one more line.
    pub fn take(&mut self, alloc: Global, system: &System, line: &Put) -> Result<(), Or<NoFault>>
        requires { CanCome (AtPuts (system_data system.now) self.old) (put (said_put line.now)) }
        ensures { MatchOr result
            (λ _. Leads (AtPuts (system_data system.now) self.old) (put (said_put line.now)) (AtPuts (system_data system.now) self.new))
            (λ f. Leads (AtPuts (system_data system.now) self.old) (put (said_put line.now)) (IsRefused (system_data system.now) f)) }
    {
        let index = self.entries.len() as u32;
        let steps: &Steps = &self.steps;
        add_put(alloc, system, &steps.names, index, line, &mut self.entries)
    }

    /// The answer where the lines are all: the certificate is accepted, or the instance is not there.
    pub fn accepted(&self, alloc: Global, system: &System) -> Result<AcceptedNo, Or<NoFault>>
        requires { CanCome (AtPuts (system_data system.now) self.now) end }
        ensures { (ps : List PairData) → MatchOr result
            (λ accepted. Leads (AtPuts (system_data system.now) self.now) end (IsWhole (system_data system.now) ps (answer accepted)))
            (λ f. Leads (AtPuts (system_data system.now) self.now) end (IsRefused (system_data system.now) f)) }
    {
        system.is_well_made();
        let steps: &Steps = &self.steps;
        check_instance(alloc, &steps.term, &self.entries, &self.at, &steps.last)?;
        Ok(AcceptedNo { steps: steps.taken })
    }
}
