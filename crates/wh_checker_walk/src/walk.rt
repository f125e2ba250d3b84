//! The check of a certificate item by item, as a reader hands the items out. It keeps only what later items need.

ghost use Rattle.std.specs.Prelude.{◌≡◌, ◌∷◌, ◌++◌, [], List, IfOk, OnOk};
ghost use Rattle.wh_system.specs.SystemView.{system_data};
ghost use Rattle.wh_system.specs.Systems.{SystemData};
ghost use Rattle.wh_pairs.specs.PairData.{PairData};
ghost use Rattle.wh_pairs.specs.SystemPairs.{HasPairs};
ghost use Rattle.wh_pairs.specs.Views.{pairs_data};
ghost use Rattle.wh_cert.specs.Items.{Item as said, items, step};
ghost use Rattle.wh_cert.specs.Limits.{IsCert};
ghost use Rattle.wh_cert.specs.Said.{said_item};
ghost use Rattle.wh_cert.specs.Written.{Cert};
ghost use Rattle.wh_checker_walk.specs.Walking.{Answers};
ghost use Rattle.wh_checker_walk.specs.Standing.{IsNext, IsThere, StandsFor};

use crate::place::Place;
use std::alloc::{AllocError, Global};
use std::mem;
use wh_cert::Item;
use wh_checker::{Accepted, CheckFault};
use wh_pairs::PairList;
use wh_system::System;
use wh_terms::Step;
use wh_types::Or;

/// A check of a certificate that is given its items one by one, in the order of its text. It keeps the sets that are
/// still to be proved and the sides of the pairs by numbers, or at most 65,536 steps and what the check of the end of a
/// loop needs. After the first fault it keeps that alone.
#[derive(Drop)]
pub struct Walk {
    at: Place,
    alloc: Global,
}

impl Walk {
    /// The check before the first item.
    pub fn new(alloc: Global) -> Walk
        ensures { (d : SystemData) (ps : List PairData) → StandsFor d ps result [] }
    {
        Walk {
            at: Place::Before,
            alloc,
        }
    }

    /// Takes the next item of a certificate. System and pairs have to be the same at each call. Where memory is wanting
    /// the walk is at its end, and stands for nothing.
    pub fn push(&mut self, system: &System, pairs: &PairList, item: &Item) -> Result<(), AllocError>
        requires pairs { HasPairs (system_data system.now) (pairs_data pairs.now) }
        requires next { IsNext (system_data system.now) (pairs_data pairs.now) self.old (said_item item.now) }
        ensures { OnOk result ((is : List said) → StandsFor (system_data system.now) (pairs_data pairs.now) self.old is
            → StandsFor (system_data system.now) (pairs_data pairs.now) self.new (is ++ said_item item.now ∷ [])) }
    {
        let place = mem::replace(&mut self.at, Place::Lost);
        let told = place.after(self.alloc, system, pairs, item);
        self.go_to(told)
    }

    /// Takes the next item as `push` does, and keeps it where it is to be kept, so that no step is copied.
    pub fn take(&mut self, system: &System, pairs: &PairList, item: Item) -> Result<(), AllocError>
        requires pairs { HasPairs (system_data system.now) (pairs_data pairs.now) }
        requires next { IsNext (system_data system.now) (pairs_data pairs.now) self.old (said_item item) }
        ensures { OnOk result ((is : List said) → StandsFor (system_data system.now) (pairs_data pairs.now) self.old is
            → StandsFor (system_data system.now) (pairs_data pairs.now) self.new (is ++ said_item item ∷ [])) }
    {
        match item {
            Item::Step(next) => self.take_step(system, pairs, next),
            item => self.push(system, pairs, &item),
        }
    }

    // Takes a step.
    fn take_step(&mut self, system: &System, pairs: &PairList, next: Step) -> Result<(), AllocError>
        requires pairs { HasPairs (system_data system.now) (pairs_data pairs.now) }
        requires next { IsNext (system_data system.now) (pairs_data pairs.now) self.old (step next) }
        ensures { OnOk result ((is : List said) → StandsFor (system_data system.now) (pairs_data pairs.now) self.old is
            → StandsFor (system_data system.now) (pairs_data pairs.now) self.new (is ++ step next ∷ [])) }
    {
        let place = mem::replace(&mut self.at, Place::Lost);
        let told = place.after_step(self.alloc, system, pairs, next);
        self.go_to(told)
    }

    // On to where an item led.
    fn go_to(&mut self, told: Result<Place, Or<CheckFault>>) -> Result<(), AllocError>
        ensures { OnOk result (IsThere told self.new.at) }
    {
        match told {
            Ok(next) => {
                self.at = next;
                Ok(())
            }
            Err(Or::Because(fault)) => {
                self.at = Place::Blamed(fault);
                Ok(())
            }
            Err(Or::NoMemory) => Err(AllocError),
        }
    }

    /// The items are all those of a certificate. It is accepted exactly where it is valid and no value exceeds a limit
    /// in a side that a node of interpretations evaluates; else the first condition that is false is named, or the
    /// first node in which a value exceeds a limit before that.
    pub fn finish(self) -> Result<Accepted, CheckFault>
        requires { (d : SystemData) × (ps : List PairData) × (c : Cert) × IsCert c × StandsFor d ps self (items c) }
        ensures { (d : SystemData) (ps : List PairData) (c : Cert) → IsCert c → StandsFor d ps self (items c) → Answers d ps c result }
    {
        match self.at {
            Place::Blamed(fault) => Err(fault),
            Place::Whole(accepted) => Ok(accepted),
            _ => unreachable!(),
        }
    }
}
