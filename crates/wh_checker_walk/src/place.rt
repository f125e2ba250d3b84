//! Where the check of a certificate is between two items, and where the next item leads.

ghost use Rattle.std.specs.Prelude.{◌≡◌, List, ℕ};
ghost use Rattle.wh_types.specs.Outcome.{MatchOr};
ghost use Rattle.wh_system.specs.SystemView.{system_data};
ghost use Rattle.wh_pairs.specs.SystemPairs.{HasPairs};
ghost use Rattle.wh_pairs.specs.Views.{pairs_data};
ghost use Rattle.wh_text.specs.Erase.{rtm};
ghost use Rattle.wh_pairs.specs.PairData.{PairData};
ghost use Rattle.wh_cert.specs.Items.{no_head, step};
ghost use Rattle.wh_cert.specs.Said.{said_item};
ghost use Rattle.wh_checker_walk.specs.Walking.{AtNodes, AtPuts, AtSteps, CanCome, HasNothing, IsBlamed, IsRefused, Leads};
ghost use Rattle.wh_checker_walk.specs.Standing.{IsNamed, Stand};

use crate::copies::copy_step;
use crate::nodes::Nodes;
use crate::puts::Puts;
use crate::steps::Steps;
use std::alloc::Global;
use wh_cert::Item;
use wh_checker::{Accepted, CheckFault, of_claim};
use wh_no::NoFault;
use wh_pairs::PairList;
use wh_system::System;
use wh_terms::Step;
use wh_text::RawTerm;
use wh_types::Or;

/// What a walk keeps of the items so far. It is moved at each item, so large parts stand behind a box.
#[derive(Drop)]
pub enum Place {
    /// No item was taken.
    Before,
    /// The walk is at the nodes of a YES certificate.
    Nodes(Box<Nodes>),
    /// The walk is at the steps of a NO certificate.
    Steps(Box<Steps>),
    /// The walk is behind the place of the instance, at the terms that are put for variables.
    Puts(Box<Puts>),
    /// The first fault was found.
    Blamed(CheckFault),
    /// The items were all, and there is no fault.
    Whole(Accepted),
    /// There was no memory to go on.
    Lost,
}

impl Place {
    /// Where the item leads from here. The fault is the first of each certificate that goes on with it.
    pub fn after(
        self,
        alloc: Global,
        system: &System,
        pairs: &PairList,
        item: &Item,
    ) -> Result<Place, Or<CheckFault>>
        requires pairs { HasPairs (system_data system.now) (pairs_data pairs.now) }
        requires come { CanCome (Stand (system_data system.now) (pairs_data pairs.now) self) (said_item item.now) }
        ensures { MatchOr result
            (λ new. Leads (Stand (system_data system.now) (pairs_data pairs.now) self) (said_item item.now)
            (Stand (system_data system.now) (pairs_data pairs.now) new))
            (λ f. Leads (Stand (system_data system.now) (pairs_data pairs.now) self) (said_item item.now)
            (IsBlamed (system_data system.now) (pairs_data pairs.now) f)) }
    {
        match self {
            Place::Before => first(alloc, system, pairs, item),
            Place::Nodes(nodes) => at_nodes(alloc, system, pairs, nodes, item),
            Place::Steps(steps) => named(at_steps(alloc, system, steps, item)),
            Place::Puts(puts) => named(at_puts(alloc, system, puts, item)),
            Place::Blamed(fault) => Ok(Place::Blamed(fault)),
            _ => unreachable!(),
        }
    }

    /// Where a step leads from here, which is kept as it is.
    pub fn after_step(
        self,
        alloc: Global,
        system: &System,
        pairs: &PairList,
        next: Step,
    ) -> Result<Place, Or<CheckFault>>
        requires pairs { HasPairs (system_data system.now) (pairs_data pairs.now) }
        requires come { CanCome (Stand (system_data system.now) (pairs_data pairs.now) self) (step next) }
        ensures { MatchOr result
            (λ new. Leads (Stand (system_data system.now) (pairs_data pairs.now) self) (step next)
            (Stand (system_data system.now) (pairs_data pairs.now) new))
            (λ f. Leads (Stand (system_data system.now) (pairs_data pairs.now) self) (step next)
            (IsBlamed (system_data system.now) (pairs_data pairs.now) f)) }
    {
        match self {
            Place::Steps(steps) => named(at_step(alloc, system, steps, next)),
            place => place.after(alloc, system, pairs, &Item::Step(next)),
        }
    }
}

// Where the first item leads.
fn first(
    alloc: Global,
    system: &System,
    pairs: &PairList,
    item: &Item,
) -> Result<Place, Or<CheckFault>>
    requires pairs { HasPairs (system_data system.now) (pairs_data pairs.now) }
    requires come { CanCome HasNothing (said_item item.now) }
    ensures { MatchOr result
        (λ new. Leads HasNothing (said_item item.now) (Stand (system_data system.now) (pairs_data pairs.now) new))
        (λ f. Leads HasNothing (said_item item.now) (IsBlamed (system_data system.now) (pairs_data pairs.now) f)) }
{
    match item {
        Item::YesHead {
            version: _,
            ranks,
            pairs: count,
        } => {
            let nodes = Nodes::new(alloc, system, pairs, ranks.as_slice(), *count)?;
            let kept = Box::new(alloc, nodes)?;
            Ok(Place::Nodes(kept))
        }
        Item::NoHead { term } => named(at_term(alloc, system, term)),
        _ => unreachable!(),
    }
}

// Where the term of a NO certificate leads.
fn at_term(alloc: Global, system: &System, raw: &RawTerm) -> Result<Place, Or<NoFault>>
    ensures { (ps : List PairData) → MatchOr result
        (λ new. Leads HasNothing (no_head (rtm raw.now)) (Stand (system_data system.now) ps new))
        (λ f. Leads HasNothing (no_head (rtm raw.now)) (IsRefused (system_data system.now) f)) }
{
    let steps = Steps::new(alloc, system, raw)?;
    let kept = Box::new(alloc, steps)?;
    Ok(Place::Steps(kept))
}

// Where an item leads from the nodes of a YES certificate.
fn at_nodes(
    alloc: Global,
    system: &System,
    pairs: &PairList,
    mut nodes: Box<Nodes>,
    item: &Item,
) -> Result<Place, Or<CheckFault>>
    requires pairs { HasPairs (system_data system.now) (pairs_data pairs.now) }
    requires come { CanCome (AtNodes (system_data system.now) (pairs_data pairs.now) nodes.value) (said_item item.now) }
    ensures { MatchOr result
        (λ new. Leads (AtNodes (system_data system.now) (pairs_data pairs.now) nodes.value) (said_item item.now)
        (Stand (system_data system.now) (pairs_data pairs.now) new))
        (λ f. Leads (AtNodes (system_data system.now) (pairs_data pairs.now) nodes.value) (said_item item.now)
        (IsBlamed (system_data system.now) (pairs_data pairs.now) f)) }
{
    match item {
        Item::Node(line) => {
            nodes.take(alloc, system, pairs, line)?;
            Ok(Place::Nodes(nodes))
        }
        Item::End => Ok(Place::Whole(Accepted::Yes(nodes.accepted(system, pairs)))),
        _ => unreachable!(),
    }
}

// Where a step leads from those before it.
fn at_step(
    alloc: Global,
    system: &System,
    mut steps: Box<Steps>,
    next: Step,
) -> Result<Place, Or<NoFault>>
    requires { CanCome (AtSteps (system_data system.now) steps.value) (step next) }
    ensures { (ps : List PairData) → MatchOr result
        (λ new. Leads (AtSteps (system_data system.now) steps.value) (step next) (Stand (system_data system.now) ps new))
        (λ f. Leads (AtSteps (system_data system.now) steps.value) (step next) (IsRefused (system_data system.now) f)) }
{
    steps.take(alloc, system, next)?;
    Ok(Place::Steps(steps))
}

// Where an item leads from the steps of a NO certificate.
fn at_steps(
    alloc: Global,
    system: &System,
    steps: Box<Steps>,
    item: &Item,
) -> Result<Place, Or<NoFault>>
    requires { CanCome (AtSteps (system_data system.now) steps.value) (said_item item.now) }
    ensures { (ps : List PairData) → MatchOr result
        (λ new. Leads (AtSteps (system_data system.now) steps.value) (said_item item.now) (Stand (system_data system.now) ps new))
        (λ f. Leads (AtSteps (system_data system.now) steps.value) (said_item item.now) (IsRefused (system_data system.now) f)) }
{
    match item {
        Item::Step(step) => {
            let copy = copy_step(alloc, step)?;
            at_step(alloc, system, steps, copy)
        }
        Item::At(path) => {
            let puts = Puts::new(alloc, system, steps, path)?;
            let kept = Box::new(alloc, puts)?;
            Ok(Place::Puts(kept))
        }
        _ => unreachable!(),
    }
}

// Where an item leads from what a NO certificate puts for variables.
fn at_puts(
    alloc: Global,
    system: &System,
    mut puts: Box<Puts>,
    item: &Item,
) -> Result<Place, Or<NoFault>>
    requires { CanCome (AtPuts (system_data system.now) puts.value) (said_item item.now) }
    ensures { (ps : List PairData) → MatchOr result
        (λ new. Leads (AtPuts (system_data system.now) puts.value) (said_item item.now) (Stand (system_data system.now) ps new))
        (λ f. Leads (AtPuts (system_data system.now) puts.value) (said_item item.now) (IsRefused (system_data system.now) f)) }
{
    match item {
        Item::Put(line) => {
            puts.take(alloc, system, line)?;
            Ok(Place::Puts(puts))
        }
        Item::End => {
            let accepted = puts.accepted(alloc, system)?;
            Ok(Place::Whole(Accepted::No(accepted)))
        }
        _ => unreachable!(),
    }
}

// The fault of a NO certificate as one of a certificate.
fn named(told: Result<Place, Or<NoFault>>) -> Result<Place, Or<CheckFault>>
    ensures { IsNamed told result }
{
    match told {
        Ok(place) => Ok(place),
        Err(Or::Because(fault)) => Err(Or::Because(CheckFault::Rejected(of_claim(fault)))),
        Err(Or::NoMemory) => Err(Or::NoMemory),
    }
}
