//! The nodes of a YES certificate, checked one by one as they are read.

ghost use Rattle.std.specs.Prelude.{◌≡◌, List, ℕ};
ghost use Rattle.wh_types.specs.Outcome.{MatchOr};
ghost use Rattle.wh_system.specs.SystemView.{system_data};
ghost use Rattle.wh_pairs.specs.SystemPairs.{HasPairs};
ghost use Rattle.wh_pairs.specs.Views.{pairs_data};
ghost use Rattle.wh_cert.specs.Items.{yes_head, node, end};
ghost use Rattle.wh_cert.specs.Said.{said_node};
ghost use Rattle.wh_checker_walk.specs.Walking.{AtNodes, CanCome, HasNothing, IsBlamed, IsWhole, Leads};
ghost use Rattle.wh_checker.specs.declared.checking.Accepted.TheVariants.{Yes as answer};

use std::alloc::Global;
use wh_cert::Node;
use wh_checker::{AcceptedYes, CheckFault, check_head, check_next};
use wh_intern_pairs::Numbered;
use wh_pairs::{PairList, PairSet};
use wh_poly_meaning::pairs_have_marked_sides;
use wh_system::System;
use wh_types::Or;

/// The state of a check between two nodes: the sets that are still to be proved, the next on top.
#[derive(Drop)]
pub struct Nodes {
    // The sets that are still to be proved, the next on top.
    stack: Vec<PairSet>,
    // The number of the nodes so far.
    next: u32,
    // The sides of the pairs by numbers, once a node has asked for them.
    numbered: Option<Numbered>,
}

impl Nodes {
    /// The check before the first node, behind the ranks and the number of pairs.
    pub fn new(
        alloc: Global,
        system: &System,
        pairs: &PairList,
        ranks: &[u32],
        count: u32,
    ) -> Result<Nodes, Or<CheckFault>>
        requires { HasPairs (system_data system.now) (pairs_data pairs.now) }
        ensures { (version : ℕ) → MatchOr result
            (λ new. Leads HasNothing (yes_head version ranks.now count) (AtNodes (system_data system.now) (pairs_data pairs.now) new))
            (λ f. Leads HasNothing (yes_head version ranks.now count) (IsBlamed (system_data system.now) (pairs_data pairs.now) f)) }
    {
        let whole = check_head(alloc, system, pairs, ranks, count)?;
        let mut stack = Vec::new(alloc);
        stack.push(whole)?;
        Ok(Nodes {
            stack,
            next: 0,
            numbered: None,
        })
    }

    /// Takes one more node.
    pub fn take(
        &mut self,
        alloc: Global,
        system: &System,
        pairs: &PairList,
        line: &Node,
    ) -> Result<(), Or<CheckFault>>
        requires pairs { HasPairs (system_data system.now) (pairs_data pairs.now) }
        requires come { CanCome (AtNodes (system_data system.now) (pairs_data pairs.now) self.old) (node (said_node line.now)) }
        ensures { MatchOr result
            (λ _. Leads (AtNodes (system_data system.now) (pairs_data pairs.now) self.old) (node (said_node line.now))
            (AtNodes (system_data system.now) (pairs_data pairs.now) self.new))
            (λ f. Leads (AtNodes (system_data system.now) (pairs_data pairs.now) self.old) (node (said_node line.now))
            (IsBlamed (system_data system.now) (pairs_data pairs.now) f)) }
    {
        system.is_well_made();
        pairs_have_marked_sides();
        check_next(
            alloc,
            system,
            pairs,
            self.next,
            line,
            &mut self.numbered,
            &mut self.stack,
        )?;
        self.next += 1;
        Ok(())
    }

    /// The answer where the nodes are all: the certificate is accepted.
    pub fn accepted(&self, system: &System, pairs: &PairList) -> AcceptedYes
        requires { HasPairs (system_data system.now) (pairs_data pairs.now) }
        ensures { Leads (AtNodes (system_data system.now) (pairs_data pairs.now) self.now) end
            (IsWhole (system_data system.now) (pairs_data pairs.now) (answer result)) }
    {
        system.is_well_made();
        AcceptedYes { nodes: self.next }
    }
}
