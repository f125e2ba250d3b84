//! From a projection that was found to the lines of its node.

ghost use Rattle.std.specs.Prelude.{◌<◌, ◌≤◌, All, IfOk, length, map};
ghost use Rattle.wh_types.specs.Limits.{greatest_number};
ghost use Rattle.wh_system.specs.SystemView.{system_data};
ghost use Rattle.wh_subterm.specs.SubtermRows.{chosen};
ghost use Rattle.wh_cert.specs.Limits.{ArgFits};
ghost use Rattle.wh_cert.specs.Said.{said_arg, said_node};
ghost use Rattle.wh_proof.specs.Looked.{SayChoices};
ghost use Rattle.wh_prover.specs.Walk.{SaysProjection};

use crate::numbers::numbers_of;
use std::alloc::{AllocError, Global};
use wh_cert::Node;
use wh_find_subterm::ProjectionFound;
use wh_proof::lines_of_choices;
use wh_system::System;

/// The node of a projection and the pairs that it drops.
pub fn node_of(alloc: Global, system: &System, found: &ProjectionFound) -> Result<Node, AllocError>
    requires symbols { All (λ c. c.symbol < length (system_data system.now).fun_names) found.now.args }
    requires arguments { All (λ c. c.argument ≤ greatest_number) found.now.args }
    ensures { IfOk result (λ node. SaysProjection (system_data system.now) (said_node node) (map chosen found.now.args) found.now.drop) }
{
    let args = lines_of_choices(alloc, system, found.args.as_slice())?;
    let drop = numbers_of(alloc, found.drop.as_slice())?;
    Ok(Node::Subterm { args, drop })
}
