//! The law that lines and nodes undo each other, the contract of a function that does nothing.

ghost use Rattle.std.specs.Prelude.{◌≡◌};
ghost use Rattle.wh_system.specs.Systems.{SystemData};
ghost use Rattle.wh_system.specs.WellMade.{IsWellMadeSystem};
ghost use Rattle.wh_cert.specs.Written as w;
ghost use Rattle.wh_proof.specs.Looked.{SaysNode};
ghost use Rattle.wh_proof.specs.Nodes.{Node};

/// The lines of a node say one node alone. So a node that is written as lines and looked up again is the same node.
pub fn lines_say_one_node()
    ensures { (d : SystemData) (line : w.Node) (a b : Node) → IsWellMadeSystem d → SaysNode d line a → SaysNode d line b → a ≡ b }
{}
