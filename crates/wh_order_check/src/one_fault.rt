//! One thing at most is wrong first with a node of a path order, and none where its conditions hold: the contract of a
//! function that does nothing.

ghost use Rattle.std.specs.Prelude.{◌≡◌};
ghost use Rattle.wh_reduction_pairs.specs.ReductionPair.{Evidence};
ghost use Rattle.wh_reduction_pairs.specs.TaskData.{TaskData};
ghost use Rattle.wh_order_inference.specs.Inferences.{Inference};
ghost use Rattle.wh_order_node.specs.Filterings.{FilteringData};
ghost use Rattle.wh_order_node.specs.Ordering.{IsOrdering};
ghost use Rattle.wh_order_check.specs.OrderingFaults.{IsFirstOrderingFault};
ghost use Rattle.wh_order_check.specs.declared.fault.OrderingFault.{OrderingFault};

/// One thing at most is wrong first with filters and inferences on a set, and none where they orient it.
pub fn one_first_ordering_fault()
    ensures one { (T : TaskData) (D : FilteringData) (E : Evidence Inference) (f g : OrderingFault) → IsFirstOrderingFault T D E f
        → IsFirstOrderingFault T D E g → f ≡ g }
    ensures none { (T : TaskData) (D : FilteringData) (E : Evidence Inference) (f : OrderingFault) → IsOrdering T D E
        → IsFirstOrderingFault T D E f → ⊥ }
{}
