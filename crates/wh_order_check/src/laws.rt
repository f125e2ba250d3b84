//! The conditions of a node of a path order hold, or there is a first thing wrong: the contract of a function that does
//! nothing.

ghost use Rattle.std.specs.Prelude.{◌⊎◌};
ghost use Rattle.wh_reduction_pairs.specs.ReductionPair.{Evidence};
ghost use Rattle.wh_reduction_pairs.specs.TaskData.{TaskData};
ghost use Rattle.wh_order_inference.specs.Inferences.{Inference};
ghost use Rattle.wh_order_node.specs.Filterings.{AreFiltersFor, FilteringData};
ghost use Rattle.wh_order_node.specs.Ordering.{IsOrdering};
ghost use Rattle.wh_order_check.specs.OrderingFaults.{IsFirstOrderingFault};
ghost use Rattle.wh_order_check.specs.declared.fault.OrderingFault.{OrderingFault};

/// Filters of all symbols and of the marked symbols of a set orient it with their inferences, or something is wrong
/// first with them.
pub fn orders_orient_or_have_a_first_fault()
    ensures { (T : TaskData) (D : FilteringData) (E : Evidence Inference) → AreFiltersFor T D
        → IsOrdering T D E ⊎ ((f : OrderingFault) × IsFirstOrderingFault T D E f) }
{}
