//! Laws of lists that refute a formula: the formula has no model, and the list has no fault.

ghost use Rattle.wh_refute.specs.Laws.{RefutationsHaveNoFault, RefutationsRefute};

/// A formula with a list that refutes it has no model.
pub fn refutations_refute()
    ensures { RefutationsRefute }
{}

/// A list that refutes a formula has no fault.
pub fn refutations_have_no_fault()
    ensures { RefutationsHaveNoFault }
{}
