//! Laws of circuits: the inputs determine the values of all gates, and such values exist.

ghost use Rattle.wh_circuit.specs.Laws.{ValuesAreUnique, ValuesExist};

/// Whatever the inputs are, there are values of all variables as the gates say.
pub fn values_exist()
    ensures { ValuesExist }
{}

/// The inputs determine the values of all variables.
pub fn values_are_unique()
    ensures { ValuesAreUnique }
{}
