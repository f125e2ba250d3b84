//! A list of rules is closed for a set, or it has a first fault: the contract of a function that does nothing.

ghost use Rattle.std.specs.Prelude.{◌≡◌, ◌⊎◌};
ghost use Rattle.wh_reduction_pairs.specs.TaskData.{TaskData};
ghost use Rattle.wh_usable.specs.Closed.{IsClosed};
ghost use Rattle.wh_usable.specs.Open.{IsFirstOpen};
ghost use Rattle.wh_usable.specs.declared.closed.NotClosed.{NotClosed};

/// The rules that are to be covered are closed for the set, or there is a rule or a pair that is the first for which
/// they are not: not both, and one alone.
pub fn lists_are_closed_or_first_open()
    ensures one { (T : TaskData) → IsClosed T ⊎ ((f : NotClosed) × IsFirstOpen T f) }
    ensures apart { (T : TaskData) (f : NotClosed) → IsClosed T → IsFirstOpen T f → ⊥ }
    ensures same { (T : TaskData) (f g : NotClosed) → IsFirstOpen T f → IsFirstOpen T g → f ≡ g }
{}
