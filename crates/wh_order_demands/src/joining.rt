//! Two demands joined to one.

ghost use Rattle.std.specs.Prelude.{◌≡◌, ◌&&◌, ◌||◌, ℕ, Bool, IfOk};
ghost use Rattle.wh_order_demands.specs.Demands.{holds};

use crate::demand::Demand;
use std::alloc::{AllocError, Global};

/// The demand that both are met.
pub fn both(alloc: Global, left: Demand, right: Demand) -> Result<Demand, AllocError>
    ensures { IfOk result (λ made. (v : ℕ → Bool) → holds v made ≡ (holds v left && holds v right)) }
{
    match left {
        Demand::Always => Ok(right),
        Demand::Never => Ok(Demand::Never),
        left => match right {
            Demand::Always => Ok(left),
            Demand::Never => Ok(Demand::Never),
            right => Ok(Demand::Both(Box::new(alloc, left)?, Box::new(alloc, right)?)),
        },
    }
}

/// The demand that at least one of them is met.
pub fn either(alloc: Global, left: Demand, right: Demand) -> Result<Demand, AllocError>
    ensures { IfOk result (λ made. (v : ℕ → Bool) → holds v made ≡ (holds v left || holds v right)) }
{
    match left {
        Demand::Never => Ok(right),
        Demand::Always => Ok(Demand::Always),
        left => match right {
            Demand::Never => Ok(left),
            Demand::Always => Ok(Demand::Always),
            right => Ok(Demand::Either(Box::new(alloc, left)?, Box::new(alloc, right)?)),
        },
    }
}
