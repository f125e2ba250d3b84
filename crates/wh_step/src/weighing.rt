//! The extent of a term, computed from the extents of its parts. `measuring` and `joining` go by it.

ghost use Rattle.std.specs.Prelude.{◌≡◌, ◌≤◌, ◌+◌, ℕ};
ghost use Rattle.wh_types.specs.Ty.{Ty};
ghost use Rattle.wh_terms.specs.Tree.{Tm, bound, free, fun, lam, app};
ghost use Rattle.wh_terms.specs.Measures.{height, risen};
ghost use Rattle.wh_step.specs.Extents.{IsExtent, Limits, Measures};

use crate::extent::{Extent, PastLimit};
use wh_terms::{MOST_ARGUMENTS, MOST_HEIGHT, MOST_SIZE};
use wh_types::Or;

// The extent with these measures, if they keep the limits.
fn limited(size: u32, height: u32, arguments: u32) -> Result<Extent, Or<PastLimit>>
    ensures { Limits size height arguments result }
{
    if size > MOST_SIZE || height > MOST_HEIGHT || arguments > MOST_ARGUMENTS {
        return Err(Or::Because(PastLimit));
    }
    Ok(Extent {
        size,
        height,
        arguments,
    })
}

/// The extent of a variable or a symbol.
pub fn leaf() -> Extent
    ensures bound { (i : ℕ) → IsExtent (bound i) result }
    ensures free { (x : ℕ) (a : Ty) → IsExtent (free x a) result }
    ensures fun { (f : ℕ) → IsExtent (fun f) result }
{
    Extent {
        size: 1,
        height: 0,
        arguments: 0,
    }
}

// What a function gives to the height of the spine that it begins.
fn front_height(function: Extent) -> u32
    ensures risen { (t : Tm) → IsExtent t function → result ≡ risen t (height t) }
    ensures low { result ≤ 201 }
{
    if function.arguments == 0 {
        function.height + 1
    } else {
        function.height
    }
}

// The extent of an application, told from those of its function and its argument.
fn joined(function: Extent, argument: Extent) -> Result<Extent, Or<PastLimit>>
    ensures { (t u : Tm) → IsExtent t function → IsExtent u argument → Measures (app t u) result }
{
    let height = front_height(function).max(argument.height + 1);
    limited(
        function.size + argument.size + 1,
        height,
        function.arguments + 1,
    )
}

// The extent of an abstraction, told from that of its body.
fn bound(body: Extent) -> Result<Extent, Or<PastLimit>>
    ensures { (a : Ty) (t : Tm) → IsExtent t body → Measures (lam a t) result }
{
    limited(body.size + 1, body.height + 1, 0)
}

/// The measuring of an application, told from those of its function and its argument.
pub fn applied(
    function: Extent,
    argument: Result<Extent, Or<PastLimit>>,
) -> Result<Extent, Or<PastLimit>>
    ensures { (t u : Tm) → IsExtent t function → Measures u argument → Measures (app t u) result }
{
    match argument {
        Ok(argument) => joined(function, argument),
        Err(past) => Err(past),
    }
}

/// The measuring of an abstraction, told from that of its body.
pub fn abstracted(body: Result<Extent, Or<PastLimit>>) -> Result<Extent, Or<PastLimit>>
    ensures { (a : Ty) (t : Tm) → Measures t body → Measures (lam a t) result }
{
    match body {
        Ok(body) => bound(body),
        Err(past) => Err(past),
    }
}
