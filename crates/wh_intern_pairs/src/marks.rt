//! The interpretation of a marked symbol, looked up in a list.

ghost use Rattle.std.specs.Prelude.{◌≡◌, Some, slice_get};
ghost use Rattle.wh_polycheck.specs.Marks.{HasMark, place_of};
ghost use Rattle.wh_polycheck.specs.SideResults.{mark, marks_of};

use wh_polycheck::MarkedSymbol;

/// The first mark of the symbol.
pub fn mark_of(marks: &[MarkedSymbol], symbol: u32) -> &MarkedSymbol
    requires { HasMark (marks_of marks.now) symbol }
    ensures { slice_get (marks_of marks.now) (place_of (marks_of marks.now) symbol) ≡ Some (mark result.now) }
{
    for item in marks {
        if item.symbol == symbol {
            return item;
        }
    }
    unreachable!()
}
