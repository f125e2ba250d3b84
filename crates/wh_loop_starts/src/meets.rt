//! A start laid beside a part of a term: which parts stand where the start has its variables.

ghost use Rattle.std.specs.Prelude.{◌≡◌, ◌↔◌, ◌<◌, ◌≤◌, IsTrue, MatchBool, length};
ghost use Rattle.std.specs.Bool.{OnTrue};
ghost use Rattle.wh_terms.specs.Tree.{free};
ghost use Rattle.wh_types.specs.Erase.{ty};
ghost use Rattle.wh_terms.specs.Erase.{tm};
ghost use Rattle.wh_terms.specs.Sight.{IsTerm};
ghost use Rattle.wh_no.specs.Unused.{first_unused};
ghost use Rattle.wh_loop_starts.specs.Meets.{SameHead, IsMeeting, HasNoMeeting, IsFrom};

use wh_terms::{Term, same};
use wh_types::{SimpleType, same_type};

/// What stands in the place of a variable.
#[derive(Clone, Copy)]
pub struct Met<'a> {
    /// The variable's type.
    pub kind: &'a SimpleType,
    /// What stands in its place.
    pub value: &'a Term,
}

/// Whether the two terms are one symbol, with equally many arguments.
pub fn has_same_head(start: &Term, part: &Term) -> bool
    ensures { IsTrue result ↔ SameHead (tm start.now) (tm part.now) }
{
    match (start, part) {
        (Term::Fun(f), Term::Fun(g)) => *f == *g,
        (Term::App(t, _), Term::App(u, _)) => has_same_head(t, u),
        _ => false,
    }
}

// The part stands in the place of the variable: whether nothing else did so before.
fn meets_variable<'a>(
    number: u32,
    kind: &'a SimpleType,
    part: &'a Term,
    table: &mut Vec<Option<Met<'a>>>,
) -> bool
    requires { number < length table.old.items }
    ensures kept { length table.new.items ≡ length table.old.items }
    ensures told { MatchBool result (IsMeeting (free number (ty kind.now)) (tm part.now) table.old.items table.new.items)
        (HasNoMeeting (free number (ty kind.now)) (tm part.now) table.old.items) }
    ensures from { OnTrue result (IsFrom (free number (ty kind.now)) table.old.items table.new.items) }
{
    match table[number as usize] {
        Some(met) => same(met.value, part),
        None => {
            table[number as usize] = Some(Met { kind, value: part });
            true
        }
    }
}

/// Whether the part is the start with other terms for its variables, as they stand, where the table has what was met
/// before by the variables' numbers; what is met now joins it. After `false` nothing is said of the table.
#[cycle(meets)]
pub fn meets<'a>(start: &'a Term, part: &'a Term, table: &mut Vec<Option<Met<'a>>>) -> bool
    requires plain { IsTerm (tm start.now) }
    requires numbers { first_unused (tm start.now) ≤ length table.old.items }
    ensures kept { length table.new.items ≡ length table.old.items }
    ensures told { MatchBool result (IsMeeting (tm start.now) (tm part.now) table.old.items table.new.items)
        (HasNoMeeting (tm start.now) (tm part.now) table.old.items) }
    ensures from { OnTrue result (IsFrom (tm start.now) table.old.items table.new.items) }
{
    match start {
        Term::Free(number, kind) => meets_variable(*number, kind, part, table),
        Term::Bound(_) | Term::Fun(_) => same(part, start),
        Term::Lam(kind, body) => match part {
            Term::Lam(other, other_body) => {
                same_type(other, kind) && meets(body, other_body, table)
            }
            _ => false,
        },
        Term::App(f, x) => match part {
            Term::App(g, y) => meets(f, g, table) && meets(x, y, table),
            _ => false,
        },
        Term::Meta(_, _) => false,
    }
}
