//! Proper parts of a numbered tree that are reached through arguments of symbols alone.

ghost use Rattle.std.specs.Prelude.{◌≡◌, ◌↔◌, ◌<◌, IsTrue, List, length};
ghost use Rattle.wh_terms.specs.Tree.{Tm};
ghost use Rattle.wh_subterm.specs.ProperParts.{IsHeadedBySymbol, Part as ProperPart, SomeArgumentHas};
ghost use Rattle.wh_intern.specs.TableTrees.{trees};
ghost use Rattle.wh_intern.specs.Trees.{tree_at};
ghost use Rattle.wh_intern_pairs.specs.Asking.{IsAnswered};

use crate::asked::Asked;
use wh_intern::{Part, Table};

/// Whether the tree with the number `part` is a proper part of the tree with the number `whole`, reached through
/// arguments of spines headed by symbols. Parts have lesser numbers, so a tree whose number is not above `part` is not
/// looked into.
#[cycle(parts)]
pub fn has_part(table: &Table, whole: u32, part: u32) -> bool
    requires whole { whole < length (trees table.now) }
    requires part { part < length (trees table.now) }
    ensures { IsTrue result ↔ ProperPart (tree_at (trees table.now) part) (tree_at (trees table.now) whole) }
{
    table.has_parts();
    if whole <= part {
        return false;
    }
    is_headed_by_symbol(table, whole) && some_argument_has(table, whole, part)
}

// Whether some argument of the spine is that part or has it.
#[cycle(parts)]
fn some_argument_has(table: &Table, whole: u32, part: u32) -> bool
    requires whole { whole < length (trees table.now) }
    requires part { part < length (trees table.now) }
    ensures { IsTrue result ↔ SomeArgumentHas (tree_at (trees table.now) part) (tree_at (trees table.now) whole) }
{
    match table.part(whole) {
        Part::App(function, argument) => {
            is_same(table, *argument, part)
                || has_part(table, *argument, part)
                || some_argument_has(table, *function, part)
        }
        _ => false,
    }
}

// Whether the head of the spine is a symbol.
fn is_headed_by_symbol(table: &Table, whole: u32) -> bool
    requires { whole < length (trees table.now) }
    ensures { IsTrue result ↔ IsHeadedBySymbol (tree_at (trees table.now) whole) }
{
    match table.part(whole) {
        Part::App(function, _) => is_headed_by_symbol(table, *function),
        Part::Fun(_) => true,
        _ => false,
    }
}

/// Nothing was asked yet: no tree is a proper part of itself.
pub fn nothing_asked() -> Asked
    ensures { (ts : List Tm) → IsAnswered ts result }
{
    Asked {
        whole: 0,
        part: 0,
        has: false,
    }
}

/// Answers as `has_part` does, and does not go into the last question again.
pub fn has_part_as_asked(table: &Table, asked: &mut Asked, whole: u32, part: u32) -> bool
    requires whole { whole < length (trees table.now) }
    requires part { part < length (trees table.now) }
    requires asked { IsAnswered (trees table.now) asked.old }
    ensures part { IsTrue result ↔ ProperPart (tree_at (trees table.now) part) (tree_at (trees table.now) whole) }
    ensures asked { IsAnswered (trees table.now) asked.new }
{
    if is_about(asked, whole, part) {
        return asked.has;
    }
    let has = has_part(table, whole, part);
    *asked = Asked { whole, part, has };
    has
}

// Whether the last question was about these numbers.
fn is_about(asked: &Asked, whole: u32, part: u32) -> bool
    ensures { IsTrue result → (asked.now.whole ≡ whole) × (asked.now.part ≡ part) }
{
    asked.whole == whole && asked.part == part
}

/// Whether two numbers are those of one tree: a table has each tree once.
pub fn is_same(table: &Table, left: u32, right: u32) -> bool
    requires left { left < length (trees table.now) }
    requires right { right < length (trees table.now) }
    ensures { IsTrue result ↔ (tree_at (trees table.now) left ≡ tree_at (trees table.now) right) }
{
    table.has_each_tree_once();
    left == right
}
