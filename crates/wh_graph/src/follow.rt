//! The edges of the dependency graph: `may_follow` decides whether one pair may follow another.

ghost use Rattle.std.specs.Prelude.{◌↔◌, IsTrue, map};
ghost use Rattle.wh_terms.specs.Erase.{tm};
ghost use Rattle.wh_pairs.specs.PairData.{pair_data};
ghost use Rattle.wh_system.specs.SystemView.{system_data};
ghost use Rattle.wh_graph.specs.May.{May, SomeClash};

use crate::clash::clashes;
use wh_pairs::Pair;
use wh_system::System;
use wh_terms::Term;

/// Whether the pair `b` may follow the pair `a` (Fuhs and Kop 2019): the right side of `a` has the head of the left
/// side of `b`, and no argument of the right side of `a` clashes with the argument of the left side of `b` at the same
/// place.
///
/// A term clashes with a pattern if nothing can change its root, if the pattern is no meta-application, and if the
/// roots differ or two parts at the same place clash. No memory is taken.
pub fn may_follow(system: &System, a: &Pair, b: &Pair) -> bool
    ensures { IsTrue result ↔ May (system_data system.now).rules (pair_data a.now) (pair_data b.now) }
{
    a.right_fun == b.left_fun && !some_clash(system, a.right.as_slice(), b.left.as_slice())
}

// Whether some term clashes with the pattern at the same place.
fn some_clash(system: &System, terms: &[Term], patterns: &[Term]) -> bool
    ensures { IsTrue result ↔ SomeClash (system_data system.now).rules (map tm terms.now) (map tm patterns.now) }
{
    for (i, term) in terms.iter().enumerate() {
        if i < patterns.len() && clashes(system, term, &patterns[i]) {
            return true;
        }
    }
    false
}
