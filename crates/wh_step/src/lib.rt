//! Steps of a system, by a rule or by beta: the reducts of a term, a step at a position, and replay of a list of steps.
#![tactic(auto)]

ghost use Rattle.std.specs.Prelude.{◌≡◌, ℕ, List};
ghost use Rattle.wh_terms.specs.Rules.{RewriteRule};
ghost use Rattle.wh_terms.specs.Tree.{Tm};
ghost use Rattle.wh_step.specs.Reduction.{Bounded, Unbounded};

mod extent;
mod joining;
mod joint;
mod laws;
mod measuring;
mod place;
mod redex;
mod reducing;
mod replaying;
mod stepping;
mod weighing;

pub use laws::{
    bounded_by_reducts, loops_are_unbounded, one_result, places_of_steps, reducts_are_steps,
    reducts_of_bounded, replays_are_reductions, steps_at_places, steps_bring_nothing_loose,
    steps_keep_terms, steps_keep_types, steps_of_abstractions, steps_under_substitution,
    unbounded_before,
};
pub use place::step_at;
pub use reducing::reducts;
pub use replaying::{StepFault, replay};

/// No term is both bounded and unbounded.
pub fn bounded_or_unbounded()
    ensures { (rules : List RewriteRule) (t : Tm) → Bounded rules t → Unbounded rules t → ⊥ }
{}
