//! Redexes, and what they step to.
//!
//! `root_step` finds the parts that the result of a step at the root is built from, and `build` builds it. Between the
//! two a caller can measure the result. Terms below binders stand here as they are: their variables may be loose.

ghost use Rattle.std.specs.Prelude.{◌≡◌, ◌↔◌, ℕ, IsTrue, IfOk, MatchOption, Some, None};
ghost use Rattle.wh_types.specs.Erase.{ty};
ghost use Rattle.wh_terms.specs.Tree.{Tm};
ghost use Rattle.wh_terms.specs.Typing.{Symbols};
ghost use Rattle.wh_terms.specs.Erase.{tm, rewrite_rule, rewrite_rules};
ghost use Rattle.wh_terms.specs.Rules.{IsWellMade, AreWellMade};
ghost use Rattle.wh_step.specs.Roots.{BetaStep, RuleStep, RootStep, SameHead};
ghost use Rattle.wh_step.specs.Contracta.{IsPlain, IsReady, result_of};

use std::alloc::{AllocError, Global};
use wh_match::match_pattern;
use wh_terms::{MetaSubst, Rule, Term, apply_meta, open_with};

/// The result of a step at the root, in the parts that it is built from.
#[derive(Drop)]
pub enum Contractum<'a> {
    /// The body of an abstraction, with the argument for its variable.
    Opened(&'a Term, &'a Term),
    /// The right side of a rule, with the bodies that its left side was matched with.
    Instance(&'a Term, MetaSubst),
}

// Whether two spines have the same symbol at their head and as many arguments.
fn same_head(pattern: &Term, term: &Term) -> bool
    ensures { IsTrue result ↔ SameHead (tm pattern.now) (tm term.now) }
{
    match (pattern, term) {
        (Term::App(function, _), Term::App(first, _)) => same_head(function, first),
        (Term::Fun(symbol), Term::Fun(other)) => *symbol == *other,
        _ => false,
    }
}

/// The step at the root by beta, where the term is an abstraction applied to an argument.
pub fn beta_step<'a>(term: &'a Term) -> Option<Contractum<'a>>
    requires plain { IsPlain (tm term.now) }
    ensures { MatchOption result ((v : Tm) → BetaStep (tm term.now) v → ⊥) (λ c. IsReady c × BetaStep (tm term.now) (result_of c)) }
{
    match term {
        Term::App(function, argument) => match &**function {
            Term::Lam(_, body) => Some(Contractum::Opened(body, argument)),
            _ => None,
        },
        _ => None,
    }
}

/// The step at the root by the rule, if there is one.
pub fn rule_step<'a>(
    alloc: Global,
    rule: &'a Rule,
    term: &Term,
) -> Result<Option<Contractum<'a>>, AllocError>
    requires well_made { (S : Symbols) × IsWellMade S (rewrite_rule rule.now) }
    requires plain { IsPlain (tm term.now) }
    ensures { IfOk result (λ o. MatchOption o ((v : Tm) → RuleStep (rewrite_rule rule.now) (tm term.now) v → ⊥)
        (λ c. IsReady c × RuleStep (rewrite_rule rule.now) (tm term.now) (result_of c))) }
{
    if !same_head(&rule.left, term) {
        return Ok(None);
    }
    match match_pattern(alloc, &rule.metas, &rule.left, term)? {
        Some(bodies) => Ok(Some(Contractum::Instance(&rule.right, bodies))),
        None => Ok(None),
    }
}

/// The step at the root by the rule of this number, or by beta where there is no number, if there is one.
pub fn root_step<'a>(
    alloc: Global,
    rules: &'a [Rule],
    term: &'a Term,
    rule: Option<u32>,
) -> Result<Option<Contractum<'a>>, AllocError>
    requires well_made { (S : Symbols) × AreWellMade S (rewrite_rules rules.now) }
    requires plain { IsPlain (tm term.now) }
    ensures { IfOk result (λ o. MatchOption o ((v : Tm) → RootStep (rewrite_rules rules.now) rule (tm term.now) v → ⊥)
        (λ c. IsReady c × RootStep (rewrite_rules rules.now) rule (tm term.now) (result_of c))) }
{
    match rule {
        None => Ok(beta_step(term)),
        Some(number) => match rules.get(number as usize) {
            Some(rule) => rule_step(alloc, rule, term),
            None => Ok(None),
        },
    }
}

/// The term that the parts of the step's result make.
pub fn build(alloc: Global, contractum: &Contractum<'_>) -> Result<Term, AllocError>
    requires { IsReady contractum.now }
    ensures { IfOk result (λ r. tm r ≡ result_of contractum.now) }
{
    match contractum {
        Contractum::Opened(body, argument) => open_with(alloc, body, argument),
        Contractum::Instance(right, bodies) => apply_meta(alloc, bodies, right),
    }
}
