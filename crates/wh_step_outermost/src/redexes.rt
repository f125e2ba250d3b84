//! What a term steps by at its root. Terms below binders stand here as they are: their variables may be loose.

ghost use Rattle.std.specs.Prelude.{◌↔◌, ℕ, IsTrue, IfOk, MatchOption, Option, Some, None};
ghost use Rattle.wh_types.specs.Erase.{ty};
ghost use Rattle.wh_terms.specs.Tree.{Tm};
ghost use Rattle.wh_terms.specs.Typing.{Symbols};
ghost use Rattle.wh_terms.specs.Erase.{tm, rewrite_rule, rewrite_rules};
ghost use Rattle.wh_terms.specs.Rules.{IsWellMade, AreWellMade};
ghost use Rattle.wh_step.specs.Roots.{BetaStep, RuleStep, SameHead};
ghost use Rattle.wh_step.specs.Contracta.{IsPlain};
ghost use Rattle.wh_step_outermost.specs.Redexes.{StepsBy, IsFirstBy};

use std::alloc::{AllocError, Global};
use wh_match::match_pattern;
use wh_terms::{Rule, Term};
use wh_types::counted;

// Whether two spines have the same symbol at their head and as many arguments.
fn same_head(pattern: &Term, term: &Term) -> bool
    ensures { IsTrue result ↔ SameHead (tm pattern.now) (tm term.now) }
{
    match (pattern, term) {
        (Term::App(function, _), Term::App(first, _)) => same_head(function, first),
        (Term::Fun(symbol), Term::Fun(other)) => *symbol == *other,
        _ => false,
    }
}

// Whether the term is an abstraction with an argument.
fn steps_by_beta(term: &Term) -> bool
    ensures { IsTrue result ↔ ((v : Tm) × BetaStep (tm term.now) v) }
{
    match term {
        Term::App(function, _) => matches!(&**function, Term::Lam(_, _)),
        _ => false,
    }
}

// Whether the term steps at its root by the rule.
fn steps_by_rule(alloc: Global, rule: &Rule, term: &Term) -> Result<bool, AllocError>
    requires well_made { (S : Symbols) × IsWellMade S (rewrite_rule rule.now) }
    requires plain { IsPlain (tm term.now) }
    ensures { IfOk result (λ r. IsTrue r ↔ ((v : Tm) × RuleStep (rewrite_rule rule.now) (tm term.now) v)) }
{
    if !same_head(&rule.left, term) {
        return Ok(false);
    }
    Ok(match_pattern(alloc, &rule.metas, &rule.left, term)?.is_some())
}

/// What the term steps by first at its root: beta comes before the rules (`Some(None)`), and the rules come by their
/// numbers; `None` if it steps by nothing there.
pub fn first_at_root(
    alloc: Global,
    rules: &[Rule],
    term: &Term,
) -> Result<Option<Option<u32>>, AllocError>
    requires well_made { (S : Symbols) × AreWellMade S (rewrite_rules rules.now) }
    requires plain { IsPlain (tm term.now) }
    ensures { IfOk result (λ o. MatchOption o ((k : Option ℕ) → StepsBy (rewrite_rules rules.now) (tm term.now) k → ⊥)
        (IsFirstBy (rewrite_rules rules.now) (tm term.now))) }
{
    if steps_by_beta(term) {
        return Ok(Some(None));
    }
    for (i, rule) in rules.iter().enumerate() {
        if steps_by_rule(alloc, rule, term)? {
            return Ok(Some(Some(counted(i)?)));
        }
    }
    Ok(None)
}
