//! The steps of a term: at each place beta, and the rules whose left sides match there.

ghost use Rattle.std.specs.Prelude.{◌≡◌, ◌<◌, ℕ, Contains, None, Some, IfOk, OnOk, IsTrue, MatchOption};
ghost use Rattle.wh_terms.specs.Tree.{Tm, fun, head};
ghost use Rattle.wh_terms.specs.Typing.{Symbols};
ghost use Rattle.wh_terms.specs.Measures.{Fits};
ghost use Rattle.wh_terms.specs.Sight.{LooseBelow, IsTerm};
ghost use Rattle.wh_terms.specs.Places.{IsPath};
ghost use Rattle.wh_terms.specs.Erase.{tm, rewrite_rule, rewrite_rules};
ghost use Rattle.wh_terms.specs.Rules.{IsWellMade, AreWellMade};
ghost use Rattle.wh_step.specs.Roots.{BetaStep, RuleStep};
ghost use Rattle.wh_step.specs.Contracta.{IsPlain};
ghost use Rattle.wh_loop_steps.specs.Tables.{HasNumber};
ghost use Rattle.wh_loop_steps.specs.StepLists.{IsRuleTable, KeepsSteps, Lists, ListsAllSteps, ListsRootSteps, ListsRuleStep, ListsRuleSteps, ListsStepsBelow};

use crate::table::Table;
use std::alloc::{AllocError, Global};
use wh_match::match_pattern;
use wh_terms::{Path, Rule, Step, Term};

/// The symbol at the head of the spine that the term is.
pub fn head_symbol(term: &Term) -> Option<u32>
    ensures { MatchOption result ((f : ℕ) → head (tm term.now) ≡ fun f → ⊥) (λ f. head (tm term.now) ≡ fun f) }
{
    match term {
        Term::App(function, _) => head_symbol(function),
        Term::Fun(symbol) => Some(*symbol),
        _ => None,
    }
}

/// An owned copy of the path.
pub fn path_of(alloc: Global, way: &[u8]) -> Result<Path, AllocError>
    requires { IsPath way.now }
    ensures { IfOk result (λ path. path ≡ way.now) }
{
    let mut path = Path::new(alloc);
    for turn in way {
        path.push(*turn)?;
    }
    Ok(path)
}

// Whether the term is an abstraction with an argument.
fn is_beta_redex(term: &Term) -> bool
    ensures { (v : Tm) → BetaStep (tm term.now) v → IsTrue result }
{
    match term {
        Term::App(function, _) => matches!(&**function, Term::Lam(..)),
        _ => false,
    }
}

// Whether the left side of the rule matches the term.
fn matches_rule(alloc: Global, rule: &Rule, term: &Term) -> Result<bool, AllocError>
    requires well_made { (S : Symbols) × IsWellMade S (rewrite_rule rule.now) }
    requires plain { IsPlain (tm term.now) }
    ensures { IfOk result (λ found. (v : Tm) → RuleStep (rewrite_rule rule.now) (tm term.now) v → IsTrue found) }
{
    match match_pattern(alloc, &rule.metas, &rule.left, term)? {
        Some(_) => Ok(true),
        None => Ok(false),
    }
}

// The step at the root by the rule with the number joins, with the given place.
fn add_rule_step(
    alloc: Global,
    rules: &[Rule],
    number: u32,
    term: &Term,
    way: &[u8],
    found: &mut Vec<Step>,
) -> Result<(), AllocError>
    requires well_made { (S : Symbols) × AreWellMade S (rewrite_rules rules.now) }
    requires plain { IsPlain (tm term.now) }
    requires path { IsPath way.now }
    ensures kept { OnOk result (KeepsSteps found.old.items found.new.items) }
    ensures listed { OnOk result (ListsRuleStep (rewrite_rules rules.now) number (tm term.now) way.now found.new.items) }
{
    let Some(rule) = rules.get(number as usize) else {
        return Ok(());
    };
    if matches_rule(alloc, rule, term)? {
        let path = path_of(alloc, way)?;
        found.push(Step {
            rule: Some(number),
            path,
        })?;
    }
    Ok(())
}

// The steps at the root by the rules with these numbers join, with the given place.
fn add_rule_steps(
    alloc: Global,
    rules: &[Rule],
    numbers: &[u32],
    term: &Term,
    way: &[u8],
    found: &mut Vec<Step>,
) -> Result<(), AllocError>
    requires well_made { (S : Symbols) × AreWellMade S (rewrite_rules rules.now) }
    requires plain { IsPlain (tm term.now) }
    requires path { IsPath way.now }
    ensures kept { OnOk result (KeepsSteps found.old.items found.new.items) }
    ensures listed { OnOk result (ListsRuleSteps (rewrite_rules rules.now) numbers.now (tm term.now) way.now found.new.items) }
{
    for number in numbers {
        add_rule_step(alloc, rules, *number, term, way, found)?;
    }
    Ok(())
}

// The steps at the root join, with the given place.
fn add_steps_here(
    alloc: Global,
    rules: &[Rule],
    table: &Table,
    term: &Term,
    way: &[u8],
    found: &mut Vec<Step>,
) -> Result<(), AllocError>
    requires well_made { (S : Symbols) × AreWellMade S (rewrite_rules rules.now) }
    requires table { IsRuleTable (rewrite_rules rules.now) table.now }
    requires plain { IsPlain (tm term.now) }
    requires path { IsPath way.now }
    ensures kept { OnOk result (KeepsSteps found.old.items found.new.items) }
    ensures listed { OnOk result (ListsRootSteps (rewrite_rules rules.now) (tm term.now) way.now found.new.items) }
{
    if is_beta_redex(term) {
        let path = path_of(alloc, way)?;
        found.push(Step { rule: None, path })?;
    }
    add_rule_steps(alloc, rules, numbers_for(table, term), term, way, found)
}

// The numbers of the rules whose left sides have the head of the term.
fn numbers_for<'a>(table: &'a Table, term: &Term) -> &'a [u32]
    ensures { (f k : ℕ) → head (tm term.now) ≡ fun f → HasNumber table.now f k → Contains result.now k }
{
    match head_symbol(term) {
        Some(symbol) if (symbol as usize) < table.len() => table.row(symbol as usize),
        _ => &[],
    }
}

// The steps of a part of a term join, with the places below the given one.
fn add_steps_below(
    alloc: Global,
    rules: &[Rule],
    table: &Table,
    term: &Term,
    way: &mut Vec<u8>,
    found: &mut Vec<Step>,
) -> Result<(), AllocError>
    requires well_made { (S : Symbols) × AreWellMade S (rewrite_rules rules.now) }
    requires table { IsRuleTable (rewrite_rules rules.now) table.now }
    requires plain { IsPlain (tm term.now) }
    requires path { IsPath way.old.items }
    ensures back { OnOk result (way.new.items ≡ way.old.items) }
    ensures kept { OnOk result (KeepsSteps found.old.items found.new.items) }
    ensures listed { OnOk result (ListsStepsBelow (rewrite_rules rules.now) (tm term.now) way.old.items found.new.items) }
{
    add_steps_here(alloc, rules, table, term, way, found)?;
    match term {
        Term::App(function, argument) => {
            way.push(0)?;
            add_steps_below(alloc, rules, table, function, way, found)?;
            let _ = way.pop();
            way.push(1)?;
            add_steps_below(alloc, rules, table, argument, way, found)?;
            let _ = way.pop();
            Ok(())
        }
        Term::Lam(_, body) => {
            way.push(0)?;
            add_steps_below(alloc, rules, table, body, way, found)?;
            let _ = way.pop();
            Ok(())
        }
        Term::Bound(_) | Term::Free(..) | Term::Fun(_) | Term::Meta(..) => Ok(()),
    }
}

/// The steps of the term in their order: by place in preorder, at one place beta before the rules, and the rules by
/// their numbers.
pub fn steps_of(
    alloc: Global,
    rules: &[Rule],
    table: &Table,
    term: &Term,
) -> Result<Vec<Step>, AllocError>
    requires well_made { (S : Symbols) × AreWellMade S (rewrite_rules rules.now) }
    requires table { IsRuleTable (rewrite_rules rules.now) table.now }
    requires fits { Fits (tm term.now) }
    requires shut { LooseBelow 0 (tm term.now) }
    requires plain { IsTerm (tm term.now) }
    ensures { IfOk result (λ steps. ListsAllSteps (rewrite_rules rules.now) (tm term.now) steps.items) }
{
    let mut found = Vec::new(alloc);
    let mut way = Vec::new(alloc);
    add_steps_below(alloc, rules, table, term, &mut way, &mut found)?;
    Ok(found)
}
