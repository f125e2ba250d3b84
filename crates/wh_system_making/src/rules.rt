//! The rules of a system: each with its names looked up, in the order of the tests.

ghost use Rattle.std.specs.Prelude.{ℕ, ◌≡◌, ◌<◌, ◌++◌, not, List, [], ◌∷◌, Option, Some, None, true, false, MatchResult, OnErr, length, map, slice_get, slice_index_or, slice_set};
ghost use Rattle.wh_types.specs.Erase.{ty, tys};
ghost use Rattle.wh_text.specs.Erase.{rtm};
ghost use Rattle.wh_terms.specs.Erase.{rewrite_rules, tm};
ghost use Rattle.wh_system_parts.specs.Erase.{rparts, rrule};
ghost use Rattle.wh_system_parts.specs.Faults.{Passes};
ghost use Rattle.wh_system_parts.specs.Naming.{meant};
ghost use Rattle.wh_system_parts.specs.Kinds.{kind_of};
ghost use Rattle.wh_system_parts.specs.RuleTests.{head_symbol, rules_tests, same_kind, type_of_raw};
ghost use Rattle.wh_system_parts.specs.Tests.{fun_names, naming_tests, sort_names, term_offset, test};
ghost use Rattle.wh_system_parts.specs.declared.fault.SystemFault.TheVariants.{IllTyped, UnevenRules};
ghost use Rattle.wh_system_resolve.specs.InScope.{scope as in_scope};
ghost use Rattle.wh_system.specs.Needs.{need_of};
ghost use Rattle.wh_system_making.specs.RulePasses.{IsResolvedRule, both_tests, differs, form_tests, own_tests, scope_over};
ghost use Rattle.wh_system_making.specs.RulesPassed.{AreResolvedRules};

use crate::tables::list_of;
use std::alloc::Global;
use wh_system_parts::{
    Funs, NameTable, Parts, RawRule, SystemFault, check_side, declare_metas, offset,
};
use wh_system_resolve::{
    Scope, arguments_of, check_new_metas, check_open, check_pattern, head_of, resolve_side,
};
use wh_terms::{Rule, Term};
use wh_text::{Name, RawTerm};
use wh_types::{List, Or, SimpleType, same_type};

/// A rule with its names looked up.
#[derive(Drop)]
pub struct ResolvedRule {
    /// The rule.
    pub rule: Rule,
    /// The names of its meta-variables.
    pub meta_names: List<Name>,
    /// The symbol that heads the left side.
    pub head: u32,
    /// How many arguments the left side has.
    pub count: u32,
}

/// Rules with their names looked up.
#[derive(Drop)]
pub struct ResolvedRules {
    /// The rules.
    pub rules: Vec<Rule>,
    /// The names of the meta-variables of each.
    pub meta_names: Vec<List<Name>>,
    /// How many arguments the rules of each symbol have on the left, where it has rules.
    pub needs: Vec<Option<u32>>,
}

/// The rules of a system with these sorts and symbols. The fault is that of the first rule that has one.
pub fn resolve_rules(
    alloc: Global,
    sorts: &NameTable,
    funs: &Funs,
    parts: &Parts,
) -> Result<ResolvedRules, Or<SystemFault>>
    requires sorts { sorts.now ≡ sort_names (rparts parts.now) }
    requires funs { funs.now.names ≡ fun_names (rparts parts.now) }
    requires kinds { tys funs.now.kinds ≡ map (λ f. type_of_raw (sort_names (rparts parts.now)) f.kind) (rparts parts.now).funs }
    ensures { Passes (rules_tests (rparts parts.now) [] (rparts parts.now).rules) result (AreResolvedRules (rparts parts.now)) }
{
    let mut rules = Vec::new(alloc);
    let mut meta_names = Vec::new(alloc);
    let mut needs = vec![in alloc; None; funs.kinds.as_slice().len()]?;
    for raw in parts.rules.as_slice() {
        let resolved = resolve_rule(alloc, sorts, funs, raw)?;
        meet_need(&mut needs, resolved.head, resolved.count, offset(&raw.left))?;
        rules.push(resolved.rule)?;
        meta_names.push(resolved.meta_names)?;
    }
    Ok(ResolvedRules {
        rules,
        meta_names,
        needs,
    })
}

// The symbol needs this number of arguments from now on; the fault, at the left side, is that it needs another one.
fn meet_need(needs: &mut [Option<u32>], fun: u32, count: u32, at: u32) -> Result<(), SystemFault>
    requires { fun < length needs.old }
    ensures { MatchResult result (λ _. (differs count (slice_index_or needs.old fun None) ≡ false)
        × (needs.new ≡ slice_set needs.old fun (Some count)))
        (λ fault. (differs count (slice_index_or needs.old fun None) ≡ true) × (fault ≡ UnevenRules at)) }
{
    if let Some(need) = needs[fun as usize] {
        if count != need {
            return Err(SystemFault::UnevenRules { at });
        }
    }
    needs[fun as usize] = Some(count);
    Ok(())
}

// One rule. The fault is that of the first of its own tests that fails.
fn resolve_rule(
    alloc: Global,
    sorts: &NameTable,
    funs: &Funs,
    raw: &RawRule,
) -> Result<ResolvedRule, Or<SystemFault>>
    requires { length funs.now.names ≡ length funs.now.kinds }
    ensures { Passes (own_tests (scope_over sorts.now funs.now.names (tys funs.now.kinds) (rrule raw.now)) (rrule raw.now)) result
        (IsResolvedRule (scope_over sorts.now funs.now.names (tys funs.now.kinds) (rrule raw.now)) (rrule raw.now)) }
{
    let metas = declare_metas(alloc, sorts, &funs.names, raw.metas.as_slice())?;
    let meta_names = list_of(alloc, &metas.names)?;
    let scope = Scope {
        sorts,
        funs: &funs.names,
        kinds: &funs.kinds,
        metas: &metas.names,
        declared: &metas.declared,
    };
    let (left, right, head) = checked_sides(alloc, &scope, raw)?;
    let count = arguments_of(&raw.left);
    let rule = Rule {
        metas: metas.declared,
        left,
        right,
    };
    Ok(ResolvedRule {
        rule,
        meta_names,
        head,
        count,
    })
}

// The sides of a rule with their names looked up, which have one type, and the symbol that heads the left one.
fn checked_sides(
    alloc: Global,
    scope: &Scope,
    raw: &RawRule,
) -> Result<(Term, Term, u32), Or<SystemFault>>
    ensures { Passes (both_tests (in_scope scope.now) (rrule raw.now)) result
        (λ sides. (meant (in_scope scope.now) [] (rrule raw.now).left ≡ Some (tm sides.0))
        × (meant (in_scope scope.now) [] (rrule raw.now).right ≡ Some (tm sides.1))
        × (head_symbol (in_scope scope.now) (rrule raw.now).left ≡ Some sides.2)) }
{
    check_side(&raw.left)?;
    check_side(&raw.right)?;
    let (left, kind) = resolve_side(alloc, scope, &raw.left)?;
    let right = resolve_typed(alloc, scope, &kind, &raw.right)?;
    let head = check_form(alloc, scope, raw, &left, &right)?;
    Ok((left, right, head))
}

// The side with its names looked up, which has this type.
fn resolve_typed(
    alloc: Global,
    scope: &Scope,
    kind: &SimpleType,
    side: &RawTerm,
) -> Result<Term, Or<SystemFault>>
    ensures { Passes (naming_tests (in_scope scope.now) [] (rtm side.now)
        ++ test (not (same_kind (Some (ty kind.now)) (kind_of (in_scope scope.now) [] (rtm side.now))))
        (IllTyped (term_offset (rtm side.now))) ∷ [])
        result (λ term. meant (in_scope scope.now) [] (rtm side.now) ≡ Some (tm term)) }
{
    let (term, own) = resolve_side(alloc, scope, side)?;
    if !same_type(kind, &own) {
        return Err(Or::Because(SystemFault::IllTyped { at: offset(side) }));
    }
    Ok(term)
}

// The symbol that heads the left side of a rule, whose sides stand for the terms and have the form that a rule's have.
fn check_form(
    alloc: Global,
    scope: &Scope,
    raw: &RawRule,
    left: &Term,
    right: &Term,
) -> Result<u32, Or<SystemFault>>
    requires left { meant (in_scope scope.now) [] (rrule raw.now).left ≡ Some (tm left.now) }
    requires right { meant (in_scope scope.now) [] (rrule raw.now).right ≡ Some (tm right.now) }
    ensures { Passes (form_tests (in_scope scope.now) (rrule raw.now)) result
        (λ fun. head_symbol (in_scope scope.now) (rrule raw.now).left ≡ Some fun) }
{
    check_open(&raw.left)?;
    check_open(&raw.right)?;
    let head = head_of(left, &raw.left)?;
    check_pattern(alloc, left, &raw.left)?;
    let metas = scope.declared.as_slice().len();
    check_new_metas(alloc, metas, left, right, &raw.right)?;
    Ok(head)
}
