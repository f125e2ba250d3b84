//! The candidate that a call in a right side makes.
//!
//! The candidates of a rule have one left side, which may be large. So it is copied once for all of them: `left_of`
//! makes it.

ghost use Rattle.std.specs.Prelude.{◌≡◌, ◌+◌, ◌-◌, ◌++◌, ◌<◌, ◌≤◌, ℕ, length, map, reverse, take, IfOk};
ghost use Rattle.wh_types.specs.Erase.{ty};
ghost use Rattle.wh_terms.specs.Tree.{free, head};
ghost use Rattle.wh_terms.specs.Erase.{tm, symbols, declared_metas, declared_meta, rewrite_rule};
ghost use Rattle.wh_terms.specs.Scope.{scope};
ghost use Rattle.wh_terms.specs.Kinds.{kinds_of};
ghost use Rattle.wh_terms.specs.Substitution.{act};
ghost use Rattle.wh_pairs.specs.PairData.{within, pair_data};
ghost use Rattle.wh_pairs.specs.Candidates.{candidate, freed, missing_types, nullary, numbered_from};
ghost use Rattle.wh_pairs.specs.Known.{TakesArguments};
ghost use Rattle.wh_pairs.specs.Spines.{spine_arguments, symbol_of};
ghost use Rattle.wh_pairs_calls.specs.Views.{call_data, trees};

use crate::conditions::conditions_of;
use crate::freed::{Freeing, freed_arguments, nullary};
use std::alloc::{AllocError, Global};
use std::rc::Rc;
use wh_pairs::Pair;
use wh_pairs_calls::{Call, spine_of};
use wh_terms::{MetaDecl, Metas, Rule, Signature, Term, Terms, Types, copy_term};
use wh_types::{SimpleType, counted, sum};

// The declaration of a meta-variable of arity 0.
fn constant(alloc: Global, kind: &SimpleType) -> Result<MetaDecl, AllocError>
    ensures { IfOk result (λ decl. declared_meta decl ≡ nullary (ty kind.now)) }
{
    Ok(MetaDecl {
        args: Types::new(alloc),
        result: kind.copy(alloc)?,
    })
}

// A copy of the declaration.
fn copy_declaration(alloc: Global, declaration: &MetaDecl) -> Result<MetaDecl, AllocError>
    ensures { IfOk result (λ copy. declared_meta copy ≡ declared_meta declaration.now) }
{
    let mut args = Types::new(alloc);
    for kind in declaration.args.as_slice() {
        args.push(kind.copy(alloc)?)?;
    }
    Ok(MetaDecl {
        args,
        result: declaration.result.copy(alloc)?,
    })
}

// Copies of the declarations, in order.
fn copy_metas(alloc: Global, metas: &Metas) -> Result<Metas, AllocError>
    ensures { IfOk result (λ copies. declared_metas copies ≡ declared_metas metas.now) }
{
    let mut copies = Metas::new(alloc);
    for declaration in metas.as_slice() {
        copies.push(copy_declaration(alloc, declaration)?)?;
    }
    Ok(copies)
}

// The types of the fresh meta-variables: those of the binders, and then those of the arguments that are missing.
fn fresh_kinds<'a>(
    alloc: Global,
    signature: &'a Signature,
    call: &Call<'a>,
) -> Result<Vec<&'a SimpleType>, AllocError>
    requires { TakesArguments (symbols signature.now) call.now.symbol call.now.need }
    ensures { IfOk result (λ kinds. kinds_of kinds.items ≡ reverse (call_data call.now).binders ++ missing_types (symbols signature.now)
        (call_data call.now)) }
{
    let mut kinds = Vec::from_slice(alloc, call.binders.as_slice())?;
    let kind = &signature.funs.as_slice()[call.symbol as usize];
    let given = counted(call.arguments.len())?;
    for place in given..call.need {
        kinds.push(kind.argument(place))?;
    }
    Ok(kinds)
}

// The meta-variables of a candidate: those of the rule, and then the fresh ones.
fn candidate_metas(alloc: Global, metas: &Metas, kinds: &[&SimpleType]) -> Result<Metas, AllocError>
    ensures { IfOk result (λ all. declared_metas all ≡ declared_metas metas.now ++ map nullary (kinds_of kinds.now)) }
{
    let mut all = copy_metas(alloc, metas)?;
    for kind in kinds {
        all.push(constant(alloc, kind)?)?;
    }
    Ok(all)
}

// Copies of the arguments of the left side.
fn left_arguments(alloc: Global, arguments: &[&Term]) -> Result<Terms, AllocError>
    ensures { IfOk result (λ left. map tm left ≡ trees arguments.now) }
{
    let mut left = Terms::new(alloc);
    for argument in arguments {
        left.push(copy_term(alloc, argument)?)?;
    }
    Ok(left)
}

// Puts `count` meta-variables of arity 0 behind the arguments, numbered from `first` on.
fn add_missing(
    alloc: Global,
    mut arguments: Terms,
    first: u32,
    count: u32,
) -> Result<Terms, AllocError>
    ensures { IfOk result (λ all. map tm all ≡ map tm arguments ++ numbered_from first count) }
{
    for number in first..sum(first, count)? {
        arguments.push(nullary(alloc, number)?)?;
    }
    Ok(arguments)
}

// The right arguments of a candidate, where the first fresh meta-variable has the number `first`.
fn right_arguments(alloc: Global, first: u32, call: &Call<'_>) -> Result<Terms, AllocError>
    ensures { IfOk result (λ right. map tm right ≡ map (act (freed first (call_data call.now).binders) free)
        (take call.now.need (call_data call.now).arguments) ++ numbered_from (first + length (call_data call.now).binders)
        (call.now.need - length (call_data call.now).arguments)) }
{
    let by = Freeing {
        first,
        binders: call.binders.as_slice(),
    };
    let given = call.arguments.len().min(call.need as usize);
    let right = freed_arguments(alloc, &by, &call.arguments[..given])?;
    let next = sum(first, counted(call.binders.len())?)?;
    add_missing(alloc, right, next, call.need - given as u32)
}

// The symbol that heads a left side.
fn symbol_of(head: &Term) -> u32
    ensures { result ≡ symbol_of (tm head.now) }
{
    match head {
        Term::Fun(symbol) => *symbol,
        // a left side is headed by a symbol
        _ => 0,
    }
}

/// The left side of a rule, taken apart once for all candidates of the rule.
#[derive(Drop)]
pub struct LeftSide {
    /// The symbol that heads it.
    pub symbol: u32,
    /// The arguments of the left side.
    pub arguments: Rc<Terms>,
}

/// The left side of the rule.
pub fn left_of(alloc: Global, rule: &Rule) -> Result<LeftSide, AllocError>
    ensures symbol { IfOk result (λ left. left.symbol ≡ symbol_of (head (tm rule.now.left))) }
    ensures arguments { IfOk result (λ left. map tm left.arguments.value ≡ spine_arguments (tm rule.now.left)) }
{
    let spine = spine_of(alloc, &rule.left)?;
    let arguments = left_arguments(alloc, spine.arguments.as_slice())?;
    Ok(LeftSide {
        symbol: symbol_of(spine.head),
        arguments: Rc::new(alloc, arguments)?,
    })
}

/// The candidate of a call in the right side of a rule, which has the number and this left side.
pub fn candidate(
    alloc: Global,
    signature: &Signature,
    number: u32,
    rule: &Rule,
    left: &LeftSide,
    call: &Call<'_>,
) -> Result<Pair, AllocError>
    requires needs { TakesArguments (symbols signature.now) call.now.symbol call.now.need }
    requires symbol { left.now.symbol ≡ symbol_of (head (tm rule.now.left)) }
    requires arguments { map tm left.now.arguments.value ≡ spine_arguments (tm rule.now.left) }
    ensures { IfOk result (λ pair. pair_data pair
        ≡ candidate (symbols signature.now) number (rewrite_rule rule.now) (call_data call.now)) }
{
    let kinds = fresh_kinds(alloc, signature, call)?;
    let first = counted(rule.metas.as_slice().len())?;
    Ok(Pair {
        rule: number,
        metas: candidate_metas(alloc, &rule.metas, kinds.as_slice())?,
        left_fun: left.symbol,
        left: left.arguments.clone()?,
        right_fun: call.symbol,
        right: right_arguments(alloc, first, call)?,
        conditions: conditions_of(alloc, call.conditions.as_slice())?,
    })
}
