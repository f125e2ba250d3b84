//! The calls in a right side: where a defined symbol stands, and with which arguments.
//!
//! `calls_of` is the one to call. The walk goes over a spine first as a whole, then into its head, then over its
//! arguments.

ghost use Rattle.std.specs.Prelude.{◌≡◌, ◌+◌, ◌++◌, ◌∷◌, [], ℕ, length, map, drop, OnOk, IfOk};
ghost use Rattle.wh_types.specs.Erase.{ty};
ghost use Rattle.wh_terms.specs.Erase.{tm, tms, rewrite_rule};
ghost use Rattle.wh_terms.specs.Tree.{head, tms_of};
ghost use Rattle.wh_terms.specs.Scope.{scope};
ghost use Rattle.wh_pairs.specs.PairData.{within};
ghost use Rattle.wh_system.specs.SystemView.{system_data};
ghost use Rattle.wh_pairs.specs.Calls.{calls, calls_within, calls_of};
ghost use Rattle.wh_pairs_calls.specs.CallsEach.{calls_each};
ghost use Rattle.wh_pairs.specs.Known.{SymbolsBelow, AllSymbolsBelow};
ghost use Rattle.wh_pairs_calls.specs.Views.{call_data, trees};

use crate::conditions::with_condition;
use crate::spine::{Spine, spine_of};
use std::alloc::{AllocError, Global};
use wh_pairs::Condition;
use wh_system::System;
use wh_terms::{Rule, Term, Terms};
use wh_types::{SimpleType, counted, sum};

/// A defined symbol as the head of a spine, and where it stands.
#[derive(Drop)]
pub struct Call<'a> {
    /// The arguments of meta-variables that it stands within, in increasing order.
    pub conditions: Vec<Condition>,
    /// The types of the binders around it, the outermost first.
    pub binders: Vec<&'a SimpleType>,
    /// The symbol.
    pub symbol: u32,
    /// How many arguments the rules of the symbol have.
    pub need: u32,
    /// All arguments of the spine.
    pub arguments: Vec<&'a Term>,
}

/// The calls in the right side of a rule of the system, in order.
pub fn calls_of<'a>(
    alloc: Global,
    system: &System,
    rule: &'a Rule,
) -> Result<Vec<Call<'a>>, AllocError>
    requires { SymbolsBelow (length (system_data system.now).fun_names) (tm rule.now.right) }
    ensures { IfOk result (λ found. map call_data found.items ≡ calls_of (system_data system.now).rules (rewrite_rule rule.now)) }
{
    let mut found = Vec::new(alloc);
    let around = Around {
        conditions: &[],
        binders: &[],
    };
    add_calls(alloc, system, &around, &rule.right, &mut found)?;
    Ok(found)
}

// What stands around a part of a right side.
#[derive(Clone, Copy)]
struct Around<'a, 'b> {
    // The arguments of meta-variables that it stands within, in increasing order.
    conditions: &'b [Condition],
    // The types of the binders, the outermost first.
    binders: &'b [&'a SimpleType],
}

// Adds the calls in a part of a right side, around which this stands.
#[cycle(calls)]
fn add_calls<'a>(
    alloc: Global,
    system: &System,
    around: &Around<'a, '_>,
    term: &'a Term,
    found: &mut Vec<Call<'a>>,
) -> Result<(), AllocError>
    requires { SymbolsBelow (length (system_data system.now).fun_names) (tm term.now) }
    ensures { OnOk result (map call_data found.new.items ≡ map call_data found.old.items ++ calls (system_data system.now).rules
        (map within around.now.conditions.now) (scope around.now.binders.now) (tm term.now) []) }
{
    let spine = spine_of(alloc, term)?;
    add_head(alloc, system, around, &spine, found)?;
    add_each(alloc, system, around, spine.arguments.as_slice(), found)
}

// Adds the calls in the head of a spine. The spine itself is the first of them where a defined symbol heads it.
#[cycle(calls)]
fn add_head<'a>(
    alloc: Global,
    system: &System,
    around: &Around<'a, '_>,
    spine: &Spine<'a>,
    found: &mut Vec<Call<'a>>,
) -> Result<(), AllocError>
    requires symbols { SymbolsBelow (length (system_data system.now).fun_names) (tm spine.now.head.now) }
    requires head { head (tm spine.now.head.now) ≡ tm spine.now.head.now }
    ensures { OnOk result (map call_data found.new.items ≡ map call_data found.old.items ++ calls (system_data system.now).rules
        (map within around.now.conditions.now) (scope around.now.binders.now) (tm spine.now.head.now) (trees spine.now.arguments.items)) }
{
    match spine.head {
        Term::Fun(symbol) => {
            if let Some(need) = system.need(*symbol) {
                found.push(Call {
                    conditions: Vec::from_slice(alloc, around.conditions)?,
                    binders: Vec::from_slice(alloc, around.binders)?,
                    symbol: *symbol,
                    need,
                    arguments: Vec::from_slice(alloc, spine.arguments.as_slice())?,
                })?;
            }
            Ok(())
        }
        Term::Lam(kind, body) => {
            let inner = with_binder(alloc, around.binders, kind)?;
            let here = Around {
                conditions: around.conditions,
                binders: inner.as_slice(),
            };
            add_calls(alloc, system, &here, body, found)
        }
        Term::Meta(meta, items) => add_within(alloc, system, around, *meta, items, found),
        Term::Bound(_) => Ok(()),
        Term::Free(_, _) => Ok(()),
        Term::App(_, _) => unreachable!(),
    }
}

// Adds the calls in each argument of a spine.
#[cycle(calls)]
fn add_each<'a>(
    alloc: Global,
    system: &System,
    around: &Around<'a, '_>,
    arguments: &[&'a Term],
    found: &mut Vec<Call<'a>>,
) -> Result<(), AllocError>
    requires { AllSymbolsBelow (length (system_data system.now).fun_names) (tms_of (trees arguments.now)) }
    ensures { OnOk result (map call_data found.new.items ≡ map call_data found.old.items ++ calls_each (system_data system.now).rules
        (map within around.now.conditions.now) (scope around.now.binders.now) (trees arguments.now)) }
{
    for argument in arguments {
        add_calls(alloc, system, around, argument, found)?;
    }
    Ok(())
}

// Adds the calls in each argument of a meta-variable. That a call stands within that argument is one more of its
// conditions.
#[cycle(calls)]
fn add_within<'a>(
    alloc: Global,
    system: &System,
    around: &Around<'a, '_>,
    meta: u32,
    items: &'a Terms,
    found: &mut Vec<Call<'a>>,
) -> Result<(), AllocError>
    requires { AllSymbolsBelow (length (system_data system.now).fun_names) (tms items.now) }
    ensures { OnOk result (map call_data found.new.items ≡ map call_data found.old.items ++ calls_within (system_data system.now).rules
        (map within around.now.conditions.now) (scope around.now.binders.now) meta 1 (tms items.now)) }
{
    for (i, item) in items.as_slice().iter().enumerate() {
        let added = Condition {
            meta,
            place: sum(counted(i)?, 1)?,
        };
        let inner = with_condition(alloc, around.conditions, added)?;
        let here = Around {
            conditions: inner.as_slice(),
            binders: around.binders,
        };
        add_calls(alloc, system, &here, item, found)?;
    }
    Ok(())
}

// The types of the binders, the outermost first, and a further one within them.
fn with_binder<'a>(
    alloc: Global,
    binders: &[&'a SimpleType],
    kind: &'a SimpleType,
) -> Result<Vec<&'a SimpleType>, AllocError>
    ensures { IfOk result (λ inner. scope inner.items ≡ ty kind.now ∷ scope binders.now) }
{
    let mut inner = Vec::from_slice(alloc, binders)?;
    inner.push(kind)?;
    Ok(inner)
}
