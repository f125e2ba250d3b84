//! Printing dependency pairs, as `show` lists them behind the system.

ghost use Rattle.std.specs.Prelude.{◌≡◌, ◌<◌, ◌∷◌, IfOk, OnOk, All, Contains, length, map};
ghost use Rattle.wh_terms.specs.Erase.{tm};
ghost use Rattle.wh_text.specs.Pushes.{Pushes};
ghost use Rattle.wh_system.specs.Canonical.{IsNamedBelow};
ghost use Rattle.wh_pairs.specs.PairData.{PairData, within, pair_data};
ghost use Rattle.wh_system.specs.SystemView.{system_data};
ghost use Rattle.wh_pairs.specs.Candidates.{candidates};
ghost use Rattle.wh_pairs.specs.Subsumption.{ArePairs};
ghost use Rattle.wh_pairs.specs.Views.{pairs_data};
ghost use Rattle.wh_system_print.specs.Named.{IsNamedPair};
ghost use Rattle.wh_system_print.specs.PairText.{put_marked, put_each, put_side, put_conditions, put_if, put_pair, put_pairs, pairs_text};
ghost use Rattle.wh_system_print.specs.NameViews.{printed_names};

use crate::names::{PrintedNames, names_of_pair, print_meta};
use crate::terms::print_tree;
use std::alloc::{AllocError, Global};
use wh_pairs::{Condition, Pair, PairList};
use wh_system::System;
use wh_terms::{Term, Terms};
use wh_text::print_number;
use wh_types::{Bytes, counted};

/// The text of the dependency pairs of a system: their number, and a line for each, with the number of the pair, the
/// number of its rule, its sides and its conditions. Pairs and rules are counted from 0, as is each fresh meta-variable
/// of a pair.
pub fn print_pairs(alloc: Global, system: &System, pairs: &PairList) -> Result<Bytes, AllocError>
    requires { ArePairs (candidates (system_data system.now).symbols (system_data system.now).rules) (pairs_data pairs.now) }
    ensures { IfOk result (λ text. text ≡ pairs_text (system_data system.now) (pairs_data pairs.now)) }
{
    let mut out = Bytes::new(alloc);
    out.append(b"PAIRS ")?;
    print_number(&mut out, counted(pairs.as_slice().len())?)?;
    out.push(b'\n')?;
    print_lines(&mut out, system, pairs.as_slice())?;
    Ok(out)
}

// The lines of the pairs.
fn print_lines(out: &mut Bytes, system: &System, pairs: &[Pair]) -> Result<(), AllocError>
    requires { (p : PairData) → Contains (pairs_data pairs.now) p → IsNamedPair (system_data system.now) p }
    ensures { OnOk result (Pushes out.old out.new (put_pairs (system_data system.now) 0 (pairs_data pairs.now))) }
{
    for (k, pair) in pairs.iter().enumerate() {
        print_pair(out, system, counted(k)?, pair)?;
    }
    Ok(())
}

// The line of the pair with the number `k`.
fn print_pair(out: &mut Bytes, system: &System, k: u32, pair: &Pair) -> Result<(), AllocError>
    requires { IsNamedPair (system_data system.now) (pair_data pair.now) }
    ensures { OnOk result (Pushes out.old out.new (put_pair (system_data system.now) k (pair_data pair.now))) }
{
    let names = names_of_pair(system, pair)?;
    out.append(b"pair ")?;
    print_number(out, k)?;
    out.append(b" rule ")?;
    print_number(out, pair.rule)?;
    out.push(b' ')?;
    print_side(out, &names, pair.left_fun, &pair.left)?;
    out.append(b" => ")?;
    print_side(out, &names, pair.right_fun, &pair.right)?;
    print_if(out, &names, pair.conditions.as_slice())?;
    out.push(b'\n')
}

// A side: `(f# a1 a2)`, or `f#` without arguments.
fn print_side(
    out: &mut Bytes,
    names: &PrintedNames<'_>,
    fun: u32,
    arguments: &Terms,
) -> Result<(), AllocError>
    requires symbol { fun < length (printed_names names.now).funs }
    requires arguments { All (IsNamedBelow (printed_names names.now) 0) (map tm arguments.now) }
    ensures { OnOk result (Pushes out.old out.new (put_side (printed_names names.now) fun (map tm arguments.now))) }
{
    if arguments.as_slice().is_empty() {
        return print_marked(out, names, fun);
    }
    out.push(b'(')?;
    print_marked(out, names, fun)?;
    print_arguments(out, names, arguments.as_slice())?;
    out.push(b')')
}

// A symbol that is marked: its name and `#`.
fn print_marked(out: &mut Bytes, names: &PrintedNames<'_>, fun: u32) -> Result<(), AllocError>
    requires { fun < length (printed_names names.now).funs }
    ensures { OnOk result (Pushes out.old out.new (put_marked (printed_names names.now) fun)) }
{
    out.append(names.funs[fun as usize].bytes())?;
    out.push(b'#')
}

// Arguments, each behind a space.
fn print_arguments(
    out: &mut Bytes,
    names: &PrintedNames<'_>,
    arguments: &[Term],
) -> Result<(), AllocError>
    requires { All (IsNamedBelow (printed_names names.now) 0) (map tm arguments.now) }
    ensures { OnOk result (Pushes out.old out.new (put_each (printed_names names.now) (map tm arguments.now))) }
{
    for argument in arguments {
        out.push(b' ')?;
        print_tree(out, names, argument, 0)?;
    }
    Ok(())
}

// ` if` and the conditions, where there are any.
fn print_if(
    out: &mut Bytes,
    names: &PrintedNames<'_>,
    conditions: &[Condition],
) -> Result<(), AllocError>
    requires { All (λ c. c.meta < length (printed_names names.now).metas) (map within conditions.now) }
    ensures { OnOk result (Pushes out.old out.new (put_if (printed_names names.now) (map within conditions.now))) }
{
    if conditions.is_empty() {
        return Ok(());
    }
    out.append(b" if")?;
    print_conditions(out, names, conditions)
}

// Conditions, each behind a space: the name of the meta-variable, `:` and the place.
fn print_conditions(
    out: &mut Bytes,
    names: &PrintedNames<'_>,
    conditions: &[Condition],
) -> Result<(), AllocError>
    requires { All (λ c. c.meta < length (printed_names names.now).metas) (map within conditions.now) }
    ensures { OnOk result (Pushes out.old out.new (put_conditions (printed_names names.now) (map within conditions.now))) }
{
    for condition in conditions {
        out.push(b' ')?;
        print_meta(out, names, condition.meta)?;
        out.push(b':')?;
        print_number(out, condition.place)?;
    }
    Ok(())
}
