//! Rejections with the names of symbols and meta-variables in place of their numbers.

ghost use Rattle.std.specs.Prelude.{◌≡◌, ◌<◌, IfOk, length};
ghost use Rattle.wh_system.specs.SystemView.{system_data};
ghost use Rattle.wh_top_naming.specs.Rows.{meta_name, named_row, symbol_name};
ghost use Rattle.wh_checker.specs.Named.{HasMeta, NamesAreThere};

use std::alloc::{AllocError, Global};
use wh_answer::NamedRejection;
use wh_checker::Rejected;
use wh_system::System;
use wh_text::Name;

/// The rejection with names. The symbols and meta-variables that it names must be there, as they are in each rejection
/// of the check.
pub fn named_rejection(
    alloc: Global,
    system: &System,
    rejected: &Rejected,
) -> Result<NamedRejection, AllocError>
    requires { NamesAreThere (system_data system.now) rejected.now }
    ensures { IfOk result (λ named. named ≡ named_row (system_data system.now) rejected.now) }
{
    let named = match *rejected {
        Rejected::Inaccessible { rule, meta } => NamedRejection::Inaccessible {
            rule,
            meta: meta_name(alloc, system, rule, meta)?,
        },
        Rejected::NoProjection { node, symbol } => NamedRejection::NoProjection {
            node,
            symbol: symbol_name(alloc, system, symbol)?,
        },
        Rejected::BadArgument { node, symbol } => NamedRejection::BadArgument {
            node,
            symbol: symbol_name(alloc, system, symbol)?,
        },
        Rejected::BadPolynomial {
            node,
            symbol,
            marked,
        } => NamedRejection::BadPolynomial {
            node,
            symbol: symbol_name(alloc, system, symbol)?,
            marked,
        },
        Rejected::BadFilter {
            node,
            symbol,
            marked,
        } => NamedRejection::BadFilter {
            node,
            symbol: symbol_name(alloc, system, symbol)?,
            marked,
        },
        Rejected::RankCount => NamedRejection::RankCount,
        Rejected::PairCount { pairs } => NamedRejection::PairCount { pairs },
        Rejected::NotEmpty { node } => NamedRejection::NotEmpty { node },
        Rejected::NotOne { node } => NamedRejection::NotOne { node },
        Rejected::Loops { node, pair } => NamedRejection::Loops { node, pair },
        Rejected::FewBlocks { node } => NamedRejection::FewBlocks { node },
        Rejected::NotPartition { node, pair } => NamedRejection::NotPartition { node, pair },
        Rejected::BackEdge { node, a, b } => NamedRejection::BackEdge { node, a, b },
        Rejected::BadArgs { node } => NamedRejection::BadArgs { node },
        Rejected::BadDrop { node } => NamedRejection::BadDrop { node },
        Rejected::NotDecreasing { node, pair } => NamedRejection::NotDecreasing { node, pair },
        Rejected::BadUsable { node } => NamedRejection::BadUsable { node },
        Rejected::BadSymbols { node } => NamedRejection::BadSymbols { node },
        Rejected::BadLines { node } => NamedRejection::BadLines { node },
        Rejected::BadMoveRule { node, rule, entry } => NamedRejection::BadMoveRule {
            node,
            rule,
            entry,
        },
        Rejected::OverSpentRule {
            node,
            rule,
            monomial,
        } => NamedRejection::OverSpentRule {
            node,
            rule,
            monomial,
        },
        Rejected::NotCoveredRule {
            node,
            rule,
            monomial,
        } => NamedRejection::NotCoveredRule {
            node,
            rule,
            monomial,
        },
        Rejected::BadMovePair { node, pair, entry } => NamedRejection::BadMovePair {
            node,
            pair,
            entry,
        },
        Rejected::OverSpentPair {
            node,
            pair,
            monomial,
        } => NamedRejection::OverSpentPair {
            node,
            pair,
            monomial,
        },
        Rejected::NotCoveredPair {
            node,
            pair,
            monomial,
        } => NamedRejection::NotCoveredPair {
            node,
            pair,
            monomial,
        },
        Rejected::NotClosedRule { node, rule } => NamedRejection::NotClosedRule { node, rule },
        Rejected::NotClosedPair { node, pair } => NamedRejection::NotClosedPair { node, pair },
        Rejected::TooWideRule { node, rule } => NamedRejection::TooWideRule { node, rule },
        Rejected::TooWidePair { node, pair } => NamedRejection::TooWidePair { node, pair },
        Rejected::BadInferenceRule { node, rule, entry } => NamedRejection::BadInferenceRule {
            node,
            rule,
            entry,
        },
        Rejected::BadInferencePair { node, pair, entry } => NamedRejection::BadInferencePair {
            node,
            pair,
            entry,
        },
        Rejected::NotStrict { node, pair } => NamedRejection::NotStrict { node, pair },
        Rejected::NotATerm => NamedRejection::NotATerm,
        Rejected::NoStep => NamedRejection::NoStep,
        Rejected::StepFails { index } => NamedRejection::StepFails { index },
        Rejected::TooBig { index } => NamedRejection::TooBig { index },
        Rejected::BadPut { index } => NamedRejection::BadPut { index },
        Rejected::NoInstance => NamedRejection::NoInstance,
    };
    Ok(named)
}

// The name of a symbol.
fn symbol_name(alloc: Global, system: &System, symbol: u32) -> Result<Name, AllocError>
    requires { symbol < length (system_data system.now).fun_names }
    ensures { IfOk result (λ name. name ≡ symbol_name (system_data system.now) symbol) }
{
    Name::new(alloc, system.fun_names()[symbol as usize].bytes())
}

/// The name of a meta-variable of a rule.
pub fn meta_name(alloc: Global, system: &System, rule: u32, meta: u32) -> Result<Name, AllocError>
    requires { HasMeta (system_data system.now) rule meta }
    ensures { IfOk result (λ name. name ≡ meta_name (system_data system.now) rule meta) }
{
    system.is_well_made();
    Name::new(alloc, system.meta_names(rule)[meta as usize].bytes())
}
