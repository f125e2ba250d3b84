//! Each report can be read back: its numbers have 32 or 64 bits and its names are spelled as names, since their types
//! say so. The main function is `report_stands`; the functions do nothing when they run.

ghost use Rattle.std.specs.Prelude.{◌<◌, ◌^◌};
ghost use Rattle.wh_text.specs.Words.{IsWord};
ghost use Rattle.wh_answer.specs.Groups.{OfLine, OfNode};
ghost use Rattle.wh_answer.specs.Stands.{AllShort, AllWords, CauseStands, Long, RowStands, Short, Stands};

use wh_answer::{NamedCause, NamedRejection, Report};
use wh_text::Name;
use wh_types::List;

/// Each report is one that `read_answer` gives where it is given the report's line: no number and no name of it is one
/// that no line has.
pub fn report_stands(report: &Report)
    ensures { Stands report.now }
{
    match report {
        Report::Yes
        | Report::No
        | Report::BadWords
        | Report::ReadFault(_)
        | Report::OutOfMemory
        | Report::TooLong(_) => {}
        Report::Rejected(row) => row_stands(row),
        Report::Maybe(cause) => cause_stands(cause),
        Report::Refused(_, at) => short(*at),
        Report::Overflow(node) | Report::TooLarge(node) => short(*node),
    }
}

// Each reason for rejecting a certificate is one that can be read back.
fn row_stands(row: &NamedRejection)
    ensures { RowStands row.now }
{
    match row {
        NamedRejection::Syntax { at } => long(*at),
        NamedRejection::RankCount
        | NamedRejection::NotATerm
        | NamedRejection::NoStep
        | NamedRejection::NoInstance => {}
        NamedRejection::Inaccessible { rule, meta } => numbered_word(*rule, meta),
        NamedRejection::PairCount { pairs } => short(*pairs),
        NamedRejection::StepFails { index }
        | NamedRejection::TooBig { index }
        | NamedRejection::BadPut { index } => short(*index),
        _ => node_stands(row),
    }
}

// Each fault of a node is one that can be read back.
fn node_stands(row: &NamedRejection)
    requires { OfNode row.now }
    ensures { RowStands row.now }
{
    match row {
        NamedRejection::NotEmpty { node }
        | NamedRejection::NotOne { node }
        | NamedRejection::FewBlocks { node }
        | NamedRejection::BadArgs { node }
        | NamedRejection::BadDrop { node }
        | NamedRejection::BadUsable { node }
        | NamedRejection::BadSymbols { node }
        | NamedRejection::BadLines { node } => short(*node),
        NamedRejection::Loops { node, pair }
        | NamedRejection::NotPartition { node, pair }
        | NamedRejection::NotDecreasing { node, pair }
        | NamedRejection::NotClosedPair { node, pair }
        | NamedRejection::TooWidePair { node, pair }
        | NamedRejection::NotStrict { node, pair } => two(*node, *pair),
        NamedRejection::NotClosedRule { node, rule } | NamedRejection::TooWideRule { node, rule } =>
            two(*node, *rule),
        NamedRejection::BackEdge { node, a, b } => three(*node, *a, *b),
        NamedRejection::NoProjection { node, symbol }
        | NamedRejection::BadArgument { node, symbol }
        | NamedRejection::BadPolynomial { node, symbol, .. }
        | NamedRejection::BadFilter { node, symbol, .. } => numbered_word(*node, symbol),
        _ => line_stands(row),
    }
}

// Each fault of a line of a node is one that can be read back.
fn line_stands(row: &NamedRejection)
    requires { OfLine row.now }
    ensures { RowStands row.now }
{
    match row {
        NamedRejection::BadMoveRule { node, rule, entry }
        | NamedRejection::BadInferenceRule { node, rule, entry } => three(*node, *rule, *entry),
        NamedRejection::OverSpentRule {
            node,
            rule,
            monomial,
        }
        | NamedRejection::NotCoveredRule {
            node,
            rule,
            monomial,
        } => three(*node, *rule, *monomial),
        NamedRejection::BadMovePair { node, pair, entry }
        | NamedRejection::BadInferencePair { node, pair, entry } => three(*node, *pair, *entry),
        NamedRejection::OverSpentPair {
            node,
            pair,
            monomial,
        }
        | NamedRejection::NotCoveredPair {
            node,
            pair,
            monomial,
        } => three(*node, *pair, *monomial),
        _ => {}
    }
}

// Each cause, why no certificate was found, is one that can be read back.
fn cause_stands(cause: &NamedCause)
    ensures { CauseStands cause.now }
{
    match cause {
        NamedCause::Sorts(names) => all_words(names.as_slice()),
        NamedCause::Meta { rule, name } => numbered_word(*rule, name),
        NamedCause::Stuck(pairs) => all_short(pairs.as_slice()),
        NamedCause::Spent { count, .. } => long(*count),
    }
}

// A number of 32 bits is below 2^32.
fn short(number: u32)
    ensures { Short number }
{
    let _ = number;
}

// A number of 64 bits is below 2^64.
fn long(number: u64)
    ensures { Long number }
{
    let _ = number;
}

// Two such numbers.
fn two(first: u32, second: u32)
    ensures { Short first × Short second }
{
    short(first);
    short(second);
}

// Three such numbers.
fn three(first: u32, second: u32, third: u32)
    ensures { Short first × Short second × Short third }
{
    short(first);
    two(second, third);
}

// A name is spelled as one.
fn word(name: &Name)
    ensures { IsWord name.now }
{
    let _ = name.bytes();
}

// A number and a name.
fn numbered_word(number: u32, name: &Name)
    ensures { Short number × IsWord name.now }
{
    short(number);
    word(name);
}

// Numbers of 32 bits.
fn all_short(numbers: &[u32])
    ensures { AllShort numbers.now }
{
    match numbers {
        [first, rest @ ..] => {
            short(*first);
            all_short(rest);
        }
        [] => {}
    }
}

// Names, each spelled as one.
fn all_words(names: &[Name])
    ensures { AllWords names.now }
{
    match names {
        [first, rest @ ..] => {
            word(first);
            all_words(rest);
        }
        [] => {}
    }
}
