//! Reading why a certificate is rejected from the words of a line.

ghost use Rattle.std.specs.Prelude.{◌≡◌, ◌∷◌, ◌++◌, [], ℕ, codes, IfOk};
ghost use Rattle.std.specs.Fmt.{decimal};
ghost use Rattle.wh_text.specs.Words.{IsWord};
ghost use Rattle.wh_answer.specs.Stands.{Reads, RowStands, Short};
ghost use Rattle.wh_answer.specs.Words.{at_node, row_words};
ghost use Rattle.wh_answer_reader.specs.Seen.{seen};

use crate::words::{name_of, short_number, unmarked};
use std::alloc::{AllocError, Global};
use wh_answer::{NamedRejection as Row, long_number};
use wh_text::Name;

/// The reason with these words.
pub fn read_row(alloc: Global, words: &[&str]) -> Result<Option<Row>, AllocError>
    ensures { IfOk result (Reads RowStands row_words (seen words.now)) }
{
    match words {
        [] => Ok(None),
        [word] => Ok(bare_row(word)),
        [front, number, rest @ ..] => long_row(alloc, front, number, rest),
    }
}

// A word alone.
fn bare_row(word: &str) -> Option<Row>
    ensures { Reads RowStands row_words (word.now ∷ []) result }
{
    match word {
        "rank-count" => Some(Row::RankCount),
        "term" => Some(Row::NotATerm),
        "no-step" => Some(Row::NoStep),
        "no-instance" => Some(Row::NoInstance),
        _ => None,
    }
}

// A word and a number.
fn counted_row(word: &str, number: &str) -> Option<Row>
    ensures { Reads RowStands row_words (word.now ∷ number.now ∷ []) result }
{
    match short_number(number) {
        Some(number) => short_row(word, number),
        None => place_row(word, number),
    }
}

// A word and a number below 2^32.
fn short_row(word: &str, number: u32) -> Option<Row>
    ensures { Reads RowStands row_words (word.now ∷ decimal number ∷ []) result }
{
    match word {
        "syntax" => Some(Row::Syntax {
            at: u64::from(number),
        }),
        "pair-count" => Some(Row::PairCount { pairs: number }),
        "step" => Some(Row::StepFails { index: number }),
        "too-big" => Some(Row::TooBig { index: number }),
        "put" => Some(Row::BadPut { index: number }),
        _ => None,
    }
}

// The place of a fault that is no number below 2^32.
fn place_row(word: &str, number: &str) -> Option<Row>
    requires { (n : ℕ) → Short n → decimal n ≡ number.now → ⊥ }
    ensures { Reads RowStands row_words (word.now ∷ number.now ∷ []) result }
{
    if word != "syntax" {
        return None;
    }
    match long_number(number) {
        Some(at) => Some(Row::Syntax { at }),
        None => None,
    }
}

// Two words and more.
fn long_row(
    alloc: Global,
    front: &str,
    number: &str,
    rest: &[&str],
) -> Result<Option<Row>, AllocError>
    ensures { IfOk result (Reads RowStands row_words (front.now ∷ number.now ∷ seen rest.now)) }
{
    match front {
        "node" => node_row(alloc, number, rest),
        "inaccessible" => inaccessible(alloc, number, rest),
        _ => match rest {
            [] => Ok(counted_row(front, number)),
            _ => Ok(None),
        },
    }
}

// A rule and one of its meta-variables.
fn inaccessible(alloc: Global, number: &str, rest: &[&str]) -> Result<Option<Row>, AllocError>
    ensures { IfOk result (Reads RowStands row_words (codes "inaccessible" ∷ number.now ∷ seen rest.now)) }
{
    let Some(rule) = short_number(number) else {
        return Ok(None);
    };
    match rest {
        [name] => match name_of(alloc, name.as_bytes())? {
            Some(meta) => Ok(Some(Row::Inaccessible { rule, meta })),
            None => Ok(None),
        },
        _ => Ok(None),
    }
}

// The reason that words about a node say.
fn node_row(alloc: Global, number: &str, rest: &[&str]) -> Result<Option<Row>, AllocError>
    ensures { IfOk result (Reads RowStands row_words (codes "node" ∷ number.now ∷ seen rest.now)) }
{
    let Some(node) = short_number(number) else {
        return Ok(None);
    };
    match rest {
        [word] => Ok(plain_row(node, word)),
        [word, last] => last_row(alloc, node, word, last),
        [word, first, second] => Ok(two_row(node, word, first, second)),
        [word, kind, first, second] => Ok(line_row(node, word, kind, first, second)),
        _ => Ok(None),
    }
}

// A node and a word.
fn plain_row(node: u32, word: &str) -> Option<Row>
    ensures { Reads RowStands row_words (at_node node (word.now ∷ [])) result }
{
    match word {
        "not-empty" => Some(Row::NotEmpty { node }),
        "not-one" => Some(Row::NotOne { node }),
        "few-blocks" => Some(Row::FewBlocks { node }),
        "bad-args" => Some(Row::BadArgs { node }),
        "bad-drop" => Some(Row::BadDrop { node }),
        "bad-usable" => Some(Row::BadUsable { node }),
        "bad-symbols" => Some(Row::BadSymbols { node }),
        "bad-lines" => Some(Row::BadLines { node }),
        _ => None,
    }
}

// A node, a word, and a number or a name.
fn last_row(alloc: Global, node: u32, word: &str, last: &str) -> Result<Option<Row>, AllocError>
    ensures { IfOk result (Reads RowStands row_words (at_node node (word.now ∷ last.now ∷ []))) }
{
    if let Some(number) = short_number(last) {
        return Ok(number_row(node, word, number));
    }
    match name_of(alloc, last.as_bytes())? {
        Some(name) => Ok(symbol_row(node, word, name)),
        None => marked_row(alloc, node, word, last),
    }
}

// A node, a word and a number.
fn number_row(node: u32, word: &str, pair: u32) -> Option<Row>
    ensures { Reads RowStands row_words (at_node node (word.now ∷ decimal pair ∷ [])) result }
{
    match word {
        "loops" => Some(Row::Loops { node, pair }),
        "not-partition" => Some(Row::NotPartition { node, pair }),
        "not-decreasing" => Some(Row::NotDecreasing { node, pair }),
        _ => None,
    }
}

// A node, a word and the name of a symbol.
fn symbol_row(node: u32, word: &str, symbol: Name) -> Option<Row>
    requires { IsWord symbol }
    ensures { Reads RowStands row_words (at_node node (word.now ∷ symbol ∷ [])) result }
{
    match word {
        "no-projection" => Some(Row::NoProjection { node, symbol }),
        "bad-argument" => Some(Row::BadArgument { node, symbol }),
        "bad-polynomial" => Some(Row::BadPolynomial {
            node,
            symbol,
            marked: false,
        }),
        "bad-filter" => Some(Row::BadFilter {
            node,
            symbol,
            marked: false,
        }),
        _ => None,
    }
}

// A node, a word and the name of a marked symbol.
fn marked_row(alloc: Global, node: u32, word: &str, last: &str) -> Result<Option<Row>, AllocError>
    requires number { (n : ℕ) → Short n → decimal n ≡ last.now → ⊥ }
    requires name { IsWord last.now → ⊥ }
    ensures { IfOk result (Reads RowStands row_words (at_node node (word.now ∷ last.now ∷ []))) }
{
    let Some(name) = unmarked(last.as_bytes()) else {
        return Ok(None);
    };
    match name_of(alloc, name)? {
        Some(symbol) => Ok(marked_symbol_row(node, word, symbol)),
        None => Ok(None),
    }
}

// A node, a word and the name of a symbol that is marked.
fn marked_symbol_row(node: u32, word: &str, symbol: Name) -> Option<Row>
    requires { IsWord symbol }
    ensures { Reads RowStands row_words (at_node node (word.now ∷ (symbol ++ codes "#") ∷ [])) result }
{
    match word {
        "bad-polynomial" => Some(Row::BadPolynomial {
            node,
            symbol,
            marked: true,
        }),
        "bad-filter" => Some(Row::BadFilter {
            node,
            symbol,
            marked: true,
        }),
        _ => None,
    }
}

// A node, a word and two more.
fn two_row(node: u32, word: &str, first: &str, second: &str) -> Option<Row>
    ensures { Reads RowStands row_words (at_node node (word.now ∷ first.now ∷ second.now ∷ [])) result }
{
    let b = short_number(second)?;
    match word {
        "back-edge" => {
            let a = short_number(first)?;
            Some(Row::BackEdge { node, a, b })
        }
        "not-strict" => {
            if first == "pair" {
                Some(Row::NotStrict { node, pair: b })
            } else {
                None
            }
        }
        "not-closed" => match first {
            "rule" => Some(Row::NotClosedRule { node, rule: b }),
            "pair" => Some(Row::NotClosedPair { node, pair: b }),
            _ => None,
        },
        "too-wide" => match first {
            "rule" => Some(Row::TooWideRule { node, rule: b }),
            "pair" => Some(Row::TooWidePair { node, pair: b }),
            _ => None,
        },
        _ => None,
    }
}

// A node, a word, and the line of a rule or of a pair with a number in it.
fn line_row(node: u32, word: &str, kind: &str, first: &str, second: &str) -> Option<Row>
    ensures { Reads RowStands row_words (at_node node (word.now ∷ kind.now ∷ first.now ∷ second.now ∷ [])) result }
{
    let first = short_number(first)?;
    let second = short_number(second)?;
    match kind {
        "rule" => rule_row(node, word, first, second),
        "pair" => pair_row(node, word, first, second),
        _ => None,
    }
}

// The line of a rule.
fn rule_row(node: u32, word: &str, rule: u32, number: u32) -> Option<Row>
    ensures { Reads RowStands row_words (at_node node (word.now ∷ codes "rule" ∷ decimal rule ∷ decimal number ∷ [])) result }
{
    match word {
        "bad-move" => Some(Row::BadMoveRule {
            node,
            rule,
            entry: number,
        }),
        "over-spent" => Some(Row::OverSpentRule {
            node,
            rule,
            monomial: number,
        }),
        "not-covered" => Some(Row::NotCoveredRule {
            node,
            rule,
            monomial: number,
        }),
        "bad-inference" => Some(Row::BadInferenceRule {
            node,
            rule,
            entry: number,
        }),
        _ => None,
    }
}

// The line of a pair.
fn pair_row(node: u32, word: &str, pair: u32, number: u32) -> Option<Row>
    ensures { Reads RowStands row_words (at_node node (word.now ∷ codes "pair" ∷ decimal pair ∷ decimal number ∷ [])) result }
{
    match word {
        "bad-move" => Some(Row::BadMovePair {
            node,
            pair,
            entry: number,
        }),
        "over-spent" => Some(Row::OverSpentPair {
            node,
            pair,
            monomial: number,
        }),
        "not-covered" => Some(Row::NotCoveredPair {
            node,
            pair,
            monomial: number,
        }),
        "bad-inference" => Some(Row::BadInferencePair {
            node,
            pair,
            entry: number,
        }),
        _ => None,
    }
}
