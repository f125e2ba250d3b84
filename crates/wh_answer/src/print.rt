//! The line of each answer, printed word by word: a builder gives a text, and the next word goes behind it. The main
//! function is `print_answer`; the lines of two answers are there without memory.

ghost use Rattle.std.specs.Prelude.{◌≡◌, IfOk, OnOk};
ghost use Rattle.wh_answer.specs.Texts.{all_named, all_numbered, cause_text, finder_word, line, named, numbered, of_node, of_pair, of_rule, reason_word, rejection_text, report_text, role_word, symbol_word};
ghost use Rattle.wh_answer.specs.Groups.{OfLine, OfNode};
ghost use Rattle.wh_answer.specs.declared.report.Report.TheVariants.{BadWords, OutOfMemory, Refused};
ghost use Rattle.wh_answer.specs.declared.report.NamedRejection.TheVariants.{BackEdge};

use crate::names::Names;
use crate::report::{NamedCause, NamedFinder, NamedRejection as Row, ReasonWord, Report, Role};
use std::alloc::{AllocError, Global};
use wh_text::Name;
use wh_types::{Bytes, Numbers};

/// The line that says that the words are none of the program's.
pub fn bad_words_line() -> &'static [u8]
    ensures { result.now ≡ report_text BadWords }
{
    b"BAD WORDS\n"
}

/// The line that says that there was no memory.
pub fn out_of_memory_line() -> &'static [u8]
    ensures { result.now ≡ report_text OutOfMemory }
{
    b"OUT OF MEMORY\n"
}

/// The line of the answer.
pub fn print_answer(alloc: Global, report: &Report) -> Result<Bytes, AllocError>
    ensures { IfOk result (λ text. text ≡ report_text report.now) }
{
    match report {
        Report::Yes => fixed(alloc, b"YES\n"),
        Report::No => fixed(alloc, b"NO\n"),
        Report::Rejected(row) => named_line(alloc, b"REJECTED", row_words(alloc, row)?),
        Report::Maybe(cause) => named_line(alloc, b"MAYBE", cause_words(alloc, cause)?),
        Report::Refused(reason, at) => refused_line(alloc, *reason, *at),
        Report::BadWords => fixed(alloc, bad_words_line()),
        Report::ReadFault(role) => role_line(alloc, b"READ FAULT", *role),
        Report::OutOfMemory => fixed(alloc, out_of_memory_line()),
        Report::TooLong(role) => role_line(alloc, b"TOO LONG", *role),
        Report::Overflow(node) => numbered_line(alloc, b"OVERFLOW", *node),
        Report::TooLarge(node) => numbered_line(alloc, b"TOO LARGE", *node),
    }
}

// A text that is always the same.
fn fixed(alloc: Global, front: &[u8]) -> Result<Bytes, AllocError>
    ensures { IfOk result (λ text. text ≡ front.now) }
{
    let mut text = Bytes::new(alloc);
    text.append(front)?;
    Ok(text)
}

// A word behind a space.
fn put_word(text: &mut Bytes, word: &[u8]) -> Result<(), AllocError>
    ensures { OnOk result (text.new ≡ named text.old word.now) }
{
    text.push(b' ')?;
    text.append(word)
}

// A number behind a space.
fn put_number(alloc: Global, text: &mut Bytes, number: u64) -> Result<(), AllocError>
    ensures { OnOk result (text.new ≡ numbered text.old number) }
{
    let digits = format!(in alloc; " {number}")?;
    text.append(digits.as_bytes())
}

// The line that ends with these words.
fn named_line(alloc: Global, front: &[u8], words: Bytes) -> Result<Bytes, AllocError>
    ensures { IfOk result (λ text. text ≡ line (named front.now words)) }
{
    let mut line = fixed(alloc, front)?;
    put_word(&mut line, words.as_slice())?;
    line.push(b'\n')?;
    Ok(line)
}

// The line that ends with this number.
fn numbered_line(alloc: Global, front: &[u8], number: u32) -> Result<Bytes, AllocError>
    ensures { IfOk result (λ text. text ≡ line (numbered front.now number)) }
{
    let mut line = numbered(alloc, front, u64::from(number))?;
    line.push(b'\n')?;
    Ok(line)
}

// The line that ends with the word for a file.
fn role_line(alloc: Global, front: &[u8], role: Role) -> Result<Bytes, AllocError>
    ensures { IfOk result (λ text. text ≡ line (named front.now (role_word role))) }
{
    let mut line = named(alloc, front, role_word(role))?;
    line.push(b'\n')?;
    Ok(line)
}

// The line of a system that is refused.
fn refused_line(alloc: Global, reason: ReasonWord, at: u32) -> Result<Bytes, AllocError>
    ensures { IfOk result (λ text. text ≡ report_text (Refused reason at)) }
{
    let mut line = named(alloc, b"REFUSED", reason_word(reason))?;
    put_number(alloc, &mut line, u64::from(at))?;
    line.push(b'\n')?;
    Ok(line)
}

// A text, and a number behind it.
fn numbered(alloc: Global, front: &[u8], number: u64) -> Result<Bytes, AllocError>
    ensures { IfOk result (λ text. text ≡ numbered front.now number) }
{
    let mut text = fixed(alloc, front)?;
    put_number(alloc, &mut text, number)?;
    Ok(text)
}

// A text, and a word behind it.
fn named(alloc: Global, front: &[u8], word: &[u8]) -> Result<Bytes, AllocError>
    ensures { IfOk result (λ text. text ≡ named front.now word.now) }
{
    let mut text = fixed(alloc, front)?;
    put_word(&mut text, word)?;
    Ok(text)
}

// What stands behind `REJECTED`.
fn row_words(alloc: Global, row: &Row) -> Result<Bytes, AllocError>
    ensures { IfOk result (λ text. text ≡ rejection_text row.now) }
{
    match row {
        Row::Syntax { at } => numbered(alloc, b"syntax", *at),
        Row::RankCount => fixed(alloc, b"rank-count"),
        Row::Inaccessible { rule, meta } => {
            let mut text = numbered(alloc, b"inaccessible", u64::from(*rule))?;
            put_word(&mut text, meta.bytes())?;
            Ok(text)
        }
        Row::PairCount { pairs } => numbered(alloc, b"pair-count", u64::from(*pairs)),
        Row::NotATerm => fixed(alloc, b"term"),
        Row::NoStep => fixed(alloc, b"no-step"),
        Row::StepFails { index } => numbered(alloc, b"step", u64::from(*index)),
        Row::TooBig { index } => numbered(alloc, b"too-big", u64::from(*index)),
        Row::BadPut { index } => numbered(alloc, b"put", u64::from(*index)),
        Row::NoInstance => fixed(alloc, b"no-instance"),
        _ => node_words(alloc, row),
    }
}

// The words about a node.
fn node_words(alloc: Global, row: &Row) -> Result<Bytes, AllocError>
    requires { OfNode row.now }
    ensures { IfOk result (λ text. text ≡ rejection_text row.now) }
{
    match row {
        Row::NotEmpty { node } => of_node(alloc, *node, b"not-empty"),
        Row::NotOne { node } => of_node(alloc, *node, b"not-one"),
        Row::Loops { node, pair } => node_number(alloc, *node, b"loops", *pair),
        Row::FewBlocks { node } => of_node(alloc, *node, b"few-blocks"),
        Row::NotPartition { node, pair } => node_number(alloc, *node, b"not-partition", *pair),
        Row::BackEdge { node, a, b } => back_edge(alloc, *node, *a, *b),
        Row::BadArgs { node } => of_node(alloc, *node, b"bad-args"),
        Row::NoProjection { node, symbol } => node_name(alloc, *node, b"no-projection", symbol),
        Row::BadArgument { node, symbol } => node_name(alloc, *node, b"bad-argument", symbol),
        Row::BadDrop { node } => of_node(alloc, *node, b"bad-drop"),
        Row::NotDecreasing { node, pair } => node_number(alloc, *node, b"not-decreasing", *pair),
        Row::BadUsable { node } => of_node(alloc, *node, b"bad-usable"),
        Row::BadSymbols { node } => of_node(alloc, *node, b"bad-symbols"),
        Row::BadPolynomial {
            node,
            symbol,
            marked,
        } => node_symbol(alloc, *node, b"bad-polynomial", symbol, *marked),
        Row::BadLines { node } => of_node(alloc, *node, b"bad-lines"),
        Row::BadFilter {
            node,
            symbol,
            marked,
        } => node_symbol(alloc, *node, b"bad-filter", symbol, *marked),
        Row::NotClosedRule { node, rule } => node_line(alloc, *node, b"not-closed", b"rule", *rule),
        Row::NotClosedPair { node, pair } => node_line(alloc, *node, b"not-closed", b"pair", *pair),
        Row::TooWideRule { node, rule } => node_line(alloc, *node, b"too-wide", b"rule", *rule),
        Row::TooWidePair { node, pair } => node_line(alloc, *node, b"too-wide", b"pair", *pair),
        Row::NotStrict { node, pair } => node_line(alloc, *node, b"not-strict", b"pair", *pair),
        _ => line_words(alloc, row),
    }
}

// The words about a line in a node, with a number in it.
fn line_words(alloc: Global, row: &Row) -> Result<Bytes, AllocError>
    requires { OfLine row.now }
    ensures { IfOk result (λ text. text ≡ rejection_text row.now) }
{
    match row {
        Row::BadMoveRule { node, rule, entry } => of_rule(alloc, *node, b"bad-move", *rule, *entry),
        Row::OverSpentRule {
            node,
            rule,
            monomial,
        } => of_rule(alloc, *node, b"over-spent", *rule, *monomial),
        Row::NotCoveredRule {
            node,
            rule,
            monomial,
        } => of_rule(alloc, *node, b"not-covered", *rule, *monomial),
        Row::BadMovePair { node, pair, entry } => of_pair(alloc, *node, b"bad-move", *pair, *entry),
        Row::OverSpentPair {
            node,
            pair,
            monomial,
        } => of_pair(alloc, *node, b"over-spent", *pair, *monomial),
        Row::NotCoveredPair {
            node,
            pair,
            monomial,
        } => of_pair(alloc, *node, b"not-covered", *pair, *monomial),
        Row::BadInferenceRule { node, rule, entry } => {
            of_rule(alloc, *node, b"bad-inference", *rule, *entry)
        }
        Row::BadInferencePair { node, pair, entry } => {
            of_pair(alloc, *node, b"bad-inference", *pair, *entry)
        }
        _ => Ok(Bytes::new(alloc)),
    }
}

// A node and a word.
fn of_node(alloc: Global, node: u32, word: &[u8]) -> Result<Bytes, AllocError>
    ensures { IfOk result (λ text. text ≡ of_node node word.now) }
{
    let mut text = numbered(alloc, b"node", u64::from(node))?;
    put_word(&mut text, word)?;
    Ok(text)
}

// A node, a word and a number.
fn node_number(alloc: Global, node: u32, word: &[u8], number: u32) -> Result<Bytes, AllocError>
    ensures { IfOk result (λ text. text ≡ numbered (of_node node word.now) number) }
{
    let mut text = of_node(alloc, node, word)?;
    put_number(alloc, &mut text, u64::from(number))?;
    Ok(text)
}

// A node, a word and a name.
fn node_name(alloc: Global, node: u32, word: &[u8], name: &Name) -> Result<Bytes, AllocError>
    ensures { IfOk result (λ text. text ≡ named (of_node node word.now) name.now) }
{
    let mut text = of_node(alloc, node, word)?;
    put_word(&mut text, name.bytes())?;
    Ok(text)
}

// A back edge between blocks of a node.
fn back_edge(alloc: Global, node: u32, a: u32, b: u32) -> Result<Bytes, AllocError>
    ensures { IfOk result (λ text. text ≡ rejection_text (BackEdge node a b)) }
{
    let mut text = node_number(alloc, node, b"back-edge", a)?;
    put_number(alloc, &mut text, u64::from(b))?;
    Ok(text)
}

// A node, a word and the name of a symbol, or of a marked one.
fn node_symbol(
    alloc: Global,
    node: u32,
    word: &[u8],
    symbol: &Name,
    marked: bool,
) -> Result<Bytes, AllocError>
    ensures { IfOk result (λ text. text ≡ named (of_node node word.now) (symbol_word symbol.now marked)) }
{
    let mut text = node_name(alloc, node, word, symbol)?;
    if marked {
        text.push(b'#')?;
    }
    Ok(text)
}

// A node, a word, and the line of a rule or of a pair.
fn node_line(
    alloc: Global,
    node: u32,
    word: &[u8],
    kind: &[u8],
    number: u32,
) -> Result<Bytes, AllocError>
    ensures { IfOk result (λ text. text ≡ numbered (named (of_node node word.now) kind.now) number) }
{
    let mut text = of_node(alloc, node, word)?;
    put_word(&mut text, kind)?;
    put_number(alloc, &mut text, u64::from(number))?;
    Ok(text)
}

// A node, a word, a rule and a number.
fn of_rule(
    alloc: Global,
    node: u32,
    word: &[u8],
    rule: u32,
    number: u32,
) -> Result<Bytes, AllocError>
    ensures { IfOk result (λ text. text ≡ of_rule node word.now rule number) }
{
    let mut text = of_node(alloc, node, word)?;
    put_word(&mut text, b"rule")?;
    put_two(alloc, &mut text, rule, number)?;
    Ok(text)
}

// A node, a word, a pair and a number.
fn of_pair(
    alloc: Global,
    node: u32,
    word: &[u8],
    pair: u32,
    number: u32,
) -> Result<Bytes, AllocError>
    ensures { IfOk result (λ text. text ≡ of_pair node word.now pair number) }
{
    let mut text = of_node(alloc, node, word)?;
    put_word(&mut text, b"pair")?;
    put_two(alloc, &mut text, pair, number)?;
    Ok(text)
}

// Two numbers, each behind a space.
fn put_two(alloc: Global, text: &mut Bytes, first: u32, second: u32) -> Result<(), AllocError>
    ensures { OnOk result (text.new ≡ numbered (numbered text.old first) second) }
{
    put_number(alloc, text, u64::from(first))?;
    put_number(alloc, text, u64::from(second))
}

// What stands behind `MAYBE`.
fn cause_words(alloc: Global, cause: &NamedCause) -> Result<Bytes, AllocError>
    ensures { IfOk result (λ text. text ≡ cause_text cause.now) }
{
    match cause {
        NamedCause::Sorts(names) => {
            let mut text = fixed(alloc, b"no-ranks sorts")?;
            put_names(&mut text, names)?;
            Ok(text)
        }
        NamedCause::Meta { rule, name } => {
            let mut text = numbered(alloc, b"no-ranks rule", u64::from(*rule))?;
            put_word(&mut text, name.bytes())?;
            Ok(text)
        }
        NamedCause::Stuck(pairs) => {
            let mut text = fixed(alloc, b"stuck")?;
            put_numbers(alloc, &mut text, pairs)?;
            Ok(text)
        }
        NamedCause::Spent { by, count } => {
            let mut text = named(alloc, b"spent", finder_word(*by))?;
            put_number(alloc, &mut text, *count)?;
            Ok(text)
        }
    }
}

// Each of the names behind a space.
fn put_names(text: &mut Bytes, names: &Names) -> Result<(), AllocError>
    ensures { OnOk result (text.new ≡ all_named text.old names.now) }
{
    for name in names.as_slice() {
        put_word(text, name.bytes())?;
    }
    Ok(())
}

// Each of the numbers behind a space.
fn put_numbers(alloc: Global, text: &mut Bytes, numbers: &Numbers) -> Result<(), AllocError>
    ensures { OnOk result (text.new ≡ all_numbered text.old numbers.now) }
{
    for number in numbers.as_slice() {
        put_number(alloc, text, u64::from(*number))?;
    }
    Ok(())
}

// The word for a file.
fn role_word(role: Role) -> &'static [u8]
    ensures { result.now ≡ role_word role }
{
    match role {
        Role::System => b"system",
        Role::Certificate => b"certificate",
        Role::Output => b"output",
    }
}

// The word for a finder.
fn finder_word(finder: NamedFinder) -> &'static [u8]
    ensures { result.now ≡ finder_word finder }
{
    match finder {
        NamedFinder::Subterm => b"subterm",
        NamedFinder::Poly => b"poly",
        NamedFinder::Order => b"order",
        NamedFinder::Loop => b"loop",
    }
}

// The word for a reason for refusing a system.
fn reason_word(reason: ReasonWord) -> &'static [u8]
    ensures { result.now ≡ reason_word reason }
{
    match reason {
        ReasonWord::BadByte => b"bad-byte",
        ReasonWord::BadNumber => b"bad-number",
        ReasonWord::NameTooLong => b"name-too-long",
        ReasonWord::Syntax => b"syntax",
        ReasonWord::UnknownName => b"unknown-name",
        ReasonWord::Twice => b"twice",
        ReasonWord::IllTyped => b"ill-typed",
        ReasonWord::NotPattern => b"not-pattern",
        ReasonWord::OpenSide => b"open-side",
        ReasonWord::NewMeta => b"new-meta",
        ReasonWord::HeadNotFun => b"head-not-function",
        ReasonWord::UnevenRules => b"uneven-rules",
        ReasonWord::TooMany => b"too-many",
        ReasonWord::TooManyPairs => b"too-many-pairs",
    }
}
