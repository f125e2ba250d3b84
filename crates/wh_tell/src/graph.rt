//! The dependency graph in the language of Graphviz: a box for each pair, in frames for the components in which pairs
//! may follow one another, and an arrow where one pair may follow another.

ghost use Rattle.std.specs.Prelude.{◌<◌, All, IfOk, length};

use crate::pairs::put_pair;
use crate::sentence::Piece::{Count, Number};
use crate::sentence::{tell, tell_line};
use crate::text::Text;
use std::alloc::{AllocError, Global};
use wh_graph::{components, may_follow};
use wh_pairs::{Pair, PairList, PairSet};
use wh_system::System;
use wh_types::counted;

/// Appends the graph.
pub fn put_graph(
    alloc: Global,
    text: &mut Text,
    system: &System,
    pairs: &PairList,
) -> Result<(), AllocError> {
    text.say(
        "// an explanation, no part of what is proved\ndigraph pairs {\n  node [shape=box];\n",
    );
    let set = all_of(alloc, pairs)?;
    let blocks = components(alloc, system, pairs, &set)?;
    for (number, block) in blocks.as_slice().iter().enumerate() {
        put_component(
            alloc,
            text,
            system,
            pairs.as_slice(),
            number,
            block.as_slice(),
        )?;
    }
    put_edges(text, system, pairs.as_slice());
    text.say("}\n");
    Ok(())
}

/// The set of all pairs of a list.
pub fn all_of(alloc: Global, list: &PairList) -> Result<PairSet, AllocError>
    ensures { IfOk result (λ set. All (λ n. n < length list.now) set) }
{
    let count = counted(list.as_slice().len())?;
    let mut set = PairSet::new(alloc);
    for number in 0..count {
        set.push(number)?;
    }
    Ok(set)
}

// Appends the boxes of the pairs of a component, in a frame unless it is a pair that may not follow itself.
fn put_component(
    alloc: Global,
    text: &mut Text,
    system: &System,
    pairs: &[Pair],
    number: usize,
    block: &[u32],
) -> Result<(), AllocError> {
    let framed = !is_alone(system, pairs, block);
    if framed {
        tell_line(text, 1, "subgraph cluster@ {", &[Count(number)]);
    }
    for pair in block {
        text.indent(if framed { 2 } else { 1 });
        put_box(alloc, text, system, pairs, *pair)?;
    }
    if framed {
        tell_line(text, 1, "}", &[]);
    }
    Ok(())
}

// Whether the component is a pair that may not follow itself.
fn is_alone(system: &System, pairs: &[Pair], block: &[u32]) -> bool {
    match block.first() {
        Some(first) if block.len() == 1 => match pairs.get(*first as usize) {
            Some(pair) => !may_follow(system, pair, pair),
            None => true,
        },
        _ => false,
    }
}

// Appends the box of a pair, in which a backslash is written twice.
fn put_box(
    alloc: Global,
    text: &mut Text,
    system: &System,
    pairs: &[Pair],
    number: u32,
) -> Result<(), AllocError> {
    let Some(pair) = pairs.get(number as usize) else {
        return Ok(());
    };
    tell(text, "p@ [label=\"@: ", &[Number(number), Number(number)]);
    let mut label = Text::new(alloc);
    put_pair(&mut label, system, pair);
    let label = label.into_bytes()?;
    put_escaped(text, label.as_slice());
    text.say("\"];\n");
    Ok(())
}

// Appends the bytes, with a backslash before each backslash.
fn put_escaped(text: &mut Text, bytes: &[u8]) {
    for byte in bytes {
        if *byte == b'\\' {
            text.say("\\");
        }
        text.spell(&[*byte]);
    }
}

// Appends an arrow for each two pairs of which the second may follow the first.
fn put_edges(text: &mut Text, system: &System, pairs: &[Pair]) {
    for (number, pair) in pairs.iter().enumerate() {
        put_edges_from(text, system, pairs, number, pair);
    }
}

// Appends an arrow for each pair that may follow the one with this number.
fn put_edges_from(text: &mut Text, system: &System, pairs: &[Pair], number: usize, pair: &Pair) {
    for (to, other) in pairs.iter().enumerate() {
        if may_follow(system, pair, other) {
            tell_line(text, 1, "p@ -> p@;", &[Count(number), Count(to)]);
        }
    }
}
