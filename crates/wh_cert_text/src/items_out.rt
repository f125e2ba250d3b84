//! The items that the lines of a YES or a NO certificate hand out, byte by byte or several bytes at once.

ghost use Rattle.std.specs.Prelude.{◌≡◌, ◌+◌, ◌<◌, ◌^◌, ℕ, List, length, IfOk, OnErr, MatchOption};
ghost use Rattle.wh_cert.specs.Said.{said_node};
ghost use Rattle.wh_cert.specs.Written.{children as children_of};
ghost use Rattle.wh_cert_machines.specs.LineMachine.{line_step, run, start};
ghost use Rattle.wh_cert_text.specs.Feeding.{TracksNo, TracksYes};
ghost use Rattle.wh_cert_text.specs.Portions.{HasRun, IsWithin};
ghost use Rattle.wh_cert_machines.specs.YesMachine as y;
ghost use Rattle.wh_cert_machines.specs.LineViews.{line_place};
ghost use Rattle.wh_cert_machines.specs.YesViews.{item_of as yes_item, yes_place};
ghost use Rattle.wh_cert_text.specs.Handing.{Begun, GivesNo, GivesYes, TakesNo, TakesYes, wanted as wanted_of};
ghost use Rattle.wh_cert_machines.specs.declared.line_reader.LinePlace.TheVariants as no_place;
ghost use Rattle.wh_cert_machines.specs.declared.yes_line.YesPlace.TheVariants as place;

use std::alloc::{AllocError, Global};
use std::mem;
use wh_cert::{Item, Node};
use wh_cert_machines::{
    Item as NoItem, LinePlace, LineStep, NoLine, YesItem, YesItems, YesLine, YesPlace, YesStep,
};
use wh_types::Numbers;

/// Where a byte led.
#[derive(Drop)]
pub enum Taken {
    /// The certificate goes on with the byte, and this item's last line ends with it.
    On(Option<Item>),
    /// The byte is wrong.
    Wrong,
}

/// How far some bytes led.
#[derive(Drop)]
pub enum Stretch {
    /// All of them were taken, and no item is whole.
    On,
    /// This number of bytes was taken, and the last of them ends the last line of this item.
    Whole(usize, Item),
    /// The first `n` bytes can be taken, the next byte is wrong.
    Wrong(usize),
}

/// The reader behind the first byte of a YES certificate.
pub fn begin_yes(alloc: Global) -> Result<YesItems, AllocError>
    ensures { IfOk result Begun }
{
    Ok(YesItems {
        line: YesLine::new(alloc)?,
        version: 0,
        ranks: Numbers::new(alloc),
        wanted: 0,
    })
}

/// Where the next byte of a YES certificate leads. No memory is needed where all was read.
pub fn take_yes(lines: &mut YesItems, alloc: Global, byte: u8) -> Result<Taken, AllocError>
    ensures takes { IfOk result (λ taken. (h : y.Past) → wanted_of h ≡ lines.old.wanted
        → y.version_of h ≡ lines.old.version
        → TakesYes h lines.old lines.new (y.step (y.version_of h) (y.wants h) (yes_place lines.old.line) byte) taken) }
    ensures wants { OnErr result (lines.old.line.place ≡ place.Finished → ⊥) }
{
    if matches!(lines.line.place, YesPlace::Finished) {
        return Ok(Taken::Wrong);
    }
    let wants = lines.wanted > 0;
    match lines.line.step(alloc, lines.version, wants, byte)? {
        YesStep::On => Ok(Taken::On(None)),
        YesStep::Gives(item) => Ok(Taken::On(hand_out(lines, alloc, item)?)),
        YesStep::Wrong => Ok(Taken::Wrong),
    }
}

/// How far bytes lead in a YES certificate, up to the first that ends an item.
pub fn take_some_yes(
    lines: &mut YesItems,
    alloc: Global,
    bytes: &[u8],
) -> Result<Stretch, AllocError>
    ensures within { IfOk result (IsWithin bytes.now) }
    ensures run { IfOk result (λ stretch. (p : List ℕ) → TracksYes lines.old (run start p)
        → length p + length bytes.now < 2 ^ 32 → HasRun (TracksYes lines.new) p bytes.now stretch) }
{
    for (index, byte) in bytes.iter().enumerate() {
        let wants = lines.wanted > 0;
        match lines.line.step(alloc, lines.version, wants, *byte)? {
            YesStep::On => {}
            YesStep::Gives(item) => match hand_out(lines, alloc, item)? {
                Some(item) => return Ok(Stretch::Whole(index + 1, item)),
                None => {}
            },
            YesStep::Wrong => return Ok(Stretch::Wrong(index)),
        }
    }
    Ok(Stretch::On)
}

/// What an item of the lines of a YES certificate hands out: the version and the ranks wait for the number of pairs.
fn hand_out(lines: &mut YesItems, alloc: Global, item: YesItem) -> Result<Option<Item>, AllocError>
    ensures line { IfOk result (λ out. lines.new.line ≡ lines.old.line) }
    ensures gives { IfOk result (λ out. (h : y.Past) → wanted_of h ≡ lines.old.wanted
        → y.version_of h ≡ lines.old.version → GivesYes h lines.old lines.new (yes_item item) out) }
{
    match item {
        YesItem::Version(version) => {
            lines.version = version;
            Ok(None)
        }
        YesItem::Ranks(ranks) => {
            lines.ranks = ranks;
            Ok(None)
        }
        YesItem::Pairs(pairs) => {
            lines.wanted = 1;
            let ranks = mem::replace(&mut lines.ranks, Numbers::new(alloc));
            Ok(Some(Item::YesHead {
                version: lines.version,
                ranks,
                pairs,
            }))
        }
        YesItem::Node(node) => {
            lines.wanted = wanted_behind(&node, lines.wanted).ok_or(AllocError)?;
            Ok(Some(Item::Node(Box::new(alloc, node)?)))
        }
        YesItem::End => Ok(Some(Item::End)),
    }
}

/// How many nodes are wanted behind this one, where its children are wanted in its place.
fn wanted_behind(node: &Node, wanted: u64) -> Option<u64>
    ensures { MatchOption result (Unit {0}) (λ n. (h : y.Past) → wanted_of h ≡ wanted
        → wanted_of (y.gather h (y.node_item (said_node node.now))) ≡ n) }
{
    children(node).checked_add(wanted.saturating_sub(1))
}

/// For how many sets a node leaves the same to be shown.
fn children(node: &Node) -> u64
    ensures { result ≡ children_of (said_node node.now) }
{
    match node {
        Node::Done | Node::Alone => 0,
        Node::Blocks(parts) => parts.as_slice().len() as u64,
        Node::Subterm { .. } | Node::Poly(_) | Node::Order(_) => 1,
    }
}

/// Where the next byte of a NO certificate leads. No memory is needed where all was read.
pub fn take_no(line: &mut NoLine, alloc: Global, byte: u8) -> Result<Taken, AllocError>
    ensures takes { IfOk result (λ taken. TakesNo line.new (line_step (line_place line.old) byte) taken) }
    ensures wants { OnErr result (line.old.place ≡ no_place.Finished → ⊥) }
{
    if matches!(line.place, LinePlace::Finished) {
        return Ok(Taken::Wrong);
    }
    match line.step(alloc, byte)? {
        LineStep::On => Ok(Taken::On(None)),
        LineStep::Gives(item) => Ok(Taken::On(Some(no_item(item)))),
        LineStep::Wrong => Ok(Taken::Wrong),
    }
}

/// How far bytes lead in a NO certificate, up to the first that ends an item.
pub fn take_some_no(line: &mut NoLine, alloc: Global, bytes: &[u8]) -> Result<Stretch, AllocError>
    ensures within { IfOk result (IsWithin bytes.now) }
    ensures run { IfOk result (λ stretch. (p : List ℕ) → TracksNo line.old (run start p) → length p + length bytes.now < 2 ^ 32
        → HasRun (TracksNo line.new) p bytes.now stretch) }
{
    for (index, byte) in bytes.iter().enumerate() {
        if line.goes_by(*byte) {
            continue;
        }
        match line.step(alloc, *byte)? {
            LineStep::On => {}
            LineStep::Gives(item) => return Ok(Stretch::Whole(index + 1, no_item(item))),
            LineStep::Wrong => return Ok(Stretch::Wrong(index)),
        }
    }
    Ok(Stretch::On)
}

/// The item of a line of a NO certificate.
fn no_item(item: NoItem) -> Item
    ensures { GivesNo item result }
{
    match item {
        NoItem::Term(term) => Item::NoHead { term },
        NoItem::Step(step) => Item::Step(step),
        NoItem::At(path) => Item::At(path),
        NoItem::Put(put) => Item::Put(put),
        NoItem::End => Item::End,
    }
}
