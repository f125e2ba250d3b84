//! The reader of the lines of a node of a path order up to the line of `drop`, byte by byte. `OrderLines::step` is its
//! main function.

ghost use Rattle.std.specs.Prelude.{◌≡◌, [], IfOk, OnOk};
ghost use Rattle.wh_order_inference.specs.Said.{inference as said_inference, written_filter};
ghost use Rattle.wh_order_text.specs.FilterMachine.{ended as filter_ended};
ghost use Rattle.wh_order_text.specs.InferenceMachine.{ended as inference_ended};
ghost use Rattle.wh_cert.specs.Said.{said_order};
ghost use Rattle.wh_cert_lines.specs.Sections.{in_funs, first_step};
ghost use Rattle.wh_cert_lines.specs.OrderLines.{lines_front, name_wanted, name as in_name, space_wanted, line_begun, filter_led, inference_led, lines_step, node_of};
ghost use Rattle.wh_cert_lines.specs.OrderLinesViews.{section_of, lines_of, lines_place, lines_went};
ghost use Rattle.wh_cert_lines.specs.declared.order_lines.OrderPlace.TheVariants as place;

use crate::sections::{LineBegun, LinesStep, Section, Sections};
use std::alloc::{AllocError, Global};
use std::mem;
use wh_cert::{NamedFilter, NamedFilters, OrderNode};
use wh_cert_letters::{Letters, begins_name};
use wh_order_inference::{Filter, Inference, Inferences};
use wh_order_text::{FilterStep, FilterText, InferenceStep, InferenceText};
use wh_types::Numbers;

/// How far the present line was read; names, filters and inferences stand in the lines themselves.
#[derive(Clone, Copy)]
pub enum OrderPlace {
    /// No byte of the line.
    Front,
    /// `fun ` or `mark `.
    NameWanted,
    /// `fun ` or `mark `, and letters of the name.
    Name,
    /// A part of a filter.
    Filter,
    /// `rule` or `pair`, without the space behind it.
    SpaceWanted,
    /// A part of an inference.
    Inference,
}

/// The lines of a node of a path order so far.
#[derive(Drop)]
pub struct OrderLines {
    /// What they hold: filters of symbols, and inferences for rules and pairs.
    pub lists: Sections<NamedFilter, Inference>,
    /// How far the last one was read.
    pub place: OrderPlace,
    /// The name in a line of a filter.
    pub name: Letters,
    /// The filter in that line.
    pub filter: FilterText,
    /// The inference in a line.
    pub inference: InferenceText,
}

impl OrderLines {
    /// The reader before all lines.
    pub fn new(alloc: Global) -> Result<OrderLines, AllocError>
        ensures lines { IfOk result (λ lines. lines_of lines ≡ in_funs []) }
        ensures place { IfOk result (λ lines. lines_place lines ≡ lines_front) }
    {
        Ok(OrderLines {
            lists: Sections::new(alloc),
            place: OrderPlace::Front,
            name: Letters::new(alloc, b'a')?,
            filter: FilterText::new(alloc),
            inference: InferenceText::new(alloc)?,
        })
    }

    /// Goes back to before all lines.
    pub fn restart(&mut self, alloc: Global) -> Result<(), AllocError>
        ensures lines { OnOk result (lines_of self.new ≡ in_funs []) }
        ensures place { OnOk result (lines_place self.new ≡ lines_front) }
    {
        self.lists.restart(alloc)?;
        self.place = OrderPlace::Front;
        Ok(())
    }

    /// Goes on behind the word of a line of that kind.
    pub fn begin_line(&mut self, section: Section)
        ensures lines { lines_of self.new ≡ section_of section self.old }
        ensures place { lines_place self.new ≡ line_begun (section_of section self.old) }
    {
        match section {
            Section::Funs | Section::Marks => self.place = OrderPlace::NameWanted,
            Section::Rules | Section::Pairs => self.place = OrderPlace::SpaceWanted,
        }
        self.lists.section = section;
    }

    /// The node of which all lines were read.
    pub fn node(&mut self, alloc: Global, drop: Numbers) -> Result<OrderNode, AllocError>
        ensures { IfOk result (λ node. said_order node ≡ node_of (lines_of self.old) drop) }
    {
        self.lists.enter_pairs(alloc)?;
        let funs = mem::replace(&mut self.lists.funs, NamedFilters::new(alloc));
        let marks = mem::replace(&mut self.lists.marks, NamedFilters::new(alloc));
        let rules = mem::replace(&mut self.lists.rules, Inferences::new(alloc));
        let pairs = mem::replace(&mut self.lists.pairs, Inferences::new(alloc));
        Ok(OrderNode {
            funs,
            marks,
            rules,
            pairs,
            drop,
        })
    }

    /// Takes one more byte.
    pub fn step(&mut self, alloc: Global, byte: u8) -> Result<LinesStep, AllocError>
        ensures { IfOk result (λ went. lines_went went self.new ≡ lines_step (lines_of self.old) (lines_place self.old) byte) }
    {
        match self.place {
            OrderPlace::Front => self.step_front(alloc, byte),
            OrderPlace::NameWanted => self.begin_name(alloc, byte),
            OrderPlace::Name => self.step_name(alloc, byte),
            OrderPlace::Filter => self.step_filter(alloc, byte),
            OrderPlace::SpaceWanted => self.begin_inference(alloc, byte),
            OrderPlace::Inference => self.step_inference(alloc, byte),
        }
    }

    /// The first byte of a line.
    fn step_front(&mut self, alloc: Global, byte: u8) -> Result<LinesStep, AllocError>
        ensures { IfOk result (λ went. lines_went went self.new ≡ first_step (lines_of self.old) byte) }
    {
        match self.lists.begin(alloc, byte)? {
            LineBegun::Begins => Ok(LinesStep::Begins),
            LineBegun::Drops => Ok(LinesStep::Drops),
            LineBegun::Wrong => Ok(LinesStep::Wrong),
        }
    }

    /// The first letter of a symbol's name.
    fn begin_name(&mut self, alloc: Global, byte: u8) -> Result<LinesStep, AllocError>
        ensures { IfOk result (λ went. lines_went went self.new ≡ lines_step (lines_of self.old) name_wanted byte) }
    {
        if !begins_name(byte) {
            return Ok(LinesStep::Wrong);
        }
        self.name = Letters::new(alloc, byte)?;
        self.place = OrderPlace::Name;
        Ok(LinesStep::On)
    }

    /// A symbol's name goes on with the byte, or has ended before it.
    fn step_name(&mut self, alloc: Global, byte: u8) -> Result<LinesStep, AllocError>
        ensures { IfOk result (λ went. lines_went went self.new ≡ lines_step (lines_of self.old) (in_name self.old.name) byte) }
    {
        if self.name.goes_on(byte) {
            self.name.push(byte)?;
            self.place = OrderPlace::Name;
            return Ok(LinesStep::On);
        }
        if byte != b' ' {
            return Ok(LinesStep::Wrong);
        }
        self.filter = FilterText::new(alloc);
        self.place = OrderPlace::Filter;
        Ok(LinesStep::On)
    }

    /// A filter goes on with the byte, or has ended before it.
    fn step_filter(&mut self, alloc: Global, byte: u8) -> Result<LinesStep, AllocError>
        requires { self.old.place ≡ place.Filter }
        ensures { IfOk result (λ went. lines_went went self.new ≡ lines_step (lines_of self.old) (lines_place self.old) byte) }
    {
        match self.filter.step(alloc, byte)? {
            FilterStep::On => Ok(LinesStep::On),
            FilterStep::Ended(part) => self.end_filter(alloc, part, byte),
            FilterStep::Wrong => Ok(LinesStep::Wrong),
        }
    }

    /// A filter has ended before the byte, which ends its line.
    fn end_filter(&mut self, alloc: Global, part: Filter, byte: u8) -> Result<LinesStep, AllocError>
        ensures { IfOk result (λ went. lines_went went self.new ≡ filter_led (lines_of self.old) self.old.name
            (filter_ended (written_filter part) byte)) }
    {
        if byte != b'\n' {
            return Ok(LinesStep::Wrong);
        }
        let name = self.name.name(alloc)?;
        let item = NamedFilter { name, filter: part };
        self.lists.push_named(item)?;
        self.place = OrderPlace::Front;
        Ok(LinesStep::On)
    }

    /// The space before an inference.
    fn begin_inference(&mut self, alloc: Global, byte: u8) -> Result<LinesStep, AllocError>
        ensures { IfOk result (λ went. lines_went went self.new ≡ lines_step (lines_of self.old) space_wanted byte) }
    {
        if byte != b' ' {
            return Ok(LinesStep::Wrong);
        }
        self.inference = InferenceText::new(alloc)?;
        self.place = OrderPlace::Inference;
        Ok(LinesStep::On)
    }

    /// An inference goes on with the byte, or has ended before it.
    fn step_inference(&mut self, alloc: Global, byte: u8) -> Result<LinesStep, AllocError>
        requires { self.old.place ≡ place.Inference }
        ensures { IfOk result (λ went. lines_went went self.new ≡ lines_step (lines_of self.old) (lines_place self.old) byte) }
    {
        match self.inference.step(alloc, byte)? {
            InferenceStep::On => Ok(LinesStep::On),
            InferenceStep::Ended(part) => self.end_inference(part, byte),
            InferenceStep::Wrong => Ok(LinesStep::Wrong),
        }
    }

    /// An inference has ended before the byte, which ends its line.
    fn end_inference(&mut self, part: Inference, byte: u8) -> Result<LinesStep, AllocError>
        ensures { IfOk result (λ went. lines_went went self.new ≡ inference_led (lines_of self.old)
            (inference_ended (said_inference part) byte)) }
    {
        if byte != b'\n' {
            return Ok(LinesStep::Wrong);
        }
        self.lists.push_shown(part)?;
        self.place = OrderPlace::Front;
        Ok(LinesStep::On)
    }
}
