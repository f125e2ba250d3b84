//! The reader of the lines of a node of interpretations up to the line of `drop`, byte by byte. `PolyLines::step` is
//! its main function.

ghost use Rattle.std.specs.Prelude.{◌≡◌, [], IfOk, OnOk};
ghost use Rattle.wh_poly.specs.Erase.{poly};
ghost use Rattle.wh_cert_parts.specs.PolyMachine.{poly_ended};
ghost use Rattle.wh_cert_lines.specs.Sections.{in_funs, first_step};
ghost use Rattle.wh_cert_lines.specs.PolyLines.{lines_front, name_wanted, from_wanted, from, to_wanted, to, amount_wanted, amount, name as in_name, line_begun, poly_led, moves_step, lines_step, node_of};
ghost use Rattle.wh_cert_lines.specs.PolyLinesViews.{section_of, lines_of, lines_place, lines_went};
ghost use Rattle.wh_cert.specs.Said.{said_poly};
ghost use Rattle.wh_cert_lines.specs.declared.poly_lines.LinesPlace.TheVariants as place;

use crate::sections::{LineBegun, LinesStep, Section, Sections};
use std::alloc::{AllocError, Global};
use std::mem;
use wh_cert::{Interp, Interps, PolyNode};
use wh_cert_letters::{Letters, begins_name, first_big, first_number, next_big, next_number};
use wh_cert_parts::{PolyStep, PolyText};
use wh_hopoly::{Covers, Move, Moves};
use wh_poly::Poly;
use wh_types::Numbers;

/// How far the present line was read; what is longer than a number stands in the lines themselves.
#[derive(Clone, Copy)]
pub enum LinesPlace {
    /// No byte of the line.
    Front,
    /// `fun ` or `mark `.
    NameWanted,
    /// `fun ` or `mark `, and letters of the name.
    Name,
    /// A part of a polynomial.
    Poly,
    /// `rule` or `pair`, and moves.
    Moves,
    /// Moves and a space.
    FromWanted,
    /// Moves, a space and digits of a monomial on the left.
    From(u32),
    /// A move up to its `>`.
    ToWanted,
    /// A move up to digits of its monomial on the right.
    To(u32),
    /// A move up to its `:`.
    AmountWanted,
    /// A move up to digits of its amount.
    Amount(u128),
}

/// The lines of a node of interpretations so far.
#[derive(Drop)]
pub struct PolyLines {
    /// What they hold: interpretations of symbols, and moves for rules and pairs.
    pub lists: Sections<Interp, Moves>,
    /// How far the last one was read.
    pub place: LinesPlace,
    /// The name in a line of an interpretation.
    pub name: Letters,
    /// The polynomial in a line of an interpretation.
    pub poly: PolyText,
    /// The moves in a line.
    pub moves: Moves,
    /// The left monomial of the move that is read.
    pub from: u32,
    /// The right monomial of the move that is read.
    pub to: u32,
}

impl PolyLines {
    /// The reader before all lines.
    pub fn new(alloc: Global) -> Result<PolyLines, AllocError>
        ensures lines { IfOk result (λ lines. lines_of lines ≡ in_funs []) }
        ensures place { IfOk result (λ lines. lines_place lines ≡ lines_front) }
    {
        Ok(PolyLines {
            lists: Sections::new(alloc),
            place: LinesPlace::Front,
            name: Letters::new(alloc, b'a')?,
            poly: PolyText::new(alloc)?,
            moves: Moves::new(alloc),
            from: 0,
            to: 0,
        })
    }

    /// Goes back to before all lines.
    pub fn restart(&mut self, alloc: Global) -> Result<(), AllocError>
        ensures lines { OnOk result (lines_of self.new ≡ in_funs []) }
        ensures place { OnOk result (lines_place self.new ≡ lines_front) }
    {
        self.lists.restart(alloc)?;
        self.place = LinesPlace::Front;
        Ok(())
    }

    /// Goes on behind the word of a line of that kind.
    pub fn begin_line(&mut self, alloc: Global, section: Section) -> Result<(), AllocError>
        ensures lines { OnOk result (lines_of self.new ≡ section_of section self.old) }
        ensures place { OnOk result (lines_place self.new ≡ line_begun (section_of section self.old)) }
    {
        match section {
            Section::Funs | Section::Marks => self.place = LinesPlace::NameWanted,
            Section::Rules | Section::Pairs => {
                self.moves = Moves::new(alloc);
                self.place = LinesPlace::Moves;
            }
        }
        self.lists.section = section;
        Ok(())
    }

    /// The node of which all lines were read, with the rules that are to be covered, where they are listed.
    pub fn node(
        &mut self,
        alloc: Global,
        usable: Option<Numbers>,
        drop: Numbers,
    ) -> Result<PolyNode, AllocError>
        ensures { IfOk result (λ node. said_poly node ≡ node_of usable (lines_of self.old) drop) }
    {
        self.lists.enter_pairs(alloc)?;
        let funs = mem::replace(&mut self.lists.funs, Interps::new(alloc));
        let marks = mem::replace(&mut self.lists.marks, Interps::new(alloc));
        let rules = mem::replace(&mut self.lists.rules, Covers::new(alloc));
        let pairs = mem::replace(&mut self.lists.pairs, Covers::new(alloc));
        Ok(PolyNode {
            usable,
            funs,
            marks,
            rules,
            pairs,
            drop,
        })
    }

    /// Takes one more byte.
    pub fn step(&mut self, alloc: Global, byte: u8) -> Result<LinesStep, AllocError>
        ensures { IfOk result (λ went. lines_went went self.new ≡ lines_step (lines_of self.old) (lines_place self.old) byte) }
    {
        match self.place {
            LinesPlace::Front => self.step_front(alloc, byte),
            LinesPlace::NameWanted => self.begin_name(alloc, byte),
            LinesPlace::Name => self.step_name(alloc, byte),
            LinesPlace::Poly => self.step_poly(alloc, byte),
            LinesPlace::Moves => self.step_moves(alloc, byte),
            LinesPlace::FromWanted => Ok(self.begin_from(byte)),
            LinesPlace::From(number) => Ok(self.step_from(number, byte)),
            LinesPlace::ToWanted => Ok(self.begin_to(byte)),
            LinesPlace::To(number) => Ok(self.step_to(number, byte)),
            LinesPlace::AmountWanted => Ok(self.begin_amount(byte)),
            LinesPlace::Amount(number) => self.step_amount(alloc, number, byte),
        }
    }

    /// The first byte of a line.
    fn step_front(&mut self, alloc: Global, byte: u8) -> Result<LinesStep, AllocError>
        ensures { IfOk result (λ went. lines_went went self.new ≡ first_step (lines_of self.old) byte) }
    {
        match self.lists.begin(alloc, byte)? {
            LineBegun::Begins => Ok(LinesStep::Begins),
            LineBegun::Drops => Ok(LinesStep::Drops),
            LineBegun::Wrong => Ok(LinesStep::Wrong),
        }
    }

    /// The first letter of a symbol's name.
    fn begin_name(&mut self, alloc: Global, byte: u8) -> Result<LinesStep, AllocError>
        ensures { IfOk result (λ went. lines_went went self.new ≡ lines_step (lines_of self.old) name_wanted byte) }
    {
        if !begins_name(byte) {
            return Ok(LinesStep::Wrong);
        }
        self.name = Letters::new(alloc, byte)?;
        self.place = LinesPlace::Name;
        Ok(LinesStep::On)
    }

    /// A symbol's name goes on with the byte, or has ended before it.
    fn step_name(&mut self, alloc: Global, byte: u8) -> Result<LinesStep, AllocError>
        ensures { IfOk result (λ went. lines_went went self.new ≡ lines_step (lines_of self.old) (in_name self.old.name) byte) }
    {
        if self.name.goes_on(byte) {
            self.name.push(byte)?;
            self.place = LinesPlace::Name;
            return Ok(LinesStep::On);
        }
        if byte != b' ' {
            return Ok(LinesStep::Wrong);
        }
        self.poly = PolyText::new(alloc)?;
        self.place = LinesPlace::Poly;
        Ok(LinesStep::On)
    }

    /// A polynomial goes on with the byte, or has ended before it.
    fn step_poly(&mut self, alloc: Global, byte: u8) -> Result<LinesStep, AllocError>
        requires { self.old.place ≡ place.Poly }
        ensures { IfOk result (λ went. lines_went went self.new ≡ lines_step (lines_of self.old) (lines_place self.old) byte) }
    {
        match self.poly.step(alloc, byte)? {
            PolyStep::On => Ok(LinesStep::On),
            PolyStep::Ended(part) => self.end_interp(alloc, part, byte),
            PolyStep::Wrong => Ok(LinesStep::Wrong),
        }
    }

    /// A polynomial has ended before the byte, which ends its line.
    #[tactic(auto, using(crate::proofs::PolyLinesCode::interp_said))]
    fn end_interp(&mut self, alloc: Global, part: Poly, byte: u8) -> Result<LinesStep, AllocError>
        ensures { IfOk result (λ went. lines_went went self.new ≡ poly_led (lines_of self.old) self.old.name
            (poly_ended (poly part) byte)) }
    {
        if byte != b'\n' {
            return Ok(LinesStep::Wrong);
        }
        let name = self.name.name(alloc)?;
        let item = Interp { name, poly: part };
        self.lists.push_named(item)?;
        self.place = LinesPlace::Front;
        Ok(LinesStep::On)
    }

    /// Behind moves another one comes, or the line ends.
    fn step_moves(&mut self, alloc: Global, byte: u8) -> Result<LinesStep, AllocError>
        ensures { IfOk result (λ went. lines_went went self.new ≡ moves_step (lines_of self.old) self.old.moves byte) }
    {
        if byte == b' ' {
            self.place = LinesPlace::FromWanted;
            return Ok(LinesStep::On);
        }
        if byte != b'\n' {
            return Ok(LinesStep::Wrong);
        }
        let moves = mem::replace(&mut self.moves, Moves::new(alloc));
        self.lists.push_shown(moves)?;
        self.place = LinesPlace::Front;
        Ok(LinesStep::On)
    }

    /// The first digit of where a move goes from.
    fn begin_from(&mut self, byte: u8) -> LinesStep
        ensures { lines_went result self.new ≡ lines_step (lines_of self.old) (from_wanted self.old.moves) byte }
    {
        match first_number(byte) {
            Some(number) => {
                self.place = LinesPlace::From(number);
                LinesStep::On
            }
            None => LinesStep::Wrong,
        }
    }

    /// The number of where a move goes from goes on with the byte, or has ended before it.
    fn step_from(&mut self, number: u32, byte: u8) -> LinesStep
        ensures { lines_went result self.new ≡ lines_step (lines_of self.old) (from self.old.moves number) byte }
    {
        match next_number(number, byte) {
            Some(next) => {
                self.place = LinesPlace::From(next);
                LinesStep::On
            }
            None => {
                if byte != b'>' {
                    return LinesStep::Wrong;
                }
                self.from = number;
                self.place = LinesPlace::ToWanted;
                LinesStep::On
            }
        }
    }

    /// The first digit of where a move goes to.
    fn begin_to(&mut self, byte: u8) -> LinesStep
        ensures { lines_went result self.new ≡ lines_step (lines_of self.old) (to_wanted self.old.moves self.old.from) byte }
    {
        match first_number(byte) {
            Some(number) => {
                self.place = LinesPlace::To(number);
                LinesStep::On
            }
            None => LinesStep::Wrong,
        }
    }

    /// The number of where a move goes to goes on with the byte, or has ended before it.
    fn step_to(&mut self, number: u32, byte: u8) -> LinesStep
        ensures { lines_went result self.new ≡ lines_step (lines_of self.old) (to self.old.moves self.old.from number) byte }
    {
        match next_number(number, byte) {
            Some(next) => {
                self.place = LinesPlace::To(next);
                LinesStep::On
            }
            None => {
                if byte != b':' {
                    return LinesStep::Wrong;
                }
                self.to = number;
                self.place = LinesPlace::AmountWanted;
                LinesStep::On
            }
        }
    }

    /// The first digit of an amount.
    fn begin_amount(&mut self, byte: u8) -> LinesStep
        ensures { lines_went result self.new ≡ lines_step (lines_of self.old) (amount_wanted self.old.moves self.old.from self.old.to)
            byte }
    {
        match first_big(byte) {
            Some(number) => {
                self.place = LinesPlace::Amount(number);
                LinesStep::On
            }
            None => LinesStep::Wrong,
        }
    }

    /// An amount goes on with the byte, or has ended before it.
    fn step_amount(
        &mut self,
        alloc: Global,
        number: u128,
        byte: u8,
    ) -> Result<LinesStep, AllocError>
        ensures { IfOk result (λ went. lines_went went self.new
            ≡ lines_step (lines_of self.old) (amount self.old.moves self.old.from self.old.to number) byte) }
    {
        match next_big(number, byte) {
            Some(next) => {
                self.place = LinesPlace::Amount(next);
                Ok(LinesStep::On)
            }
            None => {
                self.moves.push(Move {
                    from: self.from,
                    to: self.to,
                    amount: number,
                })?;
                self.step_moves(alloc, byte)
            }
        }
    }
}
