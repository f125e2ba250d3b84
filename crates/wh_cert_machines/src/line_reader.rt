//! NO certificates line by line: the step takes one byte, and gives an item where a line of the text is whole. It keeps
//! nothing of the lines before. `NoLine::step` is the main function.

ghost use Rattle.std.specs.Bool.{OnFalse, OnTrue};
ghost use Rattle.std.specs.Prelude.{◌≡◌, IfOk};
ghost use Rattle.wh_cert_machines.specs.LineMachine.{rule_wanted, line as line_front, rule_number, step_path as path_of_step, at_path, later_line, put_percent, put_number, spelling, behind as stands_behind, line_step, on};
ghost use Rattle.wh_cert_machines.specs.LineViews.{behind_of, place_of, line_place, line_went, went_to};
ghost use Rattle.wh_cert_machines.specs.declared.line_reader.NoLine.{NoLine};
ghost use Rattle.wh_cert_machines.specs.declared.line_reader.Behind.TheVariants as behind;
ghost use Rattle.wh_cert_machines.specs.declared.line_reader.LinePlace.TheVariants.{Word, Term, StepPath, AtPath, PutType, PutTerm};

use std::alloc::{AllocError, Global};
use std::mem;
use wh_cert::Put;
use wh_cert_letters::{first_number, next_number};
use wh_cert_parts::{Frame, TermPlace, TermStep, TypePlace, TypeStep, term_step, type_step};
use wh_terms::{Path, Step};
use wh_text::{RawTerm, RawType, RawTypes};

/// What stands behind a fixed word.
#[derive(Clone, Copy)]
pub enum Behind {
    /// The certificate's term.
    Term,
    /// What a step applies.
    Rule,
    /// The path of a step that applies this rule, or beta.
    Path(Option<u32>),
    /// The place of the instance.
    At,
    /// A variable for which a term is put.
    Put,
    /// Nothing.
    Finish,
}

/// How far the present line was read. What is longer than a number stands in the line itself.
#[derive(Clone, Copy)]
pub enum LinePlace {
    /// The first bytes of a fixed word, as many as the number says.
    Word(Behind, usize),
    /// A part of the certificate's term.
    Term,
    /// No byte of a line of a step or of `at`.
    Line,
    /// `step `.
    Rule,
    /// `step ` and digits of a rule's number.
    RuleNumber(u32),
    /// A step's line up to a part of its path.
    StepPath(Option<u32>),
    /// `at /` and a part of the path.
    AtPath,
    /// No byte of a line behind the line of `at`.
    LaterLine,
    /// `put %`.
    PutVariable,
    /// `put %` and digits of a variable's number.
    PutNumber(u32),
    /// A line of `put` up to a part of the variable's type.
    PutType(u32),
    /// A line of `put` up to a part of the term.
    PutTerm(u32),
    /// The whole certificate.
    Finished,
}

/// The present line of a NO certificate.
#[derive(Drop)]
pub struct NoLine {
    /// How far it was read.
    pub place: LinePlace,
    /// A path so far.
    pub path: Path,
    /// The open parentheses of a term.
    pub frames: Vec<Frame>,
    /// What was read of the term since the last open parenthesis.
    pub part: TermPlace,
    /// The open parentheses of a variable's type.
    pub types: Vec<RawTypes>,
    /// What was read of the type since the last open parenthesis.
    pub type_part: TypePlace,
    /// The variable's type, once it is whole.
    pub kind: Option<RawType>,
}

/// What a line gives.
#[derive(Drop)]
pub enum Item {
    /// The first term.
    Term(Box<RawTerm>),
    /// A step.
    Step(Step),
    /// The place of the instance.
    At(Path),
    /// The term that is put for a variable.
    Put(Box<Put>),
    /// The end.
    End,
}

/// Where a byte leads the reader.
#[derive(Drop)]
pub enum LineStep {
    /// The line goes on with the byte.
    On,
    /// The byte ends a line, which gives an item.
    Gives(Item),
    /// The byte is wrong.
    Wrong,
}

impl NoLine {
    /// The reader before the certificate's second byte.
    pub fn new(alloc: Global) -> NoLine
        ensures { result.place ≡ Word behind.Term 1 }
    {
        NoLine {
            place: LinePlace::Word(Behind::Term, 1),
            path: Path::new(alloc),
            frames: Vec::new(alloc),
            part: TermPlace::Wanted,
            types: Vec::new(alloc),
            type_part: TypePlace::Wanted,
            kind: None,
        }
    }

    /// Takes one more byte.
    pub fn step(&mut self, alloc: Global, byte: u8) -> Result<LineStep, AllocError>
        ensures { IfOk result (λ went. line_went went self.new ≡ line_step (line_place self.old) byte) }
    {
        match self.place {
            LinePlace::Word(behind, at) => self.step_word(alloc, behind, at, byte),
            LinePlace::Term => self.step_term(alloc, byte),
            LinePlace::Line => Ok(self.go(step_line(byte))),
            LinePlace::Rule => Ok(self.go(step_rule(byte))),
            LinePlace::RuleNumber(number) => Ok(self.go(step_rule_number(number, byte))),
            LinePlace::StepPath(rule) => self.step_path(alloc, rule, byte),
            LinePlace::AtPath => self.step_at_path(alloc, byte),
            LinePlace::LaterLine => Ok(self.go(step_later_line(byte))),
            LinePlace::PutVariable => Ok(self.go(step_put_variable(byte))),
            LinePlace::PutNumber(number) => Ok(self.step_put_number(alloc, number, byte)),
            LinePlace::PutType(number) => self.step_put_type(alloc, number, byte),
            LinePlace::PutTerm(number) => self.step_put_term(alloc, number, byte),
            LinePlace::Finished => Ok(LineStep::Wrong),
        }
    }

    /// Goes on by the byte where the byte ends no word and no line, as most bytes do, and says whether it did. `step`
    /// does the same for such a byte, and takes three times as long.
    pub fn goes_by(&mut self, byte: u8) -> bool
        ensures on { OnTrue result (on (line_place self.new) ≡ line_step (line_place self.old) byte) }
        ensures stays { OnFalse result (self.new ≡ self.old) }
    {
        match self.place {
            LinePlace::Word(behind, at) => self.goes_along(behind, at, byte),
            LinePlace::Line => self.goes_to(step_line(byte)),
            LinePlace::Rule => self.goes_to(step_rule(byte)),
            LinePlace::RuleNumber(number) => self.goes_to(step_rule_number(number, byte)),
            LinePlace::StepPath(rule) => self.goes_down(rule, byte),
            _ => false,
        }
    }

    /// Goes on to the place, and answers whether there is one.
    fn goes_to(&mut self, place: Option<LinePlace>) -> bool
        ensures on { OnTrue result (on (line_place self.new) ≡ went_to place self.old) }
        ensures stays { OnFalse result (self.new ≡ self.old) }
    {
        match place {
            Some(place) => {
                self.place = place;
                true
            }
            None => false,
        }
    }

    /// Goes on by a byte of a fixed word that is not its last.
    fn goes_along(&mut self, behind: Behind, at: usize, byte: u8) -> bool
        ensures on { OnTrue result (on (line_place self.new) ≡ line_step (place_of (Word behind at) self.old) byte) }
        ensures stays { OnFalse result (self.new ≡ self.old) }
    {
        let word = spelling(behind);
        if at >= word.len() || byte != word[at] {
            return false;
        }
        if at + 1 < word.len() {
            self.place = LinePlace::Word(behind, at + 1);
            return true;
        }
        false
    }

    /// Goes on by one digit of a step's path.
    fn goes_down(&mut self, rule: Option<u32>, byte: u8) -> bool
        requires { self.old.place ≡ StepPath rule }
        ensures on { OnTrue result (on (line_place self.new) ≡ line_step (path_of_step rule self.old.path) byte) }
        ensures stays { OnFalse result (self.new ≡ self.old) }
    {
        match byte {
            b'0' => self.path.push(0).is_ok(),
            b'1' => self.path.push(1).is_ok(),
            _ => false,
        }
    }

    /// Goes on to the place; where there is none the byte is wrong.
    fn go(&mut self, place: Option<LinePlace>) -> LineStep
        ensures { line_went result self.new ≡ went_to place self.old }
    {
        match place {
            Some(place) => {
                self.place = place;
                LineStep::On
            }
            None => LineStep::Wrong,
        }
    }

    /// The next byte of a fixed word.
    fn step_word(
        &mut self,
        alloc: Global,
        behind: Behind,
        at: usize,
        byte: u8,
    ) -> Result<LineStep, AllocError>
        ensures { IfOk result (λ went. line_went went self.new ≡ line_step (place_of (Word behind at) self.old) byte) }
    {
        let word = spelling(behind);
        if at >= word.len() {
            return Ok(LineStep::Wrong);
        }
        if byte != word[at] {
            return Ok(LineStep::Wrong);
        }
        if at + 1 < word.len() {
            self.place = LinePlace::Word(behind, at + 1);
            return Ok(LineStep::On);
        }
        self.begin_behind(alloc, behind)
    }

    /// The place behind a fixed word.
    fn begin_behind(&mut self, alloc: Global, behind: Behind) -> Result<LineStep, AllocError>
        ensures { IfOk result (λ went. line_went went self.new ≡ stands_behind (behind_of behind)) }
    {
        match behind {
            Behind::Term => {
                self.frames = Vec::new(alloc);
                self.part = TermPlace::Wanted;
                self.place = LinePlace::Term;
            }
            Behind::Rule => self.place = LinePlace::Rule,
            Behind::Path(rule) => {
                self.path = Path::new(alloc);
                self.place = LinePlace::StepPath(rule);
            }
            Behind::At => {
                self.path = Path::new(alloc);
                self.place = LinePlace::AtPath;
            }
            Behind::Put => self.place = LinePlace::PutVariable,
            Behind::Finish => {
                self.place = LinePlace::Finished;
                return Ok(LineStep::Gives(Item::End));
            }
        }
        Ok(LineStep::On)
    }

    /// The next byte of the certificate's term.
    fn step_term(&mut self, alloc: Global, byte: u8) -> Result<LineStep, AllocError>
        requires { self.old.place ≡ Term }
        ensures { IfOk result (λ went. line_went went self.new ≡ line_step (line_place self.old) byte) }
    {
        let part = mem::replace(&mut self.part, TermPlace::Wanted);
        match term_step(alloc, &mut self.frames, part, byte)? {
            TermStep::Goes(next) => {
                self.part = next;
                Ok(LineStep::On)
            }
            TermStep::Whole(term) => {
                self.place = LinePlace::Line;
                Ok(LineStep::Gives(Item::Term(term)))
            }
            TermStep::Wrong => Ok(LineStep::Wrong),
        }
    }

    /// The path of a step goes on with the byte, or ends.
    fn step_path(
        &mut self,
        alloc: Global,
        rule: Option<u32>,
        byte: u8,
    ) -> Result<LineStep, AllocError>
        requires { self.old.place ≡ StepPath rule }
        ensures { IfOk result (λ went. line_went went self.new ≡ line_step (path_of_step rule self.old.path) byte) }
    {
        match byte {
            b'0' => self.path.push(0)?,
            b'1' => self.path.push(1)?,
            b'\n' => {
                let path = mem::replace(&mut self.path, Path::new(alloc));
                self.place = LinePlace::Line;
                return Ok(LineStep::Gives(Item::Step(Step { rule, path })));
            }
            _ => return Ok(LineStep::Wrong),
        }
        Ok(LineStep::On)
    }

    /// The path behind `at` goes on with the byte, or ends.
    fn step_at_path(&mut self, alloc: Global, byte: u8) -> Result<LineStep, AllocError>
        requires { self.old.place ≡ AtPath }
        ensures { IfOk result (λ went. line_went went self.new ≡ line_step (at_path self.old.path) byte) }
    {
        match byte {
            b'0' => self.path.push(0)?,
            b'1' => self.path.push(1)?,
            b'\n' => {
                let path = mem::replace(&mut self.path, Path::new(alloc));
                self.place = LinePlace::LaterLine;
                return Ok(LineStep::Gives(Item::At(path)));
            }
            _ => return Ok(LineStep::Wrong),
        }
        Ok(LineStep::On)
    }

    /// A variable's number goes on with the byte, or its type comes.
    fn step_put_number(&mut self, alloc: Global, number: u32, byte: u8) -> LineStep
        ensures { line_went result self.new ≡ line_step (put_number number) byte }
    {
        match next_number(number, byte) {
            Some(next) => {
                self.place = LinePlace::PutNumber(next);
                LineStep::On
            }
            None => {
                if byte != b':' {
                    return LineStep::Wrong;
                }
                self.types = Vec::new(alloc);
                self.type_part = TypePlace::Wanted;
                self.place = LinePlace::PutType(number);
                LineStep::On
            }
        }
    }

    /// A variable's type goes on with the byte, or has ended before it.
    fn step_put_type(
        &mut self,
        alloc: Global,
        number: u32,
        byte: u8,
    ) -> Result<LineStep, AllocError>
        requires { self.old.place ≡ PutType number }
        ensures { IfOk result (λ went. line_went went self.new ≡ line_step (line_place self.old) byte) }
    {
        let part = mem::replace(&mut self.type_part, TypePlace::Wanted);
        match type_step(alloc, &mut self.types, part, byte)? {
            TypeStep::Goes(next) => {
                self.type_part = next;
                Ok(LineStep::On)
            }
            TypeStep::Ended(kind) => {
                if byte != b' ' {
                    return Ok(LineStep::Wrong);
                }
                self.kind = Some(kind);
                self.frames = Vec::new(alloc);
                self.part = TermPlace::Wanted;
                self.place = LinePlace::PutTerm(number);
                Ok(LineStep::On)
            }
            TypeStep::Wrong => Ok(LineStep::Wrong),
        }
    }

    /// The next byte of what is put for a variable.
    fn step_put_term(
        &mut self,
        alloc: Global,
        number: u32,
        byte: u8,
    ) -> Result<LineStep, AllocError>
        requires { self.old.place ≡ PutTerm number }
        ensures { IfOk result (λ went. line_went went self.new ≡ line_step (line_place self.old) byte) }
    {
        match mem::replace(&mut self.kind, None) {
            None => Ok(LineStep::Wrong),
            Some(kind) => {
                let part = mem::replace(&mut self.part, TermPlace::Wanted);
                match term_step(alloc, &mut self.frames, part, byte)? {
                    TermStep::Goes(next) => {
                        self.part = next;
                        self.kind = Some(kind);
                        Ok(LineStep::On)
                    }
                    TermStep::Whole(term) => {
                        self.place = LinePlace::LaterLine;
                        let term = Box::into_inner(term);
                        let put = Box::new(alloc, Put { number, kind, term })?;
                        Ok(LineStep::Gives(Item::Put(put)))
                    }
                    TermStep::Wrong => Ok(LineStep::Wrong),
                }
            }
        }
    }
}

/// The fixed word behind which this stands.
pub fn spelling(behind: Behind) -> &'static [u8]
    ensures { result.now ≡ spelling (behind_of behind) }
{
    match behind {
        Behind::Term => b"NO 1\nterm ".as_slice(),
        Behind::Rule => b"step ".as_slice(),
        Behind::Path(None) => b"beta /".as_slice(),
        Behind::Path(Some(_)) => b" /".as_slice(),
        Behind::At => b"at /".as_slice(),
        Behind::Put => b"put %".as_slice(),
        Behind::Finish => b"end\n".as_slice(),
    }
}

/// The place behind the first byte of a line of a step or of `at`.
fn step_line(byte: u8) -> Option<LinePlace>
    ensures { (l : NoLine) → went_to result l ≡ line_step line_front byte }
{
    match byte {
        b's' => Some(LinePlace::Word(Behind::Rule, 1)),
        b'a' => Some(LinePlace::Word(Behind::At, 1)),
        _ => None,
    }
}

/// The place behind the first byte of what a step applies.
fn step_rule(byte: u8) -> Option<LinePlace>
    ensures { (l : NoLine) → went_to result l ≡ line_step rule_wanted byte }
{
    match first_number(byte) {
        Some(number) => Some(LinePlace::RuleNumber(number)),
        None => {
            if byte == b'b' {
                return Some(LinePlace::Word(Behind::Path(None), 1));
            }
            None
        }
    }
}

/// A rule's number goes on with the byte, or has ended before it.
fn step_rule_number(number: u32, byte: u8) -> Option<LinePlace>
    ensures { (l : NoLine) → went_to result l ≡ line_step (rule_number number) byte }
{
    match next_number(number, byte) {
        Some(next) => Some(LinePlace::RuleNumber(next)),
        None => {
            if byte == b' ' {
                return Some(LinePlace::Word(Behind::Path(Some(number)), 1));
            }
            None
        }
    }
}

/// The place behind the first byte of a line behind that of `at`.
fn step_later_line(byte: u8) -> Option<LinePlace>
    ensures { (l : NoLine) → went_to result l ≡ line_step later_line byte }
{
    match byte {
        b'p' => Some(LinePlace::Word(Behind::Put, 1)),
        b'e' => Some(LinePlace::Word(Behind::Finish, 1)),
        _ => None,
    }
}

/// The place behind the first digit of a variable's number.
fn step_put_variable(byte: u8) -> Option<LinePlace>
    ensures { (l : NoLine) → went_to result l ≡ line_step put_percent byte }
{
    match first_number(byte) {
        Some(number) => Some(LinePlace::PutNumber(number)),
        None => None,
    }
}
