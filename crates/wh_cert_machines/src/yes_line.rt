//! YES certificates line by line: the step takes one byte, and gives an item where its last line is whole. It keeps
//! nothing of the items before. `YesLine::step` is the main function.

ghost use Rattle.std.specs.Prelude.{◌≡◌, true, drop, map, IfOk};
ghost use Rattle.wh_cert.specs.Said.{said_arg};
ghost use Rattle.wh_cert_machines.specs.YesMachine.{of_pairs, of_blocks, spelling, behind as stands_behind, list_ended, list_step, number_ended, front_step, version_step, word_step, digit_step, number_step, arg_step, letter_step, lines_led, order_led, step as machine_step};
ghost use Rattle.wh_cert_lines.specs.OrderLines.{lines_step as order_step};
ghost use Rattle.wh_cert_lines.specs.OrderLinesViews.{lines_of as order_lines_of, lines_place as order_place};
ghost use Rattle.wh_cert_lines.specs.PolyLines.{lines_step};
ghost use Rattle.wh_cert_lines.specs.PolyLinesViews.{lines_of, lines_place};
ghost use Rattle.wh_cert_machines.specs.YesViews.{listed_of, behind_of, counted_of, yes_place, yes_went, next_block};
ghost use Rattle.wh_cert_machines.specs.declared.yes_line.YesLine.{YesLine};
ghost use Rattle.wh_cert_machines.specs.declared.yes_line.Listed.TheVariants as listed;
ghost use Rattle.wh_cert_machines.specs.declared.yes_line.YesBehind.TheVariants as behind;
ghost use Rattle.wh_cert_machines.specs.declared.yes_line.YesPlace.TheVariants as place;

use std::alloc::{AllocError, Global};
use std::mem;
use wh_cert::{Arg, Args, Node};
use wh_cert_letters::{Letters, begins_name, first_number, next_number};
use wh_cert_lines::{LinesStep, OrderLines, PolyLines, Section};
use wh_types::{Blocks, Numbers};

/// A list of numbers.
#[derive(Clone, Copy)]
pub enum Listed {
    /// The ranks.
    Ranks,
    /// A block, behind which this number of blocks come.
    Block(u32),
    /// The pairs that are dropped, behind lines of arguments.
    Drop,
    /// The rules that are to be covered, before lines of interpretations and moves.
    Usable,
    /// The pairs that are dropped, behind lines of interpretations and moves.
    Poly,
    /// The pairs that are dropped, behind lines of filters and inferences.
    Order,
}

/// What a number is read for.
#[derive(Clone, Copy)]
pub enum Counted {
    /// The number of pairs.
    Pairs,
    /// The number of blocks.
    Blocks,
    /// A further number of a list.
    List(Listed),
}

/// What stands behind a fixed word.
#[derive(Clone, Copy)]
pub enum YesBehind {
    /// The version.
    Version,
    /// Numbers of a list.
    List(Listed),
    /// The number of pairs.
    Pairs,
    /// Nothing: a node `done`.
    Done,
    /// Nothing: a node `alone`.
    Alone,
    /// The number of blocks.
    Blocks,
    /// Lines of `arg` and `drop`.
    Subterm,
    /// The name of a symbol.
    Name,
    /// Lines of a node of interpretations.
    Poly,
    /// The content of a line of interpretations or moves, of this kind.
    Line(Section),
    /// Lines of a node of a path order.
    Order,
    /// The content of a line of filters or inferences, of this kind.
    OrderLine(Section),
    /// Nothing.
    Finish,
}

/// How far the present lines were read. What is longer than a number stands in the line itself.
#[derive(Clone, Copy)]
pub enum YesPlace {
    /// The first bytes of a fixed word, as many as the number says.
    Word(YesBehind, usize),
    /// `YES `.
    VersionWanted,
    /// A list's line up to its last number.
    Listed(Listed),
    /// A line up to where a number comes.
    NumberWanted(Counted),
    /// A line up to digits of a number.
    Number(Counted, u32),
    /// No byte of a node, or of the end.
    Front,
    /// No byte of a line of `arg` or `drop`.
    ArgFront,
    /// `arg `.
    NameWanted,
    /// `arg ` and letters of a symbol's name.
    Name,
    /// `arg `, a symbol's name and a space.
    ArgPlaceWanted,
    /// `arg `, a symbol's name, a space and digits.
    ArgPlace(u32),
    /// A part of the lines of a node of interpretations.
    Lines,
    /// A part of the lines of a node of a path order.
    OrderLines,
    /// The whole certificate.
    Finished,
}

/// The lines of a YES certificate since its last item.
#[derive(Drop)]
pub struct YesLine {
    /// How far they were read.
    pub place: YesPlace,
    /// The numbers of a list.
    pub numbers: Numbers,
    /// The blocks of a node.
    pub parts: Blocks,
    /// The arguments that a node looks at.
    pub args: Args,
    /// The name of a symbol, once it was begun.
    pub name: Option<Letters>,
    /// The rules that a node of interpretations lists, where it does.
    pub usable: Option<Numbers>,
    /// The lines of a node of interpretations.
    pub lines: Box<PolyLines>,
    /// The lines of a node of a path order.
    pub order: Box<OrderLines>,
}

/// What lines give.
#[derive(Drop)]
pub enum YesItem {
    /// The version.
    Version(u32),
    /// The ranks.
    Ranks(Numbers),
    /// The number of pairs.
    Pairs(u32),
    /// A node.
    Node(Node),
    /// The end.
    End,
}

/// Where a byte leads the reader.
#[derive(Drop)]
pub enum YesStep {
    /// The lines go on with the byte.
    On,
    /// The byte ends the last line of an item.
    Gives(YesItem),
    /// The byte is wrong.
    Wrong,
}

impl YesLine {
    /// The reader before the certificate's second byte.
    pub fn new(alloc: Global) -> Result<YesLine, AllocError>
        ensures { IfOk result (λ line. line.place ≡ place.Word behind.Version 1) }
    {
        Ok(YesLine {
            place: YesPlace::Word(YesBehind::Version, 1),
            numbers: Numbers::new(alloc),
            parts: Blocks::new(alloc),
            args: Args::new(alloc),
            name: None,
            usable: None,
            lines: Box::new(alloc, PolyLines::new(alloc)?)?,
            order: Box::new(alloc, OrderLines::new(alloc)?)?,
        })
    }

    /// Takes one more byte. At the front of a node it needs the version, and whether a node is wanted there.
    pub fn step(
        &mut self,
        alloc: Global,
        version: u32,
        wants: bool,
        byte: u8,
    ) -> Result<YesStep, AllocError>
        ensures { IfOk result (λ went. yes_went went self.new ≡ machine_step version wants (yes_place self.old) byte) }
    {
        match self.place {
            YesPlace::Word(behind, at) => self.step_word(alloc, behind, at, byte),
            YesPlace::VersionWanted => Ok(self.step_version(byte)),
            YesPlace::Listed(of) => self.step_list(alloc, of, byte),
            YesPlace::NumberWanted(of) => Ok(self.first_digit(of, byte)),
            YesPlace::Number(of, number) => self.step_number(alloc, of, number, byte),
            YesPlace::Front => Ok(self.step_front(version, wants, byte)),
            YesPlace::ArgFront => Ok(self.step_arg_front(byte)),
            YesPlace::NameWanted => self.first_letter(alloc, byte),
            YesPlace::Name => self.step_name(byte),
            YesPlace::ArgPlaceWanted => Ok(self.first_arg_digit(byte)),
            YesPlace::ArgPlace(number) => self.step_arg_place(alloc, number, byte),
            YesPlace::Lines => self.step_lines(alloc, byte),
            YesPlace::OrderLines => self.step_order(alloc, byte),
            YesPlace::Finished => Ok(YesStep::Wrong),
        }
    }

    /// The next byte of a fixed word.
    fn step_word(
        &mut self,
        alloc: Global,
        behind: YesBehind,
        at: usize,
        byte: u8,
    ) -> Result<YesStep, AllocError>
        ensures { IfOk result (λ went. yes_went went self.new
            ≡ word_step (drop at (spelling (behind_of behind self.old))) (behind_of behind self.old) byte) }
    {
        let word = spelling(behind);
        if at >= word.len() {
            return Ok(YesStep::Wrong);
        }
        if byte != word[at] {
            return Ok(YesStep::Wrong);
        }
        if at + 1 < word.len() {
            self.place = YesPlace::Word(behind, at + 1);
            return Ok(YesStep::On);
        }
        self.begin_behind(alloc, behind)
    }

    /// The place behind a fixed word.
    fn begin_behind(&mut self, alloc: Global, behind: YesBehind) -> Result<YesStep, AllocError>
        ensures { IfOk result (λ went. yes_went went self.new ≡ stands_behind (behind_of behind self.old)) }
    {
        match behind {
            YesBehind::Version => self.place = YesPlace::VersionWanted,
            YesBehind::List(of) => {
                self.numbers = Numbers::new(alloc);
                self.place = YesPlace::Listed(of);
            }
            YesBehind::Pairs => self.place = YesPlace::NumberWanted(Counted::Pairs),
            YesBehind::Done => {
                self.place = YesPlace::Front;
                return Ok(YesStep::Gives(YesItem::Node(Node::Done)));
            }
            YesBehind::Alone => {
                self.place = YesPlace::Front;
                return Ok(YesStep::Gives(YesItem::Node(Node::Alone)));
            }
            YesBehind::Blocks => self.place = YesPlace::NumberWanted(Counted::Blocks),
            YesBehind::Subterm => {
                self.args = Args::new(alloc);
                self.place = YesPlace::ArgFront;
            }
            YesBehind::Name => self.place = YesPlace::NameWanted,
            YesBehind::Poly => {
                self.usable = None;
                self.lines.restart(alloc)?;
                self.place = YesPlace::Lines;
            }
            YesBehind::Line(section) => {
                self.lines.begin_line(alloc, section)?;
                self.place = YesPlace::Lines;
            }
            YesBehind::Order => {
                self.order.restart(alloc)?;
                self.place = YesPlace::OrderLines;
            }
            YesBehind::OrderLine(section) => {
                self.order.begin_line(section);
                self.place = YesPlace::OrderLines;
            }
            YesBehind::Finish => {
                self.place = YesPlace::Finished;
                return Ok(YesStep::Gives(YesItem::End));
            }
        }
        Ok(YesStep::On)
    }

    /// The digit of the version, behind which the line of the ranks comes.
    fn step_version(&mut self, byte: u8) -> YesStep
        ensures { yes_went result self.new ≡ version_step byte }
    {
        let version = match byte {
            b'1' => 1,
            b'2' => 2,
            _ => return YesStep::Wrong,
        };
        self.place = YesPlace::Word(YesBehind::List(Listed::Ranks), 0);
        YesStep::Gives(YesItem::Version(version))
    }

    /// Behind a number of a list another one comes, or the line ends.
    fn step_list(&mut self, alloc: Global, of: Listed, byte: u8) -> Result<YesStep, AllocError>
        ensures { IfOk result (λ went. yes_went went self.new ≡ list_step (listed_of of self.old) self.old.numbers byte) }
    {
        match byte {
            b' ' => {
                self.place = YesPlace::NumberWanted(Counted::List(of));
                Ok(YesStep::On)
            }
            b'\n' => self.end_list(alloc, of),
            _ => Ok(YesStep::Wrong),
        }
    }

    /// The line of a list has ended.
    #[tactic(auto, using(crate::proofs::YesCode::block_ended))]
    fn end_list(&mut self, alloc: Global, of: Listed) -> Result<YesStep, AllocError>
        ensures { IfOk result (λ went. yes_went went self.new ≡ list_ended (listed_of of self.old) self.old.numbers) }
    {
        let numbers = mem::replace(&mut self.numbers, Numbers::new(alloc));
        match of {
            Listed::Ranks => {
                self.place = YesPlace::Word(YesBehind::Pairs, 0);
                Ok(YesStep::Gives(YesItem::Ranks(numbers)))
            }
            Listed::Block(left) => {
                self.parts.push(numbers)?;
                self.end_block(alloc, left)
            }
            Listed::Drop => {
                let args = mem::replace(&mut self.args, Args::new(alloc));
                self.place = YesPlace::Front;
                let node = Node::Subterm {
                    args,
                    drop: numbers,
                };
                Ok(YesStep::Gives(YesItem::Node(node)))
            }
            Listed::Usable => {
                self.usable = Some(numbers);
                self.lines.restart(alloc)?;
                self.place = YesPlace::Lines;
                Ok(YesStep::On)
            }
            Listed::Poly => self.end_poly(alloc, numbers),
            Listed::Order => self.end_order(alloc, numbers),
        }
    }

    /// The line of the pairs that a node of interpretations drops has ended.
    #[tactic(auto, using(crate::proofs::YesCode::drop_ended))]
    fn end_poly(&mut self, alloc: Global, numbers: Numbers) -> Result<YesStep, AllocError>
        ensures { IfOk result (λ went. yes_went went self.new ≡ list_ended (listed_of listed.Poly self.old) numbers) }
    {
        let usable = mem::replace(&mut self.usable, None);
        let node = Box::new(alloc, self.lines.node(alloc, usable, numbers)?)?;
        self.place = YesPlace::Front;
        Ok(YesStep::Gives(YesItem::Node(Node::Poly(node))))
    }

    /// The line of the pairs that a node of a path order drops has ended.
    #[tactic(auto, using(crate::proofs::YesCode::order_ended))]
    fn end_order(&mut self, alloc: Global, numbers: Numbers) -> Result<YesStep, AllocError>
        ensures { IfOk result (λ went. yes_went went self.new ≡ list_ended (listed_of listed.Order self.old) numbers) }
    {
        let node = Box::new(alloc, self.order.node(alloc, numbers)?)?;
        self.place = YesPlace::Front;
        Ok(YesStep::Gives(YesItem::Node(Node::Order(node))))
    }

    /// The lines of a node of interpretations go on with the byte.
    fn step_lines(&mut self, alloc: Global, byte: u8) -> Result<YesStep, AllocError>
        ensures { IfOk result (λ went. yes_went went self.new ≡ lines_led self.old.usable
            (lines_step (lines_of self.old.lines.value) (lines_place self.old.lines.value) byte)) }
    {
        match self.lines.step(alloc, byte)? {
            LinesStep::On => self.place = YesPlace::Lines,
            LinesStep::Begins => {
                self.place = YesPlace::Word(YesBehind::Line(self.lines.lists.section), 1);
            }
            LinesStep::Drops => {
                self.place = YesPlace::Word(YesBehind::List(Listed::Poly), 1);
            }
            LinesStep::Wrong => return Ok(YesStep::Wrong),
        }
        Ok(YesStep::On)
    }

    /// The lines of a node of a path order go on with the byte.
    fn step_order(&mut self, alloc: Global, byte: u8) -> Result<YesStep, AllocError>
        ensures { IfOk result (λ went. yes_went went self.new ≡ order_led
            (order_step (order_lines_of self.old.order.value) (order_place self.old.order.value) byte)) }
    {
        match self.order.step(alloc, byte)? {
            LinesStep::On => self.place = YesPlace::OrderLines,
            LinesStep::Begins => {
                self.place = YesPlace::Word(YesBehind::OrderLine(self.order.lists.section), 1);
            }
            LinesStep::Drops => {
                self.place = YesPlace::Word(YesBehind::List(Listed::Order), 1);
            }
            LinesStep::Wrong => return Ok(YesStep::Wrong),
        }
        Ok(YesStep::On)
    }

    /// Behind the line of a block, or of the number of blocks, where `left` blocks are left.
    fn end_block(&mut self, alloc: Global, left: u32) -> Result<YesStep, AllocError>
        ensures { IfOk result (λ went. yes_went went self.new ≡ next_block left self.old.parts) }
    {
        if left > 0 {
            self.place = YesPlace::Word(YesBehind::List(Listed::Block(left - 1)), 0);
            return Ok(YesStep::On);
        }
        let parts = mem::replace(&mut self.parts, Blocks::new(alloc));
        self.place = YesPlace::Front;
        Ok(YesStep::Gives(YesItem::Node(Node::Blocks(parts))))
    }

    /// The first digit of a number.
    fn first_digit(&mut self, of: Counted, byte: u8) -> YesStep
        ensures { yes_went result self.new ≡ digit_step (counted_of of self.old) byte }
    {
        match first_number(byte) {
            Some(number) => {
                self.place = YesPlace::Number(of, number);
                YesStep::On
            }
            None => YesStep::Wrong,
        }
    }

    /// A number goes on with the byte, or has ended before it.
    fn step_number(
        &mut self,
        alloc: Global,
        of: Counted,
        number: u32,
        byte: u8,
    ) -> Result<YesStep, AllocError>
        ensures { IfOk result (λ went. yes_went went self.new ≡ number_step (counted_of of self.old) number byte) }
    {
        match next_number(number, byte) {
            Some(next) => {
                self.place = YesPlace::Number(of, next);
                Ok(YesStep::On)
            }
            None => match of {
                Counted::Pairs => Ok(self.end_pairs(number, byte)),
                Counted::Blocks => self.end_count(alloc, number, byte),
                Counted::List(of) => {
                    self.numbers.push(number)?;
                    self.step_list(alloc, of, byte)
                }
            },
        }
    }

    /// The number of pairs has ended before the byte.
    fn end_pairs(&mut self, number: u32, byte: u8) -> YesStep
        ensures { yes_went result self.new ≡ number_ended of_pairs number byte }
    {
        if byte != b'\n' {
            return YesStep::Wrong;
        }
        self.place = YesPlace::Front;
        YesStep::Gives(YesItem::Pairs(number))
    }

    /// The number of blocks has ended before the byte.
    fn end_count(&mut self, alloc: Global, number: u32, byte: u8) -> Result<YesStep, AllocError>
        ensures { IfOk result (λ went. yes_went went self.new ≡ number_ended of_blocks number byte) }
    {
        if byte != b'\n' {
            return Ok(YesStep::Wrong);
        }
        self.parts = Blocks::new(alloc);
        self.end_block(alloc, number)
    }

    /// The first digit of a symbol's argument.
    fn first_arg_digit(&mut self, byte: u8) -> YesStep
        requires { self.old.place ≡ place.ArgPlaceWanted }
        ensures { yes_went result self.new ≡ machine_step 1 true (yes_place self.old) byte }
    {
        if self.name.is_none() {
            return YesStep::Wrong;
        }
        match first_number(byte) {
            Some(number) => {
                self.place = YesPlace::ArgPlace(number);
                YesStep::On
            }
            None => YesStep::Wrong,
        }
    }

    /// The number of a symbol's argument goes on with the byte, or has ended before it.
    #[tactic(auto, using(crate::proofs::YesCode::args_grow))]
    fn step_arg_place(
        &mut self,
        alloc: Global,
        number: u32,
        byte: u8,
    ) -> Result<YesStep, AllocError>
        requires { self.old.place ≡ place.ArgPlace number }
        ensures { IfOk result (λ went. yes_went went self.new ≡ machine_step 1 true (yes_place self.old) byte) }
    {
        match &self.name {
            None => Ok(YesStep::Wrong),
            Some(letters) => {
                if let Some(next) = next_number(number, byte) {
                    self.place = YesPlace::ArgPlace(next);
                    return Ok(YesStep::On);
                }
                if byte != b'\n' {
                    return Ok(YesStep::Wrong);
                }
                let name = letters.name(alloc)?;
                self.args.push(Arg {
                    name,
                    place: number,
                })?;
                self.place = YesPlace::ArgFront;
                Ok(YesStep::On)
            }
        }
    }

    /// The first byte of a node of the version, or of the end.
    fn step_front(&mut self, version: u32, wants: bool, byte: u8) -> YesStep
        ensures { yes_went result self.new ≡ front_step version wants byte }
    {
        let behind = match (wants, byte) {
            (true, b'd') => YesPlace::Word(YesBehind::Done, 0),
            (true, b'a') => YesPlace::Word(YesBehind::Alone, 1),
            (true, b'b') => YesPlace::Word(YesBehind::Blocks, 1),
            (true, b's') => YesPlace::Word(YesBehind::Subterm, 1),
            (true, b'p') if version == 1 => YesPlace::Word(YesBehind::Poly, 1),
            (true, b'p') if version == 2 => YesPlace::Word(YesBehind::List(Listed::Usable), 1),
            (true, b'o') if version == 2 => YesPlace::Word(YesBehind::Order, 1),
            (false, b'e') => YesPlace::Word(YesBehind::Finish, 1),
            _ => return YesStep::Wrong,
        };
        self.place = behind;
        YesStep::On
    }

    /// The first byte of a line of `arg` or `drop`.
    fn step_arg_front(&mut self, byte: u8) -> YesStep
        ensures { yes_went result self.new ≡ arg_step (map said_arg self.old.args) byte }
    {
        match byte {
            b'a' => self.place = YesPlace::Word(YesBehind::Name, 1),
            b'd' => self.place = YesPlace::Word(YesBehind::List(Listed::Drop), 1),
            _ => return YesStep::Wrong,
        }
        YesStep::On
    }

    /// The first letter of a symbol's name.
    fn first_letter(&mut self, alloc: Global, byte: u8) -> Result<YesStep, AllocError>
        ensures { IfOk result (λ went. yes_went went self.new ≡ letter_step (map said_arg self.old.args) byte) }
    {
        if !begins_name(byte) {
            return Ok(YesStep::Wrong);
        }
        self.name = Some(Letters::new(alloc, byte)?);
        self.place = YesPlace::Name;
        Ok(YesStep::On)
    }

    /// A symbol's name goes on with the byte, or has ended before it.
    fn step_name(&mut self, byte: u8) -> Result<YesStep, AllocError>
        requires { self.old.place ≡ place.Name }
        ensures { IfOk result (λ went. yes_went went self.new ≡ machine_step 1 true (yes_place self.old) byte) }
    {
        match &mut self.name {
            None => Ok(YesStep::Wrong),
            Some(letters) => {
                if letters.goes_on(byte) {
                    letters.push(byte)?;
                    return Ok(YesStep::On);
                }
                if byte != b' ' {
                    return Ok(YesStep::Wrong);
                }
                self.place = YesPlace::ArgPlaceWanted;
                Ok(YesStep::On)
            }
        }
    }
}

/// The fixed word behind which this stands.
fn spelling(behind: YesBehind) -> &'static [u8]
    ensures { (l : YesLine) → result.now ≡ spelling (behind_of behind l) }
{
    match behind {
        YesBehind::Version => b"YES ".as_slice(),
        YesBehind::List(Listed::Ranks) => b"\nranks".as_slice(),
        YesBehind::List(Listed::Block(_)) => b"block".as_slice(),
        YesBehind::List(Listed::Usable) => b"poly\nusable".as_slice(),
        YesBehind::List(Listed::Drop | Listed::Poly | Listed::Order) => b"drop".as_slice(),
        YesBehind::Pairs => b"pairs ".as_slice(),
        YesBehind::Done => b"one\n".as_slice(),
        YesBehind::Alone => b"alone\n".as_slice(),
        YesBehind::Blocks => b"blocks ".as_slice(),
        YesBehind::Subterm => b"subterm\n".as_slice(),
        YesBehind::Name => b"arg ".as_slice(),
        YesBehind::Poly => b"poly\n".as_slice(),
        YesBehind::Order => b"order\n".as_slice(),
        YesBehind::Line(section) | YesBehind::OrderLine(section) => match section {
            Section::Funs => b"fun ".as_slice(),
            Section::Marks => b"mark ".as_slice(),
            Section::Rules => b"rule".as_slice(),
            Section::Pairs => b"pair".as_slice(),
        },
        YesBehind::Finish => b"end\n".as_slice(),
    }
}
