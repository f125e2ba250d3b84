//! The reader of certificates, byte by byte. `CertReader::feed` takes one byte and `feed_some` takes several. They hand
//! out each item where its last line is whole, and keep none.

ghost use Rattle.std.specs.Prelude.{◌≡◌, ◌∷◌, ◌++◌, [], ◌<◌, ◌-◌, ◌^◌, ◌+◌, List, ℕ, OnOk, IfOk, IfErr, length};
ghost use Rattle.std.specs.Option.{option_map, option_to_list};
ghost use Rattle.wh_types.specs.Outcome.{IfBecause};
ghost use Rattle.wh_cert.specs.Written.{Cert};
ghost use Rattle.wh_cert.specs.Items.{Item as said, items};
ghost use Rattle.wh_cert.specs.Said.{said_item};
ghost use Rattle.wh_cert.specs.CertText.{Begins, CertText, FaultAt};
ghost use Rattle.wh_cert_machines.specs.LineMachine as m;
ghost use Rattle.wh_cert_machines.specs.LineMachine.{run, stands, stands_yes, start, unread};
ghost use Rattle.wh_cert_machines.specs.YesMachine as y;
ghost use Rattle.wh_cert_machines.specs.LineViews.{line_place};
ghost use Rattle.wh_cert_machines.specs.YesViews.{yes_place};
ghost use Rattle.wh_cert_text.specs.Handing.{wanted as wanted_of};
ghost use Rattle.wh_cert_text.specs.ItemsRead.{ItemsIn};
ghost use Rattle.wh_cert_text.specs.Portions.{HasFed, HasRun, IsPortionOf, IsWithin, RefusesSome};
ghost use Rattle.wh_cert_text.specs.Feeding.{Tracks, TracksNo, TracksYes, HeadKnown, Led, OnWant, Refuses, StandsFor, has_ended};
ghost use Rattle.wh_cert_machines.specs.declared.progress.Progress.TheVariants.{Lost, Refused};

use crate::items_out::{Stretch, Taken, begin_yes, take_no, take_some_no, take_some_yes, take_yes};
use std::alloc::Global;
use std::mem;
use wh_cert::{CertSyntax, Item};
use wh_cert_machines::{LinePlace, NoLine, Progress, YesItems, YesPlace};
use wh_types::Or;

/// What a call that takes several bytes did.
#[derive(Drop)]
pub struct Portion {
    /// How many of the given bytes were taken.
    pub taken: usize,
    /// The item whose last line ends with the last taken byte.
    pub item: Option<Item>,
}

/// A reader of a certificate, which is given its bytes one by one. It keeps the present lines alone.
#[derive(Drop)]
pub struct CertReader {
    taken: u32,
    at: Progress,
    alloc: Global,
}

impl CertReader {
    /// The reader before the first byte.
    pub fn new(alloc: Global) -> CertReader
        ensures stands { StandsFor result [] }
        ensures items { ItemsIn [] [] }
    {
        CertReader {
            taken: 0,
            at: Progress::Unread,
            alloc,
        }
    }

    /// Takes one more byte, and hands out the item whose last line it ends. Without memory it is not taken, nor is any
    /// later one.
    ///
    /// # Errors The bytes begin no certificate text; the fault has the number of those that do. Once it has come it
    /// comes at each call.
    pub fn feed(&mut self, byte: u8) -> Result<Option<Item>, Or<CertSyntax>>
        requires { (p : List ℕ) × StandsFor self.old p × (length p < 2 ^ 32 - 1) }
        ensures on { OnOk result ((p : List ℕ) → StandsFor self.old p → length p < 2 ^ 32 - 1
            → StandsFor self.new (p ++ byte ∷ []) × Begins (p ++ byte ∷ [])) }
        ensures item { IfOk result (λ item. (p : List ℕ) (is : List said) → StandsFor self.old p → length p < 2 ^ 32 - 1
            → ItemsIn p is → ItemsIn (p ++ byte ∷ []) (is ++ option_to_list (option_map said_item item))) }
        ensures stops { IfBecause result (λ e. (p : List ℕ) → StandsFor self.old p → length p < 2 ^ 32 - 1
            → StandsFor self.new (p ++ byte ∷ []) × FaultAt (p ++ byte ∷ []) e.at × (Begins (p ++ byte ∷ []) → ⊥)) }
        ensures lost { OnWant result ((p : List ℕ) → StandsFor self.old p → length p < 2 ^ 32 - 1
            → StandsFor self.new p × Begins p) }
    {
        match mem::replace(&mut self.at, Progress::Lost) {
            Progress::Unread => self.begin(byte),
            Progress::Yes(lines) => self.feed_yes(lines, byte),
            Progress::No(line) => self.feed_no(line, byte),
            Progress::Refused => self.refuse(),
            Progress::Lost => Err(Or::NoMemory),
        }
    }

    /// Takes some of the bytes, at least one, and none behind one that ends the last line of an item. It does with them
    /// what `feed` does one by one, and quicker: each answer has room for an item, which is cleared, and byte by byte
    /// reading took 1.3 times as long. Without memory the reader stands for nothing any more.
    ///
    /// # Errors The bytes begin no certificate text; the fault has the number of those that do. Once it has come it
    /// comes at each call.
    pub fn feed_some(&mut self, bytes: &[u8]) -> Result<Portion, Or<CertSyntax>>
        requires some { 0 < length bytes.now }
        requires few { (p : List ℕ) × StandsFor self.old p × (length p + length bytes.now < 2 ^ 32) }
        ensures taken { IfOk result (IsPortionOf bytes.now) }
        ensures fed { (p : List ℕ) → StandsFor self.old p → length p + length bytes.now < 2 ^ 32 → HasFed p bytes.now self.new result }
    {
        match mem::replace(&mut self.at, Progress::Lost) {
            Progress::Unread => self.begin_some(bytes),
            Progress::Yes(lines) => self.feed_some_yes(lines, bytes),
            Progress::No(line) => self.feed_some_no(line, bytes),
            Progress::Refused => self.refuse_some(),
            Progress::Lost => Err(Or::NoMemory),
        }
    }

    /// Ends the reading: there are no more bytes.
    ///
    /// # Errors The bytes are no certificate text.
    pub fn finish(self) -> Result<(), CertSyntax>
        ensures whole { OnOk result ((p : List ℕ) → StandsFor self p → length p < 2 ^ 32
            → (c : Cert) × CertText p c × ((is : List said) → ItemsIn p is → is ≡ items c)) }
        ensures fault { IfErr result (λ e. (p : List ℕ) → StandsFor self p → length p < 2 ^ 32 → FaultAt p e.at) }
    {
        if self.has_ended() {
            return Ok(());
        }
        Err(CertSyntax {
            at: u64::from(self.taken),
        })
    }

    /// Whether all of a certificate was read.
    fn has_ended(&self) -> bool
        ensures { result ≡ has_ended self.now.at }
    {
        match &self.at {
            Progress::Yes(lines) => matches!(lines.line.place, YesPlace::Finished),
            Progress::No(line) => matches!(line.place, LinePlace::Finished),
            Progress::Unread | Progress::Refused | Progress::Lost => false,
        }
    }

    /// Refuses the byte, which is wrong.
    fn refuse(&mut self) -> Result<Option<Item>, Or<CertSyntax>>
        ensures { Refuses self.old self.new result }
    {
        Err(Or::Because(self.refused()))
    }

    /// Goes on to the place that `count` bytes led to.
    fn go(&mut self, at: Progress, count: usize)
        requires { self.old.taken + count < 2 ^ 32 }
        ensures at { self.new.at ≡ at }
        ensures taken { self.new.taken ≡ self.old.taken + count }
    {
        self.at = at;
        self.taken += count as u32;
    }

    /// The first byte tells YES from NO.
    fn begin(&mut self, byte: u8) -> Result<Option<Item>, Or<CertSyntax>>
        requires room { self.old.taken < 2 ^ 32 - 1 }
        requires away { self.old.at ≡ Lost }
        ensures { Led unread self.old self.new byte result }
    {
        match byte {
            b'Y' => {
                let lines = begin_yes(self.alloc)?;
                let lines = Box::new(self.alloc, lines)?;
                self.go(Progress::Yes(lines), 1);
            }
            b'N' => {
                let line = NoLine::new(self.alloc);
                let line = Box::new(self.alloc, line)?;
                self.go(Progress::No(line), 1);
            }
            _ => return self.refuse(),
        }
        Ok(None)
    }

    /// A byte of a NO certificate.
    fn feed_no(&mut self, mut line: Box<NoLine>, byte: u8) -> Result<Option<Item>, Or<CertSyntax>>
        requires room { self.old.taken < 2 ^ 32 - 1 }
        requires away { self.old.at ≡ Lost }
        ensures { (h : m.Past) → Led (stands h (line_place line.value)) self.old self.new byte result }
    {
        match take_no(&mut line, self.alloc, byte)? {
            Taken::On(item) => {
                self.go(Progress::No(line), 1);
                Ok(item)
            }
            Taken::Wrong => self.refuse(),
        }
    }

    /// A byte of a YES certificate.
    fn feed_yes(
        &mut self,
        mut lines: Box<YesItems>,
        byte: u8,
    ) -> Result<Option<Item>, Or<CertSyntax>>
        requires room { self.old.taken < 2 ^ 32 - 1 }
        requires away { self.old.at ≡ Lost }
        ensures { (h : y.Past) → wanted_of h ≡ lines.value.wanted → y.version_of h ≡ lines.value.version
            → HeadKnown h lines.value byte → Led (stands_yes h (yes_place lines.value.line)) self.old self.new byte result }
    {
        match take_yes(&mut lines, self.alloc, byte)? {
            Taken::On(item) => {
                self.go(Progress::Yes(lines), 1);
                Ok(item)
            }
            Taken::Wrong => self.refuse(),
        }
    }

    /// Takes the first byte alone of the first bytes.
    fn begin_some(&mut self, bytes: &[u8]) -> Result<Portion, Or<CertSyntax>>
        requires some { 0 < length bytes.now }
        requires room { self.old.taken + length bytes.now < 2 ^ 32 }
        requires away { self.old.at ≡ Lost }
        ensures taken { IfOk result (IsPortionOf bytes.now) }
        ensures fed { (p : List ℕ) → self.old.taken ≡ length p → run start p ≡ unread → HasFed p bytes.now self.new result }
    {
        match self.begin(bytes[0]) {
            Ok(item) => Ok(Portion { taken: 1, item }),
            Err(fault) => Err(fault),
        }
    }

    /// Refuses the bytes from now on.
    fn refused(&mut self) -> CertSyntax
        ensures place { result.at ≡ self.old.taken }
        ensures taken { self.new.taken ≡ self.old.taken }
        ensures at { self.new.at ≡ Refused }
    {
        self.at.refuse(self.taken)
    }

    /// Refuses bytes that come behind a wrong one.
    fn refuse_some(&mut self) -> Result<Portion, Or<CertSyntax>>
        ensures { RefusesSome self.old self.new result }
    {
        Err(Or::Because(self.refused()))
    }

    /// Bytes of a YES certificate.
    fn feed_some_yes(
        &mut self,
        mut lines: Box<YesItems>,
        bytes: &[u8],
    ) -> Result<Portion, Or<CertSyntax>>
        requires some { 0 < length bytes.now }
        requires room { self.old.taken + length bytes.now < 2 ^ 32 }
        requires away { self.old.at ≡ Lost }
        ensures taken { IfOk result (IsPortionOf bytes.now) }
        ensures fed { (p : List ℕ) → self.old.taken ≡ length p → TracksYes lines.value (run start p) → HasFed p bytes.now self.new result }
    {
        let stretch = take_some_yes(&mut lines, self.alloc, bytes)?;
        self.go_on(Progress::Yes(lines), stretch, bytes)
    }

    /// Bytes of a NO certificate.
    fn feed_some_no(
        &mut self,
        mut line: Box<NoLine>,
        bytes: &[u8],
    ) -> Result<Portion, Or<CertSyntax>>
        requires some { 0 < length bytes.now }
        requires room { self.old.taken + length bytes.now < 2 ^ 32 }
        requires away { self.old.at ≡ Lost }
        ensures taken { IfOk result (IsPortionOf bytes.now) }
        ensures fed { (p : List ℕ) → self.old.taken ≡ length p → TracksNo line.value (run start p) → HasFed p bytes.now self.new result }
    {
        let stretch = take_some_no(&mut line, self.alloc, bytes)?;
        self.go_on(Progress::No(line), stretch, bytes)
    }

    /// Goes on to the place that the bytes led the lines to.
    fn go_on(
        &mut self,
        at: Progress,
        stretch: Stretch,
        bytes: &[u8],
    ) -> Result<Portion, Or<CertSyntax>>
        requires some { 0 < length bytes.now }
        requires room { self.old.taken + length bytes.now < 2 ^ 32 }
        requires within { IsWithin bytes.now stretch }
        ensures taken { IfOk result (IsPortionOf bytes.now) }
        ensures fed { (p : List ℕ) → self.old.taken ≡ length p → HasRun (Tracks at) p bytes.now stretch
            → HasFed p bytes.now self.new result }
    {
        match stretch {
            Stretch::On => {
                self.go(at, bytes.len());
                Ok(Portion {
                    taken: bytes.len(),
                    item: None,
                })
            }
            Stretch::Whole(count, item) => {
                self.go(at, count);
                Ok(Portion {
                    taken: count,
                    item: Some(item),
                })
            }
            Stretch::Wrong(count) => {
                self.go(Progress::Refused, count);
                Err(Or::Because(CertSyntax {
                    at: u64::from(self.taken),
                }))
            }
        }
    }
}
