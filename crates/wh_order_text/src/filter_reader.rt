//! The reader of argument filters, byte by byte. `FilterText::step` is its main function.

ghost use Rattle.std.specs.Prelude.{◌≡◌, IfOk};
ghost use Rattle.wh_order_inference.specs.FilterText.{keeps};
ghost use Rattle.wh_order_text.specs.FilterMachine.{wanted, prec_wanted, prec, place_wanted, place, pick_wanted, picked, spelling, behind_word, behind_number, step as leads, goes};
ghost use Rattle.wh_order_text.specs.FilterViews.{word_of, place_of, filter_place, went};
ghost use Rattle.wh_order_text.specs.declared.filter_reader.FilterPlace.TheVariants.{Word};

use std::alloc::{AllocError, Global};
use std::mem;
use wh_cert_letters::{first_number, next_number};
use wh_order_inference::Filter;
use wh_types::Numbers;

/// The word that a filter begins with.
#[derive(Clone, Copy)]
pub enum FilterWord {
    /// `keep `.
    Keep,
    /// `pick `.
    Pick,
}

/// How far a filter was read. The numbers that have ended stand in the text itself.
#[derive(Clone, Copy)]
pub enum FilterPlace {
    /// No byte of the filter.
    Wanted,
    /// The first bytes of this word, as many as the number says.
    Word(FilterWord, usize),
    /// `keep `.
    PrecWanted,
    /// `keep ` and digits of the precedence.
    Prec(u32),
    /// `keep `, the numbers so far, and a space.
    PlaceWanted,
    /// `keep `, the numbers so far, and digits of a place.
    Place(u32),
    /// `pick `.
    PickWanted,
    /// `pick ` and digits of the place.
    Pick(u32),
}

/// A filter so far.
#[derive(Drop)]
pub struct FilterText {
    /// How far it was read.
    pub place: FilterPlace,
    /// The precedence, once it has ended.
    pub prec: u32,
    /// The places that have ended.
    pub places: Numbers,
}

/// Where a byte leads the reader.
#[derive(Drop)]
pub enum FilterStep {
    /// The filter goes on with the byte.
    On,
    /// The filter has ended before the byte.
    Ended(Filter),
    /// The byte is wrong.
    Wrong,
}

/// The bytes of a word.
fn bytes_of(word: FilterWord) -> &'static [u8]
    ensures { result.now ≡ spelling (word_of word) }
{
    match word {
        FilterWord::Keep => b"keep ",
        FilterWord::Pick => b"pick ",
    }
}

impl FilterText {
    /// The reader before a filter.
    pub fn new(alloc: Global) -> FilterText
        ensures { filter_place result ≡ wanted }
    {
        FilterText {
            place: FilterPlace::Wanted,
            prec: 0,
            places: Numbers::new(alloc),
        }
    }

    /// Takes one more byte.
    pub fn step(&mut self, alloc: Global, byte: u8) -> Result<FilterStep, AllocError>
        ensures { IfOk result (λ s. went self.new byte s ≡ leads (filter_place self.old) byte) }
    {
        match self.place {
            FilterPlace::Wanted => Ok(self.begin(byte)),
            FilterPlace::Word(word, at) => Ok(self.step_word(word, at, byte)),
            FilterPlace::PrecWanted => Ok(self.begin_prec(byte)),
            FilterPlace::Prec(number) => self.step_prec(alloc, number, byte),
            FilterPlace::PlaceWanted => Ok(self.begin_place(byte)),
            FilterPlace::Place(number) => self.step_place(alloc, number, byte),
            FilterPlace::PickWanted => Ok(self.begin_pick(byte)),
            FilterPlace::Pick(number) => Ok(self.step_pick(number, byte)),
        }
    }

    /// A filter begins with the byte.
    fn begin(&mut self, byte: u8) -> FilterStep
        ensures { went self.new byte result ≡ leads wanted byte }
    {
        if byte == b'k' {
            self.place = FilterPlace::Word(FilterWord::Keep, 1);
            return FilterStep::On;
        }
        if byte == b'p' {
            self.place = FilterPlace::Word(FilterWord::Pick, 1);
            return FilterStep::On;
        }
        FilterStep::Wrong
    }

    /// The next byte of a word.
    fn step_word(&mut self, word: FilterWord, at: usize, byte: u8) -> FilterStep
        ensures { went self.new byte result ≡ leads (place_of (Word word at) self.old) byte }
    {
        let bytes = bytes_of(word);
        if at >= bytes.len() {
            return FilterStep::Wrong;
        }
        if byte != bytes[at] {
            return FilterStep::Wrong;
        }
        if at + 1 < bytes.len() {
            self.place = FilterPlace::Word(word, at + 1);
            return FilterStep::On;
        }
        self.enter(word)
    }

    /// The place behind a word.
    fn enter(&mut self, word: FilterWord) -> FilterStep
        ensures { went self.new 0 result ≡ goes (behind_word (word_of word)) }
    {
        match word {
            FilterWord::Keep => self.place = FilterPlace::PrecWanted,
            FilterWord::Pick => self.place = FilterPlace::PickWanted,
        }
        FilterStep::On
    }

    /// The first digit of a precedence.
    fn begin_prec(&mut self, byte: u8) -> FilterStep
        ensures { went self.new byte result ≡ leads prec_wanted byte }
    {
        match first_number(byte) {
            Some(number) => {
                self.place = FilterPlace::Prec(number);
                FilterStep::On
            }
            None => FilterStep::Wrong,
        }
    }

    /// A precedence goes on with the byte, or has ended before it.
    fn step_prec(&mut self, alloc: Global, number: u32, byte: u8) -> Result<FilterStep, AllocError>
        ensures { IfOk result (λ s. went self.new byte s ≡ leads (prec number) byte) }
    {
        match next_number(number, byte) {
            Some(next) => {
                self.place = FilterPlace::Prec(next);
                Ok(FilterStep::On)
            }
            None => {
                self.prec = number;
                self.places = Numbers::new(alloc);
                self.end_number(alloc, byte)
            }
        }
    }

    /// The first digit of a place that is kept.
    fn begin_place(&mut self, byte: u8) -> FilterStep
        ensures { went self.new byte result ≡ leads (place_wanted self.old.prec self.old.places) byte }
    {
        match first_number(byte) {
            Some(number) => {
                self.place = FilterPlace::Place(number);
                FilterStep::On
            }
            None => FilterStep::Wrong,
        }
    }

    /// A place that is kept goes on with the byte, or has ended before it.
    fn step_place(&mut self, alloc: Global, number: u32, byte: u8) -> Result<FilterStep, AllocError>
        ensures { IfOk result (λ s. went self.new byte s ≡ leads (place self.old.prec self.old.places number) byte) }
    {
        match next_number(number, byte) {
            Some(next) => {
                self.place = FilterPlace::Place(next);
                Ok(FilterStep::On)
            }
            None => {
                self.places.push(number)?;
                self.end_number(alloc, byte)
            }
        }
    }

    /// A number of a filter that keeps has ended before the byte.
    fn end_number(&mut self, alloc: Global, byte: u8) -> Result<FilterStep, AllocError>
        ensures { IfOk result (λ s. went self.new byte s ≡ behind_number self.old.prec self.old.places byte) }
    {
        if byte == b' ' {
            self.place = FilterPlace::PlaceWanted;
            return Ok(FilterStep::On);
        }
        let places = mem::replace(&mut self.places, Numbers::new(alloc));
        Ok(FilterStep::Ended(Filter::Keep {
            prec: self.prec,
            places,
        }))
    }

    /// The first digit of a place that is picked.
    fn begin_pick(&mut self, byte: u8) -> FilterStep
        ensures { went self.new byte result ≡ leads pick_wanted byte }
    {
        match first_number(byte) {
            Some(number) => {
                self.place = FilterPlace::Pick(number);
                FilterStep::On
            }
            None => FilterStep::Wrong,
        }
    }

    /// A place that is picked goes on with the byte, or has ended before it.
    fn step_pick(&mut self, number: u32, byte: u8) -> FilterStep
        ensures { went self.new byte result ≡ leads (picked number) byte }
    {
        match next_number(number, byte) {
            Some(next) => {
                self.place = FilterPlace::Pick(next);
                FilterStep::On
            }
            None => FilterStep::Ended(Filter::Pick { place: number }),
        }
    }
}
