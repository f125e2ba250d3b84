//! The text that explanations are appended to. No clause says what is in it.

use std::alloc::{AllocError, Global};
use wh_types::Bytes;

/// A text that grows. It fails late: once memory was wanting for a piece, nothing is appended any more, and
/// `into_bytes` says so at the end.
#[derive(Drop)]
pub struct Text {
    bytes: Bytes,
    // Whether a piece was not appended.
    cut: bool,
}

impl Text {
    /// The empty text.
    pub fn new(alloc: Global) -> Text {
        Text {
            bytes: Bytes::new(alloc),
            cut: false,
        }
    }

    /// The bytes of the text, to be kept. The error is that memory was wanting for some piece.
    pub fn into_bytes(self) -> Result<Bytes, AllocError> {
        let Text { bytes, cut } = self;
        if cut { Err(AllocError) } else { Ok(bytes) }
    }

    /// How many bytes it has so far.
    pub fn len(&self) -> usize {
        self.bytes.as_slice().len()
    }

    /// Appends words.
    pub fn say(&mut self, words: &str) {
        self.spell(words.as_bytes());
    }

    /// Appends bytes, as those of a name.
    pub fn spell(&mut self, bytes: &[u8]) {
        if !self.cut {
            self.cut = self.bytes.append(bytes).is_err();
        }
    }

    /// Appends two spaces for each step.
    pub fn indent(&mut self, depth: u32) {
        for _ in 0..depth {
            self.say("  ");
        }
    }

    /// Appends a number in decimal digits.
    pub fn number(&mut self, number: u128) {
        if number >= 10 {
            self.number(number / 10);
        }
        self.spell(&[b'0' + (number % 10) as u8]);
    }
}
