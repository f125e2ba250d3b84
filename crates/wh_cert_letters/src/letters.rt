//! Names and numbers of a certificate, byte by byte: where each may begin and go on, within its limit.

ghost use Rattle.std.specs.Prelude.{◌≡◌, ◌+◌, ◌-◌, ◌*◌, ◌<◌, ◌&&◌, nat_lt, [], ◌∷◌, ◌++◌, true, false, length, IfOk, OnOk, MatchOption};
ghost use Rattle.wh_types.specs.Limits.{longest_name};
ghost use Rattle.wh_text.specs.Chars.{is_digit, is_start, is_part};
ghost use Rattle.wh_cert_letters.specs.Digits.{goes_on, begins_big, goes_on_big};

use std::alloc::{AllocError, Global};
use std::marker::Model;
use wh_text::Name;
use wh_types::Bytes;

/// The greatest number of a certificate.
const GREATEST: u32 = 65_535;

/// The greatest number of letters of a name.
const LONGEST_NAME: usize = 64;

/// The letters of a name so far, which are a name themselves.
#[derive(Drop)]
pub struct Letters {
    bytes: Bytes,
}

impl Model for Letters {
    ghost use Rattle.std.specs.Prelude.{List, ℕ};
    ghost use Rattle.wh_text.specs.Words.{IsWord};

    ghost Value = { List ℕ };

    ghost view = { λ letters. letters.bytes };

    ghost invariant = { λ letters. IsWord letters.bytes };
}

impl Letters {
    /// The first letter of a name.
    pub fn new(alloc: Global, byte: u8) -> Result<Letters, AllocError>
        requires { is_start byte ≡ true }
        ensures { IfOk result (λ letters. letters ≡ byte ∷ []) }
    {
        let mut bytes = Bytes::new(alloc);
        bytes.push(byte)?;
        Ok(Letters { bytes })
    }

    /// Whether the byte is one more letter of the name, and the name stays within its limit.
    pub fn goes_on(&self, byte: u8) -> bool
        ensures { result ≡ (is_part byte && nat_lt (length self.now) longest_name) }
    {
        goes_on_name(byte) && self.bytes.as_slice().len() < LONGEST_NAME
    }

    /// One more letter.
    #[tactic(auto, using(crate::proofs::NamesAndNumbers::word_grows))]
    pub fn push(&mut self, byte: u8) -> Result<(), AllocError>
        requires { (is_part byte && nat_lt (length self.old) longest_name) ≡ true }
        ensures { OnOk result (self.new ≡ self.old ++ byte ∷ []) }
    {
        self.bytes.push(byte)?;
        Ok(())
    }

    /// The name of these letters.
    pub fn name(&self, alloc: Global) -> Result<Name, AllocError>
        ensures { IfOk result (λ name. name ≡ self.now) }
    {
        Name::new(alloc, self.bytes.as_slice())
    }
}

/// Whether a name may begin with the byte.
pub fn begins_name(byte: u8) -> bool
    ensures { result ≡ is_start byte }
{
    byte.is_ascii_uppercase() || byte.is_ascii_lowercase() || byte == b'_'
}

/// Whether a name may go on with the byte.
fn goes_on_name(byte: u8) -> bool
    ensures { result ≡ is_part byte }
{
    begins_name(byte) || byte.is_ascii_digit() || byte == b'\''
}

/// The number that the digit begins, if it is one.
pub fn first_number(byte: u8) -> Option<u32>
    ensures { MatchOption result (is_digit byte ≡ false) (λ n. (is_digit byte ≡ true) × (n ≡ byte - 48)) }
{
    if byte.is_ascii_digit() {
        return Some(u32::from(byte - b'0'));
    }
    None
}

/// The number with one more digit, if the byte is one and the number stays within its limit. Nothing goes on 0.
pub fn next_number(number: u32, byte: u8) -> Option<u32>
    ensures { MatchOption result (goes_on number byte ≡ false) (λ n. (goes_on number byte ≡ true) × (n ≡ 10 * number + (byte - 48))) }
{
    if !byte.is_ascii_digit() || number == 0 || number > GREATEST {
        return None;
    }
    let next = 10 * number + u32::from(byte - b'0');
    if next > GREATEST {
        return None;
    }
    Some(next)
}

/// The number of at least 1 that the digit begins, if it is one and not 0.
pub fn first_big(byte: u8) -> Option<u128>
    ensures { MatchOption result (begins_big byte ≡ false) (λ n. (begins_big byte ≡ true) × (n ≡ byte - 48)) }
{
    if byte.is_ascii_digit() && byte > b'0' {
        return Some(u128::from(byte - b'0'));
    }
    None
}

/// The number with one more digit, if the byte is one and the number stays below 2^128.
pub fn next_big(number: u128, byte: u8) -> Option<u128>
    ensures { MatchOption result (goes_on_big number byte ≡ false)
        (λ n. (goes_on_big number byte ≡ true) × (n ≡ 10 * number + (byte - 48))) }
{
    if !byte.is_ascii_digit() {
        return None;
    }
    match number.checked_mul(10) {
        Some(tenfold) => tenfold.checked_add(u128::from(byte - b'0')),
        None => None,
    }
}
