//! Cutting a text into tokens, from the left: white space and comments are passed over, words and digits go on as long
//! as they can, and the first byte that fits nothing ends the cutting.

ghost use Rattle.std.specs.Prelude.{◌≡◌, ◌⊎◌, ◌<◌, ◌≤◌, ◌↔◌, ◌^◌, ◌+◌, ℕ, List, IsTrue, length, slice_index, MatchOption, MatchResult, true};
ghost use Rattle.wh_types.specs.Outcome.{MatchOr};
ghost use Rattle.wh_text.specs.Chars.{is_space, is_digit, is_start, is_part, is_comment, is_sign, AllPass};
ghost use Rattle.wh_text.specs.Words.{IsKeyword, IsNumeral};
ghost use Rattle.wh_text.specs.Tokens.{BadDigits, BeginsArrow};
ghost use Rattle.wh_text.specs.Pieces.{IsGap, StandsAt, FaultAt, IsPiece, IsCutInto, HasFault};
ghost use Rattle.std.specs.List.{prefix_len};
ghost use Rattle.wh_types.specs.Limits.{most_bytes};

use crate::token::{TextFault, Token, TokenKind, Tokens};
use std::alloc::Global;
use wh_types::Or;

/// What one step of the cutting finds.
enum Piece {
    /// White space or a comment, up to this offset.
    Gap(usize),
    /// A token.
    Cut(Token),
}

/// Whether the byte is white space.
fn is_space(b: u8) -> bool
    ensures { result ≡ is_space b }
{
    b == b' ' || b == b'\t' || b == b'\r' || b == b'\n'
}

/// Whether a name may begin with the byte.
fn is_start(b: u8) -> bool
    ensures { result ≡ is_start b }
{
    b.is_ascii_uppercase() || b.is_ascii_lowercase() || b == b'_'
}

/// Whether a name may go on with the byte.
fn is_part(b: u8) -> bool
    ensures { result ≡ is_part b }
{
    is_start(b) || b.is_ascii_digit() || b == b'\''
}

/// Whether the byte is a sign of one byte.
fn is_sign(b: u8) -> bool
    ensures { result ≡ is_sign b }
{
    b == b'\\'
        || b == b':'
        || b == b'.'
        || b == b';'
        || b == b','
        || b == b'('
        || b == b')'
        || b == b'['
        || b == b']'
        || b == b'{'
        || b == b'}'
}

/// How many bytes at the front go on a name.
fn part_run(bytes: &[u8]) -> usize
    ensures run { result ≡ prefix_len is_part bytes.now }
    ensures within { result ≤ length bytes.now }
{
    bytes.iter().take_while(|b| is_part(**b)).count()
}

/// How many bytes at the front are digits.
fn digit_run(bytes: &[u8]) -> usize
    ensures run { result ≡ prefix_len is_digit bytes.now }
    ensures within { result ≤ length bytes.now }
{
    bytes.iter().take_while(|b| b.is_ascii_digit()).count()
}

/// How many bytes at the front go on a comment.
fn comment_run(bytes: &[u8]) -> usize
    ensures run { result ≡ prefix_len is_comment bytes.now }
    ensures within { result ≤ length bytes.now }
{
    bytes.iter().take_while(|b| **b != b'\n').count()
}

/// Whether the word is a keyword.
fn is_keyword(word: &[u8]) -> bool
    ensures { IsTrue result ↔ IsKeyword word.now }
{
    word == b"sort".as_slice() || word == b"fun".as_slice() || word == b"rule".as_slice()
}

/// The number that the digits spell, if it has no leading zero and is at most 65,535.
fn numeral(digits: &[u8]) -> Option<u32>
    requires { AllPass is_digit digits.now }
    ensures { MatchOption result (BadDigits digits.now) (IsNumeral digits.now) }
{
    match digits {
        [] => return None,
        [b'0', _, ..] => return None,
        _ => {}
    }
    let mut value = 0u32;
    for digit in digits {
        value = 10 * value + u32::from(*digit - b'0');
        if value > 65_535 {
            return None;
        }
    }
    Some(value)
}

/// The token from one offset up to another.
fn token_of(kind: TokenKind, from: usize, to: usize) -> Token
    requires from { from < 2 ^ 32 }
    requires to { to < 2 ^ 32 }
    ensures { result ≡ record { kind = kind; from = from; to = to } }
{
    Token {
        kind,
        from: from as u32,
        to: to as u32,
    }
}

/// The word that begins at the offset, as a keyword or a name.
fn word_at(bytes: &[u8], at: usize) -> Result<Token, TextFault>
    requires room { at < length bytes.now }
    requires size { length bytes.now ≤ most_bytes + 1 }
    requires start { is_start (slice_index bytes.now at) ≡ true }
    ensures { MatchResult result (StandsAt bytes.now at) (FaultAt bytes.now at) }
{
    let (_, rest) = bytes.split_at(at);
    let length = part_run(rest);
    if length > 64 {
        return Err(TextFault::NameTooLong { at: at as u32 });
    }
    let (word, _) = rest.split_at(length);
    let kind = if is_keyword(word) {
        TokenKind::Keyword
    } else {
        TokenKind::Name
    };
    Ok(token_of(kind, at, at + length))
}

/// The number that is marked at the offset by `$` or `%`.
fn number_at(bytes: &[u8], at: usize) -> Result<Token, TextFault>
    requires room { at < length bytes.now }
    requires size { length bytes.now ≤ most_bytes + 1 }
    requires mark { (slice_index bytes.now at ≡ 36) ⊎ (slice_index bytes.now at ≡ 37) }
    ensures { MatchResult result (StandsAt bytes.now at) (FaultAt bytes.now at) }
{
    let (_, rest) = bytes.split_at(at + 1);
    let length = digit_run(rest);
    if length == 0 {
        return Err(TextFault::BadByte { at: at as u32 });
    }
    let (digits, _) = rest.split_at(length);
    let Some(number) = numeral(digits) else {
        return Err(TextFault::BadNumber { at: at as u32 + 1 });
    };
    let kind = if bytes[at] == b'$' {
        TokenKind::Dollar(number)
    } else {
        TokenKind::Percent(number)
    };
    Ok(token_of(kind, at, at + 1 + length))
}

/// The arrow that begins at the offset with `-` or `=`.
fn arrow_at(bytes: &[u8], at: usize) -> Result<Token, TextFault>
    requires room { at < length bytes.now }
    requires size { length bytes.now ≤ most_bytes + 1 }
    requires first { BeginsArrow (slice_index bytes.now at) }
    ensures { MatchResult result (StandsAt bytes.now at) (FaultAt bytes.now at) }
{
    if at + 1 < bytes.len() && bytes[at + 1] == b'>' {
        return Ok(token_of(TokenKind::Sign, at, at + 2));
    }
    Err(TextFault::BadByte { at: at as u32 })
}

/// Where the comment ends that begins at the offset.
fn comment_end(bytes: &[u8], at: usize) -> usize
    requires room { at < length bytes.now }
    requires mark { slice_index bytes.now at ≡ 35 }
    ensures { IsGap bytes.now at result }
{
    let (_, rest) = bytes.split_at(at + 1);
    at + 1 + comment_run(rest)
}

/// What stands at the offset.
fn piece_at(bytes: &[u8], at: usize) -> Result<Piece, TextFault>
    requires room { at < length bytes.now }
    requires size { length bytes.now ≤ most_bytes + 1 }
    ensures { MatchResult result (IsPiece bytes.now at) (FaultAt bytes.now at) }
{
    let first = bytes[at];
    if is_space(first) {
        return Ok(Piece::Gap(at + 1));
    }
    if first == b'#' {
        return Ok(Piece::Gap(comment_end(bytes, at)));
    }
    if is_start(first) {
        return Ok(Piece::Cut(word_at(bytes, at)?));
    }
    if is_sign(first) {
        return Ok(Piece::Cut(token_of(TokenKind::Sign, at, at + 1)));
    }
    if first == b'$' || first == b'%' {
        return Ok(Piece::Cut(number_at(bytes, at)?));
    }
    if first == b'-' || first == b'=' {
        return Ok(Piece::Cut(arrow_at(bytes, at)?));
    }
    Err(TextFault::BadByte { at: at as u32 })
}

/// The tokens of a text, in order. A fault is the first byte that can't be cut, with its offset; the tokens before it
/// are not handed out.
pub fn tokens(alloc: Global, bytes: &[u8]) -> Result<Tokens, Or<TextFault>>
    requires { length bytes.now ≤ most_bytes + 1 }
    ensures { MatchOr result (IsCutInto bytes.now) (HasFault bytes.now) }
{
    let mut found = Tokens::new(alloc);
    let mut at = 0;
    while at < bytes.len() {
        match piece_at(bytes, at)? {
            Piece::Gap(to) => at = to,
            Piece::Cut(token) => {
                found.push(token)?;
                at = token.to as usize;
            }
        }
    }
    Ok(found)
}
