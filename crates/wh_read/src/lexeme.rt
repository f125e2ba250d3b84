//! The letters of the grammar: tokens whose bytes are looked up, so that the parser sees keywords, signs and names.

ghost use Rattle.std.specs.Prelude.{◌≡◌, ◌≤◌, length, option_map, IfOk};
ghost use Rattle.wh_text.specs.Erase.{kind_of, part};
ghost use Rattle.wh_text.specs.Words.{IsWord};
ghost use Rattle.wh_text.specs.declared.token.TokenKind.TheVariants as token_kind;
ghost use Rattle.wh_read.specs.Lexemes.{keyword_lexeme, sign_lexeme, lexeme};
ghost use Rattle.wh_read.specs.Held.{letter};

use std::alloc::{AllocError, Global};
use wh_text::{Name, Token, TokenKind};

/// A letter of the grammar: a name, a number behind its sign, a keyword or a sign.
#[derive(Drop)]
pub enum Lexeme {
    /// A name.
    Name(Name),
    /// `$` with a number.
    Dollar(u32),
    /// `%` with a number.
    Percent(u32),
    /// The keyword `sort`.
    Sort,
    /// The keyword `fun`.
    Fun,
    /// The keyword `rule`.
    Rule,
    /// `\`
    Backslash,
    /// `:`
    Colon,
    /// `.`
    Dot,
    /// `;`
    Semicolon,
    /// `,`
    Comma,
    /// `(`
    OpenParen,
    /// `)`
    CloseParen,
    /// `[`
    OpenBracket,
    /// `]`
    CloseBracket,
    /// `{`
    OpenBrace,
    /// `}`
    CloseBrace,
    /// `->`
    ThinArrow,
    /// `=>`
    ThickArrow,
}

/// The keyword that the bytes spell.
fn keyword(bytes: &[u8]) -> Option<Lexeme>
    ensures { option_map letter result ≡ keyword_lexeme bytes.now }
{
    if bytes == b"sort".as_slice() {
        Some(Lexeme::Sort)
    } else if bytes == b"fun".as_slice() {
        Some(Lexeme::Fun)
    } else if bytes == b"rule".as_slice() {
        Some(Lexeme::Rule)
    } else {
        None
    }
}

/// The sign that the bytes spell.
fn sign(bytes: &[u8]) -> Option<Lexeme>
    ensures { option_map letter result ≡ sign_lexeme bytes.now }
{
    match bytes {
        [b'\\'] => Some(Lexeme::Backslash),
        [b':'] => Some(Lexeme::Colon),
        [b'.'] => Some(Lexeme::Dot),
        [b';'] => Some(Lexeme::Semicolon),
        [b','] => Some(Lexeme::Comma),
        [b'('] => Some(Lexeme::OpenParen),
        [b')'] => Some(Lexeme::CloseParen),
        [b'['] => Some(Lexeme::OpenBracket),
        [b']'] => Some(Lexeme::CloseBracket),
        [b'{'] => Some(Lexeme::OpenBrace),
        [b'}'] => Some(Lexeme::CloseBrace),
        [b'-', b'>'] => Some(Lexeme::ThinArrow),
        [b'=', b'>'] => Some(Lexeme::ThickArrow),
        _ => None,
    }
}

/// The letter that a token of the text is; None where the grammar has no such token.
pub fn letter_of(alloc: Global, text: &[u8], token: &Token) -> Result<Option<Lexeme>, AllocError>
    requires ordered { token.now.from ≤ token.now.to }
    requires within { token.now.to ≤ length text.now }
    requires word { token.now.kind ≡ token_kind.Name → IsWord (part text.now token.now.from token.now.to) }
    ensures { IfOk result (λ found. option_map letter found ≡ lexeme (kind_of (part text.now token.now.from token.now.to) token.now.kind)) }
{
    let bytes = &text[token.from as usize..token.to as usize];
    match token.kind {
        TokenKind::Name => Ok(Some(Lexeme::Name(Name::new(alloc, bytes)?))),
        TokenKind::Keyword => Ok(keyword(bytes)),
        TokenKind::Dollar(n) => Ok(Some(Lexeme::Dollar(n))),
        TokenKind::Percent(n) => Ok(Some(Lexeme::Percent(n))),
        TokenKind::Sign => Ok(sign(bytes)),
    }
}
