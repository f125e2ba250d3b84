//! Sentences: words in which each `@` stands for a piece. No value is made into a text of its own first: most pieces
//! need the names of a system, which a `Display` of a term does not have. Words that depend on a case come from a
//! function, since a choice among the arguments of a call costs more to prove than two calls.

use crate::names::{Names, put_meta, put_name};
use crate::polys::put_poly;
use crate::terms::put_term;
use crate::text::Text;
use wh_poly::Poly;
use wh_terms::Term;
use wh_text::Name;

/// A piece of a sentence.
#[derive(Clone, Copy)]
pub enum Piece<'a> {
    /// Words.
    Say(&'a str),
    /// Bytes, as those of a name.
    Spell(&'a [u8]),
    /// A number.
    Number(u32),
    /// A number of things in memory.
    Count(usize),
    /// A coefficient.
    Big(u128),
    /// The name of a sort or symbol by its number.
    Named(&'a [Name], u32),
    /// The name of a meta-variable by its number.
    Unknown(&'a [Name], u32),
    /// A term that stands below no binder.
    Tree(&'a Names<'a>, &'a Term),
    /// A polynomial.
    Sum(&'a Poly),
}

/// Appends the words, with the next piece in the place of each `@`.
pub fn tell(text: &mut Text, words: &str, pieces: &[Piece<'_>]) {
    let mut next: usize = 0;
    for byte in words.as_bytes() {
        if *byte != b'@' {
            text.spell(&[*byte]);
            continue;
        }
        if let Some(piece) = pieces.get(next) {
            put_piece(text, piece);
        }
        next = next.saturating_add(1);
    }
}

/// Appends the words with their pieces as a line of its own, behind `depth` steps of indentation.
pub fn tell_line(text: &mut Text, depth: u32, words: &str, pieces: &[Piece<'_>]) {
    text.indent(depth);
    tell(text, words, pieces);
    text.say("\n");
}

// Appends a piece.
fn put_piece(text: &mut Text, piece: &Piece<'_>) {
    match piece {
        Piece::Say(words) => text.say(words),
        Piece::Spell(bytes) => text.spell(bytes),
        Piece::Number(number) => text.number(*number as u128),
        Piece::Count(count) => text.number(*count as u128),
        Piece::Big(number) => text.number(*number),
        Piece::Named(names, number) => put_name(text, names, *number),
        Piece::Unknown(metas, number) => put_meta(text, metas, *number),
        Piece::Tree(names, term) => put_term(text, names, term, 0, false),
        Piece::Sum(poly) => put_poly(text, poly),
    }
}
