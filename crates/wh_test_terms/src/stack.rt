//! Terms from texts that need not be well typed, one letter after another, each of which works on a stack of terms: `a`
//! to `d` push a symbol, `0` to `9` a bound variable, `x` a variable of the sort 0 and `y` one of the sort 1; `\`
//! abstracts the last term over the sort 0 and `/` over the sort 1, `@` applies the last term but one to the last, and
//! `F`, `G` and `Z` are meta-variables that take the last term or, `Z`, the last two.

use std::alloc::{AllocError, Global};
use wh_terms::{Term, Terms};
use wh_types::{Bytes, SimpleType};

/// The last term of the stack.
fn last(stack: &mut Vec<Term>) -> Result<Term, AllocError> {
    stack.pop().ok_or(AllocError)
}

/// The last term of the stack, in a box.
fn boxed_last(alloc: Global, stack: &mut Vec<Term>) -> Result<Box<Term>, AllocError> {
    let term = last(stack)?;
    Ok(Box::new(alloc, term)?)
}

/// The term joins the stack.
fn put(stack: &mut Vec<Term>, term: Term) -> Result<(), AllocError> {
    stack.push(term)?;
    Ok(())
}

/// The last term comes under a binder of the sort.
fn abstract_last(alloc: Global, stack: &mut Vec<Term>, sort: u32) -> Result<(), AllocError> {
    let body = boxed_last(alloc, stack)?;
    put(stack, Term::Lam(SimpleType::Sort(sort), body))
}

/// The last term but one is applied to the last one.
fn apply_last(alloc: Global, stack: &mut Vec<Term>) -> Result<(), AllocError> {
    let argument = boxed_last(alloc, stack)?;
    let function = boxed_last(alloc, stack)?;
    put(stack, Term::App(function, argument))
}

/// The last term goes into a list.
fn move_last(stack: &mut Vec<Term>, items: &mut Terms) -> Result<(), AllocError> {
    items.push(last(stack)?)
}

/// The last two terms change their places.
fn exchange(stack: &mut Vec<Term>) -> Result<(), AllocError> {
    let count = stack.len();
    if count < 2 {
        return Err(AllocError);
    }
    stack.swap(count - 2, count - 1);
    Ok(())
}

/// The last two terms go into a list, in their order, or the last one alone.
fn move_few(stack: &mut Vec<Term>, items: &mut Terms, two: bool) -> Result<(), AllocError> {
    if two {
        exchange(stack)?;
        move_last(stack, items)?;
    }
    move_last(stack, items)
}

/// A meta-variable takes the last two terms, or the last one alone.
fn take_few(alloc: Global, stack: &mut Vec<Term>, meta: u32, two: bool) -> Result<(), AllocError> {
    let mut items = Terms::new(alloc);
    move_few(stack, &mut items, two)?;
    put(stack, Term::Meta(meta, items))
}

/// What the letter makes of the stack.
fn follow_letter(alloc: Global, stack: &mut Vec<Term>, letter: u8) -> Result<(), AllocError> {
    match letter {
        b'@' => apply_last(alloc, stack),
        b'\\' => abstract_last(alloc, stack, 0),
        b'/' => abstract_last(alloc, stack, 1),
        b'F' => take_few(alloc, stack, 0, false),
        b'G' => take_few(alloc, stack, 1, false),
        b'Z' => take_few(alloc, stack, 0, true),
        b'x' => put(stack, Term::Free(7, SimpleType::Sort(0))),
        b'y' => put(stack, Term::Free(0, SimpleType::Sort(1))),
        b'a'..=b'd' => put(stack, Term::Fun(u32::from(letter - b'a'))),
        b'0'..=b'9' => put(stack, Term::Bound(u32::from(letter - b'0'))),
        _ => Err(AllocError),
    }
}

/// What the letters make of the stack, one after another.
fn follow(alloc: Global, stack: &mut Vec<Term>, text: &[u8]) -> Result<(), AllocError> {
    for letter in text {
        follow_letter(alloc, stack, *letter)?;
    }
    Ok(())
}

/// The term of a text.
pub fn term_of(alloc: Global, text: &[u8]) -> Result<Term, AllocError> {
    let mut stack = Vec::new(alloc);
    follow(alloc, &mut stack, text)?;
    last(&mut stack)
}

/// A symbol, and the item `times` times behind it.
pub fn add_repeated(text: &mut Bytes, item: &[u8], times: u32) -> Result<(), AllocError> {
    text.push(b'a')?;
    for _ in 0..times {
        text.append(item)?;
    }
    Ok(())
}

/// A tree that branches at each of the levels: of size 2^(levels + 1) - 1.
pub fn add_balanced(text: &mut Bytes, levels: u32) -> Result<(), AllocError> {
    if levels == 0 {
        return text.push(b'a');
    }
    add_balanced(text, levels - 1)?;
    add_balanced(text, levels - 1)?;
    text.push(b'@')
}
