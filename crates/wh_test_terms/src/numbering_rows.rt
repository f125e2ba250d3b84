//! Rows of tables that number terms.

use crate::stack::term_of;
use std::alloc::{AllocError, Global};
use std::test::Fail;
use wh_intern::Table;
use wh_terms::fits;
use wh_types::Bytes;

/// The number of the term of a text, which joins the table.
fn add_text(alloc: Global, table: &mut Table, text: &[u8]) -> Result<u32, AllocError> {
    table.add(&term_of(alloc, text)?)
}

/// A term of `times` levels: at each a symbol is applied to two copies of the term of the level below.
fn add_doubled(text: &mut Bytes, times: u32) -> Result<(), AllocError> {
    if times == 0 {
        return text.push(b'a');
    }
    text.push(b'b')?;
    add_doubled(text, times - 1)?;
    text.push(b'@')?;
    add_doubled(text, times - 1)?;
    text.push(b'@')
}

#[test]
fn tells_binders_of_two_types_apart(rt: HostRuntime) -> Result<(), Fail> {
    let mut table = Table::new(rt.alloc());
    let of_the_first = add_text(rt.alloc(), &mut table, b"0\\")?;
    let of_the_second = add_text(rt.alloc(), &mut table, b"0/")?;
    let count = table.count();
    let again = add_text(rt.alloc(), &mut table, b"0\\")?;
    assert!(rt; of_the_first != of_the_second);
    assert!(rt; again == of_the_first);
    assert!(rt; table.count() == count);
    Ok(())
}

#[test]
fn shares_equal_parts(rt: HostRuntime) -> Result<(), Fail> {
    let mut table = Table::new(rt.alloc());
    let mut text = Bytes::new(rt.alloc());
    // a tree of size 4,093
    add_doubled(&mut text, 10)?;
    let number = add_text(rt.alloc(), &mut table, text.as_slice())?;
    assert!(rt; table.count() == 22);
    assert!(rt; number == 21);
    let term = table.term(0)?;
    assert!(rt; fits(&term));
    Ok(())
}
