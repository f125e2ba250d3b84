//! Rows of types, lists, ranks and causes.

ghost use Rattle.std.specs.Prelude.{◌≡◌, IfOk};
ghost use Rattle.wh_types.specs.Erase.{ty};
ghost use Rattle.wh_types.specs.Ty.{sort, ◌⇒◌};

use std::alloc::{AllocError, AllocFailed, Global};
use std::test::Fail;
use wh_types::{Blocks, Bytes, Numbers, Or, Ranks, SimpleType, same_type};

/// The type of functions from the one type to the other.
fn arrow(alloc: Global, from: SimpleType, to: SimpleType) -> Result<SimpleType, AllocError>
    ensures { IfOk result (λ made. ty made ≡ (ty from ⇒ ty to)) }
{
    Ok(SimpleType::Arrow(Box::new(alloc, from)?, Box::new(alloc, to)?))
}

/// A type whose two arguments are a function and a sort.
fn function_type(alloc: Global) -> Result<SimpleType, AllocError>
    ensures { IfOk result (λ made. ty made ≡ ((sort 3 ⇒ sort 4) ⇒ (sort 5 ⇒ sort 6))) }
{
    let step = arrow(alloc, SimpleType::Sort(3), SimpleType::Sort(4))?;
    let last = arrow(alloc, SimpleType::Sort(5), SimpleType::Sort(6))?;
    arrow(alloc, step, last)
}

/// Whether the other is equal, the number of arguments, the sort of the result, and whether the last argument is the
/// sort 5 and the first one the sort 3.
fn parts_of(whole: &SimpleType, other: &SimpleType) -> (bool, u32, u32, bool, bool)
    requires { ty whole.now ≡ ((sort 3 ⇒ sort 4) ⇒ (sort 5 ⇒ sort 6)) }
{
    (
        same_type(whole, other),
        whole.arity(),
        whole.result_sort(),
        same_type(whole.argument(1), &SimpleType::Sort(5)),
        same_type(whole.argument(0), &SimpleType::Sort(3)),
    )
}

/// The parts of a type, and whether its copy is equal to it.
fn parts_and_copy(
    alloc: Global,
    whole: &SimpleType,
) -> Result<(bool, u32, u32, bool, bool), AllocError>
    requires { ty whole.now ≡ ((sort 3 ⇒ sort 4) ⇒ (sort 5 ⇒ sort 6)) }
{
    let same = whole.copy(alloc)?;
    Ok(parts_of(whole, &same))
}

/// The parts of the type that the rows are about.
fn parts(alloc: Global) -> Result<(bool, u32, u32, bool, bool), AllocError> {
    let whole = function_type(alloc)?;
    parts_and_copy(alloc, &whole)
}

#[test]
fn parts_of_a_type(rt: HostRuntime) -> Result<(), Fail> {
    let found = parts(rt.alloc())?;
    assert!(rt; found == (true, 2, 6, true, false));
    Ok(())
}

/// Bytes that are pushed in both ways.
fn pushed_bytes(alloc: Global) -> Result<Bytes, AllocError> {
    let mut bytes = Bytes::new(alloc);
    bytes.append(b"ye")?;
    bytes.push(b's')?;
    Ok(bytes)
}

/// One number.
fn pushed_number(alloc: Global) -> Result<Numbers, AllocError> {
    let mut numbers = Numbers::new(alloc);
    numbers.push(70000)?;
    Ok(numbers)
}

/// Whether the bytes are kept.
fn keeps_bytes(alloc: Global) -> Result<bool, AllocError> {
    let bytes = pushed_bytes(alloc)?;
    Ok(bytes.as_slice() == b"yes".as_slice())
}

/// Whether the number is kept.
fn keeps_numbers(alloc: Global) -> Result<bool, AllocError> {
    let numbers = pushed_number(alloc)?;
    Ok(numbers.as_slice() == [70000].as_slice())
}

/// A block of one number and an empty one.
fn add_blocks(alloc: Global, blocks: &mut Blocks) -> Result<(), AllocError> {
    blocks.push(pushed_number(alloc)?)?;
    blocks.push(Numbers::new(alloc))
}

/// Whether these are a block of one number and an empty one.
fn are_added(blocks: &[Numbers]) -> bool {
    match blocks {
        [first, second] => first.as_slice().len() == 1 && second.as_slice().is_empty(),
        _ => false,
    }
}

/// Whether the blocks are kept, by their lengths.
fn keeps_blocks(alloc: Global) -> Result<bool, AllocError> {
    let mut blocks = Blocks::new(alloc);
    add_blocks(alloc, &mut blocks)?;
    Ok(are_added(blocks.as_slice()))
}

#[test]
fn lists_keep_what_is_pushed(rt: HostRuntime) -> Result<(), Fail> {
    assert!(rt; keeps_bytes(rt.alloc())?);
    assert!(rt; keeps_numbers(rt.alloc())?);
    assert!(rt; keeps_blocks(rt.alloc())?);
    Ok(())
}

/// How many ranks there are, and two of them.
fn kept_ranks(alloc: Global) -> Result<(u32, u32, u32), AllocError> {
    let ranks = Ranks::new(alloc, &[2, 0, 1])?;
    Ok((ranks.count(), ranks.of(0), ranks.of(2)))
}

#[test]
fn ranks(rt: HostRuntime) -> Result<(), Fail> {
    let found = kept_ranks(rt.alloc())?;
    assert!(rt; found == (3, 2, 1));
    Ok(())
}

#[test]
fn want_of_memory(rt: HostRuntime) {
    assert!(rt; matches!(Or::<u8>::from(AllocError), Or::NoMemory));
    assert!(rt; matches!(Or::<u8>::from(AllocFailed { value: 7 }), Or::NoMemory));
}
