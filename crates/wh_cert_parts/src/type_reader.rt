//! The reader of types, byte by byte. `type_step` is its main function. A stack has the arguments that were read in
//! each open parenthesis.

ghost use Rattle.std.specs.Prelude.{◌≡◌, ◌==◌, ◌&&◌, nat_lt, IfOk, OnOk, MatchOption};
ghost use Rattle.wh_types.specs.Limits.{deepest_certificate_type, most_certificate_arguments};
ghost use Rattle.wh_text.specs.Erase.{rty, rtys};
ghost use Rattle.wh_cert.specs.TermLimits.{type_count};
ghost use Rattle.wh_cert_parts.specs.TypeMachine.{outside, inside, type_wanted, dash, closed_type, sort_name, type_level, has_room, has_types, name_ended, type_step};
ghost use Rattle.wh_cert_parts.specs.TypeViews.{type_stack, type_place, type_went};

use crate::raw::{functional, sort};
use std::alloc::{AllocError, Global};
use wh_cert_letters::{Letters, begins_name};
use wh_text::{RawType, RawTypes};

/// The greatest number of arguments of a type.
const MOST_ARGUMENTS: usize = 64;

/// How deep the parentheses of a type may nest.
const DEEPEST_TYPE: usize = 18;

/// What was read since the last open parenthesis of a type.
#[derive(Drop)]
pub enum TypePlace {
    /// No byte of the type that comes.
    Wanted,
    /// Letters of a sort's name.
    Name(Letters),
    /// A type and the `-` of an arrow.
    Dash(RawType),
    /// A type that ended with `)`.
    Closed(RawType),
}

/// Where a byte leads the reader.
#[derive(Drop)]
pub enum TypeStep {
    /// The type goes on at this place.
    Goes(TypePlace),
    /// The whole type has ended before the byte.
    Ended(RawType),
    /// The byte is wrong.
    Wrong,
}

/// The step that the byte makes from a place in a type. The stack has the arguments that were read in each open
/// parenthesis.
pub fn type_step(
    alloc: Global,
    stack: &mut Vec<RawTypes>,
    place: TypePlace,
    byte: u8,
) -> Result<TypeStep, AllocError>
    ensures { IfOk result (λ step. type_went stack.new.items byte step ≡ type_step (type_stack stack.old.items) (type_place place) byte) }
{
    match place {
        TypePlace::Wanted => begin_type(alloc, stack, byte),
        TypePlace::Name(letters) => step_name(alloc, stack, letters, byte),
        TypePlace::Dash(part) => end_arrow(stack, part, byte),
        TypePlace::Closed(part) => begin_arrow(stack, part, byte),
    }
}

/// A parenthesis opens, with these arguments read in it.
#[tactic(auto, using(crate::proofs::TypeCode::type_push))]
fn open_type(stack: &mut Vec<RawTypes>, args: RawTypes) -> Result<(), AllocError>
    ensures { OnOk result (type_stack stack.new.items ≡ inside (rtys args) (type_stack stack.old.items)) }
{
    stack.push(args)?;
    Ok(())
}

/// The innermost parenthesis closes.
fn close_type(stack: &mut Vec<RawTypes>) -> Option<RawTypes>
    ensures { MatchOption result
        (type_stack stack.old.items ≡ outside)
        (λ args. type_stack stack.old.items ≡ inside (rtys args) (type_stack stack.new.items)) }
{
    stack.pop()
}

/// Whether one more argument may stand in the innermost parenthesis.
fn has_room(stack: &[RawTypes]) -> bool
    ensures { result ≡ has_room (type_stack stack.now) }
{
    match stack.last() {
        None => true,
        Some(args) => args.as_slice().len() < MOST_ARGUMENTS,
    }
}

/// Whether one more parenthesis may open.
#[tactic(auto, using(crate::proofs::TypeCode::level_is))]
fn may_open(stack: &[RawTypes]) -> bool
    ensures { result ≡ (nat_lt (type_level (type_stack stack.now)) deepest_certificate_type && has_room (type_stack stack.now)) }
{
    stack.len() < DEEPEST_TYPE && has_room(stack)
}

/// Whether the byte opens a parenthesis, and one more may open.
fn opens(stack: &[RawTypes], byte: u8) -> bool
    ensures { result ≡ ((byte == 40)
        && (nat_lt (type_level (type_stack stack.now)) deepest_certificate_type && has_room (type_stack stack.now))) }
{
    byte == b'(' && may_open(stack)
}

/// Whether the byte begins an arrow behind one more argument, and that argument may stand there.
#[tactic(auto, using(crate::proofs::RawLaws::rtys_count))]
fn begins_arrow(args: &RawTypes, byte: u8) -> bool
    ensures { result ≡ ((byte == 45) && nat_lt (type_count (rtys args.now)) most_certificate_arguments) }
{
    byte == b'-' && args.as_slice().len() < MOST_ARGUMENTS
}

/// Whether the byte closes a parenthesis with these arguments in it, and may close it.
#[tactic(auto, using(crate::proofs::TypeCode::has_types_is))]
fn closes(args: &RawTypes, byte: u8) -> bool
    ensures { result ≡ ((byte == 41) && has_types (rtys args.now)) }
{
    byte == b')' && !args.as_slice().is_empty()
}

/// A type begins with the byte: a name, or a parenthesis around a functional type.
fn begin_type(alloc: Global, stack: &mut Vec<RawTypes>, byte: u8) -> Result<TypeStep, AllocError>
    ensures { IfOk result (λ step. type_went stack.new.items byte step ≡ type_step (type_stack stack.old.items) type_wanted byte) }
{
    if begins_name(byte) {
        return Ok(TypeStep::Goes(TypePlace::Name(Letters::new(alloc, byte)?)));
    }
    if opens(stack, byte) {
        open_type(stack, RawTypes::new(alloc))?;
        return Ok(TypeStep::Goes(TypePlace::Wanted));
    }
    Ok(TypeStep::Wrong)
}

/// A sort's name goes on with the byte, or has ended before it.
fn step_name(
    alloc: Global,
    stack: &mut Vec<RawTypes>,
    mut letters: Letters,
    byte: u8,
) -> Result<TypeStep, AllocError>
    ensures { IfOk result (λ step. type_went stack.new.items byte step ≡ type_step (type_stack stack.old.items) (sort_name letters) byte) }
{
    if letters.goes_on(byte) {
        letters.push(byte)?;
        return Ok(TypeStep::Goes(TypePlace::Name(letters)));
    }
    end_name(alloc, stack, letters, byte)
}

/// A sort's name has ended before the byte: the whole type, an argument before its arrow, or the sort that the
/// innermost parenthesis ends with.
fn end_name(
    alloc: Global,
    stack: &mut Vec<RawTypes>,
    letters: Letters,
    byte: u8,
) -> Result<TypeStep, AllocError>
    ensures { IfOk result (λ step. type_went stack.new.items byte step ≡ name_ended (type_stack stack.old.items) letters byte) }
{
    let name = letters.name(alloc)?;
    match close_type(stack) {
        None => Ok(TypeStep::Ended(sort(alloc, name)?)),
        Some(args) => {
            if begins_arrow(&args, byte) {
                open_type(stack, args)?;
                return Ok(TypeStep::Goes(TypePlace::Dash(sort(alloc, name)?)));
            }
            if closes(&args, byte) {
                return Ok(TypeStep::Goes(TypePlace::Closed(functional(args, name))));
            }
            Ok(TypeStep::Wrong)
        }
    }
}

/// The arrow behind an argument ends with the byte.
#[tactic(auto, using(crate::proofs::RawLaws::rtys_grow))]
fn end_arrow(stack: &mut Vec<RawTypes>, part: RawType, byte: u8) -> Result<TypeStep, AllocError>
    ensures { IfOk result (λ step. type_went stack.new.items byte step ≡ type_step (type_stack stack.old.items) (dash (rty part)) byte) }
{
    match close_type(stack) {
        None => Ok(TypeStep::Wrong),
        Some(mut args) => {
            if byte != b'>' {
                return Ok(TypeStep::Wrong);
            }
            args.push(part)?;
            open_type(stack, args)?;
            Ok(TypeStep::Goes(TypePlace::Wanted))
        }
    }
}

/// A type that ended with `)` is the whole, or the byte begins an arrow behind it.
fn begin_arrow(stack: &mut Vec<RawTypes>, part: RawType, byte: u8) -> Result<TypeStep, AllocError>
    ensures { IfOk result (λ step. type_went stack.new.items byte step ≡ type_step (type_stack stack.old.items) (closed_type (rty part))
        byte) }
{
    match close_type(stack) {
        None => Ok(TypeStep::Ended(part)),
        Some(args) => {
            if byte != b'-' {
                return Ok(TypeStep::Wrong);
            }
            open_type(stack, args)?;
            Ok(TypeStep::Goes(TypePlace::Dash(part)))
        }
    }
}
