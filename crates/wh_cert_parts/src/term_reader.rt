//! The reader of a term up to a line feed, byte by byte. `term_step` is its main function. A stack has the open
//! parentheses.

ghost use Rattle.std.specs.Prelude.{◌≡◌, ◌==◌, ◌&&◌, List, suc, cond, nat_lt, IfOk, OnOk, MatchOption};
ghost use Rattle.wh_types.specs.Limits.{most_arguments, deepest_certificate_term};
ghost use Rattle.wh_text.specs.Chars.{space};
ghost use Rattle.wh_text.specs.Erase.{rty, rtm, rtms};
ghost use Rattle.wh_cert.specs.TermLimits.{term_count};
ghost use Rattle.wh_cert_parts.specs.TypeMachine.{outside, type_wanted, type_ended};
ghost use Rattle.wh_cert_parts.specs.TermMachine.{Stack, base, State, at, failed, in_head, in_spine, in_body, wanted, opened, letters as name_letters, bound_number, free_number, binder_number, typing, level, after, begin, typed, step};
ghost use Rattle.wh_cert_parts.specs.TypeViews.{type_stack, type_place};
ghost use Rattle.wh_cert_parts.specs.TermViews.{framed, term_stack, typed_of, term_place, term_went, begun};
ghost use Rattle.wh_cert_parts.specs.declared.term_reader.Frame.{Frame};
ghost use Rattle.wh_cert_parts.specs.declared.term_reader.TermStep.TheVariants.{Goes, Wrong};

use crate::raw::{abstraction, applied};
use crate::type_reader::{TypePlace, TypeStep, type_step};
use std::alloc::{AllocError, Global};
use std::mem;
use wh_cert_letters::{Letters, begins_name, first_number, next_number};
use wh_text::{RawTerm, RawTerms, RawType, RawTypes, opens_in_certificate};

/// The greatest number of arguments of a spine.
const MOST_ARGUMENTS: usize = 32;

/// An open parenthesis of a term.
#[derive(Drop)]
pub enum Frame {
    /// The parenthesis of a spine, before its head has ended.
    Head,
    /// The parenthesis of a spine, with its head and the arguments that have ended.
    Spine(Box<RawTerm>, RawTerms),
    /// The parenthesis of an abstraction, with its binder.
    Body(u32, Box<RawType>),
}

/// What a type is read for: a free variable or a binder with this number.
#[derive(Clone, Copy)]
pub enum Typed {
    /// A free variable.
    Variable(u32),
    /// A binder.
    Binder(u32),
}

/// What was read since the last open parenthesis of a term, or since its last part.
#[derive(Drop)]
pub enum TermPlace {
    /// No byte of the term that comes.
    Wanted,
    /// `(`.
    Opened,
    /// `((`.
    HeadOpened,
    /// Letters of a name.
    Name(Letters),
    /// `$`.
    Dollar,
    /// `$` with digits.
    Bound(u32),
    /// `%`.
    Percent,
    /// `%` with digits.
    Free(u32),
    /// `(\`.
    Slash,
    /// `(\$`.
    Binder,
    /// `(\$` with digits.
    BinderNumber(u32),
    /// A part of a type.
    Typing(Typed, Box<TypeText>),
    /// A term that ended with `)`.
    Closed(Box<RawTerm>),
}

/// A type as far as it was read, within a term.
#[derive(Drop)]
pub struct TypeText {
    /// The open parentheses of the type.
    pub stack: Vec<RawTypes>,
    /// What was read since the last open parenthesis.
    pub place: TypePlace,
}

/// Where a byte leads the reader.
#[derive(Drop)]
pub enum TermStep {
    /// The term goes on at this place.
    Goes(TermPlace),
    /// The byte is the line feed behind this whole term.
    Whole(Box<RawTerm>),
    /// The byte is wrong.
    Wrong,
}

/// The step that the byte makes from a place in a term. The stack has the term's open parentheses.
pub fn term_step(
    alloc: Global,
    stack: &mut Vec<Frame>,
    place: TermPlace,
    byte: u8,
) -> Result<TermStep, AllocError>
    ensures { IfOk result (λ next. term_went stack.new.items next ≡ step (term_stack stack.old.items) (term_place place) byte) }
{
    match place {
        TermPlace::Wanted => begin_term(alloc, stack, byte),
        TermPlace::Opened => step_opened(alloc, stack, byte),
        TermPlace::HeadOpened => Ok(only(b'\\', byte, TermPlace::Slash)),
        TermPlace::Name(letters) => step_name(alloc, stack, letters, byte),
        TermPlace::Dollar => match first_number(byte) {
            Some(number) => Ok(TermStep::Goes(TermPlace::Bound(number))),
            None => Ok(TermStep::Wrong),
        },
        TermPlace::Bound(number) => step_bound(alloc, stack, number, byte),
        TermPlace::Percent => match first_number(byte) {
            Some(number) => Ok(TermStep::Goes(TermPlace::Free(number))),
            None => Ok(TermStep::Wrong),
        },
        TermPlace::Free(number) => step_free(alloc, number, byte),
        TermPlace::Slash => Ok(only(b'$', byte, TermPlace::Binder)),
        TermPlace::Binder => match first_number(byte) {
            Some(number) => Ok(TermStep::Goes(TermPlace::BinderNumber(number))),
            None => Ok(TermStep::Wrong),
        },
        TermPlace::BinderNumber(number) => step_binder(alloc, number, byte),
        TermPlace::Typing(of, text) => step_typing(alloc, stack, of, text, byte),
        TermPlace::Closed(term) => end_term(alloc, stack, Box::into_inner(term), byte),
    }
}

/// The step to the place where the byte is the wanted one; else the byte is wrong.
fn only(want: u8, byte: u8, place: TermPlace) -> TermStep
    ensures { result ≡ cond (byte == want) (Goes place) Wrong }
{
    if byte == want {
        return TermStep::Goes(place);
    }
    TermStep::Wrong
}

/// A parenthesis opens.
#[tactic(auto, using(crate::proofs::TermCode::term_push))]
fn open_term(stack: &mut Vec<Frame>, frame: Frame) -> Result<(), AllocError>
    ensures { OnOk result (term_stack stack.new.items ≡ framed frame (term_stack stack.old.items)) }
{
    stack.push(frame)?;
    Ok(())
}

/// The innermost parenthesis closes.
fn close_term(stack: &mut Vec<Frame>) -> Option<Frame>
    ensures { MatchOption result
        (term_stack stack.old.items ≡ base)
        (λ frame. term_stack stack.old.items ≡ framed frame (term_stack stack.new.items)) }
{
    stack.pop()
}

/// Whether the byte opens a parenthesis, and one more may be open.
#[tactic(auto, using(crate::proofs::TermCode::level_is))]
fn opens(stack: &[Frame], byte: u8) -> bool
    ensures { result ≡ ((byte == 40) && nat_lt (level (term_stack stack.now)) deepest_certificate_term) }
{
    byte == b'(' && opens_in_certificate(stack.len())
}

/// Whether the byte opens a second parenthesis, where one that is not on the stack is open already.
#[tactic(auto, using(crate::proofs::TermCode::next_level))]
fn opens_second(stack: &[Frame], byte: u8) -> bool
    ensures { result ≡ ((byte == 40) && nat_lt (suc (level (term_stack stack.now))) deepest_certificate_term) }
{
    byte == b'(' && opens_in_certificate(stack.len() + 1)
}

/// Whether the byte begins an argument behind these and another one, and the spine may have that argument.
#[tactic(auto, using(crate::proofs::TermCode::next_argument))]
fn begins_argument(args: &RawTerms, byte: u8) -> bool
    ensures { result ≡ ((byte == space) && nat_lt (suc (term_count (rtms args.now))) most_arguments) }
{
    byte == b' ' && args.as_slice().len() < MOST_ARGUMENTS - 1
}

/// The place behind the first byte of a name or of a variable.
fn begin_atom(alloc: Global, byte: u8) -> Result<Option<TermPlace>, AllocError>
    ensures { IfOk result (λ place. (fs : Stack) (other : State) → begin fs byte other ≡ begun fs place other) }
{
    if begins_name(byte) {
        return Ok(Some(TermPlace::Name(Letters::new(alloc, byte)?)));
    }
    if byte == b'$' {
        return Ok(Some(TermPlace::Dollar));
    }
    if byte == b'%' {
        return Ok(Some(TermPlace::Percent));
    }
    Ok(None)
}

/// A term begins with the byte.
fn begin_term(alloc: Global, stack: &mut Vec<Frame>, byte: u8) -> Result<TermStep, AllocError>
    ensures { IfOk result (λ next. term_went stack.new.items next ≡ step (term_stack stack.old.items) wanted byte) }
{
    match begin_atom(alloc, byte)? {
        Some(place) => Ok(TermStep::Goes(place)),
        None => {
            if opens(stack, byte) {
                return Ok(TermStep::Goes(TermPlace::Opened));
            }
            Ok(TermStep::Wrong)
        }
    }
}

/// Behind `(` an abstraction goes on with the byte, or the head of a spine begins with it.
fn step_opened(alloc: Global, stack: &mut Vec<Frame>, byte: u8) -> Result<TermStep, AllocError>
    ensures { IfOk result (λ next. term_went stack.new.items next ≡ step (term_stack stack.old.items) opened byte) }
{
    match begin_atom(alloc, byte)? {
        Some(place) => {
            open_term(stack, Frame::Head)?;
            Ok(TermStep::Goes(place))
        }
        None => {
            if byte == b'\\' {
                return Ok(TermStep::Goes(TermPlace::Slash));
            }
            if opens_second(stack, byte) {
                open_term(stack, Frame::Head)?;
                return Ok(TermStep::Goes(TermPlace::HeadOpened));
            }
            Ok(TermStep::Wrong)
        }
    }
}

/// A name goes on with the byte, or has ended before it.
fn step_name(
    alloc: Global,
    stack: &mut Vec<Frame>,
    mut letters: Letters,
    byte: u8,
) -> Result<TermStep, AllocError>
    ensures { IfOk result (λ next. term_went stack.new.items next ≡ step (term_stack stack.old.items) (name_letters letters) byte) }
{
    if letters.goes_on(byte) {
        letters.push(byte)?;
        return Ok(TermStep::Goes(TermPlace::Name(letters)));
    }
    let name = letters.name(alloc)?;
    end_term(alloc, stack, RawTerm::Named(name, 0), byte)
}

/// A bound variable's number goes on with the byte, or has ended before it.
fn step_bound(
    alloc: Global,
    stack: &mut Vec<Frame>,
    number: u32,
    byte: u8,
) -> Result<TermStep, AllocError>
    ensures { IfOk result (λ next. term_went stack.new.items next ≡ step (term_stack stack.old.items) (bound_number number) byte) }
{
    match next_number(number, byte) {
        Some(next) => Ok(TermStep::Goes(TermPlace::Bound(next))),
        None => end_term(alloc, stack, RawTerm::Numbered(number, 0), byte),
    }
}

/// A free variable's number goes on with the byte, or its type comes.
fn step_free(alloc: Global, number: u32, byte: u8) -> Result<TermStep, AllocError>
    ensures { IfOk result (λ next. (fs : List Frame) → term_went fs next ≡ step (term_stack fs) (free_number number) byte) }
{
    match next_number(number, byte) {
        Some(next) => Ok(TermStep::Goes(TermPlace::Free(next))),
        None => begin_type(alloc, Typed::Variable(number), byte),
    }
}

/// A binder's number goes on with the byte, or its type comes.
fn step_binder(alloc: Global, number: u32, byte: u8) -> Result<TermStep, AllocError>
    ensures { IfOk result (λ next. (fs : List Frame) → term_went fs next ≡ step (term_stack fs) (binder_number number) byte) }
{
    match next_number(number, byte) {
        Some(next) => Ok(TermStep::Goes(TermPlace::BinderNumber(next))),
        None => begin_type(alloc, Typed::Binder(number), byte),
    }
}

/// The byte stands between a number and its type.
fn begin_type(alloc: Global, of: Typed, byte: u8) -> Result<TermStep, AllocError>
    ensures { IfOk result (λ next. (fs : List Frame) → term_went fs next
        ≡ cond (byte == 58) (at (term_stack fs) (typing (typed_of of) outside type_wanted)) failed) }
{
    if byte == b':' {
        let text = TypeText {
            stack: Vec::new(alloc),
            place: TypePlace::Wanted,
        };
        return Ok(TermStep::Goes(TermPlace::Typing(of, Box::new(alloc, text)?)));
    }
    Ok(TermStep::Wrong)
}

/// A type goes on with the byte, or has ended before it.
fn step_typing(
    alloc: Global,
    stack: &mut Vec<Frame>,
    of: Typed,
    mut text: Box<TypeText>,
    byte: u8,
) -> Result<TermStep, AllocError>
    ensures { IfOk result (λ next. term_went stack.new.items next
        ≡ step (term_stack stack.old.items) (typing (typed_of of) (type_stack text.value.stack.items) (type_place text.value.place)) byte) }
{
    let place = mem::replace(&mut text.place, TypePlace::Wanted);
    match type_step(alloc, &mut text.stack, place, byte)? {
        TypeStep::Goes(next) => {
            text.place = next;
            Ok(TermStep::Goes(TermPlace::Typing(of, text)))
        }
        TypeStep::Ended(kind) => end_type(alloc, stack, of, kind, byte),
        TypeStep::Wrong => Ok(TermStep::Wrong),
    }
}

/// A type has ended before the byte: the type of a variable, or the type of a binder before its point.
fn end_type(
    alloc: Global,
    stack: &mut Vec<Frame>,
    of: Typed,
    kind: RawType,
    byte: u8,
) -> Result<TermStep, AllocError>
    ensures { IfOk result (λ next. term_went stack.new.items next ≡ typed (term_stack stack.old.items) (typed_of of)
        (type_ended (rty kind) byte)) }
{
    match of {
        Typed::Variable(number) => {
            let variable = RawTerm::Free(number, Box::new(alloc, kind)?, 0);
            end_term(alloc, stack, variable, byte)
        }
        Typed::Binder(number) => {
            if byte != b'.' {
                return Ok(TermStep::Wrong);
            }
            open_term(stack, Frame::Body(number, Box::new(alloc, kind)?))?;
            Ok(TermStep::Goes(TermPlace::Wanted))
        }
    }
}

/// A term has ended before the byte: the whole one, or a part of what the innermost parenthesis holds.
fn end_term(
    alloc: Global,
    stack: &mut Vec<Frame>,
    term: RawTerm,
    byte: u8,
) -> Result<TermStep, AllocError>
    ensures { IfOk result (λ next. term_went stack.new.items next ≡ after (term_stack stack.old.items) (rtm term) byte) }
{
    match close_term(stack) {
        None => {
            if byte == b'\n' {
                return Ok(TermStep::Whole(Box::new(alloc, term)?));
            }
            Ok(TermStep::Wrong)
        }
        Some(Frame::Head) => end_head(alloc, stack, term, byte),
        Some(Frame::Spine(head, args)) => end_argument(alloc, stack, head, args, term, byte),
        Some(Frame::Body(number, kind)) => end_body(alloc, number, kind, term, byte),
    }
}

/// The head of a spine has ended before the byte; an argument follows.
fn end_head(
    alloc: Global,
    stack: &mut Vec<Frame>,
    term: RawTerm,
    byte: u8,
) -> Result<TermStep, AllocError>
    ensures { IfOk result (λ next. term_went stack.new.items next ≡ after (in_head (term_stack stack.old.items)) (rtm term) byte) }
{
    if byte != b' ' {
        return Ok(TermStep::Wrong);
    }
    let head = Box::new(alloc, term)?;
    open_term(stack, Frame::Spine(head, RawTerms::new(alloc)))?;
    Ok(TermStep::Goes(TermPlace::Wanted))
}

/// An argument of a spine has ended before the byte; another one or the end of the spine follows.
#[tactic(auto, using(crate::proofs::RawLaws::rtms_grow))]
fn end_argument(
    alloc: Global,
    stack: &mut Vec<Frame>,
    head: Box<RawTerm>,
    mut args: RawTerms,
    term: RawTerm,
    byte: u8,
) -> Result<TermStep, AllocError>
    ensures { IfOk result (λ next. term_went stack.new.items next
        ≡ after (in_spine (rtm head.value) (rtms args) (term_stack stack.old.items)) (rtm term) byte) }
{
    if byte == b')' {
        args.push(term)?;
        let whole = Box::new(alloc, applied(head, args))?;
        return Ok(TermStep::Goes(TermPlace::Closed(whole)));
    }
    if begins_argument(&args, byte) {
        args.push(term)?;
        open_term(stack, Frame::Spine(head, args))?;
        return Ok(TermStep::Goes(TermPlace::Wanted));
    }
    Ok(TermStep::Wrong)
}

/// The body of an abstraction has ended before the byte, which closes it.
fn end_body(
    alloc: Global,
    number: u32,
    kind: Box<RawType>,
    term: RawTerm,
    byte: u8,
) -> Result<TermStep, AllocError>
    ensures { IfOk result (λ next. (fs : List Frame) → term_went fs next
        ≡ after (in_body number (rty kind.value) (term_stack fs)) (rtm term) byte) }
{
    if byte != b')' {
        return Ok(TermStep::Wrong);
    }
    let whole = Box::new(alloc, abstraction(alloc, number, kind, term)?)?;
    Ok(TermStep::Goes(TermPlace::Closed(whole)))
}
