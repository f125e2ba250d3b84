//! The reader of inferences, byte by byte. `InferenceText::step` is its main function. A stack has the inferences whose
//! parentheses are open.

ghost use Rattle.std.specs.Prelude.{◌≡◌, suc, nat_lt, ℕ, Some, None, IfOk, OnOk, MatchOption};
ghost use Rattle.wh_order_inference.specs.Inferences.{no_parts, infer};
ghost use Rattle.wh_order_inference.specs.InferenceText.{form};
ghost use Rattle.wh_order_inference.specs.InferenceLimits.{deepest_inference};
ghost use Rattle.wh_order_inference.specs.Said as l;
ghost use Rattle.wh_order_inference.specs.Said.{inference, inferences};
ghost use Rattle.wh_order_text.specs.InferenceMachine.{outside, wanted, place_wanted, placed, begun, behind, level, add_part, letter_at as is_letter, behind_letter, begin as begins, opening, behind_inference, step as leads, goes};
ghost use Rattle.wh_order_text.specs.InferenceViews.{opened, inference_stack, inference_place, went};

use std::alloc::{AllocError, Global};
use std::mem;
use wh_cert_letters::{first_number, next_number};
use wh_order_inference::{Inference, Inferences, Letter};

/// How deep inferences may nest.
const DEEPEST_INFERENCE: usize = 64;

/// How far an inference was read since its last open parenthesis.
#[derive(Clone, Copy)]
pub enum InferencePlace {
    /// No byte of the inference that comes.
    Wanted,
    /// A letter that a place follows.
    PlaceWanted(Letter),
    /// A letter that a place follows, and digits of the place.
    Placed(Letter, u32),
    /// A letter that parts follow.
    PartsWanted(Letter),
    /// A letter, its place if it has one, and `(`.
    Begun(Letter, u32),
    /// A whole inference, which stands in the text itself.
    Behind,
}

/// An inference whose parenthesis is open.
#[derive(Drop)]
pub struct OpenInference {
    /// The letter of the inference.
    pub letter: Letter,
    /// The place of the inference, 0 where none is written.
    pub place: u32,
    /// The parts of the inference that have ended.
    pub parts: Inferences,
}

/// An inference as far as it was read.
#[derive(Drop)]
pub struct InferenceText {
    /// The inferences whose parentheses are open.
    pub stack: Vec<OpenInference>,
    /// How far the innermost one was read since.
    pub place: InferencePlace,
    /// The inference that ended last.
    pub last: Inference,
}

/// Where a byte leads the reader.
#[derive(Drop)]
pub enum InferenceStep {
    /// The inference goes on with the byte.
    On,
    /// The whole inference has ended before the byte.
    Ended(Inference),
    /// The byte is wrong.
    Wrong,
}

/// The letter that the byte is.
#[tactic(auto)]
fn letter_at(byte: u8) -> Option<Letter>
    ensures { MatchOption result (is_letter byte ≡ None) (λ sign. is_letter byte ≡ Some (l.letter sign)) }
{
    match byte {
        b'=' => Some(Letter::Same),
        b'l' => Some(Letter::Lam),
        b'm' => Some(Letter::Mono),
        b's' => Some(Letter::Sub),
        b'p' => Some(Letter::Prec),
        b'x' => Some(Letter::Lex),
        b'a' => Some(Letter::App),
        b'b' => Some(Letter::Bind),
        b'v' => Some(Letter::Var),
        b'z' => Some(Letter::Meta),
        _ => None,
    }
}

/// The inference of these parts.
#[tactic(auto, using(crate::proofs::InferenceCode::inference_made))]
fn made(letter: Letter, place: u32, parts: Inferences) -> Inference
    ensures { inference result ≡ infer (l.letter letter) place (inferences parts) }
{
    Inference {
        letter,
        place,
        parts,
    }
}

/// A letter alone.
fn leaf(alloc: Global, letter: Letter) -> Result<Inference, AllocError>
    ensures { IfOk result (λ i. inference i ≡ infer (l.letter letter) 0 no_parts) }
{
    Ok(made(letter, 0, Inferences::new(alloc)))
}

/// A part joins at the end.
#[tactic(auto, using(crate::proofs::InferenceCode::part_joins))]
fn join_part(parts: &mut Inferences, part: Inference) -> Result<(), AllocError>
    ensures { OnOk result (inferences parts.new ≡ add_part (inferences parts.old) (inference part)) }
{
    parts.push(part)
}

/// A parenthesis opens.
#[tactic(auto, using(crate::proofs::InferenceCode::stack_push))]
fn push_open(stack: &mut Vec<OpenInference>, frame: OpenInference) -> Result<(), AllocError>
    ensures { OnOk result (inference_stack stack.new.items ≡ opened frame (inference_stack stack.old.items)) }
{
    stack.push(frame)?;
    Ok(())
}

/// The innermost parenthesis closes.
fn pop_open(stack: &mut Vec<OpenInference>) -> Option<OpenInference>
    ensures { MatchOption result
        (inference_stack stack.old.items ≡ outside)
        (λ frame. inference_stack stack.old.items ≡ opened frame (inference_stack stack.new.items)) }
{
    stack.pop()
}

/// Whether one more inference may have its parts within those of the stack.
#[tactic(auto, using(crate::proofs::InferenceCode::level_is))]
fn has_room(stack: &[OpenInference]) -> bool
    ensures { result ≡ nat_lt (suc (level (inference_stack stack.now))) deepest_inference }
{
    stack.len() + 1 < DEEPEST_INFERENCE
}

impl InferenceText {
    /// The reader before an inference.
    pub fn new(alloc: Global) -> Result<InferenceText, AllocError>
        ensures stack { IfOk result (λ text. inference_stack text.stack.items ≡ outside) }
        ensures place { IfOk result (λ text. inference_place text ≡ wanted) }
    {
        Ok(InferenceText {
            stack: Vec::new(alloc),
            place: InferencePlace::Wanted,
            last: leaf(alloc, Letter::Same)?,
        })
    }

    /// Takes one more byte.
    pub fn step(&mut self, alloc: Global, byte: u8) -> Result<InferenceStep, AllocError>
        ensures { IfOk result (λ s. went self.new byte s ≡ leads (inference_stack self.old.stack.items) (inference_place self.old) byte) }
    {
        match self.place {
            InferencePlace::Wanted => self.begin(alloc, byte),
            InferencePlace::PlaceWanted(letter) => Ok(self.begin_place(letter, byte)),
            InferencePlace::Placed(letter, number) => Ok(self.step_place(letter, number, byte)),
            InferencePlace::PartsWanted(letter) => Ok(self.open_parts(letter, 0, byte)),
            InferencePlace::Begun(letter, place) => self.step_begun(alloc, letter, place, byte),
            InferencePlace::Behind => self.end_inference(alloc, byte),
        }
    }

    /// An inference begins with the byte.
    fn begin(&mut self, alloc: Global, byte: u8) -> Result<InferenceStep, AllocError>
        ensures { IfOk result (λ s. (b : ℕ) → went self.new b s ≡ begins (inference_stack self.old.stack.items) (is_letter byte)) }
    {
        match letter_at(byte) {
            Some(letter) => self.begin_letter(alloc, letter),
            None => Ok(InferenceStep::Wrong),
        }
    }

    /// An inference begins with the letter.
    fn begin_letter(&mut self, alloc: Global, letter: Letter) -> Result<InferenceStep, AllocError>
        ensures { IfOk result (λ s. (b : ℕ) → went self.new b s
            ≡ behind_letter (form (l.letter letter)) (inference_stack self.old.stack.items) (l.letter letter)) }
    {
        match letter {
            Letter::Same | Letter::Var => {
                self.last = leaf(alloc, letter)?;
                self.place = InferencePlace::Behind;
            }
            Letter::Sub | Letter::Lex | Letter::Meta => {
                self.place = InferencePlace::PlaceWanted(letter);
            }
            Letter::Lam | Letter::Mono | Letter::Prec | Letter::App | Letter::Bind => {
                self.place = InferencePlace::PartsWanted(letter);
            }
        }
        Ok(InferenceStep::On)
    }

    /// The first digit of a place.
    fn begin_place(&mut self, letter: Letter, byte: u8) -> InferenceStep
        ensures { went self.new byte result ≡ leads (inference_stack self.old.stack.items) (place_wanted (l.letter letter)) byte }
    {
        match first_number(byte) {
            Some(number) => {
                self.place = InferencePlace::Placed(letter, number);
                InferenceStep::On
            }
            None => InferenceStep::Wrong,
        }
    }

    /// A place goes on with the byte, or has ended before it.
    fn step_place(&mut self, letter: Letter, number: u32, byte: u8) -> InferenceStep
        ensures { went self.new byte result ≡ leads (inference_stack self.old.stack.items) (placed (l.letter letter) number) byte }
    {
        match next_number(number, byte) {
            Some(next) => {
                self.place = InferencePlace::Placed(letter, next);
                InferenceStep::On
            }
            None => self.open_parts(letter, number, byte),
        }
    }

    /// The parenthesis of an inference opens.
    fn open_parts(&mut self, letter: Letter, place: u32, byte: u8) -> InferenceStep
        ensures { went self.new byte result ≡ opening (inference_stack self.old.stack.items) (l.letter letter) place byte }
    {
        if byte != b'(' {
            return InferenceStep::Wrong;
        }
        self.place = InferencePlace::Begun(letter, place);
        InferenceStep::On
    }

    /// Behind `(` the first part begins with the byte, or the byte closes the parenthesis.
    fn step_begun(
        &mut self,
        alloc: Global,
        letter: Letter,
        place: u32,
        byte: u8,
    ) -> Result<InferenceStep, AllocError>
        ensures { IfOk result (λ s. went self.new byte s
            ≡ leads (inference_stack self.old.stack.items) (begun (l.letter letter) place) byte) }
    {
        let parts = Inferences::new(alloc);
        if byte == b')' {
            return Ok(self.close(OpenInference {
                letter,
                place,
                parts,
            }));
        }
        if !has_room(&self.stack) {
            return Ok(InferenceStep::Wrong);
        }
        push_open(
            &mut self.stack,
            OpenInference {
                letter,
                place,
                parts,
            },
        )?;
        self.begin(alloc, byte)
    }

    /// An inference has ended before the byte: the whole one, or a part of the one around it.
    fn end_inference(&mut self, alloc: Global, byte: u8) -> Result<InferenceStep, AllocError>
        ensures { IfOk result (λ s. went self.new byte s
            ≡ behind_inference (inference_stack self.old.stack.items) (inference self.old.last) byte) }
    {
        let last = mem::replace(&mut self.last, leaf(alloc, Letter::Same)?);
        match pop_open(&mut self.stack) {
            None => Ok(InferenceStep::Ended(last)),
            Some(mut frame) => {
                join_part(&mut frame.parts, last)?;
                if byte == b',' {
                    push_open(&mut self.stack, frame)?;
                    self.place = InferencePlace::Wanted;
                    return Ok(InferenceStep::On);
                }
                if byte == b')' {
                    return Ok(self.close(frame));
                }
                Ok(InferenceStep::Wrong)
            }
        }
    }

    /// An inference with parts has ended.
    fn close(&mut self, frame: OpenInference) -> InferenceStep
        ensures { (b : ℕ) → went self.new b result ≡ goes (inference_stack self.old.stack.items)
            (behind (infer (l.letter frame.letter) frame.place (inferences frame.parts))) }
    {
        self.last = made(frame.letter, frame.place, frame.parts);
        self.place = InferencePlace::Behind;
        InferenceStep::On
    }
}
