//! The reader of polynomials, byte by byte. `PolyText::step` is its main function. A stack has the open parentheses.

ghost use Rattle.std.specs.Prelude.{◌≡◌, ◌==◌, ◌&&◌, ℕ, nat_lt, IfOk, OnOk, MatchOption};
ghost use Rattle.wh_types.specs.Limits.{deepest_certificate_polynomial};
ghost use Rattle.wh_poly.specs.Erase.{poly, atoms, polys};
ghost use Rattle.wh_poly.specs.Polynomials.{zero_poly, no_factors, no_arguments};
ghost use Rattle.wh_cert_parts.specs.PolyMachine.{outside, poly_wanted, coefficient, closed_poly, goes, poly_level, add_monomial, add_factor, add_argument, behind_poly, first_coefficient, poly_step};
ghost use Rattle.wh_cert_parts.specs.PolyViews.{behind_head_of, behind_part_of, opened, place_of, poly_stack, poly_place, poly_went};
ghost use Rattle.wh_cert_parts.specs.declared.poly_reader.PolyPlace.TheVariants.{Factor, Head, Variable};

use std::alloc::{AllocError, Global};
use std::mem;
use wh_cert_letters::{first_big, first_number, next_big, next_number};
use wh_poly::{Atom, Atoms, Monomial, Poly, Polys};

/// How deep the parentheses of a polynomial may nest.
const DEEPEST_POLYNOMIAL: usize = 64;

/// How far a polynomial was read since its last open parenthesis; what is longer than a number stands in the text
/// itself.
#[derive(Clone, Copy)]
pub enum PolyPlace {
    /// No byte of the polynomial that comes.
    Wanted,
    /// `0`.
    Zero,
    /// Monomials and a `+`.
    Added,
    /// Monomials, a `+` and digits of a coefficient.
    Coefficient(u128),
    /// A monomial so far and a `*`.
    Factor,
    /// A monomial so far, a `*` and a `y`.
    Variable,
    /// A monomial so far, a `*`, a `y` and digits of the variable's number.
    Head(u32),
    /// A monomial so far that ended with `)`.
    Closed,
}

/// The monomials of a polynomial so far.
#[derive(Drop)]
pub struct Part {
    /// The monomials that have ended.
    pub sum: Poly,
    /// The coefficient of the monomial that is read.
    pub coefficient: u128,
    /// The factors of that monomial that have ended.
    pub atoms: Atoms,
}

/// An open parenthesis of a polynomial.
#[derive(Drop)]
pub struct PolyFrame {
    /// The polynomial around the parenthesis, as far as it was read.
    pub part: Part,
    /// The number of the variable before the parenthesis.
    pub head: u32,
    /// The arguments that have ended.
    pub args: Polys,
}

/// A polynomial as far as it was read.
#[derive(Drop)]
pub struct PolyText {
    /// The open parentheses of the polynomial.
    pub stack: Vec<PolyFrame>,
    /// How far it was read.
    pub place: PolyPlace,
    /// What stands in the innermost parenthesis.
    pub part: Part,
}

/// Where a byte leads the reader.
#[derive(Drop)]
pub enum PolyStep {
    /// The polynomial goes on with the byte.
    On,
    /// The whole polynomial has ended before the byte.
    Ended(Poly),
    /// The byte is wrong.
    Wrong,
}

/// The polynomial 0.
#[tactic(auto, using(crate::proofs::PolyCode::zero_is))]
fn zero(alloc: Global) -> Result<Poly, AllocError>
    ensures { IfOk result (λ p. poly p ≡ zero_poly) }
{
    Ok(Poly::new(alloc))
}

/// A product without factors.
#[tactic(auto, using(crate::proofs::PolyCode::no_factors_are))]
fn no_atoms(alloc: Global) -> Result<Atoms, AllocError>
    ensures { IfOk result (λ us. atoms us ≡ no_factors) }
{
    Ok(Atoms::new(alloc))
}

/// No arguments.
#[tactic(auto, using(crate::proofs::PolyCode::no_arguments_are))]
fn no_polys(alloc: Global) -> Result<Polys, AllocError>
    ensures { IfOk result (λ ps. polys ps ≡ no_arguments) }
{
    Ok(Polys::new(alloc))
}

/// A monomial joins at the end.
#[tactic(auto, using(crate::proofs::PolyCode::monomial_joins))]
fn join_monomial(sum: &mut Poly, coefficient: u128, factors: Atoms) -> Result<(), AllocError>
    ensures { OnOk result (poly sum.new ≡ add_monomial (poly sum.old) coefficient (atoms factors)) }
{
    sum.push(Monomial {
        coefficient,
        atoms: factors,
    })?;
    Ok(())
}

/// A factor joins at the end.
#[tactic(auto, using(crate::proofs::PolyCode::factor_joins))]
fn join_factor(product: &mut Atoms, head: u32, args: Polys) -> Result<(), AllocError>
    ensures { OnOk result (atoms product.new ≡ add_factor (atoms product.old) head (polys args)) }
{
    product.push(Atom { head, args })?;
    Ok(())
}

/// An argument joins at the end.
#[tactic(auto, using(crate::proofs::PolyCode::argument_joins))]
fn join_argument(args: &mut Polys, part: Poly) -> Result<(), AllocError>
    ensures { OnOk result (polys args.new ≡ add_argument (polys args.old) (poly part)) }
{
    args.push(part)?;
    Ok(())
}

impl Part {
    /// The part before its first monomial.
    fn new(alloc: Global) -> Result<Part, AllocError>
        ensures { IfOk result (λ part. poly part.sum ≡ zero_poly) }
    {
        Ok(Part {
            sum: zero(alloc)?,
            coefficient: 1,
            atoms: no_atoms(alloc)?,
        })
    }

    /// The present monomial ends.
    fn end_monomial(&mut self, alloc: Global) -> Result<(), AllocError>
        ensures { OnOk result (poly self.new.sum ≡ add_monomial (poly self.old.sum) self.old.coefficient (atoms self.old.atoms)) }
    {
        let factors = mem::replace(&mut self.atoms, no_atoms(alloc)?);
        join_monomial(&mut self.sum, self.coefficient, factors)
    }
}

/// A parenthesis opens.
#[tactic(auto, using(crate::proofs::PolyCode::poly_push))]
fn open_poly(stack: &mut Vec<PolyFrame>, frame: PolyFrame) -> Result<(), AllocError>
    ensures { OnOk result (poly_stack stack.new.items ≡ opened frame (poly_stack stack.old.items)) }
{
    stack.push(frame)?;
    Ok(())
}

/// The innermost parenthesis closes.
fn close_poly(stack: &mut Vec<PolyFrame>) -> Option<PolyFrame>
    ensures { MatchOption result
        (poly_stack stack.old.items ≡ outside)
        (λ frame. poly_stack stack.old.items ≡ opened frame (poly_stack stack.new.items)) }
{
    stack.pop()
}

/// Whether the byte opens a parenthesis, and one more may be open.
#[tactic(auto, using(crate::proofs::PolyCode::level_is))]
fn opens(stack: &[PolyFrame], byte: u8) -> bool
    ensures { result ≡ ((byte == 40) && nat_lt (poly_level (poly_stack stack.now)) deepest_certificate_polynomial) }
{
    byte == b'(' && stack.len() < DEEPEST_POLYNOMIAL
}

impl PolyText {
    /// The reader before a polynomial.
    pub fn new(alloc: Global) -> Result<PolyText, AllocError>
        ensures stack { IfOk result (λ text. poly_stack text.stack.items ≡ outside) }
        ensures place { IfOk result (λ text. poly_place text ≡ poly_wanted) }
    {
        Ok(PolyText {
            stack: Vec::new(alloc),
            place: PolyPlace::Wanted,
            part: Part::new(alloc)?,
        })
    }

    /// Takes one more byte.
    pub fn step(&mut self, alloc: Global, byte: u8) -> Result<PolyStep, AllocError>
        ensures { IfOk result (λ went. poly_went self.new byte went ≡ poly_step (poly_stack self.old.stack.items) (poly_place self.old)
            byte) }
    {
        match self.place {
            PolyPlace::Wanted => self.begin(alloc, byte),
            PolyPlace::Zero => self.end_poly(zero(alloc)?, byte),
            PolyPlace::Added => Ok(self.begin_coefficient(byte)),
            PolyPlace::Coefficient(number) => self.step_coefficient(alloc, number, byte),
            PolyPlace::Factor => Ok(self.begin_factor(byte)),
            PolyPlace::Variable => Ok(self.begin_head(byte)),
            PolyPlace::Head(number) => self.step_head(alloc, number, byte),
            PolyPlace::Closed => self.end_part(alloc, byte),
        }
    }

    /// A polynomial begins with the byte.
    fn begin(&mut self, alloc: Global, byte: u8) -> Result<PolyStep, AllocError>
        ensures { IfOk result (λ went. poly_went self.new byte went ≡ poly_step (poly_stack self.old.stack.items) poly_wanted byte) }
    {
        if byte == b'0' {
            self.place = PolyPlace::Zero;
            return Ok(PolyStep::On);
        }
        self.part.sum = zero(alloc)?;
        Ok(self.begin_coefficient(byte))
    }

    /// The first digit of a coefficient.
    fn begin_coefficient(&mut self, byte: u8) -> PolyStep
        ensures { poly_went self.new byte result ≡ first_coefficient (poly_stack self.old.stack.items) (poly self.old.part.sum) byte }
    {
        match first_big(byte) {
            Some(number) => {
                self.place = PolyPlace::Coefficient(number);
                PolyStep::On
            }
            None => PolyStep::Wrong,
        }
    }

    /// A coefficient goes on with the byte, or has ended before it.
    fn step_coefficient(
        &mut self,
        alloc: Global,
        number: u128,
        byte: u8,
    ) -> Result<PolyStep, AllocError>
        ensures { IfOk result (λ went. poly_went self.new byte went
            ≡ poly_step (poly_stack self.old.stack.items) (coefficient (poly self.old.part.sum) number) byte) }
    {
        match next_big(number, byte) {
            Some(next) => {
                self.place = PolyPlace::Coefficient(next);
                Ok(PolyStep::On)
            }
            None => {
                self.part.atoms = no_atoms(alloc)?;
                self.part.coefficient = number;
                self.end_part(alloc, byte)
            }
        }
    }

    /// The `y` of a factor.
    fn begin_factor(&mut self, byte: u8) -> PolyStep
        ensures { poly_went self.new byte result ≡ poly_step (poly_stack self.old.stack.items) (place_of Factor self.old.part) byte }
    {
        if byte != b'y' {
            return PolyStep::Wrong;
        }
        self.place = PolyPlace::Variable;
        PolyStep::On
    }

    /// The first digit of a variable's number.
    fn begin_head(&mut self, byte: u8) -> PolyStep
        ensures { poly_went self.new byte result ≡ poly_step (poly_stack self.old.stack.items) (place_of Variable self.old.part) byte }
    {
        match first_number(byte) {
            Some(number) => {
                self.place = PolyPlace::Head(number);
                PolyStep::On
            }
            None => PolyStep::Wrong,
        }
    }

    /// A variable's number goes on with the byte, or has ended before it.
    fn step_head(&mut self, alloc: Global, number: u32, byte: u8) -> Result<PolyStep, AllocError>
        ensures { IfOk result (λ went. poly_went self.new byte went
            ≡ poly_step (poly_stack self.old.stack.items) (place_of (Head number) self.old.part) byte) }
    {
        match next_number(number, byte) {
            Some(next) => {
                self.place = PolyPlace::Head(next);
                Ok(PolyStep::On)
            }
            None => self.end_head(alloc, number, byte),
        }
    }

    /// A variable's number has ended before the byte.
    fn end_head(&mut self, alloc: Global, number: u32, byte: u8) -> Result<PolyStep, AllocError>
        ensures { IfOk result (λ went. poly_went self.new byte went ≡ behind_head_of self.old number byte) }
    {
        let args = no_polys(alloc)?;
        if opens(&self.stack, byte) {
            let part = mem::replace(&mut self.part, Part::new(alloc)?);
            let frame = PolyFrame {
                part,
                head: number,
                args,
            };
            open_poly(&mut self.stack, frame)?;
            self.place = PolyPlace::Wanted;
            return Ok(PolyStep::On);
        }
        join_factor(&mut self.part.atoms, number, args)?;
        self.end_part(alloc, byte)
    }

    /// A coefficient or a factor has ended before the byte.
    fn end_part(&mut self, alloc: Global, byte: u8) -> Result<PolyStep, AllocError>
        ensures { IfOk result (λ went. poly_went self.new byte went ≡ behind_part_of self.old byte) }
    {
        if byte == b'*' {
            self.place = PolyPlace::Factor;
            return Ok(PolyStep::On);
        }
        self.part.end_monomial(alloc)?;
        if byte == b'+' {
            self.place = PolyPlace::Added;
            return Ok(PolyStep::On);
        }
        let sum = mem::replace(&mut self.part.sum, zero(alloc)?);
        self.end_poly(sum, byte)
    }

    /// A polynomial has ended before the byte: the whole one, or an argument of the variable before the innermost
    /// parenthesis.
    fn end_poly(&mut self, sum: Poly, byte: u8) -> Result<PolyStep, AllocError>
        ensures { IfOk result (λ went. poly_went self.new byte went ≡ behind_poly (poly_stack self.old.stack.items) (poly sum) byte) }
    {
        match close_poly(&mut self.stack) {
            None => Ok(PolyStep::Ended(sum)),
            Some(mut frame) => {
                join_argument(&mut frame.args, sum)?;
                if byte == b',' {
                    open_poly(&mut self.stack, frame)?;
                    self.place = PolyPlace::Wanted;
                    return Ok(PolyStep::On);
                }
                if byte == b')' {
                    return self.end_factor(frame);
                }
                Ok(PolyStep::Wrong)
            }
        }
    }

    /// A factor with arguments has ended.
    fn end_factor(&mut self, frame: PolyFrame) -> Result<PolyStep, AllocError>
        ensures { IfOk result (λ went. (b : ℕ) → poly_went self.new b went
            ≡ goes (poly_stack self.old.stack.items) (closed_poly (poly frame.part.sum) frame.part.coefficient
            (add_factor (atoms frame.part.atoms) frame.head (polys frame.args)))) }
    {
        let PolyFrame { part, head, args } = frame;
        self.part = part;
        join_factor(&mut self.part.atoms, head, args)?;
        self.place = PolyPlace::Closed;
        Ok(PolyStep::On)
    }
}
