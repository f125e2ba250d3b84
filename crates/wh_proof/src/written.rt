//! The lines that a certificate has for choices and for interpretations: the names of their symbols stand for the
//! numbers.

ghost use Rattle.std.specs.Prelude.{◌≡◌, ◌<◌, ◌≤◌, All, IfOk, Some, length, map, slice_get};
ghost use Rattle.wh_types.specs.Limits.{greatest_number};
ghost use Rattle.wh_system.specs.SystemView.{system_data};
ghost use Rattle.wh_subterm.specs.SubtermRows.{chosen};
ghost use Rattle.wh_cert.specs.Limits.{ArgFits};
ghost use Rattle.wh_cert.specs.Said.{said_arg};
ghost use Rattle.wh_poly.specs.Erase.{poly};
ghost use Rattle.wh_proof.specs.Looked.{SayChoices};

use std::alloc::{AllocError, Global};
use wh_cert::{Arg, Args, Interp, Interps};
use wh_hopoly::Symbol;
use wh_poly::copy;
use wh_polycheck::MarkedSymbol;
use wh_subterm::Choice;
use wh_system::System;
use wh_text::Name;

/// The lines `arg` of some choices.
pub fn lines_of_choices(
    alloc: Global,
    system: &System,
    choices: &[Choice],
) -> Result<Args, AllocError>
    requires symbols { All (λ c. c.symbol < length (system_data system.now).fun_names) choices.now }
    requires arguments { All (λ c. c.argument ≤ greatest_number) choices.now }
    ensures said { IfOk result (λ args. SayChoices (system_data system.now) (map said_arg args) (map chosen choices.now)) }
    ensures fit { IfOk result (λ args. All ArgFits (map said_arg args)) }
{
    let mut args = Args::new(alloc);
    for choice in choices {
        let name = Name::new(alloc, system.fun_name(choice.symbol).bytes())?;
        args.push(Arg {
            name,
            place: choice.argument,
        })?;
    }
    Ok(args)
}

/// The lines `fun` of the symbols.
pub fn lines_of_symbols(
    alloc: Global,
    names: &[Name],
    symbols: &[Symbol],
) -> Result<Interps, AllocError>
    requires { length names.now ≡ length symbols.now }
    ensures names { IfOk result (λ lines. map (λ l. l.name) lines ≡ names.now) }
    ensures polynomials { IfOk result (λ lines. map (λ s. poly s.poly) symbols.now ≡ map (λ l. poly l.poly) lines) }
{
    let mut lines = Interps::new(alloc);
    for i in 0..symbols.len() {
        let name = Name::new(alloc, names[i].bytes())?;
        let poly = copy(alloc, &symbols[i].poly)?;
        lines.push(Interp { name, poly })?;
    }
    Ok(lines)
}

/// The lines `mark` of the marked symbols. A symbol without a name counts as want of memory: callers rule it out, and a
/// contract that said so would be longer than the case is worth.
pub fn lines_of_marks(
    alloc: Global,
    names: &[Name],
    marks: &[MarkedSymbol],
) -> Result<Interps, AllocError>
    ensures names { IfOk result (λ lines. map (λ m. slice_get names.now m.symbol) marks.now ≡ map (λ l. Some l.name) lines) }
    ensures polynomials { IfOk result (λ lines. map (λ m. poly m.poly) marks.now ≡ map (λ l. poly l.poly) lines) }
{
    let mut lines = Interps::new(alloc);
    for mark in marks {
        if mark.symbol as usize >= names.len() {
            return Err(AllocError);
        }
        let name = Name::new(alloc, names[mark.symbol as usize].bytes())?;
        let poly = copy(alloc, &mark.poly)?;
        lines.push(Interp { name, poly })?;
    }
    Ok(lines)
}
