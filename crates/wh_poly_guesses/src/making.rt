//! Making and changing guesses: the polynomials of symbols and marked symbols, by lists of coefficients.

ghost use Rattle.std.specs.Bool.{OnTrue};
ghost use Rattle.std.specs.Prelude.{ℕ, ◌++◌, ◌<◌, ◌^◌, ◌≡◌, ◌≢◌, Some, All, IfOk, OnOk, map, length, slice_get};
ghost use Rattle.wh_types.specs.Erase.{ty, tys};
ghost use Rattle.wh_types.specs.Ty.{arguments};
ghost use Rattle.wh_system.specs.SystemView.{system_data};
ghost use Rattle.wh_pairs.specs.Marked.{AreMarked};
ghost use Rattle.wh_reduction_pairs.specs.TaskView.{task_data};
ghost use Rattle.wh_polycheck.specs.Marks.{marked_types};
ghost use Rattle.wh_poly_space.specs.Space.{space_of};
ghost use Rattle.wh_poly_guesses.specs.Coefficients.{HaveCoefficients, scopes_of};
ghost use Rattle.wh_poly_guesses.specs.Guesses.{IsReadMark, IsReadSymbol};
ghost use Rattle.wh_poly_guesses.specs.Reads.{AreMarksBy, AreReadBy, IsMarkBy, IsReadBy, list_of};
ghost use Rattle.wh_poly_guesses.specs.Tasks.{IsChangedGuess, IsGuessOf, guess_data};
ghost use Rattle.wh_hopoly.specs.declared.expression.Symbol.{Symbol};
ghost use Rattle.wh_polycheck.specs.declared.marks.MarkedSymbol.{MarkedSymbol};

use crate::guess::Guess;
use std::alloc::{AllocError, Global};
use wh_hopoly::Symbol;
use wh_poly_space::{reading_of, spots_of};
use wh_polycheck::{MarkedSymbol, kind_of_mark};
use wh_reduction_pairs::Task;
use wh_system::System;
use wh_types::SimpleType;

/// The guess that has these coefficients: a list for each symbol, and then for each of the marked symbols of the set;
/// what is missing is 0, and what is above 3 counts as 3.
pub fn guess_by<'a>(
    alloc: Global,
    task: &Task<'a>,
    marked: &[u32],
    lists: &[Vec<u8>],
) -> Result<Guess, AllocError>
    requires marked { AreMarked (task_data task.now).pairs (task_data task.now).set marked.now }
    ensures guess { IfOk result (IsGuessOf task.now) }
    ensures marks { IfOk result (λ made. map (λ m. m.symbol) made.marks.items ≡ marked.now) }
    ensures lists { IfOk result (λ made. HaveCoefficients (task_data task.now) (map (λ l. l.items) lists.now) (guess_data made)) }
{
    let kinds = task.system.signature().funs.as_slice();
    let symbols = symbols_by(alloc, kinds, lists)?;
    let marks = marks_by(alloc, task.system, marked, lists, kinds.len())?;
    Ok(Guess { symbols, marks })
}

// The symbols with these types, read by the lists of coefficients.
fn symbols_by(
    alloc: Global,
    kinds: &[SimpleType],
    lists: &[Vec<u8>],
) -> Result<Vec<Symbol>, AllocError>
    ensures kinds { IfOk result (λ made. map (λ s. ty s.kind) made.items ≡ tys kinds.now) }
    ensures read { IfOk result (λ made. AreReadBy (list_of (map (λ l. l.items) lists.now)) made.items) }
{
    let mut symbols = Vec::new(alloc);
    for (i, kind) in kinds.iter().enumerate() {
        let scope = arguments_of(alloc, kind)?;
        let poly = reading_of(alloc, &scope, list_at(lists, i))?;
        symbols.push(Symbol {
            kind: kind.copy(alloc)?,
            poly,
        })?;
    }
    Ok(symbols)
}

// The marked symbols of these symbols, read by the lists of coefficients from number `first` on.
fn marks_by(
    alloc: Global,
    system: &System,
    numbers: &[u32],
    lists: &[Vec<u8>],
    first: usize,
) -> Result<Vec<MarkedSymbol>, AllocError>
    requires { first < 2 ^ 63 }
    ensures symbols { IfOk result (λ made. map (λ m. m.symbol) made.items ≡ numbers.now) }
    ensures read { IfOk result (λ made. AreMarksBy (system_data system.now).symbols (system_data system.now).rules
        (list_of (map (λ l. l.items) lists.now)) first made.items) }
{
    let mut marks = Vec::new(alloc);
    for (i, number) in numbers.iter().enumerate() {
        let scope = scope_of_mark(alloc, system, *number)?;
        let poly = reading_of(alloc, &scope, list_at(lists, first + i))?;
        marks.push(MarkedSymbol {
            symbol: *number,
            poly,
        })?;
    }
    Ok(marks)
}

// The list with that number, and an empty one where there is none.
fn list_at(lists: &[Vec<u8>], i: usize) -> &[u8]
    ensures { result.now ≡ list_of (map (λ l. l.items) lists.now) i }
{
    match lists.get(i) {
        Some(list) => list.as_slice(),
        None => &[],
    }
}

/// The types of the arguments of a type.
pub fn arguments_of(alloc: Global, kind: &SimpleType) -> Result<Vec<SimpleType>, AllocError>
    ensures { IfOk result (λ kinds. tys kinds.items ≡ arguments (ty kind.now)) }
{
    let mut kinds = Vec::new(alloc);
    let mut here = kind;
    while let SimpleType::Arrow(first, rest) = here {
        kinds.push(first.copy(alloc)?)?;
        here = rest;
    }
    Ok(kinds)
}

// The types of the arguments that the marked symbol of the symbol has.
fn scope_of_mark(alloc: Global, system: &System, symbol: u32) -> Result<Vec<SimpleType>, AllocError>
    ensures { IfOk result (λ kinds. tys kinds.items ≡ marked_types (system_data system.now).symbols (system_data system.now).rules symbol) }
{
    let kind = kind_of_mark(alloc, system, symbol)?;
    arguments_of(alloc, &kind)
}

/// Reads anew what has other coefficients in the new lists than in the old ones.
pub fn change_guess<'a>(
    alloc: Global,
    task: &Task<'a>,
    guess: &mut Guess,
    old: &[Vec<u8>],
    new: &[Vec<u8>],
) -> Result<(), AllocError>
    requires guess { IsGuessOf task.now guess.old }
    requires lists { HaveCoefficients (task_data task.now) (map (λ l. l.items) old.now) (guess_data guess.old) }
    requires same { length old.now ≡ length new.now }
    ensures guess { IsGuessOf task.now guess.new }
    ensures marks { map (λ m. m.symbol) guess.new.marks.items ≡ map (λ m. m.symbol) guess.old.marks.items }
    ensures lists { OnOk result (HaveCoefficients (task_data task.now) (map (λ l. l.items) new.now) (guess_data guess.new)) }
{
    for (number, list) in new.iter().enumerate() {
        if !is_same(list, &old[number]) {
            change_at(alloc, task, guess, number, list)?;
        }
    }
    Ok(())
}

// Whether the lists are equal.
fn is_same(a: &[u8], b: &[u8]) -> bool
    ensures { OnTrue result (a.now ≡ b.now) }
{
    a == b
}

/// Reads anew what has the number: a symbol, or behind all symbols a marked one.
pub fn change_at<'a>(
    alloc: Global,
    task: &Task<'a>,
    guess: &mut Guess,
    number: usize,
    coefficients: &[u8],
) -> Result<(), AllocError>
    requires { IsGuessOf task.now guess.old }
    ensures guess { IsGuessOf task.now guess.new }
    ensures marks { map (λ m. m.symbol) guess.new.marks.items ≡ map (λ m. m.symbol) guess.old.marks.items }
    ensures lists { OnOk result (IsChangedGuess task.now number coefficients.now guess.old guess.new) }
{
    let count = guess.symbols.len();
    if number < count {
        change_symbol(alloc, &mut guess.symbols, number, coefficients)
    } else {
        change_mark(
            alloc,
            task.system,
            &mut guess.marks,
            number - count,
            coefficients,
        )
    }
}

/// Reads the symbol by other coefficients.
pub fn change_symbol(
    alloc: Global,
    symbols: &mut [Symbol],
    f: usize,
    coefficients: &[u8],
) -> Result<(), AllocError>
    requires { All IsReadSymbol symbols.old }
    ensures kinds { map (λ s. ty s.kind) symbols.new ≡ map (λ s. ty s.kind) symbols.old }
    ensures read { All IsReadSymbol symbols.new }
    ensures here { OnOk result ((s : Symbol) → slice_get symbols.new f ≡ Some s → IsReadBy coefficients.now s) }
    ensures others { (i : ℕ) → i ≢ f → slice_get symbols.new i ≡ slice_get symbols.old i }
{
    if f >= symbols.len() {
        return Ok(());
    }
    let scope = arguments_of(alloc, &symbols[f].kind)?;
    let poly = reading_of(alloc, &scope, coefficients)?;
    symbols[f].poly = poly;
    Ok(())
}

/// Reads the marked symbol by other coefficients.
pub fn change_mark(
    alloc: Global,
    system: &System,
    marks: &mut [MarkedSymbol],
    i: usize,
    coefficients: &[u8],
) -> Result<(), AllocError>
    requires { All (IsReadMark (system_data system.now).symbols (system_data system.now).rules) marks.old }
    ensures symbols { map (λ m. m.symbol) marks.new ≡ map (λ m. m.symbol) marks.old }
    ensures read { All (IsReadMark (system_data system.now).symbols (system_data system.now).rules) marks.new }
    ensures here { OnOk result ((m : MarkedSymbol) → slice_get marks.new i ≡ Some m
        → IsMarkBy (system_data system.now).symbols (system_data system.now).rules coefficients.now m) }
    ensures others { (j : ℕ) → j ≢ i → slice_get marks.new j ≡ slice_get marks.old j }
{
    if i >= marks.len() {
        return Ok(());
    }
    let scope = scope_of_mark(alloc, system, marks[i].symbol)?;
    let poly = reading_of(alloc, &scope, coefficients)?;
    marks[i].poly = poly;
    Ok(())
}

/// How many monomials the space of each symbol has, and then that of each of the marked symbols.
pub fn sizes_of<'a>(
    alloc: Global,
    task: &Task<'a>,
    marked: &[u32],
) -> Result<Vec<usize>, AllocError>
    ensures { IfOk result (λ sizes. sizes.items ≡ map (λ Γ. length (space_of Γ))
        (scopes_of (task_data task.now) marked.now)) }
{
    let mut sizes = sizes_of_symbols(alloc, task.system.signature().funs.as_slice())?;
    add_sizes_of_marks(alloc, task.system, marked, &mut sizes)?;
    Ok(sizes)
}

// How many monomials the space of each of these types has.
fn sizes_of_symbols(alloc: Global, kinds: &[SimpleType]) -> Result<Vec<usize>, AllocError>
    ensures { IfOk result (λ sizes. sizes.items ≡ map (λ kind. length (space_of (arguments (ty kind)))) kinds.now) }
{
    let mut sizes = Vec::new(alloc);
    for kind in kinds {
        let scope = arguments_of(alloc, kind)?;
        sizes.push(size_of(alloc, &scope)?)?;
    }
    Ok(sizes)
}

// The number of monomials that may be tried for each marked symbol joins the sizes.
fn add_sizes_of_marks(
    alloc: Global,
    system: &System,
    marked: &[u32],
    sizes: &mut Vec<usize>,
) -> Result<(), AllocError>
    ensures { OnOk result (sizes.new.items ≡ sizes.old.items ++ map
        (λ f. length (space_of (marked_types (system_data system.now).symbols (system_data system.now).rules f))) marked.now) }
{
    for symbol in marked {
        let scope = scope_of_mark(alloc, system, *symbol)?;
        sizes.push(size_of(alloc, &scope)?)?;
    }
    Ok(())
}

// How many monomials the space of the scope has.
fn size_of(alloc: Global, scope: &[SimpleType]) -> Result<usize, AllocError>
    ensures { IfOk result (λ size. size ≡ length (space_of (tys scope.now))) }
{
    Ok(spots_of(alloc, scope)?.len())
}
