//! Guesses that bits write: made from all bits, or changed where the bits change.

ghost use Rattle.std.specs.Prelude.{◌≡◌, IfOk, OnOk};
ghost use Rattle.wh_poly_blocking.specs.Encodings.{IsEncoding, IsWritten};

use crate::bits::lists_by;
use crate::encoding::Encoding;
use std::alloc::{AllocError, Global};
use wh_poly_guesses::{Guess, change_guess, guess_by};

/// A guess, with the values of the bits that write it and the lists of its coefficients.
#[derive(Drop)]
pub struct WrittenGuess {
    pub values: Vec<bool>,
    pub lists: Vec<Vec<u8>>,
    pub guess: Guess,
}

/// The guess that bits with these values write.
pub fn write<'a>(
    alloc: Global,
    encoding: &Encoding<'a>,
    values: Vec<bool>,
) -> Result<WrittenGuess, AllocError>
    requires { IsEncoding encoding.now }
    ensures { IfOk result (IsWritten encoding.now) }
{
    let lists = lists_by(alloc, &values, &encoding.sizes)?;
    let guess = guess_by(alloc, &encoding.task, encoding.marked, &lists)?;
    Ok(WrittenGuess {
        values,
        lists,
        guess,
    })
}

/// Goes on to the guess that bits with these values write: only what changes is read anew.
pub fn rewrite<'a>(
    alloc: Global,
    encoding: &Encoding<'a>,
    written: &mut WrittenGuess,
    values: Vec<bool>,
) -> Result<(), AllocError>
    requires encoding { IsEncoding encoding.now }
    requires written { IsWritten encoding.now written.old }
    ensures written { OnOk result (IsWritten encoding.now written.new) }
    ensures values { OnOk result (written.new.values.items ≡ values.items) }
{
    let lists = lists_by(alloc, &values, &encoding.sizes)?;
    change_guess(
        alloc,
        &encoding.task,
        &mut written.guess,
        &written.lists,
        &lists,
    )?;
    written.lists = lists;
    written.values = values;
    Ok(())
}
