//! The text of the lines of a node of interpretations. Each printer appends to a list of bytes. Where memory is wanting
//! the list may have got the first bytes of the text.

ghost use Rattle.std.specs.Prelude.{map, OnOk};
ghost use Rattle.wh_text.specs.Pushes.{Pushes};
ghost use Rattle.wh_cert.specs.Text.{put_interp, put_interps, put_move, put_moves, put_cover, put_covers};
ghost use Rattle.wh_cert.specs.Said.{said_interp};

use crate::poly_printer::{print_big, print_poly};
use std::alloc::AllocError;
use wh_cert::Interp;
use wh_hopoly::{Move, Moves};
use wh_text::print_number;
use wh_types::Bytes;

/// Appends the line of each interpretation, behind this word.
pub fn print_interps(out: &mut Bytes, word: &[u8], items: &[Interp]) -> Result<(), AllocError>
    ensures { OnOk result (Pushes out.old out.new (put_interps word.now (map said_interp items.now))) }
{
    for item in items {
        print_interp(out, word, item)?;
    }
    Ok(())
}

/// Appends the line of an interpretation, behind this word.
fn print_interp(out: &mut Bytes, word: &[u8], item: &Interp) -> Result<(), AllocError>
    ensures { OnOk result (Pushes out.old out.new (put_interp word.now (said_interp item.now))) }
{
    out.append(word)?;
    out.append(item.name.bytes())?;
    out.push(b' ')?;
    print_poly(out, &item.poly)?;
    out.push(b'\n')
}

/// Appends the line of each list of moves, behind this word.
pub fn print_covers(out: &mut Bytes, word: &[u8], items: &[Moves]) -> Result<(), AllocError>
    ensures { OnOk result (Pushes out.old out.new (put_covers word.now items.now)) }
{
    for item in items {
        print_cover(out, word, item.as_slice())?;
    }
    Ok(())
}

/// Appends the line of moves, behind this word.
fn print_cover(out: &mut Bytes, word: &[u8], items: &[Move]) -> Result<(), AllocError>
    ensures { OnOk result (Pushes out.old out.new (put_cover word.now items.now)) }
{
    out.append(word)?;
    print_moves(out, items)?;
    out.push(b'\n')
}

/// Appends moves, a space before each.
fn print_moves(out: &mut Bytes, items: &[Move]) -> Result<(), AllocError>
    ensures { OnOk result (Pushes out.old out.new (put_moves items.now)) }
{
    for item in items {
        print_move(out, item)?;
    }
    Ok(())
}

/// Appends a space and a move.
fn print_move(out: &mut Bytes, item: &Move) -> Result<(), AllocError>
    ensures { OnOk result (Pushes out.old out.new (put_move item.now)) }
{
    out.push(b' ')?;
    print_number(out, item.from)?;
    out.push(b'>')?;
    print_number(out, item.to)?;
    out.push(b':')?;
    print_big(out, item.amount)
}
