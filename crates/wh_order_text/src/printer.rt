//! The texts of inferences and filters. Each printer appends to a list of bytes. Where memory is wanting the list may
//! have got the first bytes of the text.

ghost use Rattle.std.specs.Prelude.{◌≡◌, ◌↔◌, IsTrue, OnOk};
ghost use Rattle.wh_text.specs.Pushes.{Pushes};
ghost use Rattle.wh_order_inference.specs.InferenceText.{alone, form, sign, put_place, put_list, put_inference};
ghost use Rattle.wh_order_inference.specs.FilterText.{put_filter, put_places};
ghost use Rattle.wh_order_inference.specs.Said as s;
ghost use Rattle.wh_order_inference.specs.Said.{inference, inferences, written_filter};
ghost use Rattle.wh_order_text.specs.SignedParts.{put_each};

use std::alloc::AllocError;
use wh_order_inference::{Filter, Inference, Inferences, Letter};
use wh_text::print_number;
use wh_types::Bytes;

/// The byte of a letter.
fn sign_of(letter: Letter) -> u8
    ensures { result ≡ sign (s.letter letter) }
{
    match letter {
        Letter::Same => b'=',
        Letter::Lam => b'l',
        Letter::Mono => b'm',
        Letter::Sub => b's',
        Letter::Prec => b'p',
        Letter::Lex => b'x',
        Letter::App => b'a',
        Letter::Bind => b'b',
        Letter::Var => b'v',
        Letter::Meta => b'z',
    }
}

/// Whether nothing stands behind the letter.
fn is_alone(letter: Letter) -> bool
    ensures { IsTrue result ↔ (form (s.letter letter) ≡ alone) }
{
    matches!(letter, Letter::Same | Letter::Var)
}

/// Appends the place of an inference, where one is written.
fn print_place(out: &mut Bytes, letter: Letter, place: u32) -> Result<(), AllocError>
    ensures { OnOk result (Pushes out.old out.new (put_place (form (s.letter letter)) place)) }
{
    match letter {
        Letter::Sub | Letter::Lex | Letter::Meta => print_number(out, place),
        _ => Ok(()),
    }
}

/// Appends an inference.
#[cycle(print_inference)]
pub fn print_inference(out: &mut Bytes, i: &Inference) -> Result<(), AllocError>
    ensures { OnOk result (Pushes out.old out.new (put_inference (inference i.now))) }
{
    out.push(sign_of(i.letter))?;
    print_place(out, i.letter, i.place)?;
    print_list(out, i.letter, &i.parts)
}

/// Appends the parts of an inference in parentheses, where they are written.
#[cycle(print_inference)]
fn print_list(out: &mut Bytes, letter: Letter, parts: &Inferences) -> Result<(), AllocError>
    ensures { OnOk result (Pushes out.old out.new (put_list (form (s.letter letter)) (inferences parts.now))) }
{
    if is_alone(letter) {
        return Ok(());
    }
    if parts.as_slice().is_empty() {
        return out.append(b"()");
    }
    print_each(out, parts)?;
    out.push(b')')
}

/// Appends parts, `(` before the first one and a comma before each other.
#[cycle(print_inference)]
fn print_each(out: &mut Bytes, parts: &Inferences) -> Result<(), AllocError>
    ensures { OnOk result (Pushes out.old out.new (put_each 40 (inferences parts.now))) }
{
    let mut sign = b'(';
    for part in parts.as_slice() {
        out.push(sign)?;
        print_inference(out, part)?;
        sign = b',';
    }
    Ok(())
}

/// Appends places, a space before each.
fn print_places(out: &mut Bytes, places: &[u32]) -> Result<(), AllocError>
    ensures { OnOk result (Pushes out.old out.new (put_places places.now)) }
{
    for place in places {
        out.push(b' ')?;
        print_number(out, *place)?;
    }
    Ok(())
}

/// Appends a filter.
pub fn print_filter(out: &mut Bytes, filter: &Filter) -> Result<(), AllocError>
    ensures { OnOk result (Pushes out.old out.new (put_filter (written_filter filter.now))) }
{
    match filter {
        Filter::Keep { prec, places } => {
            out.append(b"keep ")?;
            print_number(out, *prec)?;
            print_places(out, places.as_slice())
        }
        Filter::Pick { place } => {
            out.append(b"pick ")?;
            print_number(out, *place)
        }
    }
}
