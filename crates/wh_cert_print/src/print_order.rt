//! The text of the lines of a node of a path order. Each printer appends to a list of bytes. Where memory is wanting
//! the list may have got the first bytes of the text.

ghost use Rattle.std.specs.Prelude.{map, OnOk};
ghost use Rattle.wh_text.specs.Pushes.{Pushes};
ghost use Rattle.wh_order_inference.specs.Said.{inference};
ghost use Rattle.wh_cert.specs.Text.{put_filtering, put_filterings, put_shown, put_all_shown};
ghost use Rattle.wh_cert.specs.Said.{said_filter};

use std::alloc::AllocError;
use wh_cert::NamedFilter;
use wh_order_inference::Inference;
use wh_order_text::{print_filter, print_inference};
use wh_types::Bytes;

/// Appends the line of each filter, behind this word.
pub fn print_filters(out: &mut Bytes, word: &[u8], items: &[NamedFilter]) -> Result<(), AllocError>
    ensures { OnOk result (Pushes out.old out.new (put_filterings word.now (map said_filter items.now))) }
{
    for item in items {
        print_filtering(out, word, item)?;
    }
    Ok(())
}

/// Appends the line of a filter, behind this word.
fn print_filtering(out: &mut Bytes, word: &[u8], item: &NamedFilter) -> Result<(), AllocError>
    ensures { OnOk result (Pushes out.old out.new (put_filtering word.now (said_filter item.now))) }
{
    out.append(word)?;
    out.append(item.name.bytes())?;
    out.push(b' ')?;
    print_filter(out, &item.filter)?;
    out.push(b'\n')
}

/// Appends the line of each inference, behind this word.
pub fn print_inferences(out: &mut Bytes, word: &[u8], items: &[Inference]) -> Result<(), AllocError>
    ensures { OnOk result (Pushes out.old out.new (put_all_shown word.now (map inference items.now))) }
{
    for item in items {
        print_shown(out, word, item)?;
    }
    Ok(())
}

/// Appends the line of an inference, behind this word.
fn print_shown(out: &mut Bytes, word: &[u8], item: &Inference) -> Result<(), AllocError>
    ensures { OnOk result (Pushes out.old out.new (put_shown word.now (inference item.now))) }
{
    out.append(word)?;
    print_inference(out, item)?;
    out.push(b'\n')
}
