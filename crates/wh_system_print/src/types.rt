//! Printing types, in one walk over each tree: a loop along its result, and a recursion into its arguments.

ghost use Rattle.std.specs.Prelude.{OnOk, length};
ghost use Rattle.wh_types.specs.Ty.{SortsBelow};
ghost use Rattle.wh_types.specs.Erase.{ty};
ghost use Rattle.wh_text.specs.Pushes.{Pushes};
ghost use Rattle.wh_text.specs.Spelling.{put_part, put_type};
ghost use Rattle.wh_system.specs.Canonical.{raw_type_of};

use std::alloc::AllocError;
use wh_text::Name;
use wh_types::{Bytes, SimpleType};

/// Appends a type: each of its arguments with an arrow behind it, then its sort.
#[cycle(print_type)]
pub fn print_type(out: &mut Bytes, sorts: &[Name], kind: &SimpleType) -> Result<(), AllocError>
    requires { SortsBelow (length sorts.now) (ty kind.now) }
    ensures { OnOk result (Pushes out.old out.new (put_type (raw_type_of sorts.now (ty kind.now)))) }
{
    let mut here = kind;
    loop {
        match here {
            SimpleType::Sort(sort) => return out.append(sorts[*sort as usize].bytes()),
            SimpleType::Arrow(argument, rest) => {
                print_part(out, sorts, argument)?;
                out.append(b"->")?;
                here = rest;
            }
        }
    }
}

/// Appends a type as a part of something else, a functional one in parentheses.
#[cycle(print_type)]
pub fn print_part(out: &mut Bytes, sorts: &[Name], kind: &SimpleType) -> Result<(), AllocError>
    requires { SortsBelow (length sorts.now) (ty kind.now) }
    ensures { OnOk result (Pushes out.old out.new (put_part (raw_type_of sorts.now (ty kind.now)))) }
{
    match kind {
        SimpleType::Sort(_) => print_type(out, sorts, kind),
        SimpleType::Arrow(_, _) => {
            out.push(b'(')?;
            print_type(out, sorts, kind)?;
            out.push(b')')
        }
    }
}
