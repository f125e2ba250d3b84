//! Printing the lines of sorts and symbols, and the braces of a rule.

ghost use Rattle.std.specs.Prelude.{◌≡◌, ◌<◌, OnOk, All, length, drop};
ghost use Rattle.wh_types.specs.Ty.{SortsBelow};
ghost use Rattle.wh_types.specs.Erase.{ty, tys};
ghost use Rattle.wh_terms.specs.Erase.{declared_meta, declared_metas};
ghost use Rattle.wh_text.specs.Pushes.{Pushes};
ghost use Rattle.wh_system_print.specs.SystemText.{put_brackets, put_fun, put_funs, put_further, put_further_metas, put_meta, put_metas, put_sort, put_sorts};
ghost use Rattle.wh_system_print.specs.Sorted.{IsSorted};

use crate::types::print_type;
use std::alloc::AllocError;
use wh_terms::MetaDecl;
use wh_text::Name;
use wh_types::{Bytes, SimpleType};

/// The lines of the sorts.
pub fn print_sorts(out: &mut Bytes, names: &[Name]) -> Result<(), AllocError>
    ensures { OnOk result (Pushes out.old out.new (put_sorts names.now)) }
{
    for name in names {
        print_sort(out, name)?;
    }
    Ok(())
}

// `sort NAME;`
fn print_sort(out: &mut Bytes, name: &Name) -> Result<(), AllocError>
    ensures { OnOk result (Pushes out.old out.new (put_sort name.now)) }
{
    out.append(b"sort ")?;
    out.append(name.bytes())?;
    out.append(b";\n")
}

/// The lines of the symbols.
pub fn print_funs(
    out: &mut Bytes,
    sorts: &[Name],
    names: &[Name],
    kinds: &[SimpleType],
) -> Result<(), AllocError>
    requires each { length names.now ≡ length kinds.now }
    requires sorted { All (SortsBelow (length sorts.now)) (tys kinds.now) }
    ensures { OnOk result (Pushes out.old out.new (put_funs sorts.now names.now (tys kinds.now))) }
{
    for k in 0..names.len() {
        print_fun(out, sorts, &names[k], &kinds[k])?;
    }
    Ok(())
}

// `fun NAME:TYPE;`
fn print_fun(
    out: &mut Bytes,
    sorts: &[Name],
    name: &Name,
    kind: &SimpleType,
) -> Result<(), AllocError>
    requires { SortsBelow (length sorts.now) (ty kind.now) }
    ensures { OnOk result (Pushes out.old out.new (put_fun sorts.now name.now (ty kind.now))) }
{
    out.append(b"fun ")?;
    out.append(name.bytes())?;
    out.append(b":")?;
    print_type(out, sorts, kind)?;
    out.append(b";\n")
}

/// The meta-variables of a rule, parted by commas.
pub fn print_metas(
    out: &mut Bytes,
    sorts: &[Name],
    names: &[Name],
    metas: &[MetaDecl],
) -> Result<(), AllocError>
    requires each { length names.now ≡ length metas.now }
    requires sorted { All (IsSorted (length sorts.now)) (declared_metas metas.now) }
    ensures { OnOk result (Pushes out.old out.new (put_metas sorts.now names.now (declared_metas metas.now))) }
{
    if names.is_empty() {
        return Ok(());
    }
    print_meta(out, sorts, &names[0], &metas[0])?;
    print_further_metas(out, sorts, names, metas)
}

// The meta-variables but the first, each behind a comma.
fn print_further_metas(
    out: &mut Bytes,
    sorts: &[Name],
    names: &[Name],
    metas: &[MetaDecl],
) -> Result<(), AllocError>
    requires each { length names.now ≡ length metas.now }
    requires sorted { All (IsSorted (length sorts.now)) (declared_metas metas.now) }
    ensures { OnOk result (Pushes out.old out.new (put_further_metas sorts.now (drop 1 names.now) (drop 1 (declared_metas metas.now)))) }
{
    for k in 1..names.len() {
        out.append(b",")?;
        print_meta(out, sorts, &names[k], &metas[k])?;
    }
    Ok(())
}

// `F:[A,B]C`, or `F:C` without arguments.
fn print_meta(
    out: &mut Bytes,
    sorts: &[Name],
    name: &Name,
    meta: &MetaDecl,
) -> Result<(), AllocError>
    requires { IsSorted (length sorts.now) (declared_meta meta.now) }
    ensures { OnOk result (Pushes out.old out.new (put_meta sorts.now name.now (declared_meta meta.now))) }
{
    out.append(name.bytes())?;
    out.append(b":")?;
    print_brackets(out, sorts, meta.args.as_slice())?;
    print_type(out, sorts, &meta.result)
}

// The types of the arguments of a meta-variable in brackets, if there are any.
fn print_brackets(out: &mut Bytes, sorts: &[Name], args: &[SimpleType]) -> Result<(), AllocError>
    requires { All (SortsBelow (length sorts.now)) (tys args.now) }
    ensures { OnOk result (Pushes out.old out.new (put_brackets sorts.now (tys args.now))) }
{
    let Some((first, further)) = args.split_first() else {
        return Ok(());
    };
    out.append(b"[")?;
    print_type(out, sorts, first)?;
    print_further(out, sorts, further)?;
    out.append(b"]")
}

// Further types, each behind a comma.
fn print_further(out: &mut Bytes, sorts: &[Name], kinds: &[SimpleType]) -> Result<(), AllocError>
    requires { All (SortsBelow (length sorts.now)) (tys kinds.now) }
    ensures { OnOk result (Pushes out.old out.new (put_further sorts.now (tys kinds.now))) }
{
    for kind in kinds {
        out.append(b",")?;
        print_type(out, sorts, kind)?;
    }
    Ok(())
}
