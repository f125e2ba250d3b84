//! The sorts, the symbols and the meta-variables of a generated system, as a text declares them.

ghost use Rattle.std.specs.Prelude.{◌≡◌, ◌∷◌, [], ◌++◌, IfOk, OnOk, map};
ghost use Rattle.std.specs.List.{range_with_len};
ghost use Rattle.wh_text.specs.Erase.{rty, rtys};
ghost use Rattle.wh_text.specs.RawTree.{no_types};
ghost use Rattle.wh_text.specs.Words.{IsWord};
ghost use Rattle.wh_system_parts.specs.Erase.{rname, rfun, rmeta};
ghost use Rattle.wh_system_making.specs.CanonicalParts.{raw_name};
ghost use Rattle.wh_gen.specs.Family.{sort_names};
ghost use Rattle.wh_gen.specs.RawFamily.{raw_fun, raw_meta, raw_f, raw_base, raw_map_fun};

use crate::terms::map_name;
use crate::types::{list, nat, onto_lists, step};
use std::alloc::{AllocError, Global};
use wh_system_parts::{RawFun, RawFuns, RawMeta, RawName, RawNames};
use wh_text::{Name, RawType, RawTypes};

// A declared name.
fn declared(alloc: Global, name: &[u8]) -> Result<RawName, AllocError>
    requires { IsWord name.now }
    ensures { IfOk result (λ raw. rname raw ≡ raw_name name.now) }
{
    Ok(RawName {
        name: Name::new(alloc, name)?,
        at: 0,
    })
}

/// The sorts of a generated system.
pub fn sorts(alloc: Global) -> Result<RawNames, AllocError>
    ensures { IfOk result (λ raw. map rname raw ≡ map raw_name sort_names) }
{
    let mut sorts = RawNames::new(alloc);
    sorts.push(declared(alloc, b"nat")?)?;
    sorts.push(declared(alloc, b"list")?)?;
    Ok(sorts)
}

// The symbol of that name and type joins at the end.
fn add_fun(alloc: Global, name: &[u8], kind: RawType, funs: &mut RawFuns) -> Result<(), AllocError>
    requires { IsWord name.now }
    ensures { OnOk result (map rfun funs.new ≡ map rfun funs.old ++ raw_fun name.now (rty kind) ∷ []) }
{
    let name = declared(alloc, name)?;
    funs.push(RawFun { name, kind })
}

// The symbols on which the functions stand.
fn base(alloc: Global) -> Result<RawFuns, AllocError>
    ensures { IfOk result (λ raw. map rfun raw ≡ raw_base) }
{
    let mut funs = RawFuns::new(alloc);
    add_fun(alloc, b"zero", nat(alloc)?, &mut funs)?;
    add_fun(alloc, b"s", step(alloc)?, &mut funs)?;
    add_fun(alloc, b"nil", list(alloc)?, &mut funs)?;
    let kind = onto_lists(alloc, nat(alloc)?)?;
    add_fun(alloc, b"cons", kind, &mut funs)?;
    Ok(funs)
}

// The function with that number joins at the end.
fn add_map(alloc: Global, number: u32, funs: &mut RawFuns) -> Result<(), AllocError>
    ensures { OnOk result (map rfun funs.new ≡ map rfun funs.old ++ raw_map_fun number ∷ []) }
{
    let name = map_name(alloc, number)?;
    let kind = onto_lists(alloc, step(alloc)?)?;
    add_fun(alloc, name.bytes(), kind, funs)
}

/// The symbols of a generated system with `count` functions.
pub fn funs(alloc: Global, count: u32) -> Result<RawFuns, AllocError>
    ensures { IfOk result (λ raw. map rfun raw ≡ raw_base ++ map raw_map_fun (range_with_len 0 count)) }
{
    let mut funs = base(alloc)?;
    for number in 0..count {
        add_map(alloc, number, &mut funs)?;
    }
    Ok(funs)
}

/// The meta-variable `F : [nat] nat`.
pub fn function_meta(alloc: Global) -> Result<RawMeta, AllocError>
    ensures { IfOk result (λ raw. rmeta raw ≡ raw_f) }
{
    let mut args = RawTypes::new(alloc);
    args.push(nat(alloc)?)?;
    let name = declared(alloc, b"F")?;
    Ok(RawMeta {
        name,
        args,
        result: nat(alloc)?,
    })
}

/// The meta-variable of that name and type, without arguments.
pub fn plain_meta(alloc: Global, name: &[u8], kind: RawType) -> Result<RawMeta, AllocError>
    requires { IsWord name.now }
    ensures { IfOk result (λ raw. rmeta raw ≡ raw_meta name.now no_types (rty kind)) }
{
    let name = declared(alloc, name)?;
    Ok(RawMeta {
        name,
        args: RawTypes::new(alloc),
        result: kind,
    })
}
