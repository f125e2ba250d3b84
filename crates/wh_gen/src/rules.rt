//! The rules of a generated system, as a text has them: two for each function.

ghost use Rattle.std.specs.Prelude.{◌≡◌, ◌∷◌, [], ◌++◌, IfOk, OnOk, map};
ghost use Rattle.wh_text.specs.Erase.{rtm};
ghost use Rattle.wh_system_parts.specs.Erase.{rmeta, rrule};
ghost use Rattle.wh_gen.specs.Family.{map_name};
ghost use Rattle.wh_gen.specs.RawFamily.{raw_f, raw_x_meta, raw_y_meta, raw_mapped_head, raw_mapped_tail, raw_mapped_list, raw_first_left, raw_any_list, raw_second_left, raw_second_right, raw_first_rule, raw_second_rule, raw_rules};

use crate::declarations::{function_meta, plain_meta};
use crate::terms::{cons, image, map_name, map_of, plain};
use crate::types::{list, nat};
use std::alloc::{AllocError, Global};
use wh_system_parts::{RawMetas, RawRule, RawRules};
use wh_text::RawTerm;

// The meta-variable `F`.
fn first_metas(alloc: Global) -> Result<RawMetas, AllocError>
    ensures { IfOk result (λ raw. map rmeta raw ≡ raw_f ∷ []) }
{
    let mut metas = RawMetas::new(alloc);
    metas.push(function_meta(alloc)?)?;
    Ok(metas)
}

// The meta-variables `F`, `X` and `Y`.
fn second_metas(alloc: Global) -> Result<RawMetas, AllocError>
    ensures { IfOk result (λ raw. map rmeta raw ≡ raw_f ∷ raw_x_meta ∷ raw_y_meta ∷ []) }
{
    let mut metas = first_metas(alloc)?;
    metas.push(plain_meta(alloc, b"X", nat(alloc)?)?)?;
    metas.push(plain_meta(alloc, b"Y", list(alloc)?)?)?;
    Ok(metas)
}

// The left side with the empty list.
fn first_left(alloc: Global, number: u32) -> Result<RawTerm, AllocError>
    ensures { IfOk result (λ raw. rtm raw ≡ raw_first_left (map_name number)) }
{
    let name = map_name(alloc, number)?;
    map_of(alloc, name.bytes(), plain(alloc, b"nil")?)
}

// What a function does with the empty list.
fn first_rule(alloc: Global, number: u32) -> Result<RawRule, AllocError>
    ensures { IfOk result (λ raw. rrule raw ≡ raw_first_rule number) }
{
    let metas = first_metas(alloc)?;
    let left = first_left(alloc, number)?;
    Ok(RawRule {
        metas,
        left,
        right: plain(alloc, b"nil")?,
        at: 0,
    })
}

// `cons X Y`
fn any_list(alloc: Global) -> Result<RawTerm, AllocError>
    ensures { IfOk result (λ raw. rtm raw ≡ raw_any_list) }
{
    let head = plain(alloc, b"X")?;
    cons(alloc, head, plain(alloc, b"Y")?)
}

// The left side with any other list.
fn second_left(alloc: Global, number: u32) -> Result<RawTerm, AllocError>
    ensures { IfOk result (λ raw. rtm raw ≡ raw_second_left (map_name number)) }
{
    let name = map_name(alloc, number)?;
    map_of(alloc, name.bytes(), any_list(alloc)?)
}

// `F[X]`
fn mapped_head(alloc: Global) -> Result<RawTerm, AllocError>
    ensures { IfOk result (λ raw. rtm raw ≡ raw_mapped_head) }
{
    image(alloc, plain(alloc, b"X")?)
}

// What the function with that number gives of the tail.
fn mapped_tail(alloc: Global, number: u32) -> Result<RawTerm, AllocError>
    ensures { IfOk result (λ raw. rtm raw ≡ raw_mapped_tail (map_name number)) }
{
    let name = map_name(alloc, number)?;
    map_of(alloc, name.bytes(), plain(alloc, b"Y")?)
}

// The list that the function with that number gives where it goes on alone.
fn mapped_list(alloc: Global, number: u32) -> Result<RawTerm, AllocError>
    ensures { IfOk result (λ raw. rtm raw ≡ raw_mapped_list (map_name number)) }
{
    let tail = mapped_tail(alloc, number)?;
    let head = mapped_head(alloc)?;
    cons(alloc, head, tail)
}

// The right side of a function's second rule: for the first function its mapped list, and for a further one the call of
// the function before it on that list.
fn second_right(alloc: Global, number: u32) -> Result<RawTerm, AllocError>
    ensures { IfOk result (λ raw. rtm raw ≡ raw_second_right number) }
{
    if number == 0 {
        return mapped_list(alloc, number);
    }
    let before = map_name(alloc, number - 1)?;
    map_of(alloc, before.bytes(), mapped_list(alloc, number)?)
}

// What a function does with any other list.
fn second_rule(alloc: Global, number: u32) -> Result<RawRule, AllocError>
    ensures { IfOk result (λ raw. rrule raw ≡ raw_second_rule number) }
{
    let metas = second_metas(alloc)?;
    let left = second_left(alloc, number)?;
    Ok(RawRule {
        metas,
        left,
        right: second_right(alloc, number)?,
        at: 0,
    })
}

// The rules of the function with that number join at the end.
fn add_rules(alloc: Global, number: u32, rules: &mut RawRules) -> Result<(), AllocError>
    ensures { OnOk result (map rrule rules.new ≡ map rrule rules.old ++ raw_first_rule number ∷ raw_second_rule number ∷ []) }
{
    rules.push(first_rule(alloc, number)?)?;
    rules.push(second_rule(alloc, number)?)
}

/// The rules of `count` functions.
pub fn rules(alloc: Global, count: u32) -> Result<RawRules, AllocError>
    ensures { IfOk result (λ raw. map rrule raw ≡ raw_rules count) }
{
    let mut rules = RawRules::new(alloc);
    for number in 0..count {
        add_rules(alloc, number, &mut rules)?;
    }
    Ok(rules)
}
