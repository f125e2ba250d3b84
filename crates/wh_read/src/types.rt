//! Reading types: a part of a type is a sort's name or has parentheses, arrows join the parts, and one list of
//! arguments so far is kept for each open parenthesis.

ghost use Rattle.std.specs.Prelude.{◌≡◌, [], IfOk};
ghost use Rattle.wh_text.specs.Erase.{rty, rtys};
ghost use Rattle.wh_system_parts.specs.Parts.{RParts};
ghost use Rattle.wh_system_parts.specs.Erase.{rparts, rname};
ghost use Rattle.wh_read.specs.Lexemes.{a_name, open_paren};
ghost use Rattle.wh_read.specs.Held as held;
ghost use Rattle.wh_read.specs.Reader as r;

use crate::declarations::left_of;
use crate::lexeme::Lexeme;
use crate::place::{OpenMeta, OpenMetas, OpenType, Place, Purpose, Step};
use crate::terms::behind_atom;
use std::alloc::{AllocError, Global};
use wh_system_parts::{Parts, RawFun, RawMeta, RawName};
use wh_text::{Name, RawTerm, RawType, RawTypes};

/// How deep the parentheses of a type may nest.
const DEEPEST_TYPE: usize = 16;

/// A type of which nothing was read.
pub fn new_type(alloc: Global) -> Result<OpenType, AllocError>
    ensures { IfOk result (λ started. held.open_type started ≡ r.new_type) }
{
    Ok(OpenType {
        args: RawTypes::new(alloc),
        outer: Vec::new(alloc),
    })
}

/// A type begins, which is read for this purpose.
pub fn want_type(alloc: Global, purpose: Purpose) -> Result<Step, AllocError>
    ensures { IfOk result (λ step. (parts : RParts) → held.state parts step
        ≡ r.inside parts (r.want_atype (held.purpose_of purpose) r.new_type)) }
{
    let started = new_type(alloc)?;
    let purpose = Box::new(alloc, purpose)?;
    Ok(Step::To(Place::WantAtype(purpose, started)))
}

/// The type with these arguments before its own.
fn with_arguments(mut args: RawTypes, own: RawType) -> Result<RawType, AllocError>
    ensures { IfOk result (λ whole. rty whole ≡ r.with_arguments (rtys args) (rty own)) }
{
    args.extend(own.args)?;
    Ok(RawType {
        args,
        sort: own.sort,
        at: own.at,
    })
}

/// A part of a type was read, with no parenthesis around it.
fn had_outer(
    alloc: Global,
    purpose: Box<Purpose>,
    started: OpenType,
    part: RawType,
) -> Result<Step, AllocError>
    ensures { IfOk result (λ step. (parts : RParts) → held.state parts step
        ≡ r.had_outer parts (held.purpose purpose) (held.open_type started) (rty part)) }
{
    match Box::into_inner(purpose) {
        Purpose::OfBinder(rule, x, at) => {
            let kind = Box::new(alloc, part)?;
            Ok(Step::To(Place::BinderTyped(rule, x, kind, at)))
        }
        Purpose::OfVariable(rule, n, at) => {
            let kind = Box::new(alloc, part)?;
            let behind = behind_atom(alloc, rule, RawTerm::Free(n, kind, at))?;
            Ok(Step::To(Place::WantAtom(behind)))
        }
        other => {
            let purpose = Box::new(alloc, other)?;
            let part = Box::new(alloc, part)?;
            Ok(Step::To(Place::BehindAtype(purpose, started, part)))
        }
    }
}

/// A part of a type was read.
fn had_atype(
    alloc: Global,
    purpose: Box<Purpose>,
    started: OpenType,
    part: RawType,
) -> Result<Step, AllocError>
    ensures { IfOk result (λ step. (parts : RParts) → held.state parts step
        ≡ r.had_atype parts (held.purpose purpose) (held.open_type started).args (held.open_type started).outer (rty part)) }
{
    if started.outer.is_empty() {
        had_outer(alloc, purpose, started, part)
    } else {
        let part = Box::new(alloc, part)?;
        Ok(Step::To(Place::BehindAtype(purpose, started, part)))
    }
}

/// The type that begins in a parenthesis of the other.
#[tactic(auto, using(crate::proofs::HeldLaws::outer_push))]
fn inner_type(alloc: Global, started: OpenType) -> Result<OpenType, AllocError>
    ensures { IfOk result (λ inner. held.open_type inner ≡ r.inner_type (held.open_type started)) }
{
    let OpenType { args, mut outer } = started;
    outer.push(args)?;
    Ok(OpenType {
        args: RawTypes::new(alloc),
        outer,
    })
}

/// A parenthesis opens in a type.
fn paren_in_type(
    alloc: Global,
    purpose: Box<Purpose>,
    started: OpenType,
) -> Result<Step, AllocError>
    ensures { IfOk result (λ step. (parts : RParts) → held.state parts step
        ≡ r.at_atype parts (held.purpose purpose) (held.open_type started) open_paren 0) }
{
    if started.outer.len() >= DEEPEST_TYPE {
        return Ok(Step::TooMany);
    }
    let inner = inner_type(alloc, started)?;
    Ok(Step::To(Place::WantAtype(purpose, inner)))
}

/// The name of a sort in a type.
fn sort_in_type(
    alloc: Global,
    purpose: Box<Purpose>,
    started: OpenType,
    sort: Name,
    at: u32,
) -> Result<Step, AllocError>
    ensures { IfOk result (λ step. (parts : RParts) → held.state parts step
        ≡ r.at_atype parts (held.purpose purpose) (held.open_type started) (a_name sort) at) }
{
    let args = RawTypes::new(alloc);
    had_atype(alloc, purpose, started, RawType { args, sort, at })
}

/// A letter where a part of a type begins.
pub fn at_atype(
    alloc: Global,
    purpose: Box<Purpose>,
    started: OpenType,
    letter: Lexeme,
    at: u32,
) -> Result<Step, AllocError>
    ensures { IfOk result (λ step. (parts : RParts) → held.state parts step
        ≡ r.at_atype parts (held.purpose purpose) (held.open_type started) (held.letter letter) at) }
{
    match letter {
        Lexeme::Name(sort) => sort_in_type(alloc, purpose, started, sort, at),
        Lexeme::OpenParen => paren_in_type(alloc, purpose, started),
        _ => Ok(Step::Failed),
    }
}

/// A meta-variable was read.
fn add_meta(meta: OpenMeta, args: RawTypes, out: RawType) -> Result<OpenMetas, AllocError>
    ensures { IfOk result (λ metas. held.metas metas ≡ r.add_meta (held.meta meta) (rtys args) (rty out)) }
{
    let mut rule = meta.rule;
    rule.metas.push(RawMeta {
        name: meta.name,
        args,
        result: out,
    })?;
    Ok(rule)
}

/// The type of a symbol has ended.
fn fun_end(
    parts: &mut Parts,
    name: RawName,
    kind: RawType,
    letter: Lexeme,
) -> Result<Step, AllocError>
    ensures { IfOk result (λ step. held.state (rparts parts.new) step
        ≡ r.whole_type_ended (rparts parts.old) (r.of_fun (rname name)) (rty kind) (held.letter letter)) }
{
    match letter {
        Lexeme::Semicolon => {
            parts.funs.push(RawFun { name, kind })?;
            Ok(Step::To(Place::Between))
        }
        _ => Ok(Step::Failed),
    }
}

/// A type in the brackets of a meta-variable has ended.
#[tactic(auto, using(crate::proofs::HeldLaws::types_grow))]
fn bracket_type_ended(
    alloc: Global,
    meta: OpenMeta,
    mut args: RawTypes,
    whole: RawType,
    letter: Lexeme,
) -> Result<Step, AllocError>
    ensures { IfOk result (λ step. (parts : RParts) → held.state parts step
        ≡ r.whole_type_ended parts (r.in_brackets (held.meta meta) (rtys args)) (rty whole) (held.letter letter)) }
{
    args.push(whole)?;
    match letter {
        Lexeme::Comma => want_type(alloc, Purpose::InBrackets(meta, args)),
        Lexeme::CloseBracket => want_type(alloc, Purpose::OfMeta(meta, args)),
        _ => Ok(Step::Failed),
    }
}

/// The type behind the brackets of a meta-variable has ended.
fn meta_type_ended(
    alloc: Global,
    meta: OpenMeta,
    args: RawTypes,
    whole: RawType,
    letter: Lexeme,
) -> Result<Step, AllocError>
    ensures { IfOk result (λ step. (parts : RParts) → held.state parts step
        ≡ r.whole_type_ended parts (r.of_meta (held.meta meta) (rtys args)) (rty whole) (held.letter letter)) }
{
    let metas = add_meta(meta, args, whole)?;
    match letter {
        Lexeme::Comma => Ok(Step::To(Place::WantMeta(metas))),
        Lexeme::CloseBrace => Ok(Step::To(left_of(alloc, metas)?)),
        _ => Ok(Step::Failed),
    }
}

/// A type in no parentheses has ended.
fn whole_type_ended(
    alloc: Global,
    parts: &mut Parts,
    purpose: Box<Purpose>,
    whole: RawType,
    letter: Lexeme,
) -> Result<Step, AllocError>
    ensures { IfOk result (λ step. held.state (rparts parts.new) step
        ≡ r.whole_type_ended (rparts parts.old) (held.purpose purpose) (rty whole) (held.letter letter)) }
{
    match Box::into_inner(purpose) {
        Purpose::OfFun(name) => fun_end(parts, name, whole, letter),
        Purpose::InBrackets(meta, args) => bracket_type_ended(alloc, meta, args, whole, letter),
        Purpose::OfMeta(meta, args) => meta_type_ended(alloc, meta, args, whole, letter),
        Purpose::OfBinder(_, _, _) | Purpose::OfVariable(_, _, _) => Ok(Step::Failed),
    }
}

/// A type has ended; with a parenthesis around it, it is a part of the type around that.
#[tactic(auto, using(crate::proofs::HeldLaws::outer_push))]
fn type_ended(
    alloc: Global,
    parts: &mut Parts,
    purpose: Box<Purpose>,
    mut outer: Vec<RawTypes>,
    whole: RawType,
    letter: Lexeme,
) -> Result<Step, AllocError>
    ensures { IfOk result (λ step. held.state (rparts parts.new) step
        ≡ r.type_ended (rparts parts.old) (held.purpose purpose) (held.types_in [] outer.items) (rty whole) (held.letter letter)) }
{
    let Some(args) = outer.pop() else {
        return whole_type_ended(alloc, parts, purpose, whole, letter);
    };
    match letter {
        Lexeme::CloseParen => had_atype(alloc, purpose, OpenType { args, outer }, whole),
        _ => Ok(Step::Failed),
    }
}

/// A letter behind a part of a type: an arrow, or the end of the type.
#[tactic(auto, using(crate::proofs::HeldLaws::types_grow))]
pub fn behind_type(
    alloc: Global,
    parts: &mut Parts,
    purpose: Box<Purpose>,
    started: OpenType,
    part: Box<RawType>,
    letter: Lexeme,
) -> Result<Step, AllocError>
    ensures { IfOk result (λ step. held.state (rparts parts.new) step
        ≡ r.behind_type (rparts parts.old) (held.purpose purpose) (held.open_type started) (rty part.value) (held.letter letter)) }
{
    let OpenType { mut args, outer } = started;
    let part = Box::into_inner(part);
    match letter {
        Lexeme::ThinArrow => {
            args.push(part)?;
            Ok(Step::To(Place::WantAtype(purpose, OpenType { args, outer })))
        }
        letter => type_ended(
            alloc,
            parts,
            purpose,
            outer,
            with_arguments(args, part)?,
            letter,
        ),
    }
}
