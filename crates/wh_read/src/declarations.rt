//! Reading declarations: the places of a sort, a symbol and a rule up to where their types and sides begin.

ghost use Rattle.std.specs.Prelude.{◌≡◌, IfOk};
ghost use Rattle.wh_system_parts.specs.Parts.{RParts};
ghost use Rattle.wh_system_parts.specs.Erase.{rparts, rname};
ghost use Rattle.wh_read.specs.Held as held;
ghost use Rattle.wh_read.specs.Reader as r;

use crate::lexeme::Lexeme;
use crate::place::{OpenMeta, OpenMetas, OpenRule, Place, Purpose, Step};
use crate::types::{at_atype, new_type, want_type};
use std::alloc::{AllocError, Global};
use wh_system_parts::{Parts, RawMetas, RawName};
use wh_text::RawTypes;

/// A declaration begins.
pub fn begin(parts: &Parts, letter: Lexeme, at: u32) -> Step
    ensures { held.state (rparts parts.now) result ≡ r.begin (rparts parts.now) (held.letter letter) at }
{
    let no_rules = parts.rules.as_slice().is_empty();
    let no_funs = parts.funs.as_slice().is_empty();
    match letter {
        Lexeme::Sort if no_funs && no_rules => Step::To(Place::BehindSort),
        Lexeme::Fun if no_rules => Step::To(Place::BehindFun),
        Lexeme::Rule => Step::To(Place::BehindRule(at)),
        _ => Step::Failed,
    }
}

/// The name of a sort.
pub fn sort_name(letter: Lexeme, at: u32) -> Step
    ensures { (parts : RParts) → held.state parts result ≡ r.expect_name parts r.sort_named (held.letter letter) at }
{
    match letter {
        Lexeme::Name(name) => Step::To(Place::SortNamed(RawName { name, at })),
        _ => Step::Failed,
    }
}

/// The end of a sort.
pub fn sort_end(parts: &mut Parts, name: RawName, letter: Lexeme) -> Result<Step, AllocError>
    ensures { IfOk result (λ step. held.state (rparts parts.new) step ≡ r.sort_ends (rparts parts.old) (rname name) (held.letter letter)) }
{
    match letter {
        Lexeme::Semicolon => {
            parts.sorts.push(name)?;
            Ok(Step::To(Place::Between))
        }
        _ => Ok(Step::Failed),
    }
}

/// The name of a symbol.
pub fn fun_name(letter: Lexeme, at: u32) -> Step
    ensures { (parts : RParts) → held.state parts result ≡ r.expect_name parts r.fun_named (held.letter letter) at }
{
    match letter {
        Lexeme::Name(name) => Step::To(Place::FunNamed(RawName { name, at })),
        _ => Step::Failed,
    }
}

/// The colon behind the name of a symbol.
pub fn fun_colon(alloc: Global, name: RawName, letter: Lexeme) -> Result<Step, AllocError>
    ensures { IfOk result (λ step. (parts : RParts) → held.state parts step
        ≡ r.expect_colon parts (r.want_atype (r.of_fun (rname name)) r.new_type) (held.letter letter)) }
{
    match letter {
        Lexeme::Colon => want_type(alloc, Purpose::OfFun(name)),
        _ => Ok(Step::Failed),
    }
}

/// The open brace of a rule.
pub fn rule_open(alloc: Global, rule_at: u32, letter: Lexeme) -> Result<Step, AllocError>
    ensures { IfOk result (λ step. (parts : RParts) → held.state parts step ≡ r.move parts (r.behind_rule rule_at) (held.letter letter) 0) }
{
    match letter {
        Lexeme::OpenBrace => Ok(Step::To(Place::WantMeta(OpenMetas {
            metas: RawMetas::new(alloc),
            at: rule_at,
        }))),
        _ => Ok(Step::Failed),
    }
}

/// The place where the left side of the rule begins.
pub fn left_of(alloc: Global, metas: OpenMetas) -> Result<Place, AllocError>
    ensures { IfOk result (λ place. held.place place ≡ r.left_of (held.metas metas)) }
{
    let rule = OpenRule {
        metas: metas.metas,
        at: metas.at,
        left: None,
        frames: Vec::new(alloc),
        before: None,
    };
    Ok(Place::WantAtom(Box::new(alloc, rule)?))
}

/// A meta-variable, or the end of none at all.
pub fn at_meta(alloc: Global, metas: OpenMetas, letter: Lexeme, at: u32) -> Result<Step, AllocError>
    ensures { IfOk result (λ step. (parts : RParts) → held.state parts step
        ≡ r.move parts (r.want_meta (held.metas metas)) (held.letter letter) at) }
{
    let none = metas.metas.as_slice().is_empty();
    match letter {
        Lexeme::Name(name) => Ok(Step::To(Place::MetaNamed(OpenMeta {
            rule: metas,
            name: RawName { name, at },
        }))),
        Lexeme::CloseBrace if none => Ok(Step::To(left_of(alloc, metas)?)),
        _ => Ok(Step::Failed),
    }
}

/// The colon behind the name of a meta-variable.
pub fn meta_colon(meta: OpenMeta, letter: Lexeme) -> Step
    ensures { (parts : RParts) → held.state parts result ≡ r.expect_colon parts (r.meta_colon (held.meta meta)) (held.letter letter) }
{
    match letter {
        Lexeme::Colon => Step::To(Place::MetaColon(meta)),
        _ => Step::Failed,
    }
}

/// The brackets of a meta-variable, or the type of one that has none.
pub fn behind_colon(
    alloc: Global,
    meta: OpenMeta,
    letter: Lexeme,
    at: u32,
) -> Result<Step, AllocError>
    ensures { IfOk result (λ step. (parts : RParts) → held.state parts step
        ≡ r.behind_colon parts (held.meta meta) (held.letter letter) at) }
{
    let args = RawTypes::new(alloc);
    match letter {
        Lexeme::OpenBracket => want_type(alloc, Purpose::InBrackets(meta, args)),
        letter => {
            let started = new_type(alloc)?;
            let purpose = Box::new(alloc, Purpose::OfMeta(meta, args))?;
            at_atype(alloc, purpose, started, letter, at)
        }
    }
}
