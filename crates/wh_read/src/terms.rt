//! Reading terms. The atoms of a spine are joined as they come, and a frame is kept for each open level.

ghost use Rattle.std.specs.Prelude.{◌≡◌, None, Some, option_map, IfOk};
ghost use Rattle.wh_text.specs.Erase.{rty, rtm, rtms, rbinder};
ghost use Rattle.wh_system_parts.specs.Parts.{RParts};
ghost use Rattle.wh_system_parts.specs.Erase.{rparts};
ghost use Rattle.wh_text.specs.RawTree.{spine, more, none};
ghost use Rattle.wh_read.specs.declared.place.Place.TheVariants.{WantAtom};
ghost use Rattle.wh_read.specs.Lexemes.{semicolon};
ghost use Rattle.wh_read.specs.Held as held;
ghost use Rattle.wh_read.specs.Reader as r;

use crate::lexeme::Lexeme;
use crate::place::{Frame, OpenRule, Place, Purpose, Step};
use crate::types::want_type;
use std::alloc::{AllocError, Global};
use wh_system_parts::{Parts, RawName, RawRule};
use wh_text::{RawBinder, RawTerm, RawTerms, RawType, opens_in_system};

/// The spine with one more argument.
fn longer(
    head: Box<RawTerm>,
    mut args: RawTerms,
    atom: RawTerm,
    at: u32,
) -> Result<RawTerm, AllocError>
    ensures { IfOk result (λ term. rtm term ≡ spine (rtm head.value) (r.add_term (rtms args) (rtm atom)) at) }
{
    args.push(atom)?;
    Ok(RawTerm::Spine(head, args, at))
}

/// The head, which is no spine and stands at the place, with one argument.
fn spine_of(alloc: Global, head: RawTerm, atom: RawTerm, at: u32) -> Result<RawTerm, AllocError>
    ensures { IfOk result (λ term. rtm term ≡ spine (rtm head) (more (rtm atom) none) at) }
{
    longer(Box::new(alloc, head)?, RawTerms::new(alloc), atom, at)
}

/// The term so far, with one more atom.
#[tactic(auto, using(crate::proofs::HeldLaws::applied_spine))]
fn applied_to(alloc: Global, term: RawTerm, atom: RawTerm) -> Result<RawTerm, AllocError>
    ensures { IfOk result (λ whole. rtm whole ≡ r.applied (Some (rtm term)) (rtm atom)) }
{
    match term {
        RawTerm::Named(name, at) => spine_of(alloc, RawTerm::Named(name, at), atom, at),
        RawTerm::Numbered(n, at) => spine_of(alloc, RawTerm::Numbered(n, at), atom, at),
        RawTerm::Free(n, a, at) => spine_of(alloc, RawTerm::Free(n, a, at), atom, at),
        RawTerm::Meta(name, args, at) => spine_of(alloc, RawTerm::Meta(name, args, at), atom, at),
        RawTerm::Lam(x, a, body, at) => spine_of(alloc, RawTerm::Lam(x, a, body, at), atom, at),
        RawTerm::Spine(head, args, at) => longer(head, args, atom, at),
    }
}

/// The spine so far, with one more atom.
fn applied(alloc: Global, before: Option<RawTerm>, atom: RawTerm) -> Result<RawTerm, AllocError>
    ensures { IfOk result (λ term. rtm term ≡ r.applied (option_map rtm before) (rtm atom)) }
{
    match before {
        None => Ok(atom),
        Some(term) => applied_to(alloc, term, atom),
    }
}

/// The rule behind an atom, where this spine stands before it.
fn behind_spine(
    alloc: Global,
    mut rule: Box<OpenRule>,
    before: Option<RawTerm>,
    atom: RawTerm,
) -> Result<Box<OpenRule>, AllocError>
    ensures { IfOk result (λ next. held.place (WantAtom next) ≡ r.want_atom (held.rule rule) (r.next (option_map rtm before) (rtm atom))) }
{
    rule.before = Some(applied(alloc, before, atom)?);
    Ok(rule)
}

/// The rule behind one more atom of its spine.
pub fn behind_atom(
    alloc: Global,
    mut rule: Box<OpenRule>,
    atom: RawTerm,
) -> Result<Box<OpenRule>, AllocError>
    ensures { IfOk result (λ next. held.place (WantAtom next) ≡ r.want_atom (held.rule rule) (r.next (held.spine_of rule) (rtm atom))) }
{
    let before = rule.before.take();
    behind_spine(alloc, rule, before, atom)
}

/// A term begins in one more frame.
#[tactic(auto, using(crate::proofs::HeldLaws::frames_push))]
fn begin_in(mut rule: Box<OpenRule>, frame: Frame) -> Result<Box<OpenRule>, AllocError>
    ensures { IfOk result (λ next. held.place (WantAtom next)
        ≡ r.want_atom (r.with_frames (held.rule rule) (held.frame frame (held.rule rule).frames)) None) }
{
    rule.frames.push(frame)?;
    rule.before = None;
    Ok(rule)
}

/// A level opens, and a term begins in it.
fn open_frame(rule: Box<OpenRule>, frame: Frame) -> Result<Step, AllocError>
    ensures { IfOk result (λ step. (parts : RParts) → held.state parts step
        ≡ r.open_term parts (held.rule rule) (r.want_atom (r.with_frames (held.rule rule) (held.frame frame (held.rule rule).frames))
        None)) }
{
    let may_open = opens_in_system(rule.frames.len());
    let opened = begin_in(rule, frame)?;
    if may_open {
        Ok(Step::To(Place::WantAtom(opened)))
    } else {
        Ok(Step::TooMany)
    }
}

/// A parenthesis opens, behind the spine so far.
fn open_paren(mut rule: Box<OpenRule>) -> Result<Step, AllocError>
    ensures { IfOk result (λ step. (parts : RParts) → held.state parts step
        ≡ r.open_term parts (held.rule rule) (r.want_atom (r.with_frames (held.rule rule)
        (r.paren (held.spine_of rule) (held.rule rule).frames)) None)) }
{
    let before = rule.before.take();
    open_frame(rule, Frame::Paren(before))
}

/// The bracket behind a name opens, behind the spine so far.
fn open_bracket(alloc: Global, mut rule: Box<OpenRule>, name: RawName) -> Result<Step, AllocError>
    ensures { IfOk result (λ step. (parts : RParts) → held.state parts step
        ≡ r.open_term parts (held.rule rule) (r.want_atom (r.with_frames (held.rule rule)
        (r.bracket name.name name.at none (held.spine_of rule) (held.rule rule).frames)) None)) }
{
    let before = rule.before.take();
    let args = RawTerms::new(alloc);
    open_frame(rule, Frame::Bracket(name, args, before))
}

/// An abstraction begins, where no atom stands before it, and its level opens.
fn lambda_begins(rule: Box<OpenRule>, at: u32) -> Step
    ensures { (parts : RParts) → held.state parts result ≡ r.lambda_begins parts (held.rule rule) (held.spine_of rule) at }
{
    if rule.before.is_some() {
        Step::Failed
    } else if opens_in_system(rule.frames.len()) {
        Step::To(Place::BehindLambda(rule, at))
    } else {
        Step::TooMany
    }
}

/// The left side has ended, and the right one begins.
fn left_ended(mut rule: Box<OpenRule>, term: RawTerm) -> Box<OpenRule>
    ensures { held.place (WantAtom result) ≡ r.want_atom (r.with_left (held.rule rule) (rtm term)) None }
{
    rule.left = Some(term);
    rule.frames.clear();
    rule.before = None;
    rule
}

/// The right side has ended, where it is the side that is read: the rule ends with it.
fn rule_ended(parts: &mut Parts, rule: Box<OpenRule>, right: RawTerm) -> Result<Step, AllocError>
    ensures { IfOk result (λ step. held.state (rparts parts.new) step
        ≡ r.side_ended (rparts parts.old) (held.rule rule) (option_map rtm rule.value.left) (rtm right) semicolon) }
{
    let OpenRule {
        metas,
        at,
        left,
        ..
    } = Box::into_inner(rule);
    let Some(left) = left else {
        return Ok(Step::Failed);
    };
    parts.rules.push(RawRule {
        metas,
        left,
        right,
        at,
    })?;
    Ok(Step::To(Place::Between))
}

/// A side has ended: the left one before the arrow, or the right one at the end of its rule.
fn side_ended(
    parts: &mut Parts,
    rule: Box<OpenRule>,
    term: RawTerm,
    letter: Lexeme,
) -> Result<Step, AllocError>
    ensures { IfOk result (λ step. held.state (rparts parts.new) step
        ≡ r.side_ended (rparts parts.old) (held.rule rule) (option_map rtm rule.value.left) (rtm term) (held.letter letter)) }
{
    let left_is_read = rule.left.is_some();
    match letter {
        Lexeme::ThickArrow if !left_is_read => {
            Ok(Step::To(Place::WantAtom(left_ended(rule, term))))
        }
        Lexeme::Semicolon => rule_ended(parts, rule, term),
        _ => Ok(Step::Failed),
    }
}

/// A term in a parenthesis has ended.
fn paren_ended(
    alloc: Global,
    rule: Box<OpenRule>,
    before: Option<RawTerm>,
    term: RawTerm,
    letter: Lexeme,
) -> Result<Step, AllocError>
    ensures { IfOk result (λ step. (parts : RParts) → held.state parts step
        ≡ r.term_ended parts (held.rule rule) (r.paren (option_map rtm before) (held.rule rule).frames) (rtm term) (held.letter letter)) }
{
    match letter {
        Lexeme::CloseParen => {
            let behind = behind_spine(alloc, rule, before, term)?;
            Ok(Step::To(Place::WantAtom(behind)))
        }
        _ => Ok(Step::Failed),
    }
}

/// An argument in a bracket has ended.
fn argument_ended(
    alloc: Global,
    rule: Box<OpenRule>,
    name: RawName,
    mut args: RawTerms,
    before: Option<RawTerm>,
    term: RawTerm,
    letter: Lexeme,
) -> Result<Step, AllocError>
    ensures { IfOk result (λ step. (parts : RParts) → held.state parts step
        ≡ r.term_ended parts (held.rule rule) (r.bracket name.name name.at (rtms args) (option_map rtm before) (held.rule rule).frames)
        (rtm term) (held.letter letter)) }
{
    args.push(term)?;
    match letter {
        Lexeme::Comma => {
            let behind = begin_in(rule, Frame::Bracket(name, args, before))?;
            Ok(Step::To(Place::WantAtom(behind)))
        }
        Lexeme::CloseBracket => {
            let atom = RawTerm::Meta(name.name, args, name.at);
            let behind = behind_spine(alloc, rule, before, atom)?;
            Ok(Step::To(Place::WantAtom(behind)))
        }
        _ => Ok(Step::Failed),
    }
}

/// A term has ended. The abstractions whose bodies end there end with it.
fn term_ended(
    alloc: Global,
    parts: &mut Parts,
    mut rule: Box<OpenRule>,
    term: RawTerm,
    letter: Lexeme,
) -> Result<Step, AllocError>
    ensures { IfOk result (λ step. held.state (rparts parts.new) step
        ≡ r.term_ended (rparts parts.old) (held.rule rule) (held.rule rule).frames (rtm term) (held.letter letter)) }
{
    match rule.frames.pop() {
        None => side_ended(parts, rule, term, letter),
        Some(Frame::Body(x, a, at)) => {
            let whole = RawTerm::Lam(x, a, Box::new(alloc, term)?, at);
            term_ended(alloc, parts, rule, whole, letter)
        }
        Some(Frame::Paren(before)) => paren_ended(alloc, rule, before, term, letter),
        Some(Frame::Bracket(name, args, before)) => {
            argument_ended(alloc, rule, name, args, before, term, letter)
        }
    }
}

/// A spine has ended, if it has an atom.
fn spine_ended(
    alloc: Global,
    parts: &mut Parts,
    mut rule: Box<OpenRule>,
    letter: Lexeme,
) -> Result<Step, AllocError>
    ensures { IfOk result (λ step. held.state (rparts parts.new) step
        ≡ r.spine_ended (rparts parts.old) (held.rule rule) (held.spine_of rule) (held.letter letter)) }
{
    match rule.before.take() {
        None => Ok(Step::Failed),
        Some(term) => term_ended(alloc, parts, rule, term, letter),
    }
}

/// A letter where an atom may stand: it begins one, or an abstraction, or ends the spine.
pub fn at_atom(
    alloc: Global,
    parts: &mut Parts,
    rule: Box<OpenRule>,
    letter: Lexeme,
    at: u32,
) -> Result<Step, AllocError>
    ensures { IfOk result (λ step. held.state (rparts parts.new) step
        ≡ r.at_atom (rparts parts.old) (held.rule rule) (held.spine_of rule) (held.letter letter) at) }
{
    match letter {
        Lexeme::Name(name) => Ok(Step::To(Place::BehindName(rule, RawName { name, at }))),
        Lexeme::Dollar(n) => {
            let atom = RawTerm::Numbered(n, at);
            Ok(Step::To(Place::WantAtom(behind_atom(alloc, rule, atom)?)))
        }
        Lexeme::Percent(n) => Ok(Step::To(Place::BehindPercent(rule, n, at))),
        Lexeme::OpenParen => open_paren(rule),
        Lexeme::Backslash => Ok(lambda_begins(rule, at)),
        letter => spine_ended(alloc, parts, rule, letter),
    }
}

/// A letter behind a name: the bracket of a meta-application, or whatever may follow a plain name.
pub fn behind_name(
    alloc: Global,
    parts: &mut Parts,
    rule: Box<OpenRule>,
    name: RawName,
    letter: Lexeme,
    at: u32,
) -> Result<Step, AllocError>
    ensures { IfOk result (λ step. held.state (rparts parts.new) step
        ≡ r.behind_plain (rparts parts.old) (held.rule rule) (held.spine_of rule) name.name name.at (held.letter letter) at) }
{
    match letter {
        Lexeme::OpenBracket => open_bracket(alloc, rule, name),
        letter => {
            let atom = RawTerm::Named(name.name, name.at);
            let behind = behind_atom(alloc, rule, atom)?;
            at_atom(alloc, parts, behind, letter, at)
        }
    }
}

/// The colon behind a free variable.
pub fn variable_colon(
    alloc: Global,
    rule: Box<OpenRule>,
    n: u32,
    n_at: u32,
    letter: Lexeme,
) -> Result<Step, AllocError>
    ensures { IfOk result (λ step. (parts : RParts) → held.state parts step
        ≡ r.expect_colon parts (r.want_atype (r.of_variable (held.rule rule) (held.spine_of rule) n n_at) r.new_type)
        (held.letter letter)) }
{
    match letter {
        Lexeme::Colon => want_type(alloc, Purpose::OfVariable(rule, n, n_at)),
        _ => Ok(Step::Failed),
    }
}

/// The letter where a binder begins.
pub fn at_binder(rule: Box<OpenRule>, lambda_at: u32, letter: Lexeme) -> Step
    ensures { (parts : RParts) → held.state parts result ≡ r.at_binder parts (held.rule rule) lambda_at (held.letter letter) }
{
    match letter {
        Lexeme::Name(name) => {
            Step::To(Place::BinderNamed(rule, RawBinder::Named(name), lambda_at))
        }
        Lexeme::Dollar(n) => {
            Step::To(Place::BinderNamed(rule, RawBinder::Numbered(n), lambda_at))
        }
        _ => Step::Failed,
    }
}

/// The colon behind a binder.
pub fn binder_colon(
    alloc: Global,
    rule: Box<OpenRule>,
    x: RawBinder,
    lambda_at: u32,
    letter: Lexeme,
) -> Result<Step, AllocError>
    ensures { IfOk result (λ step. (parts : RParts) → held.state parts step
        ≡ r.expect_colon parts (r.want_atype (r.of_binder (held.rule rule) (rbinder x) lambda_at) r.new_type) (held.letter letter)) }
{
    match letter {
        Lexeme::Colon => want_type(alloc, Purpose::OfBinder(rule, x, lambda_at)),
        _ => Ok(Step::Failed),
    }
}

/// The dot behind the type of a binder.
pub fn binder_dot(
    rule: Box<OpenRule>,
    x: RawBinder,
    a: Box<RawType>,
    lambda_at: u32,
    letter: Lexeme,
) -> Result<Step, AllocError>
    ensures { IfOk result (λ step. (parts : RParts) → held.state parts step
        ≡ r.expect_dot parts
        (r.want_atom (r.with_frames (held.rule rule) (r.body (rbinder x) (rty a.value) lambda_at (held.rule rule).frames)) None)
        (held.letter letter)) }
{
    match letter {
        Lexeme::Dot => {
            let behind = begin_in(rule, Frame::Body(x, a, lambda_at))?;
            Ok(Step::To(Place::WantAtom(behind)))
        }
        _ => Ok(Step::Failed),
    }
}
