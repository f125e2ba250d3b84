//! The meta-variables of a right side: each occurs in the left side. `check_new_metas` marks what occurs in the term
//! that the left side stands for, and then looks at the marks in a walk over the right side's term. Beside that walk
//! goes the raw right side, which tells where a fault is.

ghost use Rattle.std.specs.Prelude.{◌≡◌, ◌<◌, ◌≤◌, ◌∷◌, ◌==◌, ℕ, [], Some, false, IfOk, length, slice_index_or};
ghost use Rattle.wh_terms.specs.Erase.{tm, tms};
ghost use Rattle.wh_text.specs.Erase.{rtm, rtms};
ghost use Rattle.wh_text.specs.RawTree.{RTm, spine};
ghost use Rattle.wh_system_resolve.specs.Answers.{Reports};
ghost use Rattle.wh_system_resolve.specs.Marks.{Marks, TellsNew, TellsNewEach, is_unmarked, occurs_in, occurs_in_any};
ghost use Rattle.wh_system_parts.specs.Faults.{IsFirstFault};
ghost use Rattle.wh_system_parts.specs.Naming.{Scope, meant};
ghost use Rattle.wh_system_parts.specs.RuleTests.{new_meta_tests};
ghost use Rattle.wh_system_parts.specs.Tests.{test};
ghost use Rattle.wh_system_parts.specs.declared.fault.SystemFault.TheVariants.{NewMeta};

use crate::parts::meta_arguments;
use std::alloc::{AllocError, Global};
use wh_system_parts::SystemFault;
use wh_terms::{Term, Terms};
use wh_text::RawTerm;
use wh_types::Or;

/// Whether each meta-variable of the right side occurs in the left side; the fault is at the first occurrence of one
/// that does not. The sides stand for the terms `left` and `right`, `raw` is the right one as it is written, and the
/// rule has at most `metas` meta-variables.
pub fn check_new_metas(
    alloc: Global,
    metas: usize,
    left: &Term,
    right: &Term,
    raw: &RawTerm,
) -> Result<(), Or<SystemFault>>
    ensures { (s : Scope) (l : RTm) → meant s [] l ≡ Some (tm left.now) → meant s [] (rtm raw.now) ≡ Some (tm right.now)
        → length s.metas ≤ metas → Reports (new_meta_tests s l [] (rtm raw.now)) result }
{
    let marks = marks_of(alloc, metas, left)?;
    check_marked(&marks, right, raw)?;
    Ok(())
}

// A flag for each meta-variable of the rule: whether it occurs in the left side.
fn marks_of(alloc: Global, metas: usize, left: &Term) -> Result<Vec<bool>, AllocError>
    ensures { IfOk result (λ flags. (z : ℕ) → z < metas → slice_index_or flags.items z false ≡ occurs_in z (tm left.now)) }
{
    let mut marks = vec![in alloc; false; metas]?;
    mark_term(left, &mut marks);
    Ok(marks)
}

// Marks the meta-variables of a term.
#[cycle(marking)]
fn mark_term(term: &Term, marks: &mut [bool])
    ensures { Marks marks.old marks.new (λ z. occurs_in z (tm term.now)) }
{
    match term {
        Term::Meta(number, items) => {
            mark(*number, marks);
            mark_each(items, marks);
        }
        Term::Lam(_, body) => mark_term(body, marks),
        Term::App(function, argument) => {
            mark_term(function, marks);
            mark_term(argument, marks);
        }
        Term::Bound(_) | Term::Free(_, _) | Term::Fun(_) => {}
    }
}

// Marks the meta-variables that occur in any of the terms.
#[cycle(marking)]
fn mark_each(items: &Terms, marks: &mut [bool])
    ensures { Marks marks.old marks.new (λ z. occurs_in_any z (tms items.now)) }
{
    for item in items.as_slice() {
        mark_term(item, marks);
    }
}

// Marks the meta-variable with the number, if it has a flag.
fn mark(number: u32, marks: &mut [bool])
    ensures { Marks marks.old marks.new (λ z. number == z) }
{
    let index = number as usize;
    if index < marks.len() {
        marks[index] = true;
    }
}

// Whether each meta-variable of a raw term, which stands for the term below any binders, is marked; the fault is at the
// first one that is not.
#[cycle(marked)]
fn check_marked(marks: &[bool], term: &Term, raw: &RawTerm) -> Result<(), SystemFault>
    ensures { TellsNew marks.now (tm term.now) (rtm raw.now) result }
{
    match raw {
        RawTerm::Named(_, at) => check_mark(marks, term, *at),
        RawTerm::Meta(_, items, at) => {
            check_mark(marks, term, *at)?;
            let Some(arguments) = meta_arguments(term) else {
                return Ok(());
            };
            check_each_marked(marks, arguments, items.as_slice())
        }
        RawTerm::Lam(_, _, inner, _) => {
            let Term::Lam(_, body) = term else {
                return Ok(());
            };
            check_marked(marks, body, inner)
        }
        RawTerm::Spine(head, items, _) => {
            check_applied_marked(marks, term, head, items.as_slice())
        }
        RawTerm::Numbered(_, _) | RawTerm::Free(_, _, _) => Ok(()),
    }
}

// Whether each meta-variable of a head with the items as its arguments is marked; the last item is the argument of the
// application that the term is.
#[cycle(marked)]
fn check_applied_marked(
    marks: &[bool],
    term: &Term,
    head: &RawTerm,
    items: &[RawTerm],
) -> Result<(), SystemFault>
    ensures { TellsNew marks.now (tm term.now) (spine (rtm head.now) (rtms items.now) 0) result }
{
    let Some((last, front)) = items.split_last() else {
        return check_marked(marks, term, head);
    };
    let Term::App(function, argument) = term else {
        return Ok(());
    };
    check_applied_marked(marks, function, head, front)?;
    check_marked(marks, argument, last)
}

// Whether each meta-variable of the terms is marked; the raw items, one for each, tell where a fault is.
#[cycle(marked)]
fn check_each_marked(marks: &[bool], terms: &[Term], items: &[RawTerm]) -> Result<(), SystemFault>
    ensures { TellsNewEach marks.now (tms terms.now) (rtms items.now) result }
{
    let Some((item, further)) = items.split_first() else {
        return Ok(());
    };
    let Some((term, others)) = terms.split_first() else {
        return Ok(());
    };
    check_marked(marks, term, item)?;
    check_each_marked(marks, others, further)
}

// Whether the term, which stands at `at`, is no meta-variable without a mark.
fn check_mark(marks: &[bool], term: &Term, at: u32) -> Result<(), SystemFault>
    ensures { IsFirstFault (test (is_unmarked marks.now (tm term.now)) (NewMeta at) ∷ []) result }
{
    if is_unmarked(marks, term) {
        return Err(SystemFault::NewMeta { at });
    }
    Ok(())
}

// Whether the term is a meta-variable without a mark.
fn is_unmarked(marks: &[bool], term: &Term) -> bool
    ensures { result ≡ is_unmarked marks.now (tm term.now) }
{
    match term {
        Term::Meta(number, _) => !marks.get(*number as usize).copied().unwrap_or(false),
        Term::Bound(_) | Term::Free(_, _) | Term::Fun(_) | Term::Lam(_, _) | Term::App(_, _) => {
            false
        }
    }
}
