//! Matching a pattern against a term.
//!
//! `match_pattern` goes through the pattern and the term side by side. At the first occurrence of a meta-variable the
//! body is the part of the term that stands there, its bound variables taken for parameters; at a later one the part is
//! compared with the body.

ghost use Rattle.std.specs.Prelude.{◌≡◌, [], IfOk, MatchOption};
ghost use Rattle.wh_types.specs.Erase.{ty};
ghost use Rattle.wh_terms.specs.Tree.{meta};
ghost use Rattle.wh_terms.specs.Erase.{tm, tms};
ghost use Rattle.wh_match.specs.Matching.{HasNoMatch, IsMatch};
ghost use Rattle.wh_match.specs.MatchSearch.{Answers};
ghost use Rattle.wh_terms.specs.Measures.{Manageable};
ghost use Rattle.wh_terms.specs.Pattern.{AllBoundBelow, Distinct, IsPattern, IsPatternUnder};

use crate::seat::{Seat, body_of, is_placed};
use std::alloc::{AllocError, Global};
use wh_terms::{MetaBody, MetaSubst, Metas, Term, body_for};
use wh_types::{counted, same_type, sum};

/// The meta-substitution that makes the pattern the term, or None if there is none. It lists the meta-variables of the
/// pattern, each once; `_metas` are those of the pattern's rule. A meta-variable that occurs more than once stands for
/// the same body each time, and no body has a bound variable of the pattern that is not among the arguments.
pub fn match_pattern(
    alloc: Global,
    _metas: &Metas,
    pattern: &Term,
    term: &Term,
) -> Result<Option<MetaSubst>, AllocError>
    requires pattern_in_range { Manageable (tm pattern.now) }
    requires term_in_range { Manageable (tm term.now) }
    requires linear { IsPattern (tm pattern.now) }
    ensures { IfOk result (λ found. MatchOption found (HasNoMatch (tm pattern.now) (tm term.now))
        (IsMatch (tm pattern.now) (tm term.now))) }
{
    let mut found = MetaSubst::new(alloc);
    if match_under(alloc, pattern, term, 0, &mut found)? {
        Ok(Some(found))
    } else {
        Ok(None)
    }
}

// Whether there is a match of a part of the pattern, below `depth` binders, that goes on from `found`. If so `found`
// becomes the least one, and else it is of no use.
fn match_under(
    alloc: Global,
    pattern: &Term,
    term: &Term,
    depth: u32,
    found: &mut MetaSubst,
) -> Result<bool, AllocError>
    requires { IsPatternUnder depth (tm pattern.now) }
    ensures { IfOk result (Answers depth (tm pattern.now) (tm term.now) found.old found.new) }
{
    match (pattern, term) {
        (Term::Meta(variable, args), _) => {
            let seat = Seat {
                args: args.as_slice(),
                depth,
            };
            match_meta(alloc, *variable, &seat, term, found)
        }
        (Term::Bound(number), Term::Bound(other)) => Ok(*number == *other),
        (Term::Fun(symbol), Term::Fun(other)) => Ok(*symbol == *other),
        (Term::Lam(kind, part), Term::Lam(other_kind, below)) => {
            if !same_type(kind, other_kind) {
                return Ok(false);
            }
            match_under(alloc, part, below, sum(depth, 1)?, found)
        }
        (Term::App(function, argument), Term::App(first, second)) => {
            if !match_under(alloc, function, first, depth, found)? {
                return Ok(false);
            }
            match_under(alloc, argument, second, depth, found)
        }
        _ => Ok(false),
    }
}

// Goes on with the match at a meta-variable on its arguments: takes the part of the term that stands there for its
// body, or compares the part with the body that was found before.
fn match_meta(
    alloc: Global,
    variable: u32,
    seat: &Seat<'_>,
    term: &Term,
    found: &mut MetaSubst,
) -> Result<bool, AllocError>
    requires below { AllBoundBelow seat.now.depth (tms seat.now.args.now) }
    requires distinct { Distinct (tms seat.now.args.now) }
    ensures { IfOk result (Answers seat.now.depth (meta variable (tms seat.now.args.now)) (tm term.now) found.old found.new) }
{
    let arity = counted(seat.args.len())?;
    if let Some(known) = body_for(found, variable) {
        return Ok(known.arity == arity && is_placed(seat, &known.body, term, 0)?);
    }
    let Some(body) = body_of(alloc, seat, term, 0)? else {
        return Ok(false);
    };
    found.push(MetaBody {
        meta: variable,
        arity,
        body,
    })?;
    Ok(true)
}
