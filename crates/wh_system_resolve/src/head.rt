//! The head of a left side, which must be a symbol, and how many arguments the left side has.

ghost use Rattle.std.specs.Prelude.{◌≡◌, ◌≤◌, [], Some, None, MatchResult};
ghost use Rattle.wh_types.specs.Limits.{greatest_size};
ghost use Rattle.wh_terms.specs.Erase.{tm};
ghost use Rattle.wh_text.specs.Erase.{rtm};
ghost use Rattle.wh_system_resolve.specs.Form.{symbol_of};
ghost use Rattle.wh_system_parts.specs.Naming.{Scope, meant};
ghost use Rattle.wh_system_parts.specs.RuleTests.{head_symbol};
ghost use Rattle.wh_system_parts.specs.Tests.{arguments_of, raw_size, term_offset};
ghost use Rattle.wh_system_parts.specs.declared.fault.SystemFault.TheVariants.{HeadNotFun};

use wh_system_parts::{SystemFault, offset};
use wh_terms::Term;
use wh_text::RawTerm;

/// The symbol that heads a left side, which stands for the term; the fault is at the side, where none does.
pub fn head_of(left: &Term, raw: &RawTerm) -> Result<u32, SystemFault>
    ensures { (s : Scope) → meant s [] (rtm raw.now) ≡ Some (tm left.now)
        → MatchResult result (λ fun. head_symbol s (rtm raw.now) ≡ Some fun)
        (λ fault. (head_symbol s (rtm raw.now) ≡ None) × (fault ≡ HeadNotFun (term_offset (rtm raw.now)))) }
{
    match symbol_of(left) {
        Some(fun) => Ok(fun),
        None => Err(SystemFault::HeadNotFun { at: offset(raw) }),
    }
}

// The symbol that heads a term, if one does.
fn symbol_of(term: &Term) -> Option<u32>
    ensures { result ≡ symbol_of (tm term.now) }
{
    match term {
        Term::Fun(fun) => Some(*fun),
        Term::App(function, _) => symbol_of(function),
        Term::Bound(_) | Term::Free(_, _) | Term::Meta(_, _) | Term::Lam(_, _) => None,
    }
}

/// How many arguments a left side has, which has at most the size that a side may have.
pub fn arguments_of(left: &RawTerm) -> u32
    requires { raw_size (rtm left.now) ≤ greatest_size }
    ensures { result ≡ arguments_of (rtm left.now) }
{
    let mut count = 0;
    let mut here = left;
    while let RawTerm::Spine(head, items, _) = here {
        count += items.as_slice().len() as u32;
        here = head;
    }
    count
}
