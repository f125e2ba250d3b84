//! Reading a system text token by token. `parse` is the main function: it keeps one place, which says what it has read
//! so far, and each token leads to the next place or is the fault.

ghost use Rattle.std.specs.Prelude.{◌≡◌, ◌≤◌, ◌+◌, ◌↔◌, length, Some, None, IfOk, IsTrue};
ghost use Rattle.wh_types.specs.Limits.{most_bytes};
ghost use Rattle.wh_types.specs.Outcome.{IfBecause, MatchOr};
ghost use Rattle.wh_text.specs.Erase.{kind_of, part, token as cut_token};
ghost use Rattle.wh_text.specs.Pieces.{IsCutInto};
ghost use Rattle.wh_text.specs.Words.{IsWord};
ghost use Rattle.wh_text.specs.declared.token.TokenKind.TheVariants as token_kind;
ghost use Rattle.wh_system_parts.specs.Erase.{rparts};
ghost use Rattle.wh_read.specs.Lexemes.{lexeme};
ghost use Rattle.wh_read.specs.Spelled.{placed};
ghost use Rattle.wh_read.specs.Parsing.{Parses};
ghost use Rattle.wh_read.specs.SyntaxFaults.{letters, HasSyntaxFault};
ghost use Rattle.wh_read.specs.Held as held;
ghost use Rattle.wh_read.specs.Reader as r;

use crate::declarations::{
    at_meta, begin, behind_colon, fun_colon, fun_name, meta_colon, rule_open, sort_end, sort_name,
};
use crate::fault::SyntaxFault;
use crate::lexeme::{Lexeme, letter_of};
use crate::place::{Place, Step};
use crate::terms::{at_atom, at_binder, behind_name, binder_colon, binder_dot, variable_colon};
use crate::types::{at_atype, behind_type};
use std::alloc::{AllocError, Global};
use wh_system_parts::{Parts, RawFuns, RawNames, RawRules};
use wh_text::Token;
use wh_types::Or;

/// The step that the next letter, which stands at `at`, makes from the place.
fn move_on(
    alloc: Global,
    parts: &mut Parts,
    place: Place,
    letter: Lexeme,
    at: u32,
) -> Result<Step, AllocError>
    ensures { IfOk result (λ step. held.state (rparts parts.new) step
        ≡ r.move (rparts parts.old) (held.place place) (held.letter letter) at) }
{
    match place {
        Place::Between => Ok(begin(parts, letter, at)),
        Place::BehindSort => Ok(sort_name(letter, at)),
        Place::SortNamed(name) => sort_end(parts, name, letter),
        Place::BehindFun => Ok(fun_name(letter, at)),
        Place::FunNamed(name) => fun_colon(alloc, name, letter),
        Place::BehindRule(rule_at) => rule_open(alloc, rule_at, letter),
        Place::WantMeta(metas) => at_meta(alloc, metas, letter, at),
        Place::MetaNamed(meta) => Ok(meta_colon(meta, letter)),
        Place::MetaColon(meta) => behind_colon(alloc, meta, letter, at),
        Place::WantAtype(purpose, started) => at_atype(alloc, purpose, started, letter, at),
        Place::BehindAtype(purpose, started, kind) => behind_type(
            alloc, parts, purpose, started, kind, letter,
        ),
        Place::BehindLambda(rule, lambda_at) => Ok(at_binder(rule, lambda_at, letter)),
        Place::BinderNamed(rule, x, lambda_at) => binder_colon(alloc, rule, x, lambda_at, letter),
        Place::BinderTyped(rule, x, a, lambda_at) => binder_dot(rule, x, a, lambda_at, letter),
        Place::WantAtom(rule) => at_atom(alloc, parts, rule, letter, at),
        Place::BehindName(rule, name) => behind_name(alloc, parts, rule, name, letter, at),
        Place::BehindPercent(rule, n, n_at) => variable_colon(alloc, rule, n, n_at, letter),
    }
}

/// The letter that a token of the text is; a fault where the grammar has no such token.
fn wanted_letter(alloc: Global, text: &[u8], token: &Token) -> Result<Lexeme, Or<SyntaxFault>>
    requires ordered { token.now.from ≤ token.now.to }
    requires within { token.now.to ≤ length text.now }
    requires word { token.now.kind ≡ token_kind.Name → IsWord (part text.now token.now.from token.now.to) }
    ensures found { IfOk result (λ letter. Some (held.letter letter)
        ≡ lexeme (kind_of (part text.now token.now.from token.now.to) token.now.kind)) }
    ensures none { IfBecause result (λ fault. None ≡ lexeme (kind_of (part text.now token.now.from token.now.to) token.now.kind)) }
    ensures stops { IfBecause result (λ fault. held.stopped fault ≡ r.failed) }
    ensures stops_at { IfBecause result (λ fault. held.fault_offset fault ≡ token.now.from) }
{
    match letter_of(alloc, text, token)? {
        Some(letter) => Ok(letter),
        None => Err(Or::Because(SyntaxFault::Syntax { at: token.from })),
    }
}

/// The place behind one more token of the text.
fn read_token(
    alloc: Global,
    text: &[u8],
    parts: &mut Parts,
    place: Place,
    token: &Token,
) -> Result<Place, Or<SyntaxFault>>
    requires ordered { token.now.from ≤ token.now.to }
    requires within { token.now.to ≤ length text.now }
    requires word { token.now.kind ≡ token_kind.Name → IsWord (part text.now token.now.from token.now.to) }
    ensures goes_on { IfOk result (λ next.
        r.step (r.inside (rparts parts.old) (held.place place)) (placed (cut_token text.now token.now))
        ≡ r.inside (rparts parts.new) (held.place next)) }
    ensures stops { IfBecause result (λ fault.
        r.step (r.inside (rparts parts.old) (held.place place)) (placed (cut_token text.now token.now)) ≡ held.stopped fault) }
    ensures stops_at { IfBecause result (λ fault. held.fault_offset fault ≡ token.now.from) }
{
    let at = token.from;
    let letter = match wanted_letter(alloc, text, token) {
        Ok(letter) => letter,
        Err(fault) => {
            let_go(place);
            return Err(fault);
        }
    };
    match move_on(alloc, parts, place, letter, at)? {
        Step::To(next) => Ok(next),
        Step::Failed => Err(Or::Because(SyntaxFault::Syntax { at })),
        Step::TooMany => Err(Or::Because(SyntaxFault::TooMany { at })),
    }
}

/// Drops a place. It is a function of its own since a place has many variants, and the code that drops them is long.
fn let_go(_place: Place) {}

/// Whether a text may end at the place.
fn may_end(place: &Place) -> bool
    ensures { IsTrue result ↔ (held.place place.now ≡ r.between) }
{
    matches!(place, Place::Between)
}

/// Whether a text may end at the place, which is dropped then.
fn ended(place: Place) -> bool
    ensures { IsTrue result ↔ (held.place place ≡ r.between) }
{
    let ends = may_end(&place);
    let_go(place);
    ends
}

/// What the tokens of a text say, where they are a system text that nests within the limits. Else the fault is at the
/// first token that no system text has there, or that opens a level too many: terms nest 400 deep, the parentheses of
/// types 16.
pub fn parse(alloc: Global, text: &[u8], tokens: &[Token]) -> Result<Parts, Or<SyntaxFault>>
    requires size { length text.now ≤ most_bytes + 1 }
    requires cut { IsCutInto text.now tokens.now }
    ensures { MatchOr result (λ parts. Parses (letters text.now tokens.now) (rparts parts))
        (HasSyntaxFault (letters text.now tokens.now) (length text.now)) }
{
    let mut parts = Parts {
        sorts: RawNames::new(alloc),
        funs: RawFuns::new(alloc),
        rules: RawRules::new(alloc),
    };
    let mut place = Place::Between;
    for token in tokens {
        place = read_token(alloc, text, &mut parts, place, token)?;
    }
    if ended(place) {
        Ok(parts)
    } else {
        let at = text.len() as u32;
        Err(Or::Because(SyntaxFault::Syntax { at }))
    }
}
