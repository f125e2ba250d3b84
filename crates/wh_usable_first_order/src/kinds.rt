//! What types tell of symbols, of meta-variables and of trees: whether they are first-order, or of a sort.

ghost use Rattle.std.specs.Prelude.{◌≡◌, ◌↔◌, ℕ, [], IsTrue, MatchOption, take};
ghost use Rattle.wh_types.specs.Erase.{ty};
ghost use Rattle.wh_types.specs.Ty.{Ty, ◌⇒◌, arguments, sort};
ghost use Rattle.wh_terms.specs.Erase.{declared_metas, symbols, tm};
ghost use Rattle.wh_terms.specs.Typing.{Typed};
ghost use Rattle.wh_hopoly.specs.Evaluation.{type_at};
ghost use Rattle.wh_usable_first_order.specs.FirstOrder.{AreSorts, IsFirstOrder, IsFlatTree, IsNullary};

use wh_terms::{MetaDecl, Signature, Term};
use wh_types::SimpleType;

/// Whether all arguments of the symbol are of a sort.
pub fn is_first_order(signature: &Signature, symbol: u32) -> bool
    ensures { IsTrue result ↔ IsFirstOrder (symbols signature.now) symbol }
{
    match signature.funs.as_slice().get(symbol as usize) {
        Some(kind) => takes_sorts(kind),
        None => true,
    }
}

// Whether all arguments of the type are sorts.
fn takes_sorts(kind: &SimpleType) -> bool
    ensures { IsTrue result ↔ AreSorts (arguments (ty kind.now)) }
{
    match kind {
        SimpleType::Sort(_) => true,
        SimpleType::Arrow(first, rest) => is_sort(first) && takes_sorts(rest),
    }
}

// Whether the type is a sort.
fn is_sort(kind: &SimpleType) -> bool
    ensures { IsTrue result ↔ ((s : ℕ) × (ty kind.now ≡ sort s)) }
{
    matches!(kind, SimpleType::Sort(_))
}

/// Whether the meta-variable takes no arguments, and is of a sort.
pub fn is_nullary(metas: &[MetaDecl], meta: u32) -> bool
    ensures { IsTrue result ↔ IsNullary (declared_metas metas.now) meta }
{
    match metas.get(meta as usize) {
        Some(declared) => declared.args.as_slice().is_empty() && is_sort(&declared.result),
        None => false,
    }
}

/// Whether a flat tree is of a sort.
pub fn is_of_a_sort(signature: &Signature, metas: &[MetaDecl], term: &Term) -> bool
    ensures { (a : Ty) → Typed (symbols signature.now) (declared_metas metas.now) [] (tm term.now) a
        → IsFlatTree (symbols signature.now) (declared_metas metas.now) (tm term.now)
        → IsTrue result ↔ ((s : ℕ) × (a ≡ sort s)) }
{
    match kind_of(signature, metas, term) {
        Some(kind) => is_sort(kind),
        None => false,
    }
}

// The type of a flat tree: that of the symbol at its head behind as many arguments as the tree has.
fn kind_of<'a>(
    signature: &'a Signature,
    metas: &'a [MetaDecl],
    term: &Term,
) -> Option<&'a SimpleType>
    ensures { (a : Ty) → Typed (symbols signature.now) (declared_metas metas.now) [] (tm term.now) a
        → IsFlatTree (symbols signature.now) (declared_metas metas.now) (tm term.now)
        → MatchOption result ⊥ (λ kind. ty kind.now ≡ a) }
{
    match term {
        Term::Fun(symbol) => signature.funs.as_slice().get(*symbol as usize),
        Term::Meta(meta, _) => Some(&metas.get(*meta as usize)?.result),
        Term::App(function, _) => behind_one(kind_of(signature, metas, function)?),
        _ => None,
    }
}

// The type behind the first argument of this type; `None` where the type is a sort.
fn behind_one(kind: &SimpleType) -> Option<&SimpleType>
    ensures { (a b : Ty) → ty kind.now ≡ a ⇒ b → MatchOption result ⊥ (λ rest. ty rest.now ≡ b) }
{
    match kind {
        SimpleType::Arrow(_, rest) => Some(rest),
        SimpleType::Sort(_) => None,
    }
}

/// Whether the first `count` arguments of the symbol are of a sort.
pub fn takes_sorts_first(signature: &Signature, symbol: u32, count: u32) -> bool
    ensures { IsTrue result ↔ AreSorts (take count (arguments (type_at (symbols signature.now).funs symbol))) }
{
    match signature.funs.as_slice().get(symbol as usize) {
        Some(kind) => first_are_sorts(kind, count),
        None => true,
    }
}

// Whether the first `count` arguments of the type are sorts.
fn first_are_sorts(kind: &SimpleType, count: u32) -> bool
    ensures { IsTrue result ↔ AreSorts (take count (arguments (ty kind.now))) }
{
    match kind {
        SimpleType::Sort(_) => true,
        SimpleType::Arrow(first, rest) => {
            count == 0 || (is_sort(first) && first_are_sorts(rest, count - 1))
        }
    }
}
