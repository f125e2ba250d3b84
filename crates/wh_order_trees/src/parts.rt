//! The parts of a filtered tree that the check of an inference looks at.

ghost use Rattle.std.specs.Prelude.{ℕ, ◌≡◌, IfSome};
ghost use Rattle.wh_order_trees.specs.Trees.{tree};
ghost use Rattle.wh_order_trees.specs.TreeParts.{HasArguments, IsApplication, IsArgument, IsBody, IsMetaApplication, Over, World, number_in};

use crate::tree::Tree;
use wh_types::SimpleType;

/// The arguments of a symbol or of an application; none of another tree.
pub fn arguments_of(t: &Tree) -> &[Tree]
    ensures { HasArguments t.now result.now }
{
    match t {
        Tree::Sym(_, items) => items.as_slice(),
        Tree::Mark(_, items) => items.as_slice(),
        Tree::Apply(_, items) => items.as_slice(),
        Tree::Bound(_) | Tree::Free(_, _) | Tree::Meta(_, _, _) | Tree::Lam(_, _) => &[],
    }
}

/// The argument at a place, counted from 1.
pub fn argument_at(t: &Tree, place: u32) -> Option<&Tree>
    ensures { IsArgument t.now place result }
{
    let items = arguments_of(t);
    if place == 0 {
        return None;
    }
    if place as usize > items.len() {
        return None;
    }
    Some(&items[place as usize - 1])
}

/// The type and the body of an abstraction.
pub fn body_of(t: &Tree) -> Option<(&SimpleType, &Tree)>
    ensures { IsBody t.now result }
{
    match t {
        Tree::Lam(kind, body) => Some((kind, body)),
        _ => None,
    }
}

/// The number of a free variable.
pub fn number_of(t: &Tree) -> Option<u32>
    ensures { (n : ℕ) (w : World) → Over n w t.now → number_in (tree n t.now) ≡ result }
{
    match t {
        Tree::Free(number, _) => Some(*number),
        _ => None,
    }
}

/// The number and the arguments of a meta-variable without further arguments.
pub fn meta_of(t: &Tree) -> Option<(u32, &[Tree])>
    ensures { IsMetaApplication t.now result }
{
    match t {
        Tree::Meta(meta, _, items) => Some((*meta, items.as_slice())),
        Tree::Sym(_, _) => None,
        Tree::Mark(_, _) => None,
        Tree::Apply(_, _) => None,
        Tree::Bound(_) | Tree::Free(_, _) | Tree::Lam(_, _) => None,
    }
}

/// The head and the arguments of an application.
pub fn application_of(t: &Tree) -> Option<(&Tree, &[Tree])>
    ensures { IsApplication t.now result }
{
    match t {
        Tree::Apply(head, items) => Some((head, items.as_slice())),
        Tree::Sym(_, _) => None,
        Tree::Mark(_, _) => None,
        Tree::Meta(_, _, _) => None,
        Tree::Bound(_) | Tree::Free(_, _) | Tree::Lam(_, _) => None,
    }
}
