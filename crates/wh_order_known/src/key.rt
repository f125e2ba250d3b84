//! Keys of goals: numbers by which goals that differ are mostly told apart without a look at their trees.

use wh_order::{Claim, Goal};
use wh_order_trees::Tree;

/// A number for the goal, nested at most `room` deep. Nothing is claimed of it: goals that differ may have one number.
pub fn key_of(goal: &Goal<'_>, room: u8) -> u32 {
    let key = mixed(mixed(claim_key(goal.claim), goal.next), u32::from(room));
    tree_key(goal.right.tree(), tree_key(goal.left.tree(), key))
}

// A number for the claim.
fn claim_key(claim: Claim) -> u32 {
    match claim {
        Claim::AtLeast => 1,
        Claim::Greater => 2,
        Claim::Above(from) => mixed(3, from),
    }
}

// The key with the tree mixed in.
#[cycle(keys)]
fn tree_key(t: &Tree, key: u32) -> u32 {
    match t {
        Tree::Bound(number) => mixed(mixed(key, 1), *number),
        Tree::Free(number, _) => mixed(mixed(key, 2), *number),
        Tree::Meta(meta, _, items) => each_key(items.as_slice(), mixed(mixed(key, 3), *meta)),
        Tree::Sym(symbol, items) => each_key(items.as_slice(), mixed(mixed(key, 4), *symbol)),
        Tree::Mark(symbol, items) => each_key(items.as_slice(), mixed(mixed(key, 5), *symbol)),
        Tree::Lam(_, body) => tree_key(body, mixed(key, 6)),
        Tree::Apply(head, items) => each_key(items.as_slice(), tree_key(head, mixed(key, 7))),
    }
}

// The key with each of the trees mixed in.
#[cycle(keys)]
fn each_key(items: &[Tree], key: u32) -> u32 {
    let mut key = key;
    for item in items {
        key = tree_key(item, key);
    }
    mixed(key, 8)
}

// The key with a word mixed in: a step of a linear congruence, of which high and low bits change places.
fn mixed(key: u32, word: u32) -> u32 {
    key.wrapping_add(word)
        .wrapping_mul(0x9e37_79b1)
        .wrapping_add(word)
        .rotate_left(15)
}
