//! Each condition of a node `alone` or `blocks` holds, or there is a first thing wrong: the contracts of functions that
//! do nothing.

ghost use Rattle.std.specs.Prelude.{ℕ, ◌⊎◌, List};
ghost use Rattle.wh_terms.specs.Rules.{RewriteRule};
ghost use Rattle.wh_pairs.specs.PairData.{PairData};
ghost use Rattle.wh_graph.specs.May.{Follows, May};
ghost use Rattle.wh_graph.specs.Blocks.{AreBlocks, IsFirstBlockFault};
ghost use Rattle.wh_graph.specs.declared.blocks.BlockFault.{BlockFault};

/// A pair may follow another, or it may not.
pub fn may_is_decided()
    ensures { (rules : List RewriteRule) (a b : PairData) → May rules a b ⊎ (May rules a b → ⊥) }
{}

/// Nothing is wrong with blocks of pairs, or something is wrong first.
pub fn blocks_are_right_or_have_a_first_fault()
    ensures { (rules : List RewriteRule) (ps : List PairData) (set : List ℕ) (blocks : List (List ℕ))
        → AreBlocks (Follows rules ps) set blocks ⊎ ((f : BlockFault) × IsFirstBlockFault (Follows rules ps) set blocks f) }
{}
