//! Laws of lines: good inferences under proper filters have texts in certificates.

ghost use Rattle.wh_terms.specs.Rules.{RewriteRule};
ghost use Rattle.wh_system.specs.Systems.{SystemData};
ghost use Rattle.wh_system.specs.WellMade.{IsWellMadeSystem};
ghost use Rattle.wh_pairs.specs.PairData.{PairData};
ghost use Rattle.wh_order_inference.specs.Inferences.{Inference};
ghost use Rattle.wh_order_inference.specs.InferenceLimits.{InferenceFits};
ghost use Rattle.wh_order_node.specs.Filterings.{FilteringData};
ghost use Rattle.wh_order_node.specs.Ordering.{IsGoodPair, IsGoodRule};
ghost use Rattle.wh_order.specs.TreeSides.{AreFilters};
ghost use Rattle.wh_order_lines.specs.Oriented.{IsWithin};

/// Under proper filters a good inference for a rule has a text in certificates where it nests at most 64 deep: its
/// places are those of arguments, of which a symbol has at most 32.
pub fn rule_line_fits()
    ensures { (d : SystemData) (D : FilteringData) (r : RewriteRule) (i : Inference) → IsWellMadeSystem d → AreFilters d.symbols d.rules D
        → IsGoodRule d.symbols d.rules D r i → IsWithin i → InferenceFits 0 i }
{}

/// Under proper filters a good inference for a pair has a text in certificates where it nests at most 64 deep.
pub fn pair_line_fits()
    ensures { (d : SystemData) (D : FilteringData) (p : PairData) (i : Inference) → IsWellMadeSystem d → AreFilters d.symbols d.rules D
        → IsGoodPair d.symbols d.rules D p i → IsWithin i → InferenceFits 0 i }
{}
