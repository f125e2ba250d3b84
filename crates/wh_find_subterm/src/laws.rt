//! Laws of the formula of projections: its models are the projections that let a pair go.

ghost use Rattle.wh_find_subterm.specs.Laws.{FormulaIsOne, ModelsAreProjections, ProjectionsAreModels};

/// Each model of the formula says a projection that drops a pair.
pub fn models_are_projections()
    ensures { ModelsAreProjections }
{}

/// Each projection that drops a pair is said by a model of the formula.
pub fn projections_are_models()
    ensures { ProjectionsAreModels }
{}

/// A set of pairs has one formula.
pub fn formula_is_one()
    ensures { FormulaIsOne }
{}
