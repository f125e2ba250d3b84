//! Laws of evaluation: values are normal, and faults are of values.

ghost use Rattle.std.specs.Prelude.{ℕ, ◌<◌, List, ◌↔◌, ◌++◌};
ghost use Rattle.wh_types.specs.Ty.{Ty, arguments};
ghost use Rattle.wh_poly.specs.Polynomials.{Polynomial, Normal};
ghost use Rattle.wh_poly.specs.Limits.{Overflows, TooLarge};
ghost use Rattle.wh_hopoly.specs.Evaluation.{Expression, Interpretation, TypedExpression, NormalInterpretations, type_of, evaluate, Values};
ghost use Rattle.wh_hopoly.specs.NumberedParts.{parts, ValueOfPart};
ghost use Rattle.wh_hopoly.specs.Outcomes.{IsFaultOf};
ghost use Rattle.wh_hopoly.specs.declared.fault.PolyFault.TheVariants.{Overflow, TooLarge as too_large};

/// The value of a well-typed expression over normal interpretations is normal.
pub fn values_are_normal()
    ensures { (symbols : List Interpretation) (scope : List Ty) (e : Expression) → NormalInterpretations symbols
        → TypedExpression symbols scope e → Normal (scope ++ arguments (type_of symbols scope e)) (evaluate symbols scope e).result }
{}

/// The values of an evaluation are those that the rules of its parts give.
pub fn values_are_those_of_the_parts()
    ensures { (symbols : List Interpretation) (scope : List Ty) (e : Expression) (w : Polynomial)
        → Values symbols scope e w ↔ ((k : ℕ) × (k < parts e) × ValueOfPart symbols scope e k w) }
{}

/// The value that a fault speaks of is one of the values of the evaluation.
pub fn faults_are_of_values()
    ensures overflow { (symbols : List Interpretation) (scope : List Ty) (e : Expression) (k : ℕ)
        → IsFaultOf symbols scope e (Overflow k) → (w : Polynomial) × Values symbols scope e w × Overflows w }
    ensures large { (symbols : List Interpretation) (scope : List Ty) (e : Expression) (k : ℕ) → IsFaultOf symbols scope e (too_large k)
        → (w : Polynomial) × Values symbols scope e w × TooLarge w }
{}
