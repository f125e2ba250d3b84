//! Laws on the values of expressions: evaluation keeps the meaning.

ghost use Rattle.std.specs.Prelude.{List, ◌≡◌, ◌≤◌};
ghost use Rattle.wh_types.specs.Ty.{Ty};
ghost use Rattle.wh_poly.specs.Polynomials.{Polynomial, Sorted};
ghost use Rattle.wh_hopoly.specs.Evaluation.{Expression, Interpretation, TypedExpression, NormalInterpretations, type_of, evaluate};
ghost use Rattle.wh_hopoly.specs.Covers.{AtLeast};
ghost use Rattle.wh_poly_meaning.specs.Valuations.{Valuation};
ghost use Rattle.wh_poly_meaning.specs.Meaning.{den, reading, mean};

/// The value of a well-typed expression over normal interpretations means the same as the expression.
pub fn values_mean_the_same()
    ensures { (symbols : List Interpretation) (scope : List Ty) (e : Expression) (v : Valuation) → NormalInterpretations symbols
        → TypedExpression symbols scope e → reading (type_of symbols scope e) scope v
        (evaluate symbols scope e).result ≡ mean symbols scope e v }
{}

/// A polynomial that is at least another one by its monomials means a number at least as great.
pub fn at_least_means_at_least()
    ensures { (scope : List Ty) (v : Valuation) (a b : Polynomial) → Sorted a → Sorted b → AtLeast a b → den scope v b ≤ den scope v a }
{}
