//! Laws on covers by moves: a polynomial that covers another one means a number at least as great.

ghost use Rattle.std.specs.Prelude.{List, ◌≤◌, ◌<◌};
ghost use Rattle.wh_types.specs.Ty.{Ty};
ghost use Rattle.wh_poly.specs.Polynomials.{Polynomial, Normal};
ghost use Rattle.wh_poly_meaning.specs.Valuations.{Valuation, MonoValuation};
ghost use Rattle.wh_poly_meaning.specs.Meaning.{den};
ghost use Rattle.wh_hopoly.specs.Moves.{Transfer, IsCover, IsStrictCover};

/// A polynomial that covers another one by moves means a number at least as great, under every monotone valuation.
pub fn covers_mean_at_least()
    ensures { (scope : List Ty) (v : Valuation) (left right : Polynomial) (moves : List Transfer) → MonoValuation v → Normal scope left
        → Normal scope right → IsCover left right moves → den scope v right ≤ den scope v left }
{}

/// A polynomial that strictly covers another one by moves means a greater number, under every monotone valuation.
pub fn strict_covers_mean_greater()
    ensures { (scope : List Ty) (v : Valuation) (left right : Polynomial) (moves : List Transfer) → MonoValuation v → Normal scope left
        → Normal scope right → IsStrictCover left right moves → den scope v right < den scope v left }
{}
