//! Laws of polynomials: of sums and products, of their order, and of sums that exceed a limit.

ghost use Rattle.std.specs.Prelude.{ℕ, ◌⊎◌, List, ◌↔◌, ◌≡◌};
ghost use Rattle.std.specs.declared.cmp.Ordering.TheVariants.{Less, Equal};
ghost use Rattle.std.specs.Ordering.{ordering_reverse};
ghost use Rattle.wh_types.specs.Ty.{Ty};
ghost use Rattle.wh_poly.specs.Polynomials.{Polynomial, plus, Factors, compare_polynomials, Normal};
ghost use Rattle.wh_poly.specs.Arithmetic.{sum_poly, scale, multiply};
ghost use Rattle.wh_poly.specs.Limits.{Overflows, TooLarge};

/// The sum of two normal polynomials is normal.
pub fn sums_are_normal()
    ensures { (scope : List Ty) (p q : Polynomial) → Normal scope p → Normal scope q → Normal scope (sum_poly p q) }
{}

/// The product of two normal polynomials is normal.
pub fn products_are_normal()
    ensures { (scope : List Ty) (p q : Polynomial) → Normal scope p → Normal scope q → Normal scope (multiply p q) }
{}

/// Two normal polynomials have the same sum in either order.
pub fn sums_commute()
    ensures { (scope : List Ty) (p q : Polynomial) → Normal scope p → Normal scope q → sum_poly p q ≡ sum_poly q p }
{}

/// Three normal polynomials have the same sum whichever two are added first.
pub fn sums_associate()
    ensures { (scope : List Ty) (p q r : Polynomial) → Normal scope p → Normal scope q → Normal scope r
        → sum_poly (sum_poly p q) r ≡ sum_poly p (sum_poly q r) }
{}

/// What exceeds a limit does so in each sum with a normal polynomial.
pub fn parts_of_sums_exceed_in_them()
    ensures overflow { (p q : Polynomial) → Overflows p → Overflows (sum_poly p q) }
    ensures large { (scope : List Ty) (p q : Polynomial) → Normal scope p → Normal scope q → TooLarge p → TooLarge (sum_poly p q) }
{}

/// What exceeds a limit in a row of a product, or in the product without that row, does so in the product.
pub fn rows_of_products_exceed_in_them()
    ensures overflow { (c : ℕ) (us : Factors) (p q : Polynomial) → Overflows (scale c us q) ⊎ Overflows (multiply p q)
        → Overflows (multiply (plus c us p) q) }
    ensures large { (scope : List Ty) (c : ℕ) (us : Factors) (p q : Polynomial) → Normal scope (plus c us p) → Normal scope q
        → TooLarge (scale c us q) ⊎ TooLarge (multiply p q) → TooLarge (multiply (plus c us p) q) }
{}

/// Two polynomials compare as equal exactly where they are equal.
pub fn equal_polynomials_compare_as_equal()
    ensures { (p q : Polynomial) → (compare_polynomials p q ≡ Equal) ↔ (p ≡ q) }
{}

/// Two polynomials the other way round compare in the reverse order.
pub fn comparing_is_reversed()
    ensures { (p q : Polynomial) → compare_polynomials p q ≡ ordering_reverse (compare_polynomials q p) }
{}

/// A polynomial before a second one, which is before a third, is before the third.
pub fn comparing_is_transitive()
    ensures { (p q r : Polynomial) → compare_polynomials p q ≡ Less → compare_polynomials q r ≡ Less → compare_polynomials p r ≡ Less }
{}

/// A partial sum that exceeds a limit does so in every later one.
pub fn partial_sums_exceed_in_the_next()
    ensures overflow { (p q : Polynomial) → Overflows q → Overflows (sum_poly p q) }
    ensures large { (p q : Polynomial) → TooLarge q → TooLarge (sum_poly p q) }
{}
