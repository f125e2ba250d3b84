//! The least of some numbers, of which there may be none.

ghost use Rattle.std.specs.Prelude.{◌≡◌};
ghost use Rattle.wh_graph.specs.Least.{smaller};

/// The smaller of two numbers, of which none, one or both are there.
pub fn smaller(a: Option<u32>, b: Option<u32>) -> Option<u32>
    ensures { result ≡ smaller a b }
{
    match (a, b) {
        (Some(m), Some(n)) => { if m <= n { Some(m) } else { Some(n) } }
        (Some(m), None) => Some(m),
        (None, _) => b,
    }
}
