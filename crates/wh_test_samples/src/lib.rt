//! Systems as texts, which the crates of tests share.
#![tactic(auto)]

/// `map` over lists.
pub const MAP: &[u8] =
    b"sort nat;\nsort list;\nfun zero : nat;\nfun s : nat -> nat;\nfun nil : list;\nfun cons : nat -> list -> list;\nfun map : (nat -> nat) -> list -> list;\nrule {F:[nat] nat} map (\\x:nat.F[x]) nil => nil;\nrule {F:[nat] nat, X:nat, Y:list} map (\\x:nat.F[x]) (cons X Y) => cons F[X] (map (\\x:nat.F[x]) Y);\n";

/// Functions in a list, applied one after another.
pub const FUNCTION_LIST: &[u8] =
    b"sort nat;\nsort flist;\nfun zero : nat;\nfun fnil : flist;\nfun fcons : (nat -> nat) -> flist -> flist;\nfun apply : flist -> nat -> nat;\nrule {X:nat} apply fnil X => X;\nrule {F:[nat] nat, L:flist, X:nat} apply (fcons (\\x:nat.F[x]) L) X => apply L F[X];\n";

/// A symbol that is passed without its argument.
pub const PARTIAL: &[u8] =
    b"sort nat;\nfun zero : nat;\nfun f : nat -> nat;\nfun h : (nat -> nat) -> nat;\nrule {X:nat} f X => h f;\nrule {F:nat -> nat} h F => F zero;\n";

/// The untyped lambda calculus.
pub const UNTYPED: &[u8] =
    b"sort o;\nfun lam : (o -> o) -> o;\nfun app : o -> o -> o;\nrule {F:[o] o, X:o} app (lam (\\x:o.F[x])) X => F[X];\n";

/// A call below a binder that is an argument.
pub const ETA: &[u8] =
    b"sort nat;\nfun s : nat -> nat;\nfun g : nat -> nat;\nfun k : (nat -> nat) -> nat;\nrule {X:nat} g (s X) => k (\\y:nat.g y);\n";

/// Two symbols that call each other.
pub const EVEN_ODD: &[u8] =
    b"sort nat;\nfun s : nat -> nat;\nfun e : nat -> nat;\nfun d : nat -> nat;\nrule {X:nat} e (s X) => d X;\nrule {X:nat} d (s X) => e X;\n";

/// A call of the identity in an argument.
pub const IDENTITY: &[u8] =
    b"sort nat;\nfun s : nat -> nat;\nfun i : nat -> nat;\nfun t : nat -> nat;\nrule {X:nat} i X => X;\nrule {X:nat} t (s X) => t (i X);\n";

/// Limits of functions into ordinals.
pub const ORDINALS: &[u8] =
    b"sort nat;\nsort ord;\nfun lim : (nat -> ord) -> ord;\nfun rec : ord -> nat -> nat;\nrule {F:[nat] ord, N:nat} rec (lim (\\x:nat.F[x])) N => rec F[N] N;\n";

/// A call that stands in a beta redex.
pub const BETA: &[u8] =
    b"sort o;fun c:o;fun s:o->o;fun f:o->o;rule {X:o} f (s X) => f ((\\x:o.x) (s X));";

/// Two symbols that call each other, and one that calls itself: pair 0 follows pair 1 and the other way round.
pub const APART: &[u8] =
    b"sort o;fun s:o->o;fun e:o->o;fun d:o->o;fun h:o->o;rule {X:o} e (s X) => d X;rule {X:o} d (s X) => e X;rule {X:o} h (s X) => h X;";

/// Logarithms by halves, beside rules that no interpretation of the space covers.
pub const HALVES: &[u8] =
    b"sort o;\nfun z : o;\nfun s : o -> o;\nfun h : o -> o;\nfun l : o -> o;\nfun e : o -> o;\nfun c : o -> o -> o;\nrule {X:o} l (s (s X)) => s (l (s (h X)));\nrule {} h z => z;\nrule {} h (s z) => z;\nrule {X:o} h (s (s X)) => s (h X);\nrule {X:o} e X => c (c X X) (c X X);\nrule {X:o,Y:o} c X Y => X;\nrule {X:o,Y:o} c X Y => Y;\n";

/// Where the rules of `c` are covered, the right side of that of `e` is worth four times its argument: more than any
/// coefficient that is tried.
pub const QUADRUPLE: &[u8] =
    b"sort o;\nfun s : o -> o;\nfun e : o -> o;\nfun t : o -> o;\nfun c : o -> o -> o;\nrule {X:o} t (s X) => t (e X);\nrule {X:o} e X => c (c X X) (c X X);\nrule {X:o,Y:o} c X Y => X;\nrule {X:o,Y:o} c X Y => Y;\n";
