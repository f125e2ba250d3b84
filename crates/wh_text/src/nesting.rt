//! How deep terms nest in the texts that are read: the limits of wh_types, as tests before one more level opens.

ghost use Rattle.std.specs.Prelude.{◌≡◌, nat_lt};
ghost use Rattle.wh_types.specs.Limits.{deepest_certificate_term, deepest_term};

/// How deep terms may nest in a system's text.
const DEEPEST_TERM: usize = 400;

/// How deep terms may nest in a certificate.
const DEEPEST_CERTIFICATE_TERM: usize = 200;

/// Whether a term in a system's text may open one more level (a parenthesis, a bracket or an abstraction) where
/// `levels` levels are open around it. At most 400 are open at once, by a limit of ours.
pub fn opens_in_system(levels: usize) -> bool
    ensures { result ≡ nat_lt levels deepest_term }
{
    levels < DEEPEST_TERM
}

/// Whether a term in a certificate may open one more parenthesis where `levels` parentheses are open around it. At most
/// 200 are open at once, by a limit of ours.
pub fn opens_in_certificate(levels: usize) -> bool
    ensures { result ≡ nat_lt levels deepest_certificate_term }
{
    levels < DEEPEST_CERTIFICATE_TERM
}
