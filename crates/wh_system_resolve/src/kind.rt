//! Types of parts of a side. They are borrowed where they stand elsewhere, and copied only where they must be.

ghost use Rattle.std.specs.Prelude.{◌≡◌, Some, IfOk, IfSome, is_some};
ghost use Rattle.wh_types.specs.Erase.{ty};
ghost use Rattle.wh_system_parts.specs.Kinds.{takes, gives};
ghost use Rattle.wh_system_resolve.specs.InScope.{type_of};

use std::alloc::{AllocError, Global};
use wh_types::{SimpleType, same_type};

/// The type of a part: one that stands elsewhere, or one of its own.
#[derive(Drop)]
pub enum Kind<'a> {
    /// A type that stands elsewhere, as that of a symbol or a part of it.
    Known(&'a SimpleType),
    /// A type that the part owns.
    Own(SimpleType),
}

impl<'a> Kind<'a> {
    /// The type of the part, borrowed.
    pub fn as_type(&self) -> &SimpleType
        ensures { ty result.now ≡ type_of self.now }
    {
        match self {
            Kind::Known(kind) => kind,
            Kind::Own(kind) => kind,
        }
    }

    /// The type, owned: a type that stands elsewhere is copied.
    pub fn into_type(self, alloc: Global) -> Result<SimpleType, AllocError>
        ensures { IfOk result (λ own. ty own ≡ type_of self.entry) }
    {
        match self {
            Kind::Known(kind) => kind.copy(alloc),
            Kind::Own(kind) => Ok(kind),
        }
    }

    /// The type of what a function of this type gives for an argument of that type; `None` exactly where it takes no
    /// such argument.
    pub fn applied_to(self, argument: &SimpleType) -> Option<Kind<'a>>
        ensures taken { is_some result ≡ takes (Some (type_of self.entry)) (Some (ty argument.now)) }
        ensures given { IfSome result (λ rest. gives (Some (type_of self.entry)) ≡ Some (type_of rest)) }
    {
        match self {
            Kind::Known(kind) => match kind {
                SimpleType::Arrow(domain, rest) => {
                    if same_type(domain, argument) {
                        Some(Kind::Known(rest))
                    } else {
                        None
                    }
                }
                SimpleType::Sort(_) => None,
            },
            Kind::Own(SimpleType::Arrow(domain, rest)) => {
                if same_type(&domain, argument) {
                    Some(Kind::Own(Box::into_inner(rest)))
                } else {
                    None
                }
            }
            Kind::Own(SimpleType::Sort(_)) => None,
        }
    }
}
