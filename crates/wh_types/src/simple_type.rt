//! Simple types: a sort, or an arrow of two types. Terms, symbols and meta-variables have them; sorts are numbers.

ghost use Rattle.std.specs.Prelude.{◌≡◌, ◌↔◌, ◌<◌, ◌^◌, IsTrue, IfOk, length, slice_get};
ghost use Rattle.wh_types.specs.Erase.{ty};
ghost use Rattle.wh_types.specs.Ty.{arguments, result_sort};

use std::alloc::{AllocError, Global};

/// A simple type. Sorts are numbered in order of declaration, from 0.
#[derive(Drop)]
pub enum SimpleType {
    /// A sort by its number.
    Sort(u32),
    /// The type of functions from the first type to the second.
    Arrow(Box<SimpleType>, Box<SimpleType>),
}

impl SimpleType {
    /// How many arguments a term of this type takes.
    pub fn arity(&self) -> u32
        requires { length (arguments (ty self.now)) < 2 ^ 32 }
        ensures { result ≡ length (arguments (ty self.now)) }
    {
        let mut count = 0;
        let mut here = self;
        while let SimpleType::Arrow(_, rest) = here {
            count += 1;
            here = rest;
        }
        count
    }

    /// The sort of a term of this type that has all its arguments.
    pub fn result_sort(&self) -> u32
        ensures { result ≡ result_sort (ty self.now) }
    {
        let mut here = self;
        loop {
            match here {
                SimpleType::Sort(sort) => return *sort,
                SimpleType::Arrow(_, rest) => here = rest,
            }
        }
    }

    /// The type of argument `i`, counted from 0.
    pub fn argument(&self, i: u32) -> &SimpleType
        requires { i < length (arguments (ty self.now)) }
        ensures { slice_get (arguments (ty self.now)) i ≡ Some (ty result.now) }
    {
        let mut left = i;
        let mut here = self;
        while let SimpleType::Arrow(first, rest) = here {
            if left == 0 {
                return first;
            }
            left -= 1;
            here = rest;
        }
        unreachable!()
    }

    /// An equal type.
    pub fn copy(&self, alloc: Global) -> Result<SimpleType, AllocError>
        ensures { IfOk result (λ copy. ty copy ≡ ty self.now) }
    {
        match self {
            SimpleType::Sort(sort) => Ok(SimpleType::Sort(*sort)),
            SimpleType::Arrow(argument, rest) => Ok(SimpleType::Arrow(
                Box::new(alloc, argument.copy(alloc)?)?,
                Box::new(alloc, rest.copy(alloc)?)?,
            )),
        }
    }
}

/// Whether two types are equal, as trees.
pub fn same_type(a: &SimpleType, b: &SimpleType) -> bool
    ensures { IsTrue result ↔ (ty a.now ≡ ty b.now) }
{
    match (a, b) {
        (SimpleType::Sort(s), SimpleType::Sort(t)) => *s == *t,
        (SimpleType::Arrow(a1, a2), SimpleType::Arrow(b1, b2)) => {
            same_type(a1, b1) && same_type(a2, b2)
        }
        _ => false,
    }
}
