//! The polynomials themselves: sums of monomials, products of factors, and their arguments.

ghost use Rattle.std.specs.Prelude.{◌≡◌, [], ◌∷◌, ◌++◌, IfOk, OnOk, OnErr};

use std::alloc::{AllocError, Global};
use std::collections::VecDeque;

/// A sum of monomials.
#[cycle(poly)]
#[derive(Drop)]
pub struct Poly {
    items: Vec<Monomial>,
}

/// A coefficient times factors.
#[cycle(poly)]
#[derive(Drop)]
pub struct Monomial {
    /// How many times.
    pub coefficient: u128,
    /// The factors.
    pub atoms: Atoms,
}

/// A product of factors.
#[cycle(poly)]
#[derive(Drop)]
pub struct Atoms {
    items: Vec<Atom>,
}

/// A variable with arguments.
#[cycle(poly)]
#[derive(Drop)]
pub struct Atom {
    /// The number of the variable in the scope.
    pub head: u32,
    /// The arguments of the variable, each in the scope that goes on with the variables of its type.
    pub args: Polys,
}

/// The arguments of a variable.
#[cycle(poly)]
#[derive(Drop)]
pub struct Polys {
    items: Vec<Poly>,
}

impl Poly {
    ghost use Rattle.wh_poly.specs.Erase.{monomials};

    /// The polynomial 0.
    pub fn new(alloc: Global) -> Poly
        ensures { monomials result ≡ [] }
    {
        Poly {
            items: Vec::new(alloc),
        }
    }

    /// The polynomial 0, with room for `count` monomials.
    pub fn with_capacity(alloc: Global, count: usize) -> Result<Poly, AllocError>
        ensures { IfOk result (λ made. monomials made ≡ []) }
    {
        Ok(Poly {
            items: Vec::with_capacity(alloc, count)?,
        })
    }

    /// The monomial joins at the end; without memory the polynomial stays as it was.
    pub fn push(&mut self, item: Monomial) -> Result<(), AllocError>
        ensures ok { OnOk result (monomials self.new ≡ monomials self.old ++ item ∷ []) }
        ensures err { OnErr result (monomials self.new ≡ monomials self.old) }
    {
        self.items.push(item)?;
        Ok(())
    }

    /// The monomials of the other polynomial join at the end.
    pub fn append(&mut self, other: Poly) -> Result<(), AllocError>
        ensures { OnOk result (monomials self.new ≡ monomials self.old ++ monomials other) }
    {
        let Poly { items } = other;
        let mut more = items;
        self.items.append(&mut more)?;
        Ok(())
    }

    /// The monomials in order.
    pub fn as_slice(&self) -> &[Monomial]
        ensures { result.now ≡ monomials self.now }
    {
        self.items.as_slice()
    }

    /// The monomials, to be taken one by one.
    pub fn into_queue(self) -> VecDeque<Monomial>
        ensures { result.items ≡ monomials self }
    {
        let Poly { items } = self;
        VecDeque::from_vec(items)
    }
}

impl Atoms {
    ghost use Rattle.wh_poly.specs.Erase.{factors};

    /// The product without factors.
    pub fn new(alloc: Global) -> Atoms
        ensures { factors result ≡ [] }
    {
        Atoms {
            items: Vec::new(alloc),
        }
    }

    /// A product without factors, with room for `count` factors.
    pub fn with_capacity(alloc: Global, count: usize) -> Result<Atoms, AllocError>
        ensures { IfOk result (λ made. factors made ≡ []) }
    {
        Ok(Atoms {
            items: Vec::with_capacity(alloc, count)?,
        })
    }

    /// The factor joins at the end; without memory the list stays as it was.
    #[inline(always)]
    pub fn push(&mut self, item: Atom) -> Result<(), AllocError>
        ensures ok { OnOk result (factors self.new ≡ factors self.old ++ item ∷ []) }
        ensures err { OnErr result (factors self.new ≡ factors self.old) }
    {
        self.items.push(item)?;
        Ok(())
    }

    /// The factors in order.
    pub fn as_slice(&self) -> &[Atom]
        ensures { result.now ≡ factors self.now }
    {
        self.items.as_slice()
    }

    /// The factors, to be taken one by one.
    pub fn into_queue(self) -> VecDeque<Atom>
        ensures { result.items ≡ factors self }
    {
        let Atoms { items } = self;
        VecDeque::from_vec(items)
    }
}

impl Polys {
    ghost use Rattle.wh_poly.specs.Erase.{list};

    /// The list without arguments.
    pub fn new(alloc: Global) -> Polys
        ensures { list result ≡ [] }
    {
        Polys {
            items: Vec::new(alloc),
        }
    }

    /// The argument joins at the end; without memory the list stays as it was.
    pub fn push(&mut self, item: Poly) -> Result<(), AllocError>
        ensures ok { OnOk result (list self.new ≡ list self.old ++ item ∷ []) }
        ensures err { OnErr result (list self.new ≡ list self.old) }
    {
        self.items.push(item)?;
        Ok(())
    }

    /// The arguments in order.
    pub fn as_slice(&self) -> &[Poly]
        ensures { result.now ≡ list self.now }
    {
        self.items.as_slice()
    }
}
