//! Expressions, the interpretations of their symbols, and moves between polynomials.

use wh_poly::Poly;
use wh_types::SimpleType;

/// An expression in a scope; a binder is the variable whose number is the length of the scope that it stands in.
#[derive(Drop)]
pub enum Expr {
    /// A variable by its number.
    Var(u32),
    /// A symbol by its number.
    Sym(u32),
    /// A function of a variable of the type.
    Lam(SimpleType, Box<Expr>),
    /// An application of a function to one argument.
    App(Box<Expr>, Box<Expr>),
}

/// The interpretation of a symbol: a polynomial in the scope of its type's arguments.
#[derive(Drop)]
pub struct Symbol {
    /// The symbol's type.
    pub kind: SimpleType,
    /// The polynomial of the symbol.
    pub poly: Poly,
}

/// Units of a monomial of the left polynomial that are moved to one of the right polynomial.
#[derive(Drop)]
pub struct Move {
    /// The monomial on the left, counted from 0.
    pub from: u32,
    /// The monomial on the right, counted from 0.
    pub to: u32,
    /// How many units are moved.
    pub amount: u128,
}
