//! Tables of interpretations: those of the symbols, and behind them that of one more function, where there is one.

ghost use Rattle.std.specs.Prelude.{◌≡◌, ◌<◌, length};
ghost use Rattle.wh_types.specs.Erase.{ty};
ghost use Rattle.wh_poly.specs.Erase.{poly};
ghost use Rattle.wh_hopoly.specs.Erase.{interpretation, interpretations};
ghost use Rattle.wh_hopoly.specs.Evaluation.{interpretation_at};
ghost use Rattle.wh_hopoly.specs.Valued.{readings, IsKnown};

use crate::expression::Symbol;
use wh_poly::Poly;
use wh_types::SimpleType;

/// The readings of symbols by their numbers.
#[derive(Clone, Copy)]
pub enum Table<'a> {
    /// The readings of these symbols.
    Alone(&'a [Symbol]),
    /// The readings of these symbols, and behind them a function of this type and polynomial.
    With(&'a [Symbol], &'a SimpleType, &'a Poly),
}

/// The type of the symbol.
pub fn kind_of<'a>(table: &'a Table<'a>, symbol: u32) -> &'a SimpleType
    requires { IsKnown (readings table.now) symbol }
    ensures { ty result.now ≡ (interpretation_at (readings table.now) symbol).kind }
{
    match table {
        Table::Alone(symbols) => &symbol_at(symbols, symbol).kind,
        Table::With(symbols, kind, _) => {
            if (symbol as usize) < symbols.len() {
                &symbol_at(symbols, symbol).kind
            } else {
                kind
            }
        }
    }
}

/// The polynomial of the symbol.
pub fn polynomial_of<'a>(table: &'a Table<'a>, symbol: u32) -> &'a Poly
    requires { IsKnown (readings table.now) symbol }
    ensures { poly result.now ≡ (interpretation_at (readings table.now) symbol).polynomial }
{
    match table {
        Table::Alone(symbols) => &symbol_at(symbols, symbol).poly,
        Table::With(symbols, _, poly) => {
            if (symbol as usize) < symbols.len() {
                &symbol_at(symbols, symbol).poly
            } else {
                poly
            }
        }
    }
}

fn symbol_at(symbols: &[Symbol], symbol: u32) -> &Symbol
    requires { symbol < length symbols.now }
    ensures { interpretation_at (interpretations symbols.now) symbol ≡ interpretation result.now }
{
    &symbols[symbol as usize]
}
