//! Rows: which variables of the formula stand for the arguments of which marked symbol.

ghost use Rattle.std.specs.Prelude.{◌≡◌, IfOk};
ghost use Rattle.wh_system.specs.SystemView.{system_data};
ghost use Rattle.wh_find_subterm.specs.Rows.{choices_of, end_from, row_of, rows_from};

use std::alloc::{AllocError, Global};
use wh_system::System;

/// A marked symbol, how many arguments it has to choose from, and the variable of the first of them.
#[derive(Clone, Copy)]
pub struct Row {
    pub symbol: u32,
    pub need: u32,
    pub first: u32,
}

/// The rows of some symbols in order, and the number behind their variables.
#[derive(Drop)]
pub struct Rows {
    pub items: Vec<Row>,
    pub end: u32,
}

/// The rows of some symbols. More variables than numbers count as want of memory.
pub fn rows_of(alloc: Global, system: &System, symbols: &[u32]) -> Result<Rows, AllocError>
    ensures items { IfOk result (λ rows. rows.items.items ≡ rows_from (system_data system.now).rules 0 symbols.now) }
    ensures end { IfOk result (λ rows. rows.end ≡ end_from (system_data system.now).rules 0 symbols.now) }
{
    let mut items = Vec::new(alloc);
    let mut end: u32 = 0;
    for symbol in symbols {
        let need = choices(system, *symbol);
        items.push(Row {
            symbol: *symbol,
            need,
            first: end,
        })?;
        end = end.checked_add(need).ok_or(AllocError)?;
    }
    Ok(Rows { items, end })
}

// How many arguments a symbol has to choose from.
fn choices(system: &System, symbol: u32) -> u32
    ensures { result ≡ choices_of (system_data system.now).rules symbol }
{
    match system.need(symbol) {
        Some(need) => need,
        None => 0,
    }
}

/// The row of a symbol.
pub fn row_of(rows: &[Row], symbol: u32) -> Row
    ensures { result ≡ row_of rows.now symbol }
{
    for row in rows {
        if row.symbol == symbol {
            return *row;
        }
    }
    Row {
        symbol,
        need: 0,
        first: 0,
    }
}
