//! Tables of numbers that are listed under keys.

ghost use Rattle.std.specs.Prelude.{◌≡◌, ◌<◌, Some, IfOk, OnOk, length, slice_get};
ghost use Rattle.wh_loop_steps.specs.Tables.{HasNumber, KeepsNumbers};

use std::alloc::{AllocError, Global};
use std::marker::Model;
use wh_types::Numbers;

/// A row of numbers for each key.
#[derive(Drop)]
pub struct Table {
    rows: Vec<Numbers>,
}

impl Model for Table {
    ghost use Rattle.std.specs.Prelude.{List, ℕ};

    ghost Value = { List (List ℕ) };

    ghost view = { λ table. table.rows.items };
}

impl Table {
    /// `count` rows without numbers.
    pub fn new(alloc: Global, count: usize) -> Result<Table, AllocError>
        ensures { IfOk result (λ table. length table ≡ count) }
    {
        let mut rows = Vec::new(alloc);
        for _ in 0..count {
            rows.push(Numbers::new(alloc))?;
        }
        Ok(Table { rows })
    }

    /// The number joins the row of the key.
    pub fn add(&mut self, key: usize, number: u32) -> Result<(), AllocError>
        requires { key < length self.old }
        ensures count { OnOk result (length self.new ≡ length self.old) }
        ensures kept { OnOk result (KeepsNumbers self.old self.new) }
        ensures added { OnOk result (HasNumber self.new key number) }
    {
        self.rows[key].push(number)?;
        Ok(())
    }

    /// The numbers under the key.
    pub fn row(&self, key: usize) -> &[u32]
        requires { key < length self.now }
        ensures { slice_get self.now key ≡ Some result.now }
    {
        self.rows[key].as_slice()
    }

    /// How many keys there are.
    pub fn len(&self) -> usize
        ensures { result ≡ length self.now }
    {
        self.rows.len()
    }
}
