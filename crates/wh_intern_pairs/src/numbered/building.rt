//! The sides of all pairs of a system join an empty table, once for all that compare sides by number.

ghost use Rattle.std.specs.Prelude.{IfOk, IsSomeAnd, OnOk};
ghost use Rattle.wh_pairs.specs.SystemPairs.{HasPairs};
ghost use Rattle.wh_pairs.specs.Views.{pairs_data};
ghost use Rattle.wh_system.specs.Systems.{SystemData};
ghost use Rattle.wh_intern_pairs.specs.Numberings.{IsNumbering, IsNumberingSoFar};

use super::Numbered;
use crate::numbering::number_pairs;
use std::alloc::{AllocError, Global};
use wh_intern::Table;
use wh_pairs::PairList;

impl Numbered {
    /// The sides of the pairs of a system. A full table is want of memory.
    pub fn of(alloc: Global, pairs: &PairList) -> Result<Numbered, AllocError>
        requires { (d : SystemData) × HasPairs d (pairs_data pairs.now) }
        ensures { IfOk result (λ numbered. IsNumbering numbered (pairs_data pairs.now)) }
    {
        let mut table = Table::new(alloc);
        let sides = number_pairs(alloc, pairs, &mut table)?;
        Ok(Numbered { table, sides })
    }

    /// Makes the numbered sides of the pairs of a system where they are not made yet. So a search that asks for no
    /// sides by number does not pay for them.
    pub fn once(
        alloc: Global,
        pairs: &PairList,
        made: &mut Option<Numbered>,
    ) -> Result<(), AllocError>
        requires pairs { (d : SystemData) × HasPairs d (pairs_data pairs.now) }
        requires made { IsNumberingSoFar made.old (pairs_data pairs.now) }
        ensures { OnOk result (IsSomeAnd made.new (λ numbered. IsNumbering numbered (pairs_data pairs.now))) }
    {
        if made.is_none() {
            *made = Some(Numbered::of(alloc, pairs)?);
        }
        Ok(())
    }
}
