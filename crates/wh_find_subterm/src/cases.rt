//! The choices of an argument for the left and for the right symbol of each pair, each with what the pair is under it.

ghost use Rattle.std.specs.Prelude.{◌+◌, ◌<◌, ◌≤◌, ◌^◌, ℕ, All, IfOk, IfSome, OnOk, length, map};
ghost use Rattle.wh_pairs.specs.PairData.{pair_data};
ghost use Rattle.wh_intern_pairs.specs.Numberings.{IsNumbering};
ghost use Rattle.wh_find_subterm.specs.Rows.{row_of};
ghost use Rattle.wh_find_subterm.specs.Cases.{Adds, AreCases, IsCase, spot, spots, spots_alike, spots_apart, spots_beside, spots_of};
ghost use Rattle.wh_find_subterm.specs.Sights.{IsSight};
ghost use Rattle.wh_find_subterm.specs.declared.rows.Row.{Row};

use crate::rows::{Row, row_of};
use crate::sight::{Sight, relation_in, sight_of};
use std::alloc::{AllocError, Global};
use wh_intern_pairs::Numbered;
use wh_pairs::Pair;
use wh_subterm::Relation;

/// The variables of the arguments and of the pair, and what the pair is under the choice.
#[derive(Clone, Copy)]
pub struct Case {
    pub left: u32,
    pub right: u32,
    pub own: u32,
    pub relation: Relation,
}

/// The cases of the pairs of a set, whose own variables are the numbers from `end` on.
pub fn cases_of(
    alloc: Global,
    rows: &[Row],
    end: u32,
    pairs: &[Pair],
    numbered: Option<&Numbered>,
    set: &[u32],
) -> Result<Vec<Case>, AllocError>
    requires set { All (λ n. n < length pairs.now) set.now }
    requires numbered { IfSome numbered (λ n. IsNumbering n.now (map pair_data pairs.now)) }
    requires room { end + length set.now < 2 ^ 32 }
    requires rows { (f : ℕ) → (row_of rows.now f).first + (row_of rows.now f).need ≤ end }
    ensures { IfOk result (λ cases. AreCases (spots rows.now (map pair_data pairs.now) end set.now) cases.items) }
{
    let mut cases = Vec::new(alloc);
    let mut own = end;
    for number in set {
        let sight = sight_of(pairs, numbered, *number);
        add_pair(
            &mut cases,
            &sight,
            row_of(rows, sight.pair.left_fun),
            row_of(rows, sight.pair.right_fun),
            own,
        )?;
        own += 1;
    }
    Ok(cases)
}

// The cases of a pair join.
fn add_pair<'a>(
    cases: &mut Vec<Case>,
    sight: &Sight<'a>,
    left: Row,
    right: Row,
    own: u32,
) -> Result<(), AllocError>
    requires sight { IsSight sight.now }
    requires left { left.first + left.need ≤ own }
    requires right { right.first + right.need ≤ own }
    ensures { OnOk result (Adds cases.old.items cases.new.items (spots_of (pair_data sight.now.pair.now) left right own)) }
{
    if sight.pair.left_fun == sight.pair.right_fun {
        add_alike(cases, sight, left, own)
    } else {
        add_apart(cases, sight, left, right, own)
    }
}

// Adds the cases of a pair with one symbol on both sides.
fn add_alike<'a>(
    cases: &mut Vec<Case>,
    sight: &Sight<'a>,
    row: Row,
    own: u32,
) -> Result<(), AllocError>
    requires sight { IsSight sight.now }
    requires row { row.first + row.need ≤ own }
    ensures { OnOk result (Adds cases.old.items cases.new.items (spots_alike (pair_data sight.now.pair.now) row own)) }
{
    for place in 0..row.need {
        cases.push(case_at(sight, row, row, own, place, place))?;
    }
    Ok(())
}

// Adds the cases of a pair with two symbols.
fn add_apart<'a>(
    cases: &mut Vec<Case>,
    sight: &Sight<'a>,
    left: Row,
    right: Row,
    own: u32,
) -> Result<(), AllocError>
    requires sight { IsSight sight.now }
    requires left { left.first + left.need ≤ own }
    requires right { right.first + right.need ≤ own }
    ensures { OnOk result (Adds cases.old.items cases.new.items (spots_apart (pair_data sight.now.pair.now) left right own)) }
{
    for place in 0..left.need {
        add_beside(cases, sight, left, right, own, place)?;
    }
    Ok(())
}

// Adds the cases of one argument on the left.
fn add_beside<'a>(
    cases: &mut Vec<Case>,
    sight: &Sight<'a>,
    left: Row,
    right: Row,
    own: u32,
    left_place: u32,
) -> Result<(), AllocError>
    requires sight { IsSight sight.now }
    requires left { left.first + left.need ≤ own }
    requires right { right.first + right.need ≤ own }
    requires place { left_place < left.need }
    ensures { OnOk result (Adds cases.old.items cases.new.items (spots_beside (pair_data sight.now.pair.now) left right own left_place)) }
{
    for place in 0..right.need {
        cases.push(case_at(sight, left, right, own, left_place, place))?;
    }
    Ok(())
}

// One of them.
fn case_at<'a>(
    sight: &Sight<'a>,
    left: Row,
    right: Row,
    own: u32,
    left_place: u32,
    right_place: u32,
) -> Case
    requires sight { IsSight sight.now }
    requires left { left.first + left.need ≤ own }
    requires right { right.first + right.need ≤ own }
    requires left_place { left_place < left.need }
    requires right_place { right_place < right.need }
    ensures { IsCase (spot (pair_data sight.now.pair.now) left right own left_place right_place) result }
{
    Case {
        left: left.first + left_place,
        right: right.first + right_place,
        own,
        relation: relation_in(sight, left_place, right_place),
    }
}
