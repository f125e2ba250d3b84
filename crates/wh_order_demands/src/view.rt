//! Views: what heads a tree, with the bits of the symbol where they are known.

ghost use Rattle.std.specs.Prelude.{◌≡◌, ◌++◌, IfOk, OnOk};
ghost use Rattle.wh_terms.specs.Erase.{tm};
ghost use Rattle.wh_terms.specs.Tree.{head};
ghost use Rattle.wh_order_path.specs.Heads.{arguments_of};
ghost use Rattle.wh_order_demands.specs.Views.{IsHeadSymbol, IsSpotOf, IsView, items_data};

use std::alloc::{AllocError, Global};
use wh_terms::Term;

/// Where the bits of a symbol stand.
#[derive(Clone, Copy)]
pub struct Spot {
    /// The number of the first bit. It is the bit of the first place, and is set where the place is kept.
    pub first: u32,
    /// How many places the symbol has.
    pub places: u32,
}

/// A symbol with its bits and its arguments.
#[derive(Drop)]
pub struct Call<'a> {
    /// The symbol.
    pub symbol: u32,
    /// The first of its bits.
    pub first: u32,
    /// The arguments, as many as the symbol has places.
    pub items: Vec<&'a Term>,
}

/// What heads a tree.
#[derive(Drop)]
pub enum View<'a> {
    /// A symbol with bits.
    Call(Call<'a>),
    /// A symbol without bits, or one that lacks arguments.
    Unknown,
    /// No symbol heads the tree.
    Other,
}

/// What heads the tree.
pub fn view_of<'a>(
    alloc: Global,
    spots: &[Option<Spot>],
    t: &'a Term,
) -> Result<View<'a>, AllocError>
    ensures { IfOk result (IsView spots.now (tm t.now)) }
{
    let Some(symbol) = symbol_of(t) else {
        return Ok(View::Other);
    };
    let Some(spot) = spot_of(spots, symbol) else {
        return Ok(View::Unknown);
    };
    let mut items = Vec::new(alloc);
    push_arguments(t, &mut items)?;
    if items.len() != spot.places as usize {
        return Ok(View::Unknown);
    }
    Ok(View::Call(Call {
        symbol,
        first: spot.first,
        items,
    }))
}

// The symbol that heads the tree.
fn symbol_of(t: &Term) -> Option<u32>
    ensures { IsHeadSymbol (head (tm t.now)) result }
{
    match t {
        Term::Fun(symbol) => Some(*symbol),
        Term::App(function, _) => symbol_of(function),
        Term::Bound(_) | Term::Free(_, _) | Term::Meta(_, _) | Term::Lam(_, _) => None,
    }
}

/// Where the bits of the symbol stand.
pub fn spot_of(spots: &[Option<Spot>], symbol: u32) -> Option<Spot>
    ensures { IsSpotOf spots.now symbol result }
{
    let place = symbol as usize;
    if place < spots.len() {
        spots[place]
    } else {
        None
    }
}

// Puts the arguments of the tree at the end.
fn push_arguments<'a>(t: &'a Term, items: &mut Vec<&'a Term>) -> Result<(), AllocError>
    ensures { OnOk result (items_data items.new.items ≡ items_data items.old.items ++ arguments_of (tm t.now)) }
{
    match t {
        Term::App(function, argument) => {
            push_arguments(function, items)?;
            items.push(argument)?;
            Ok(())
        }
        _ => Ok(()),
    }
}
