//! Which rules are taken, since the symbols that head their left sides are called.

ghost use Rattle.std.specs.Prelude.{◌<◌, ◌≤◌, ◌^◌, All, IfOk, length, map};
ghost use Rattle.wh_terms.specs.Erase.{rewrite_rules};
ghost use Rattle.wh_pairs.specs.PairData.{pair_data};
ghost use Rattle.wh_pairs.specs.Sets.{IsSetOf};
ghost use Rattle.wh_usable_rules.specs.Called.{StandsInPairs};
ghost use Rattle.wh_usable_rules.specs.Tables.{Enters, Says};
ghost use Rattle.wh_usable_rules.specs.Taken.{AreTaken, IsPass};

use crate::calls::{call_symbols, call_symbols_of_all, calls_head, enter, says};
use std::alloc::{AllocError, Global};
use wh_pairs::Pair;
use wh_terms::Rule;
use wh_types::Numbers;

/// The symbols in the right arguments of the pairs of the set are called.
pub fn call_pairs(called: &mut [bool], pairs: &[Pair], set: &[u32])
    requires { All (λ n. n < length pairs.now) set.now }
    ensures { Enters (StandsInPairs (map pair_data pairs.now) set.now) called.old called.new }
{
    for number in set {
        call_symbols_of_all(called, &pairs[*number as usize].right);
    }
}

/// Takes all rules of symbols that are called; what the right sides of these call is called then.
pub fn take_all(called: &mut [bool], taken: &mut [bool], rules: &[Rule])
    requires { length rules.now ≤ length taken.old }
    ensures { AreTaken (rewrite_rules rules.now) called.old taken.old called.new taken.new }
{
    while take_some(called, taken, rules) {}
}

// Takes, in order, each rule of a symbol that is called by then. Whether there is one that was not taken before.
fn take_some(called: &mut [bool], taken: &mut [bool], rules: &[Rule]) -> bool
    requires { length rules.now ≤ length taken.old }
    ensures { IsPass (rewrite_rules rules.now) called.old taken.old called.new taken.new (length rules.now) result }
{
    let mut some = false;
    for (number, rule) in rules.iter().enumerate() {
        if !says(taken, number) && calls_head(called, &rule.left) {
            enter(taken, number);
            call_symbols(called, &rule.right);
            some = true;
        }
    }
    some
}

/// The numbers of the rules that are taken.
pub fn numbers_of(alloc: Global, taken: &[bool]) -> Result<Numbers, AllocError>
    requires { length taken.now < 2 ^ 32 }
    ensures { IfOk result (IsSetOf (Says taken.now)) }
{
    let mut numbers = Numbers::new(alloc);
    for number in 0..taken.len() as u32 {
        if says(taken, number as usize) {
            numbers.push(number)?;
        }
    }
    Ok(numbers)
}
