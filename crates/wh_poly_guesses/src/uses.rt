//! The symbols whose interpretations the value of a side depends on, for each condition of a guess. A symbol is told by
//! its own number, and a marked symbol by its place behind all symbols.

ghost use Rattle.std.specs.Prelude.{ℕ, ◌+◌, ◌≡◌, ◌⊎◌, ◌<◌, ◌≤◌, All, Contains, IfOk, Some, length, map, slice_get};
ghost use Rattle.wh_terms.specs.Erase.{rewrite_rule, rewrite_rules, tms as trees, tm};
ghost use Rattle.wh_pairs.specs.PairData.{IsIncreasing, pair_data};
ghost use Rattle.wh_pairs.specs.Marked.{AreMarked};
ghost use Rattle.wh_reduction_pairs.specs.TaskView.{task_data};
ghost use Rattle.wh_poly_guesses.specs.Conditions.{HasSymbol, SomeHasSymbol, StandsInPair};
ghost use Rattle.wh_poly_guesses.specs.Uses.{AreAllUses, ArePairUses, AreRuleUses, IsMarkOf, ListsAll, StandsInRule, UsesAll};
ghost use Rattle.wh_poly_guesses.specs.Tasks.{IsTaskOf};

use crate::terms::{add_symbols, add_symbols_of_all};
use std::alloc::{AllocError, Global};
use wh_pairs::Pair;
use wh_reduction_pairs::Task;
use wh_terms::{Rule, Term, Terms};

/// The symbols that stand on the two sides of a rule or a pair, each once and in order.
#[derive(Drop)]
pub struct Uses {
    /// The symbols on the left side.
    pub left: Vec<usize>,
    /// The symbols on the right side.
    pub right: Vec<usize>,
}

/// The symbols that stand in each rule that is to be covered, and then in each pair of the set, whose marked symbols
/// are `marked`.
pub fn uses_of<'a>(alloc: Global, task: &Task<'a>, marked: &[u32]) -> Result<Vec<Uses>, AllocError>
    requires task { IsTaskOf task.now }
    requires marked { AreMarked (task_data task.now).pairs (task_data task.now).set marked.now }
    ensures { IfOk result (λ uses. AreAllUses (task_data task.now) marked.now uses.items) }
{
    task.system.is_well_made();
    let first = task.system.fun_names().len();
    let mut uses = uses_in_rules(alloc, task.system.rules(), task.covered)?;
    let mut others = uses_in_pairs(alloc, task.pairs, task.set, marked, first)?;
    uses.append(&mut others)?;
    Ok(uses)
}

// The symbols that stand in each of the rules with these numbers.
fn uses_in_rules(alloc: Global, rules: &[Rule], covered: &[u32]) -> Result<Vec<Uses>, AllocError>
    requires { All (λ n. n < length rules.now) covered.now }
    ensures { IfOk result (λ uses. AreRuleUses (rewrite_rules rules.now) covered.now uses.items) }
{
    let mut uses = Vec::new(alloc);
    for number in covered {
        uses.push(uses_in_rule(alloc, &rules[*number as usize])?)?;
    }
    Ok(uses)
}

// The symbols that stand in the rule.
fn uses_in_rule(alloc: Global, rule: &Rule) -> Result<Uses, AllocError>
    ensures { IfOk result (UsesAll (λ n. StandsInRule n (rewrite_rule rule.now))) }
{
    let left = used_in_term(alloc, &rule.left)?;
    let right = used_in_term(alloc, &rule.right)?;
    Ok(Uses { left, right })
}

// The symbols that stand in each pair of the set, where marked symbols have numbers from `first` on.
fn uses_in_pairs(
    alloc: Global,
    pairs: &[Pair],
    set: &[u32],
    marked: &[u32],
    first: usize,
) -> Result<Vec<Uses>, AllocError>
    requires few { first ≤ 1024 }
    requires within { All (λ n. n < length pairs.now) set.now }
    requires marked { AreMarked (map pair_data pairs.now) set.now marked.now }
    ensures { IfOk result (λ uses. ArePairUses first marked.now (map pair_data pairs.now) set.now uses.items) }
{
    let mut uses = Vec::new(alloc);
    for number in set {
        let pair = &pairs[*number as usize];
        uses.push(uses_in_pair(alloc, pair, marked, first)?)?;
    }
    Ok(uses)
}

// The symbols that stand in the pair.
fn uses_in_pair(
    alloc: Global,
    pair: &Pair,
    marked: &[u32],
    first: usize,
) -> Result<Uses, AllocError>
    requires few { first ≤ 1024 }
    requires increasing { IsIncreasing marked.now }
    requires left { Contains marked.now pair.now.left_fun }
    requires right { Contains marked.now pair.now.right_fun }
    ensures { IfOk result (UsesAll (λ n. StandsInPair n (pair_data pair.now) ⊎ IsMarkOf first marked.now (pair_data pair.now) n)) }
{
    let left = place_of(marked, pair.left_fun, first);
    let right = place_of(marked, pair.right_fun, first);
    let left = used_in_terms(alloc, &pair.left, left)?;
    let right = used_in_terms(alloc, &pair.right, right)?;
    Ok(Uses { left, right })
}

// The number of the marked symbol.
fn place_of(marked: &[u32], symbol: u32, first: usize) -> usize
    requires few { first ≤ 1024 }
    requires increasing { IsIncreasing marked.now }
    requires found { Contains marked.now symbol }
    ensures { (i : ℕ) × (result ≡ first + i) × (slice_get marked.now i ≡ Some symbol) }
{
    match marked.binary_search(&symbol) {
        Ok(place) => first + place,
        Err(_) => first,
    }
}

// The symbols that stand in the term.
fn used_in_term(alloc: Global, term: &Term) -> Result<Vec<usize>, AllocError>
    ensures { IfOk result (λ numbers. ListsAll (λ n. HasSymbol n (tm term.now)) numbers.items) }
{
    let mut symbols = Vec::new(alloc);
    add_symbols(term, &mut symbols)?;
    numbers_of(alloc, &symbols)
}

// The symbols that stand in the arguments of a marked symbol, and the number `mark` of that symbol.
fn used_in_terms(alloc: Global, terms: &Terms, mark: usize) -> Result<Vec<usize>, AllocError>
    ensures { IfOk result (λ numbers. ListsAll (λ n. SomeHasSymbol n (trees terms.now) ⊎ (n ≡ mark)) numbers.items) }
{
    let mut symbols = Vec::new(alloc);
    add_symbols_of_all(terms, &mut symbols)?;
    let mut numbers = numbers_of(alloc, &symbols)?;
    numbers.push(mark)?;
    Ok(numbers)
}

// The numbers of the symbols, each once and in order.
fn numbers_of(alloc: Global, symbols: &[u32]) -> Result<Vec<usize>, AllocError>
    ensures { IfOk result (λ numbers. ListsAll (Contains symbols.now) numbers.items) }
{
    let mut sorted = Vec::from_slice(alloc, symbols)?;
    sorted.sort_unstable();
    sorted.dedup();
    let mut numbers = Vec::new(alloc);
    for symbol in &sorted {
        numbers.push(*symbol as usize)?;
    }
    Ok(numbers)
}
