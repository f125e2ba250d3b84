//! The table of the rules of each symbol, so that a step tries only the rules of the symbol that heads its redex.

ghost use Rattle.std.specs.Prelude.{◌≡◌, ◌<◌, ◌^◌, ℕ, IfOk, OnOk, length};
ghost use Rattle.wh_terms.specs.Tree.{fun, head};
ghost use Rattle.wh_terms.specs.Typing.{Symbols};
ghost use Rattle.wh_terms.specs.Erase.{tm, rewrite_rule, rewrite_rules};
ghost use Rattle.wh_terms.specs.Rules.{IsWellMade, AreWellMade};
ghost use Rattle.wh_loop_steps.specs.Tables.{HasNumber, KeepsNumbers};
ghost use Rattle.wh_loop_steps.specs.StepLists.{IsRuleTable};

use crate::candidates::head_symbol;
use crate::table::Table;
use std::alloc::{AllocError, Global};
use wh_terms::Rule;

/// The numbers of the rules, each in the row of the symbol that heads its left side.
pub fn table_of_rules(alloc: Global, rules: &[Rule], symbols: usize) -> Result<Table, AllocError>
    requires well_made { (S : Symbols) × AreWellMade S (rewrite_rules rules.now) × (length S.funs ≡ symbols) }
    requires few { length rules.now < 2 ^ 32 }
    ensures { IfOk result (IsRuleTable (rewrite_rules rules.now)) }
{
    let mut table = Table::new(alloc, symbols)?;
    for (number, rule) in rules.iter().enumerate() {
        add_rule(&mut table, rule, number as u32)?;
    }
    Ok(table)
}

// The number of a rule joins the row of its symbol.
fn add_rule(table: &mut Table, rule: &Rule, number: u32) -> Result<(), AllocError>
    requires { (S : Symbols) × IsWellMade S (rewrite_rule rule.now) × (length S.funs ≡ length table.old) }
    ensures count { OnOk result (length table.new ≡ length table.old) }
    ensures kept { OnOk result (KeepsNumbers table.old table.new) }
    ensures added { OnOk result ((f : ℕ) → head (tm rule.now.left) ≡ fun f → HasNumber table.new f number) }
{
    match head_symbol(&rule.left) {
        Some(symbol) => table.add(symbol as usize, number),
        None => Ok(()),
    }
}
