//! Printing the lines of rules.

ghost use Rattle.std.specs.Prelude.{◌≡◌, OnOk, Some, slice_get};
ghost use Rattle.wh_terms.specs.Erase.{rewrite_rule};
ghost use Rattle.wh_text.specs.Pushes.{Pushes};
ghost use Rattle.wh_system.specs.SystemView.{system_data};
ghost use Rattle.wh_system_print.specs.SystemText.{put_rule, put_rules};

use crate::declarations::print_metas;
use crate::names::names_of_rule;
use crate::terms::print_tree;
use std::alloc::AllocError;
use wh_system::System;
use wh_terms::Rule;
use wh_types::Bytes;

/// The lines of the rules.
pub fn print_rules(out: &mut Bytes, system: &System) -> Result<(), AllocError>
    ensures { OnOk result (Pushes out.old out.new (put_rules (system_data system.now) 0 (system_data system.now).rules)) }
{
    for (k, rule) in system.rules().iter().enumerate() {
        print_rule(out, system, k as u32, rule)?;
    }
    Ok(())
}

// `rule {METAS} LEFT => RIGHT;`, of the rule with the number `k`.
fn print_rule(out: &mut Bytes, system: &System, k: u32, rule: &Rule) -> Result<(), AllocError>
    requires { slice_get (system_data system.now).rules k ≡ Some (rewrite_rule rule.now) }
    ensures { OnOk result (Pushes out.old out.new (put_rule (system_data system.now) k (rewrite_rule rule.now))) }
{
    out.append(b"rule {")?;
    print_metas(
        out,
        system.sort_names(),
        system.meta_names(k),
        rule.metas.as_slice(),
    )?;
    out.append(b"} ")?;
    let names = names_of_rule(system, k);
    print_tree(out, &names, &rule.left, 0)?;
    out.append(b" => ")?;
    print_tree(out, &names, &rule.right, 0)?;
    out.append(b";\n")
}
