//! The names of what stands in a rule or in a dependency pair. The first meta-variables of a pair are those of its
//! rule, and have their names; the others are fresh, and are named by `?` and a number. No name of a system begins so.

ghost use Rattle.std.specs.Prelude.{◌≡◌, ◌<◌, ◌++◌, OnOk, IfOk, length};
ghost use Rattle.wh_system.specs.Canonical.{name_at};
ghost use Rattle.wh_system.specs.CanonicalView.{names_of_rule};
ghost use Rattle.wh_pairs.specs.PairData.{pair_data};
ghost use Rattle.wh_system.specs.SystemView.{system_data};
ghost use Rattle.wh_system_print.specs.Named.{IsNamedPair};
ghost use Rattle.wh_system_print.specs.PairText.{names_of_pair};
ghost use Rattle.wh_system_print.specs.NameViews.{printed_names};

use std::alloc::AllocError;
use wh_pairs::Pair;
use wh_system::System;
use wh_text::{Name, print_number};
use wh_types::{Bytes, counted};

/// The names in a rule or a pair.
#[derive(Drop)]
pub struct PrintedNames<'a> {
    /// The names of the sorts.
    pub sorts: &'a [Name],
    /// The names of the symbols.
    pub funs: &'a [Name],
    /// The names of the rule's meta-variables, which come first.
    pub own: &'a [Name],
    /// How many fresh meta-variables come behind these.
    pub fresh: u32,
}

/// The names in the rule with that number, which has no fresh meta-variables.
pub fn names_of_rule<'a>(system: &'a System, rule: u32) -> PrintedNames<'a>
    requires { rule < length (system_data system.now).meta_names }
    ensures { printed_names result ≡ names_of_rule (system_data system.now) rule }
{
    PrintedNames {
        sorts: system.sort_names(),
        funs: system.fun_names(),
        own: system.meta_names(rule),
        fresh: 0,
    }
}

/// The names in a pair of the system.
pub fn names_of_pair<'a>(system: &'a System, pair: &Pair) -> Result<PrintedNames<'a>, AllocError>
    requires { IsNamedPair (system_data system.now) (pair_data pair.now) }
    ensures { IfOk result (λ names. printed_names names ≡ names_of_pair (system_data system.now) (pair_data pair.now)) }
{
    let own = system.meta_names(pair.rule);
    let fresh = counted(pair.metas.as_slice().len() - own.len())?;
    Ok(PrintedNames {
        sorts: system.sort_names(),
        funs: system.fun_names(),
        own,
        fresh,
    })
}

/// Appends the name of a meta-variable.
pub fn print_meta(out: &mut Bytes, names: &PrintedNames<'_>, meta: u32) -> Result<(), AllocError>
    requires { meta < length (printed_names names.now).metas }
    ensures { OnOk result (out.new ≡ out.old ++ name_at (printed_names names.now).metas meta) }
{
    let own = names.own.len();
    if (meta as usize) < own {
        return out.append(names.own[meta as usize].bytes());
    }
    out.push(b'?')?;
    print_number(out, meta - own as u32)
}
