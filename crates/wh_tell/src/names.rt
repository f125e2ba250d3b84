//! The names of what stands in a rule or in a dependency pair. What has no name has a number behind a sign.

use crate::text::Text;
use wh_system::System;
use wh_text::Name;

/// The names that are spelled in a term.
#[derive(Clone, Copy)]
pub struct Names<'a> {
    /// The names of the sorts.
    pub sorts: &'a [Name],
    /// The names of the symbols.
    pub funs: &'a [Name],
    /// The names of the meta-variables of a rule, which come before the fresh ones.
    pub metas: &'a [Name],
}

/// The names in the rule with that number; a rule that is not there has no meta-variables.
pub fn names_of_rule<'a>(system: &'a System, rule: u32) -> Names<'a> {
    system.is_well_made();
    let metas = if (rule as usize) < system.rules().len() {
        system.meta_names(rule)
    } else {
        &[]
    };
    Names {
        sorts: system.sort_names(),
        funs: system.fun_names(),
        metas,
    }
}

/// The names in a term without meta-variables.
pub fn names_of_system<'a>(system: &'a System) -> Names<'a> {
    Names {
        sorts: system.sort_names(),
        funs: system.fun_names(),
        metas: &[],
    }
}

/// A count, or a place in a list, as a number of 32 bits. A greater one, for which memory has no room, becomes the
/// greatest of them.
pub fn number_of(count: usize) -> u32 {
    u32::try_from(count).unwrap_or(u32::MAX)
}

/// Appends the name with this number.
pub fn put_name(text: &mut Text, names: &[Name], number: u32) {
    match names.get(number as usize) {
        Some(name) => text.spell(name.bytes()),
        None => text.number(number as u128),
    }
}

/// Appends the name of a meta-variable; those behind the named ones are fresh, `?0` first.
pub fn put_meta(text: &mut Text, metas: &[Name], number: u32) {
    match metas.get(number as usize) {
        Some(name) => text.spell(name.bytes()),
        None => {
            let fresh = (number as usize).saturating_sub(metas.len());
            text.say("?");
            text.number(fresh as u128);
        }
    }
}
