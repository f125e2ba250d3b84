//! Raw terms and types of a certificate, whose names are looked up in the tables of a system.

ghost use Rattle.std.specs.Prelude.{◌≡◌, IfOk, option_map};
ghost use Rattle.wh_types.specs.Erase.{ty};
ghost use Rattle.wh_text.specs.Erase.{rty, rtm};
ghost use Rattle.wh_system_parts.specs.Naming.{type_meant};
ghost use Rattle.wh_system.specs.SystemView.{system_data};
ghost use Rattle.wh_system_making.specs.Resolve.{TellsMeant};
ghost use Rattle.wh_system_making.specs.TablesOf.{AreTablesOf};

use crate::tables::table_of;
use std::alloc::{AllocError, Global};
use wh_system::System;
use wh_system_parts::{NameTable, resolve_type};
use wh_system_resolve::{Scope, resolve_side};
use wh_terms::{Metas, Term};
use wh_text::{RawTerm, RawType};
use wh_types::{Or, SimpleType};

/// The names of a system, to be looked up: made once for all that is looked up in it. A system keeps its names as plain
/// lists, and a walk over these for each name of a certificate would cost their product.
#[derive(Drop)]
pub struct NameTables {
    sorts: NameTable,
    funs: NameTable,
}

impl NameTables {
    /// The tables of the names of the system's sorts and symbols.
    pub fn of(alloc: Global, system: &System) -> Result<NameTables, AllocError>
        ensures { IfOk result (AreTablesOf (system_data system.now)) }
    {
        system.is_well_made();
        let sorts = table_of(alloc, system.sort_names())?;
        let funs = table_of(alloc, system.fun_names())?;
        Ok(NameTables { sorts, funs })
    }

    /// The well-typed term without meta-variables that the names of a raw term stand for; `None` exactly where there is
    /// none.
    pub fn resolve(
        &self,
        alloc: Global,
        system: &System,
        term: &RawTerm,
    ) -> Result<Option<Term>, AllocError>
        requires { AreTablesOf (system_data system.now) self.now }
        ensures { IfOk result (λ answer. TellsMeant (system_data system.now) (rtm term.now) answer) }
    {
        let metas = NameTable::new(alloc);
        let declared = Metas::new(alloc);
        system.is_well_made();
        let scope = Scope {
            sorts: &self.sorts,
            funs: &self.funs,
            kinds: &system.signature().funs,
            metas: &metas,
            declared: &declared,
        };
        match resolve_side(alloc, &scope, term) {
            Ok((term, _)) => Ok(Some(term)),
            Err(Or::NoMemory) => Err(AllocError),
            Err(Or::Because(_)) => Ok(None),
        }
    }

    /// The type that the names of a raw type stand for; `None` exactly where one of its sorts is not there.
    pub fn resolve_type(
        &self,
        alloc: Global,
        system: &System,
        kind: &RawType,
    ) -> Result<Option<SimpleType>, AllocError>
        requires { AreTablesOf (system_data system.now) self.now }
        ensures { IfOk result (λ answer. option_map ty answer ≡ type_meant (system_data system.now).sort_names (rty kind.now)) }
    {
        match resolve_type(alloc, &self.sorts, kind) {
            Ok(kind) => Ok(Some(kind)),
            Err(Or::NoMemory) => Err(AllocError),
            Err(Or::Because(_)) => Ok(None),
        }
    }
}
