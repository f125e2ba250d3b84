//! Tables of names, which number what is looked up, and lists of names, which are read by numbers.

ghost use Rattle.std.specs.Prelude.{◌≡◌, ◌≤◌, IfOk, length};
ghost use Rattle.wh_system.specs.WellMade.{AreDistinct};

use std::alloc::{AllocError, Global};
use wh_system_parts::NameTable;
use wh_text::Name;
use wh_types::List;

/// The names of a table in order of their numbers.
pub fn list_of(alloc: Global, table: &NameTable) -> Result<List<Name>, AllocError>
    ensures { IfOk result (λ names. names ≡ table.now) }
{
    let mut names = List::new(alloc);
    for name in table.as_slice() {
        names.push(Name::new(alloc, name.bytes())?)?;
    }
    Ok(names)
}

/// The table of names, of which no two are the same.
pub fn table_of(alloc: Global, names: &[Name]) -> Result<NameTable, AllocError>
    requires few { length names.now ≤ 1024 }
    requires distinct { AreDistinct names.now }
    ensures { IfOk result (λ table. table ≡ names.now) }
{
    let mut table = NameTable::new(alloc);
    for name in names {
        table.add(alloc, name)?;
    }
    Ok(table)
}
