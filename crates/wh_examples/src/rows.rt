//! Sheets of rows: texts with names, runs of the program over them, and how each is to end. `examples/rows/README.md`
//! says what the lines of a sheet mean.

pub mod running;
pub mod sheet;
pub mod spelling;
pub mod sweeps;
pub mod verbs;

pub use self::sheet::Sheet;
use self::sheet::obey;
use std::alloc::{AllocError, Global};
use wh_types::Bytes;

/// A line joins the text for each row of a file that does not end as it is to, and one that says how many rows do. What
/// earlier files named is kept in the sheet.
pub fn add_rows(
    alloc: Global,
    file: &str,
    bytes: &Bytes,
    sheet: &mut Sheet,
    text: &mut Bytes,
) -> Result<(), AllocError> {
    let lines = str::from_utf8(bytes.as_slice()).or(Err(AllocError))?;
    let mut rows = 0u32;
    for (number, line) in lines.split('\n').enumerate() {
        match obey(alloc, sheet, line)? {
            None => {}
            Some(true) => rows = rows.saturating_add(1),
            Some(false) => add_failure(alloc, file, number, sheet, text)?,
        }
    }
    let line = format!(in alloc; "{file}: {rows} rows\n")?;
    text.append(line.as_bytes())
}

// Tells the line, counted from 1, and how the last run ended.
fn add_failure(
    alloc: Global,
    file: &str,
    number: usize,
    sheet: &Sheet,
    text: &mut Bytes,
) -> Result<(), AllocError> {
    let line = number.saturating_add(1);
    let status = sheet.status;
    let head = format!(in alloc; "{file}, line {line}, ends with {status}: ")?;
    text.append(head.as_bytes())?;
    text.append(sheet.told.as_slice())?;
    text.push(b'\n')
}
