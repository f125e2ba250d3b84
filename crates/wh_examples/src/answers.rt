//! What `prove` answers for a system, and what the check says of the certificate that it gives.

use std::alloc::{AllocError, Global};
use wh_io::{MemoryShelf, MemorySink};
use wh_top::run;
use wh_types::Bytes;

/// The file's name joins the text, and the line that the check writes of what is found, or the one that says why
/// nothing was.
pub fn add_answer(
    alloc: Global,
    file: &str,
    system: &Bytes,
    text: &mut Bytes,
) -> Result<(), AllocError> {
    text.append(file.as_bytes())?;
    text.push(b' ')?;
    let found = told(alloc, "prove", system.as_slice(), None)?;
    if found.bytes().starts_with(b"MAYBE ".as_slice()) {
        return text.append(found.bytes());
    }
    let checked = told(alloc, "check", system.as_slice(), Some(found.bytes()))?;
    text.append(checked.bytes())
}

/// What a run with this command writes, of a system file and, if there is one, a certificate file.
fn told(
    alloc: Global,
    command: &str,
    system: &[u8],
    certificate: Option<&[u8]>,
) -> Result<MemorySink, AllocError> {
    let mut shelf = MemoryShelf::new(alloc, &[])?;
    shelf.add_file("system", system)?;
    let mut words = Vec::new(alloc);
    words.push(String::from_str(alloc, command)?)?;
    words.push(String::from_str(alloc, "system")?)?;
    if let Some(bytes) = certificate {
        shelf.add_file("certificate", bytes)?;
        words.push(String::from_str(alloc, "certificate")?)?;
    }
    let mut out = MemorySink::new(alloc, 1_000_000, 10_000_000, &[])?;
    run(alloc, words.as_slice(), &mut shelf, &mut out);
    Ok(out)
}
