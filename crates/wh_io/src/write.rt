//! Writing a whole text to a sink, in as many calls as the sink wants.

ghost use Rattle.wh_io.specs.Outside.{HasCause};
ghost use Rattle.wh_io.specs.Writing.{WritesAll};

use crate::shelf::Failed;
use crate::sink::Sink;

/// Appends all of these bytes, in as many puts as it takes.
///
/// # Errors `Failed` where a put failed. Then the first bytes may have been appended, but not all of them.
pub fn write_all_of<K: Sink>(sink: &mut K, bytes: &[u8]) -> Result<(), Failed>
    ensures bytes { WritesAll (K.written sink.old) (K.written sink.new) bytes.now result }
    ensures cause { HasCause (K.faults sink.old) (K.faults sink.new) result }
{
    let mut rest = bytes;
    while !rest.is_empty() {
        let count = sink.put(rest)?;
        rest = &rest[count..];
    }
    Ok(())
}
