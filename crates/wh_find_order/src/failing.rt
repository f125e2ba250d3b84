//! Conditions on lines that fail under an order, where they are not known to hold.

ghost use Rattle.std.specs.Prelude.{IfOk, IfSome};
ghost use Rattle.wh_order_node.specs.FilteringView.{filtering_data};
ghost use Rattle.wh_find_order.specs.Encodings.{IsEncoding, task_in};
ghost use Rattle.wh_find_order.specs.Trials.{Fails, IsTried};

use crate::encoding::Encoding;
use crate::node::number_of_pair;
use std::alloc::{AllocError, Global};
use wh_order_lines::{lacks_pair_line, lacks_rule_line};
use wh_order_node::Filters;
use wh_poly_blocking::{Bits, Held};

/// The number of a condition on a line that fails under the order, which these bits write. Those that are known to hold
/// are passed over, and so is the last one, that some pair shrinks.
pub fn failing_line<'a>(
    alloc: Global,
    encoding: &Encoding<'a>,
    filters: &Filters,
    bits: Bits<'_>,
    held: &mut Held,
) -> Result<Option<usize>, AllocError>
    requires encoding { IsEncoding encoding.now }
    requires filters { IsTried (task_in encoding.now) (filtering_data filters.now) }
    ensures { IfOk result (λ found. IfSome found (Fails (task_in encoding.now) (filtering_data filters.now))) }
{
    match failing_rule(alloc, encoding, filters, bits, held)? {
        Some(number) => Ok(Some(number)),
        None => failing_pair(alloc, encoding, filters, bits, held),
    }
}

// The number of the condition of a rule that fails.
fn failing_rule<'a>(
    alloc: Global,
    encoding: &Encoding<'a>,
    filters: &Filters,
    bits: Bits<'_>,
    held: &mut Held,
) -> Result<Option<usize>, AllocError>
    requires encoding { IsEncoding encoding.now }
    requires filters { IsTried (task_in encoding.now) (filtering_data filters.now) }
    ensures { IfOk result (λ found. IfSome found (Fails (task_in encoding.now) (filtering_data filters.now))) }
{
    for place in 0..encoding.task.covered.len() {
        let key = bits.key_of(place);
        if held.has(key) {
            continue;
        }
        let lacks = lacks_rule_line(alloc, &encoding.task, filters, place)?;
        if lacks {
            return Ok(Some(place));
        }
        held.keep(key);
    }
    Ok(None)
}

// The number of the condition of a pair that fails.
fn failing_pair<'a>(
    alloc: Global,
    encoding: &Encoding<'a>,
    filters: &Filters,
    bits: Bits<'_>,
    held: &mut Held,
) -> Result<Option<usize>, AllocError>
    requires encoding { IsEncoding encoding.now }
    requires filters { IsTried (task_in encoding.now) (filtering_data filters.now) }
    ensures { IfOk result (λ found. IfSome found (Fails (task_in encoding.now) (filtering_data filters.now))) }
{
    for place in 0..encoding.task.set.len() {
        let number = number_of_pair(&encoding.task, place);
        let key = bits.key_of(number);
        if held.has(key) {
            continue;
        }
        let lacks = lacks_pair_line(alloc, &encoding.task, filters, place)?;
        if lacks {
            return Ok(Some(number));
        }
        held.keep(key);
    }
    Ok(None)
}
