//! Types, as `show` writes them.

use crate::names::{Names, put_name};
use crate::text::Text;
use wh_types::SimpleType;

/// Appends a type; as a part of something else a functional one stands in parentheses.
pub fn put_type(text: &mut Text, names: &Names<'_>, kind: &SimpleType, part: bool) {
    match kind {
        SimpleType::Sort(sort) => put_name(text, names.sorts, *sort),
        SimpleType::Arrow(argument, rest) => {
            if part {
                text.say("(");
            }
            put_type(text, names, argument, true);
            text.say("->");
            put_type(text, names, rest, false);
            if part {
                text.say(")");
            }
        }
    }
}
