//! Lists of names: of the sorts on a cycle of demands.

use wh_text::Name;
use wh_types::List;

/// A list of names. It keeps the allocator that it was made with.
pub type Names = List<Name>;
