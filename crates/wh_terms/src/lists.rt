//! Lists of types.

use wh_types::{List, SimpleType};

/// A list of types.
pub type Types = List<SimpleType>;
