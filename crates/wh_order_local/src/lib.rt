//! Which symbols an order is asked about: whether an inference is good for two sides depends only on the filters of the
//! symbols in them.
#![tactic(auto)]
