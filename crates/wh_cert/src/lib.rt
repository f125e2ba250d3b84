//! Certificates as data: nodes of a termination proof, loops, and their items.
#![tactic(auto)]

mod certificate;
mod item;
mod order_node;
mod poly_node;

pub use certificate::{
    Arg, Args, CertSyntax, Certificate, NoCertificate, Node, Nodes, Put, Puts, Steps,
    YesCertificate,
};
pub use item::Item;
pub use order_node::{NamedFilter, NamedFilters, OrderNode};
pub use poly_node::{Interp, Interps, PolyNode};
pub use wh_order_inference::{Filter, Inference, Inferences, Letter};
