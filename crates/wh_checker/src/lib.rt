//! The check of certificates: a YES certificate is accepted only where every chain of pairs ends, a NO certificate only
//! where a term has reductions of every length. A refusal names the first condition that is false.
#![tactic(auto)]

mod checking;
mod laws;
mod node;
mod rejected;
mod walk;

pub use checking::{Accepted, AcceptedYes, check, check_head};
pub use laws::{
    accepted_or_at_fault, no_system_has_both, one_first_fault, rejections_are_first_rows,
    rejections_name_what_is_there, valid_certificates_have_no_fault,
    valid_certificates_mean_bounded, valid_or_at_fault,
};
pub use rejected::{CheckFault, NodeFault, Rejected, of_claim};
pub use walk::check_next;
