//! Printing certificates: `print_certificate` gives the one text of a certificate.
#![tactic(auto)]

mod poly_printer;
mod print;
mod print_lines;
mod print_order;

pub use print::print_certificate;
