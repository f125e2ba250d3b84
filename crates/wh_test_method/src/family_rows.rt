//! Rows of generated systems: how many rules those at both ends of the family have, and which numbers are refused.

use std::alloc::{AllocError, Global};
use std::test::Fail;
use wh_gen::generate;
use wh_types::Or;

/// Adds how many rules the system with that number has, or that there is none.
fn add_rules(alloc: Global, out: &mut String, number: u32) -> Result<(), AllocError> {
    match generate(alloc, number) {
        Ok(system) => {
            let rules = system.rules().len();
            write!(out, "[{number}: {rules}]")
        }
        Err(Or::Because(_)) => write!(out, "[{number}: none]"),
        Err(Or::NoMemory) => Err(AllocError),
    }
}

#[test]
fn generates_two_hundred_systems(rt: HostRuntime) -> Result<(), Fail> {
    let alloc = rt.alloc();
    let mut out = String::new(alloc);
    for number in [0, 1, 200, 201] {
        add_rules(alloc, &mut out, number)?;
    }
    assert_eq!(&rt; out.as_str(), "[0: none][1: 2][200: 400][201: none]");
    Ok(())
}
