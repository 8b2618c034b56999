// Completes loads, stores and stack instructions, and hands other codes on.
#![tactic(auto)]

pub mod long;
pub mod short;
