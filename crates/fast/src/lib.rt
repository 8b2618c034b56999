// Holds what completes a step at once, or writes nothing.
#![tactic(auto)]

pub mod leaf;
