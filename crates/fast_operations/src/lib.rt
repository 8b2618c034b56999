// Completes operations on words.
#![tactic(auto)]

pub mod operations;
