// The code cut into instructions, and the numbers 10 and 11.
#![tactic(auto)]

pub mod marks;
