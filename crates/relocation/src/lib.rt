// Relocation: the number 18, the number of a set of modules, and the copy of their code.
#![tactic(auto)]

pub mod copy;
mod marks;
pub mod number;
mod table;
