// What the instructions on data do: loads, stores and operations, as effects that nothing has carried out yet.
#![tactic(auto)]

pub mod data;
pub mod effect;
