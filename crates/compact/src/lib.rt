// A list of slots as its height and its topmost label.
#![tactic(auto)]

pub mod top;
