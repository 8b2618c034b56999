// The check of a record, or of one module of a set, before it runs.
#![tactic(auto)]

pub mod check;
pub mod codes;
pub mod examine;
pub mod hand;
pub mod libraries;
pub mod linked;
pub mod results;
pub mod subject;
pub mod walk;
