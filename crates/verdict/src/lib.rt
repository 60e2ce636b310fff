#![tactic(auto)]

// The check of an allocation against its source: the questions, asked of the least sets of equations.
pub mod check;
pub(crate) mod questions;
