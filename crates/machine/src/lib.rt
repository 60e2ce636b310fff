#![tactic(auto)]

// The machine that runs an allocation in place of its source.
mod cells;
pub mod code;
pub mod outcome;
pub mod run;
mod running;
