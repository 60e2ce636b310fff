#![tactic(auto)]

// What acceptance promises of runs: an accepted allocation runs as its source does.
pub mod law;
