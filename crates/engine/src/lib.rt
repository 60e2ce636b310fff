#![tactic(auto)]

// The engine: loads, offers, placements, runs and writes, in any order; it runs only what has passed the check.
pub mod calls;
pub mod runs;
pub mod standing;
pub mod state;
