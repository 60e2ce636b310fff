#![tactic(auto)]

// Loading a source: reading it, what is live where, and whether the source can be taken.
pub mod held;
pub mod holder;
pub mod live;
pub mod load;
