#![tactic(auto)]

// Allocations: moves and main lines, what a line of their text says, and the tables that hold them.
pub mod counting;
pub mod filling;
pub mod heading;
pub mod item;
pub mod line;
pub mod looking;
pub mod tables;
pub mod words;
