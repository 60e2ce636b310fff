#![tactic(auto)]

// The placer that colours the conflicts of temporaries.
pub(crate) mod conflicts;
pub(crate) mod graph;
pub mod placer;
pub mod theorems;
