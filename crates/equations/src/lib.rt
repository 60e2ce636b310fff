#![tactic(auto)]

// Equations between temporaries and locations: the least sets before all nodes, in work memory.
pub mod candidate;
pub mod flow;
pub mod set;
