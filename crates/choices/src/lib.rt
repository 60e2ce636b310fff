#![tactic(auto)]

// One type for either of two frames, hosts or placers: calls that stand in one list have one type of each.
pub mod frame;
pub mod host;
pub mod placer;
