#![tactic(auto)]

// Kinds of value, the hosts that answer calls with them, and the frames that hold them.
pub mod frame;
pub mod host;
pub mod kind;
pub mod word;
