#![tactic(auto)]

// Sets of small numbers as 64-bit words.
pub mod mask;
