#![tactic(auto)]

// The source: its nodes, and how its text is read.
pub mod heading;
pub mod lines;
pub mod node;
pub mod reader;
pub mod table;
pub mod words;
