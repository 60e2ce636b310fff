#![tactic(auto)]

// How an allocation's text is read into tables.
pub mod holder;
pub mod reader;
pub mod stage;
pub mod steps;
