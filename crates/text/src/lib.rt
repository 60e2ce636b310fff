#![tactic(auto)]

// What both kinds of text are made of: lines, fields, numbers, locations and words.
pub mod fields;
pub mod lines;
pub mod number;
pub mod parts;
pub mod put;
pub mod words;
