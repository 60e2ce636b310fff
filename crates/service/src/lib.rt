#![tactic(auto)]

// Whole lives of an engine: lists of calls, made on one new engine.
pub mod call;
pub mod making;
pub mod mixed;
pub mod serve;
