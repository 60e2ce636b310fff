#![tactic(auto)]

// Places of temporaries: what a placer owes, and the lines published for its places.
pub(crate) mod layout;
pub(crate) mod moving;
pub mod place;
pub mod placer;
pub mod publish;
pub mod theorems;
