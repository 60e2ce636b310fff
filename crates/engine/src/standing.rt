// What stands, in plain numbers beside the tables.
use source::heading::Heading;

// The numbers of the source for which the standing allocation was accepted, and whether a placement made it.
#[derive(Clone, Copy)]
pub struct Standing {
    pub source: Heading,
    pub placed: bool,
}
