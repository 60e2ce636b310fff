// Where the reader of an allocation text is.

#[derive(Clone, Copy)]
pub enum Stage {
    // before node 0
    Start,
    // before a node's main line
    Before,
    // after a main line that is no branch and no return
    Plain,
    // after a branch
    Branch,
    // after a branch and an `alt` move
    Alternate,
    // after a return
    Return,
}
