// Room for the nodes of a source, taken once, so that reading never lacks memory.
ghost use Rattle.std.specs.Prelude.{◌≤◌, vec_capacity};

use crate::node::Node;

#[derive(Drop)]
pub struct Table {
    pub(crate) nodes: Vec<Node>,
    ghost room: { 256 ≤ vec_capacity nodes },
}
