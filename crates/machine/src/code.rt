// What a run carries out: the tables of a source and of an allocation of it.
use allocation::line::{Move, Row};
use source::node::Node;

// Row n is the line of node n. The first `entry` moves of the table are made before node 0.
#[derive(Clone, Copy)]
pub struct Code<'a> {
    pub source: source::heading::Heading,
    pub locations: allocation::heading::Heading,
    pub entry: u16,
    pub nodes: &'a [Node],
    pub rows: &'a [Row],
    pub moves: &'a [Move],
}
