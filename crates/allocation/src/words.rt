// The words of an allocation text.
ghost use Rattle.allocation.specs.Words.{edge_name, word_name};

use source::node::Operation;
use text::words::Spelled;

// When a move is made: before node 0, before the main line, after it, or after a branch that goes to `no`.
#[derive(Clone, Copy, PartialEq, Eq)]
pub enum Edge {
    Entry,
    In,
    Out,
    Alt,
}

// What the first word of a line says.
#[derive(Clone, Copy, PartialEq, Eq)]
pub enum Word {
    Move(Edge),
    Skip,
    Const,
    Binary(Operation),
    Call,
    Branch,
    Return,
}

pub const WORDS: [Word; 14] = [
    Word::Move(Edge::Entry),
    Word::Move(Edge::In),
    Word::Move(Edge::Out),
    Word::Move(Edge::Alt),
    Word::Skip,
    Word::Const,
    Word::Binary(Operation::Add),
    Word::Binary(Operation::Sub),
    Word::Binary(Operation::Mul),
    Word::Binary(Operation::Min),
    Word::Binary(Operation::Max),
    Word::Call,
    Word::Branch,
    Word::Return,
];

impl Spelled for Edge {
    ghost spelling = { edge_name };

    fn spell(self) -> &'static [u8] {
        match self {
            Edge::Entry => b"entry",
            Edge::In => b"in",
            Edge::Out => b"out",
            Edge::Alt => b"alt",
        }
    }
}

impl Spelled for Word {
    ghost spelling = { word_name };

    fn spell(self) -> &'static [u8] {
        match self {
            Word::Move(edge) => edge.spell(),
            Word::Skip => b"skip",
            Word::Const => b"const",
            Word::Binary(operation) => operation.spell(),
            Word::Call => b"call",
            Word::Branch => b"br",
            Word::Return => b"ret",
        }
    }
}
