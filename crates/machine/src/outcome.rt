// How a run ends, and what it says of itself.

#[derive(Clone, Copy, PartialEq, Eq, Debug)]
pub enum Outcome<V> {
    Ended(V),
    Spent,
    Full,
}

// A call of the host: the function, the values of its two operands, and the answer.
#[derive(Clone, Copy, PartialEq, Eq, Debug)]
pub struct Entry<V> {
    pub function: u8,
    pub first: V,
    pub second: V,
    pub answer: V,
}

// A run that is over: how it ended, the nodes passed, the moves made and the entries of its transcript.
#[derive(PartialEq, Eq, Debug, Drop)]
pub struct Report<V> {
    pub outcome: Outcome<V>,
    pub nodes: u32,
    pub moves: u64,
    pub entries: usize,
}
