// The nodes of a source: temporaries, constants and successors by number.
ghost use Rattle.std.specs.Prelude.{◌≡◌};
ghost use Rattle.std.specs.List.{slice_get};

#[derive(Clone, Copy, PartialEq, Eq)]
pub enum Operation {
    Add,
    Sub,
    Mul,
    Min,
    Max,
}

#[derive(Clone, Copy, PartialEq, Eq)]
pub enum Condition {
    Eq,
    Lt,
    Le,
}

#[derive(Clone, Copy, PartialEq, Eq)]
pub enum Node {
    Const {
        result: u8,
        value: u32,
        next: u16,
    },
    Mov {
        result: u8,
        origin: u8,
        next: u16,
    },
    Binary {
        operation: Operation,
        result: u8,
        first: u8,
        second: u8,
        next: u16,
    },
    Call {
        result: u8,
        function: u8,
        first: u8,
        second: u8,
        next: u16,
    },
    Branch {
        condition: Condition,
        first: u8,
        second: u8,
        yes: u16,
        no: u16,
    },
    Return {
        operand: u8,
    },
}

impl Node {
    ghost use Rattle.source.specs.Nodes.{result_of, operands};

    // The temporary that the node sets, if any.
    pub fn assigned(self) -> Option<u8>
        ensures { result ≡ result_of self }
    {
        match self {
            Node::Const { result, .. } => Some(result),
            Node::Mov { result, .. } => Some(result),
            Node::Binary { result, .. } => Some(result),
            Node::Call { result, .. } => Some(result),
            Node::Branch { .. } | Node::Return { .. } => None,
        }
    }

    // The first temporary that the node reads, if any.
    pub fn first_operand(self) -> Option<u8>
        ensures { result ≡ slice_get (operands self) 0 }
    {
        match self {
            Node::Const { .. } => None,
            Node::Mov { origin, .. } => Some(origin),
            Node::Binary { first, .. } => Some(first),
            Node::Call { first, .. } => Some(first),
            Node::Branch { first, .. } => Some(first),
            Node::Return { operand } => Some(operand),
        }
    }

    // The second one.
    pub fn second_operand(self) -> Option<u8>
        ensures { result ≡ slice_get (operands self) 1 }
    {
        match self {
            Node::Binary { second, .. } => Some(second),
            Node::Call { second, .. } => Some(second),
            Node::Branch { second, .. } => Some(second),
            Node::Const { .. } | Node::Mov { .. } | Node::Return { .. } => None,
        }
    }
}
