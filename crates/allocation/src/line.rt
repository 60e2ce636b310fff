// The lines of an allocation. A location is a number: the registers come first, then the slots.
ghost use Rattle.std.specs.Prelude.{◌≡◌};
ghost use Rattle.std.specs.List.{slice_get};

use source::node::{Condition, Operation};

// What stands in location `from` is copied to location `to`.
#[derive(Clone, Copy)]
pub struct Move {
    pub to: u8,
    pub from: u8,
}

// The main line of a node, over registers.
#[derive(Clone, Copy)]
pub enum Main {
    Skip,
    Const {
        target: u8,
        value: u32,
    },
    Binary {
        operation: Operation,
        target: u8,
        first: u8,
        second: u8,
    },
    Call {
        target: u8,
        function: u8,
        first: u8,
        second: u8,
    },
    Branch {
        condition: Condition,
        first: u8,
        second: u8,
    },
    Return {
        operand: u8,
    },
}

impl Main {
    ghost use Rattle.allocation.specs.Allocations.{target, origins};

    // The register that the main line sets, if any.
    pub fn target(self) -> Option<u8>
        ensures { result ≡ target self }
    {
        match self {
            Main::Const { target, .. } => Some(target),
            Main::Binary { target, .. } => Some(target),
            Main::Call { target, .. } => Some(target),
            Main::Skip | Main::Branch { .. } | Main::Return { .. } => None,
        }
    }

    // The first register that it reads, if any.
    pub fn first_origin(self) -> Option<u8>
        ensures { result ≡ slice_get (origins self) 0 }
    {
        match self {
            Main::Binary { first, .. } => Some(first),
            Main::Call { first, .. } => Some(first),
            Main::Branch { first, .. } => Some(first),
            Main::Return { operand } => Some(operand),
            Main::Skip | Main::Const { .. } => None,
        }
    }

    // The second one.
    pub fn second_origin(self) -> Option<u8>
        ensures { result ≡ slice_get (origins self) 1 }
    {
        match self {
            Main::Binary { second, .. } => Some(second),
            Main::Call { second, .. } => Some(second),
            Main::Branch { second, .. } => Some(second),
            Main::Skip | Main::Const { .. } | Main::Return { .. } => None,
        }
    }
}

// A node's main line, and where its moves stand in the table of all moves:
// its `in` moves from `ins` on, its `out` moves from `outs`, its `alt` moves from `alts` up to `end`.
#[derive(Clone, Copy)]
pub struct Row {
    pub main: Main,
    pub ins: u16,
    pub outs: u16,
    pub alts: u16,
    pub end: u16,
}
