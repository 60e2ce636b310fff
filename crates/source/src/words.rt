// The words of a source text.
ghost use Rattle.source.specs.Words.{operation_name, condition_name, opcode_name};

use crate::node::{Condition, Operation};
use text::words::Spelled;

// What the first word of a node's line says.
#[derive(Clone, Copy, PartialEq, Eq)]
pub enum Opcode {
    Const,
    Mov,
    Binary(Operation),
    Call,
    Branch,
    Return,
}

pub const OPCODES: [Opcode; 10] = [
    Opcode::Const,
    Opcode::Mov,
    Opcode::Binary(Operation::Add),
    Opcode::Binary(Operation::Sub),
    Opcode::Binary(Operation::Mul),
    Opcode::Binary(Operation::Min),
    Opcode::Binary(Operation::Max),
    Opcode::Call,
    Opcode::Branch,
    Opcode::Return,
];

pub const CONDITIONS: [Condition; 3] = [Condition::Eq, Condition::Lt, Condition::Le];

impl Spelled for Operation {
    ghost spelling = { operation_name };

    fn spell(self) -> &'static [u8] {
        match self {
            Operation::Add => b"add",
            Operation::Sub => b"sub",
            Operation::Mul => b"mul",
            Operation::Min => b"min",
            Operation::Max => b"max",
        }
    }
}

impl Spelled for Condition {
    ghost spelling = { condition_name };

    fn spell(self) -> &'static [u8] {
        match self {
            Condition::Eq => b"eq",
            Condition::Lt => b"lt",
            Condition::Le => b"le",
        }
    }
}

impl Spelled for Opcode {
    ghost spelling = { opcode_name };

    fn spell(self) -> &'static [u8] {
        match self {
            Opcode::Const => b"const",
            Opcode::Mov => b"mov",
            Opcode::Binary(operation) => operation.spell(),
            Opcode::Call => b"call",
            Opcode::Branch => b"br",
            Opcode::Return => b"ret",
        }
    }
}
