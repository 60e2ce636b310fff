// A source with a call, and its allocation with four registers and four slots.
ghost use Rattle.machine.specs.Run.{Runnable};

use allocation::line::{Main, Move, Row};
use machine::code::Code;
use source::node::{Condition, Node, Operation};

// add 2 0 1, mov 3 2, br lt 3 0 (to the call, or past it), call 3 7 3 1, ret 3
const NODES: [Node; 5] = [
    Node::Binary {
        operation: Operation::Add,
        result: 2,
        first: 0,
        second: 1,
        next: 1,
    },
    Node::Mov {
        result: 3,
        origin: 2,
        next: 2,
    },
    Node::Branch {
        condition: Condition::Lt,
        first: 3,
        second: 0,
        yes: 3,
        no: 4,
    },
    Node::Call {
        result: 3,
        function: 7,
        first: 3,
        second: 1,
        next: 4,
    },
    Node::Return { operand: 3 },
];

const ROWS: [Row; 5] = [
    Row {
        main: Main::Binary {
            operation: Operation::Add,
            target: 0,
            first: 2,
            second: 1,
        },
        ins: 1,
        outs: 2,
        alts: 2,
        end: 2,
    },
    Row {
        main: Main::Skip,
        ins: 2,
        outs: 2,
        alts: 2,
        end: 2,
    },
    Row {
        main: Main::Branch {
            condition: Condition::Lt,
            first: 0,
            second: 3,
        },
        ins: 2,
        outs: 3,
        alts: 3,
        end: 3,
    },
    Row {
        main: Main::Call {
            target: 0,
            function: 7,
            first: 0,
            second: 1,
        },
        ins: 3,
        outs: 3,
        alts: 3,
        end: 3,
    },
    Row {
        main: Main::Return { operand: 0 },
        ins: 3,
        outs: 3,
        alts: 3,
        end: 3,
    },
];

// entry r1 s1, in r2 s0, in r3 s0
const MOVES: [Move; 3] = [
    Move { to: 1, from: 5 },
    Move { to: 2, from: 4 },
    Move { to: 3, from: 4 },
];

pub fn worked() -> Code<'static>
    ensures { Runnable result }
{
    Code {
        source: source::heading::Heading {
            parameters: 2,
            temporaries: 4,
            nodes: 5,
        },
        locations: allocation::heading::Heading {
            registers: 4,
            slots: 4,
        },
        entry: 1,
        nodes: &NODES,
        rows: &ROWS,
        moves: &MOVES,
    }
}
