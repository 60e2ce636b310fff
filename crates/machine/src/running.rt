// A run under way, and one node of it.
ghost use Rattle.std.specs.Prelude.{◌≡◌, ℕ, ◌+◌, ◌^◌, ◌<◌, ◌≤◌, ◌&&◌, ◌==◌, true, length, set, Some};
ghost use Rattle.std.specs.List.{between};
ghost use Rattle.std.specs.declared.ops.ControlFlow.TheVariants.{Continue};
ghost use Rattle.source.specs.Nodes.{action, node_at, successor};
ghost use Rattle.allocation.specs.Allocations.{line_at};
ghost use Rattle.allocation.specs.Ranges.{main_line_fits};
ghost use Rattle.allocation.specs.Lines.{main_action, edge_moves};
ghost use Rattle.machine.specs.Machine.{asks, read};
ghost use Rattle.machine.specs.Steps.{ReadsBelow, standing, InRange, SameLent, Moved, Done, Stepped, Ran};

use crate::cells::{make_moves, value_at};
use crate::code::Code;
use crate::outcome::{Entry, Outcome, Report};
use allocation::line::{Main, Move, Row};
use source::node::Node;
use std::ops::ControlFlow;
use values::frame::Frame;
use values::host::Host;
use values::kind::Kind;

// Where a run stands: its node, the nodes passed, the moves made and the entries written.
#[derive(Clone, Copy)]
pub(crate) struct Position {
    pub(crate) node: u16,
    pub(crate) nodes: u32,
    pub(crate) moves: u64,
    pub(crate) entries: usize,
}

impl Position {
    // What a run that ends here says of itself.
    pub(crate) fn report<V: Kind>(self, outcome: Outcome<V>) -> Report<V>
        ensures { result ≡ record { outcome = outcome; nodes = self.nodes; moves = self.moves; entries = self.entries } }
    {
        Report {
            outcome,
            nodes: self.nodes,
            moves: self.moves,
            entries: self.entries,
        }
    }
}

// What a run carries out, where it stands, and what it is lent. Each loan has a lifetime of its own, by which it is
// known what the lender holds afterwards.
// The list is no struct of its own with the count of its entries: through a struct in a struct nothing is known of the lender.
#[derive(Drop)]
pub(crate) struct Running<'c, 'h, 'f, 'l, V, H, F> {
    pub(crate) code: Code<'c>,
    pub(crate) at: Position,
    pub(crate) host: &'h mut H,
    pub(crate) frame: &'f mut F,
    pub(crate) list: &'l mut [Entry<V>],
}

// Where an edge goes. No edge leaves a return, and the definition says 0 there.
fn next_node(node: Node, edge: bool) -> u16
    ensures { result ≡ successor node edge }
{
    match node {
        Node::Const { next, .. }
        | Node::Mov { next, .. }
        | Node::Binary { next, .. }
        | Node::Call { next, .. } => next,
        Node::Branch { yes, no, .. } => if edge { yes } else { no },
        Node::Return { .. } => 0,
    }
}

// The moves from place `from` of the table up to place `to`.
pub(crate) fn moves_in(moves: &[Move], from: u16, to: u16) -> &[Move]
    requires order { from ≤ to }
    requires end { to ≤ length moves.now }
    ensures { result.now ≡ between from to moves.now }
{
    &moves[from as usize..to as usize]
}

// The moves of an edge.
fn moves_on(moves: &[Move], row: Row, edge: bool) -> &[Move]
    requires outs { row.outs ≤ row.alts }
    requires alts { row.alts ≤ row.end }
    requires end { row.end ≤ length moves.now }
    ensures { result.now ≡ edge_moves (line_at moves.now row) edge }
{
    if edge {
        moves_in(moves, row.outs, row.alts)
    } else {
        moves_in(moves, row.alts, row.end)
    }
}

impl<V: Kind, H: Host<Value = V>, F: Frame<Value = V>> Running<'_, '_, '_, '_, V, H, F> {
    // Whether the node is a call and the list is written to its end.
    fn is_full(&self, node: Node) -> bool
        ensures { result ≡ (asks (Some (action node)) && self.now.at.entries == length self.now.list.now) }
    {
        match node {
            Node::Call { .. } => self.at.entries == self.list.len(),
            _ => false,
        }
    }

    // Makes the moves in order.
    pub(crate) fn make_moves(&mut self, moves: &[Move])
        requires below { ReadsBelow (length (F.Frame.cells self.old.frame.now)) moves.now }
        requires few { self.old.at.moves + length moves.now < 2 ^ 64 }
        ensures moved { Moved V.Kind.arithmetic moves.now (standing H.Host.state F.Frame.cells self.old) (standing H.Host.state F.Frame.cells self.new) }
        ensures wide { length (F.Frame.cells self.new.frame.now) ≡ length (F.Frame.cells self.old.frame.now) }
        ensures same { SameLent self.old self.new }
        ensures lent { H.Host.lent self.new.host.now ≡ H.Host.lent self.old.host.now }
    {
        make_moves(moves, self.frame);
        self.at.moves += moves.len() as u64;
    }

    // What two locations hold.
    fn values_at(&self, first: u8, second: u8) -> (V, V)
        requires first { first < length (F.Frame.cells self.now.frame.now) }
        requires second { second < length (F.Frame.cells self.now.frame.now) }
        ensures { result ≡ (read V.Kind.arithmetic (F.Frame.cells self.now.frame.now) first, read V.Kind.arithmetic (F.Frame.cells self.now.frame.now) second) }
    {
        (value_at(self.frame, first), value_at(self.frame, second))
    }

    // Asks the host, and writes the call to the list.
    fn ask_host(&mut self, function: u8, a: V, b: V) -> V
        requires { self.old.at.entries < length self.old.list.now }
        ensures answer { result ≡ H.Host.means.answer (H.Host.state self.old.host.now) function a b }
        ensures next { H.Host.state self.new.host.now ≡ H.Host.means.next (H.Host.state self.old.host.now) function a b }
        ensures noted { self.new.list.now ≡ set self.old.list.now self.old.at.entries (record { function = function; first = a; second = b; answer = result }) }
        ensures counted { self.new.at ≡ record self.old.at { entries = self.old.at.entries + 1 } }
        ensures frame { self.new.frame.now ≡ self.old.frame.now }
        ensures same { SameLent self.old self.new }
        ensures lent { H.Host.lent self.new.host.now ≡ H.Host.lent self.old.host.now }
    {
        let answer = self.host.ask(function, a, b);
        self.list[self.at.entries] = Entry {
            function,
            first: a,
            second: b,
            answer,
        };
        self.at.entries += 1;
        answer
    }

    // Sets a register, whose cell is there, and goes on to next.
    fn set_register(&mut self, target: u8, value: V) -> ControlFlow<V, bool>
        ensures taken { result ≡ Continue true }
        ensures cells { F.Frame.cells self.new.frame.now ≡ set (F.Frame.cells self.old.frame.now) target value }
        ensures at { self.new.at ≡ self.old.at }
        ensures host { self.new.host.now ≡ self.old.host.now }
        ensures list { self.new.list.now ≡ self.old.list.now }
        ensures same { SameLent self.old self.new }
    {
        let _ = self.frame.write(target as usize, value);
        ControlFlow::Continue(true)
    }

    // Carries out a main line: goes on by an edge (true is that to next or yes), or breaks off with the value that the run ends with.
    fn main_line(&mut self, main: Main) -> ControlFlow<V, bool>
        requires fits { main_line_fits self.old.code.locations.registers main ≡ true }
        requires wide { self.old.code.locations.registers ≤ length (F.Frame.cells self.old.frame.now) }
        requires room { asks (main_action main) ≡ true → self.old.at.entries < length self.old.list.now }
        ensures done { Done V.Kind.arithmetic H.Host.means main (standing H.Host.state F.Frame.cells self.old) result (standing H.Host.state F.Frame.cells self.new) }
        ensures same { SameLent self.old self.new }
        ensures lent { H.Host.lent self.new.host.now ≡ H.Host.lent self.old.host.now }
    {
        match main {
            Main::Skip => ControlFlow::Continue(true),
            Main::Const { target, value } => self.set_register(target, V::constant(value)),
            Main::Binary {
                operation,
                target,
                first,
                second,
            } => {
                let (a, b) = self.values_at(first, second);
                self.set_register(target, V::operate(operation, a, b))
            }
            Main::Call {
                target,
                function,
                first,
                second,
            } => {
                let (a, b) = self.values_at(first, second);
                let answer = self.ask_host(function, a, b);
                self.set_register(target, answer)
            }
            Main::Branch {
                condition,
                first,
                second,
            } => {
                let (a, b) = self.values_at(first, second);
                ControlFlow::Continue(V::test(condition, a, b))
            }
            Main::Return { operand } => ControlFlow::Break(value_at(self.frame, operand)),
        }
    }

    // Passes one node: its `in` moves, its main line and the moves of the edge taken. A `ret` breaks off with its value.
    fn step(&mut self, node: Node) -> ControlFlow<V>
        requires in_range { InRange self.old.code (standing H.Host.state F.Frame.cells self.old) }
        requires node { node ≡ node_at self.old.code.nodes.now self.old.at.node }
        requires nodes { self.old.at.nodes + 1 < 2 ^ 32 }
        requires room { asks (Some (action node)) ≡ true → self.old.at.entries < length self.old.list.now }
        ensures stepped { Stepped V.Kind.arithmetic H.Host.means self.old.code (standing H.Host.state F.Frame.cells self.old) result (standing H.Host.state F.Frame.cells self.new) }
        ensures same { SameLent self.old self.new }
        ensures lent { H.Host.lent self.new.host.now ≡ H.Host.lent self.old.host.now }
    {
        let row = self.code.rows[self.at.node as usize];
        let ins = moves_in(self.code.moves, row.ins, row.outs);
        self.make_moves(ins);
        self.at.nodes += 1;
        let edge = self.main_line(row.main)?;
        let outs = moves_on(self.code.moves, row, edge);
        self.make_moves(outs);
        self.at.node = next_node(node, edge);
        ControlFlow::Continue(())
    }

    // Passes nodes from where the run stands until it is over.
    pub(crate) fn drive(&mut self, budget: u32) -> Outcome<V>
        requires { InRange self.old.code (standing H.Host.state F.Frame.cells self.old) }
        ensures ran { Ran V.Kind.arithmetic H.Host.means self.old.code budget (standing H.Host.state F.Frame.cells self.old) result (standing H.Host.state F.Frame.cells self.new) }
        ensures same { SameLent self.old self.new }
        ensures lent { H.Host.lent self.new.host.now ≡ H.Host.lent self.old.host.now }
    {
        while self.at.nodes < budget {
            let node = self.code.nodes[self.at.node as usize];
            if self.is_full(node) {
                return Outcome::Full;
            }
            if let ControlFlow::Break(x) = self.step(node) {
                return Outcome::Ended(x);
            }
        }
        Outcome::Spent
    }
}
