// The lines published for a source whose temporaries have places.
// That a node's numbers are in range is asked by each function: a type that held it would be made anew at each node.
ghost use Rattle.std.specs.Prelude.{◌≡◌, ℕ, ◌+◌, ◌*◌, ◌<◌, ◌≤◌, [], map, length};
ghost use Rattle.sets.specs.Masks.{bit};
ghost use Rattle.source.specs.Nodes.{Sound, AllSound};
ghost use Rattle.allocation.specs.Allocations.{rows_in, moves_in, allocation_of};
ghost use Rattle.allocation.specs.Lines.{move_count};
ghost use Rattle.places.specs.Places.{source_of, live_of, locations, IsPlace};
ghost use Rattle.places.specs.Publish.{ins_of, main_of, outs_of, published_line, entry_moves, published_allocation};
ghost use Rattle.places.specs.Steps.{Added, Lined, Filled, Open, place_of};

use crate::layout::Layout;
use crate::place::Place;
use allocation::heading::Heading;
use allocation::line::{Main, Move, Row};
use allocation::tables::Tables;
use loader::held::LoadedSource;
use sets::mask::has;
use source::node::Node;

impl Layout<'_> {
    // Brings the operands of a node that stand at home.
    fn bring_operands(&self, tables: &mut Tables, node: Node)
        requires ready { Open tables.old self.now 2 }
        requires sound { Sound (length self.now.places.now) 256 node }
        ensures { Added tables.old tables.new (ins_of self.now.registers (place_of self.now) node) }
    {
        match node {
            Node::Const { .. } | Node::Mov { .. } => {}
            Node::Binary { first, second, .. }
            | Node::Call { first, second, .. }
            | Node::Branch { first, second, .. } => self.bring_both(tables, first, second),
            Node::Return { operand } => self.bring(tables, operand, self.registers - 2),
        }
    }

    // Moves the result of a node to its place.
    fn move_result(&self, tables: &mut Tables, node: Node)
        requires ready { Open tables.old self.now 2 }
        requires sound { Sound (length self.now.places.now) 256 node }
        ensures { Added tables.old tables.new (outs_of self.now.registers (place_of self.now) node) }
    {
        match node {
            Node::Branch { .. } | Node::Return { .. } => {}
            Node::Mov { result, origin, .. } => self.copy(tables, result, origin),
            Node::Const { result, .. } | Node::Binary { result, .. } | Node::Call { result, .. } =>
                { self.send_home(tables, result) }
        }
    }

    // The main line of a node.
    fn main_line(&self, node: Node) -> Main
        requires sound { Sound (length self.now.places.now) 256 node }
        ensures { result ≡ main_of self.now.registers (place_of self.now) node }
    {
        let spare = self.registers - 2;
        let last = self.registers - 1;
        match node {
            Node::Const { result, value, .. } => Main::Const {
                target: self.name(result, spare),
                value,
            },
            Node::Mov { .. } => Main::Skip,
            Node::Binary {
                operation,
                result,
                first,
                second,
                ..
            } => Main::Binary {
                operation,
                target: self.name(result, spare),
                first: self.name(first, spare),
                second: self.name(second, last),
            },
            Node::Call {
                result,
                function,
                first,
                second,
                ..
            } => Main::Call {
                target: self.name(result, spare),
                function,
                first: self.name(first, spare),
                second: self.name(second, last),
            },
            Node::Branch {
                condition,
                first,
                second,
                ..
            } => Main::Branch {
                condition,
                first: self.name(first, spare),
                second: self.name(second, last),
            },
            Node::Return { operand } => Main::Return {
                operand: self.name(operand, spare),
            },
        }
    }

    // Publishes the lines of one node.
    fn publish_node(&self, tables: &mut Tables, node: Node)
        requires ready { Open tables.old self.now 4 }
        requires room { length (rows_in tables.old) < 256 }
        requires sound { Sound (length self.now.places.now) 256 node }
        ensures { Lined tables.old tables.new (published_line self.now.registers (place_of self.now) node) }
    {
        let ins = tables.place();
        self.bring_operands(tables, node);
        let outs = tables.place();
        self.move_result(tables, node);
        let end = tables.place();
        tables.push_row(Row {
            main: self.main_line(node),
            ins,
            outs,
            alts: end,
            end,
        });
    }

    // Publishes the move of parameter i from its slot, if it is live and has a register.
    fn enter(&self, tables: &mut Tables, live: u64, i: u8)
        requires ready { Open tables.old self.now 1 }
        requires within { i < length self.now.places.now }
        ensures { Added tables.old tables.new (entry_moves self.now.registers (place_of self.now) (bit live) i 1) }
    {
        let location = self.locate(i);
        if has(live, i) && location < self.registers {
            tables.push_move(Move {
                to: location,
                from: self.registers + i,
            });
        }
    }

    // Publishes the moves before node 0.
    fn publish_entry(&self, tables: &mut Tables, live: u64, parameters: u8)
        requires ready { Open tables.old self.now parameters }
        requires within { parameters ≤ length self.now.places.now }
        ensures { Added tables.old tables.new (entry_moves self.now.registers (place_of self.now) (bit live) 0 parameters) }
    {
        // by number: a parameter's number is that of its bit, of its place and of its slot
        for i in 0..parameters {
            self.enter(tables, live, i);
        }
    }

    // Publishes the lines of all nodes.
    fn publish_nodes(&self, tables: &mut Tables, nodes: &[Node])
        requires ready { Open tables.old self.now (3 * length nodes.now + 1) }
        requires empty { rows_in tables.old ≡ [] }
        requires sound { AllSound (length self.now.places.now) nodes.now }
        requires short { length nodes.now ≤ 256 }
        ensures { Filled tables.old tables.new (map (published_line self.now.registers (place_of self.now)) nodes.now) }
    {
        for node in nodes {
            self.publish_node(tables, *node);
        }
    }
}

// Fills the tables, in place of what they held, with the lines published for these places.
pub fn publish(source: &LoadedSource, registers: u8, places: &[Place], tables: &mut Tables)
    requires parameters { source.now.heading.parameters ≤ 8 }
    requires low { 3 ≤ registers }
    requires high { registers ≤ 16 }
    requires short { length source.now.nodes.now ≤ 256 }
    requires long { length places.now ≡ source.now.heading.temporaries }
    requires placed { (v : ℕ) → IsPlace registers v (locations registers places.now v) }
    ensures lines { allocation_of tables.new ≡ published_allocation (source_of source.now) (live_of source.now) registers places.now }
    ensures count { length (moves_in tables.new) ≡ move_count (published_allocation (source_of source.now) (live_of source.now) registers places.now) }
{
    let layout = Layout { registers, places };
    tables.start(Heading {
        registers,
        slots: source.heading.temporaries,
    });
    layout.publish_entry(tables, source.live[0], source.heading.parameters);
    tables.end_entry();
    layout.publish_nodes(tables, source.nodes);
}
