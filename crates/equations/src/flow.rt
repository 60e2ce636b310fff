// The sets before all nodes: the least that solve their equations.
// What is asked of a node, a main line and moves stands with each function: a type that held it would be made anew at each call.
ghost use Rattle.std.specs.Prelude.{◌≡◌, ℕ, ◌+◌, ◌*◌, ◌<◌, ◌≤◌, ◌/◌, true, false, length, IfSome, slice_index};
ghost use Rattle.sets.specs.Masks.{Below};
ghost use Rattle.sets.specs.Least.{Growing, Solution, Least, room};
ghost use Rattle.source.specs.Nodes.{result_of, operands, Sound};
ghost use Rattle.allocation.specs.Allocations.{origins, line_at};
ghost use Rattle.equations.specs.Equations.{back_moves, used, unset, back_main, after, before, held, memory_sets};
ghost use Rattle.equations.specs.Steps.{either, MovesReach, MainReach, RowReach, step_of, Stored};

use crate::candidate::Candidate;
use crate::set::EquationSet;
use allocation::line::{Main, Move, Row};
use sets::mask::mask_of;
use source::node::Node;

impl EquationSet {
    // With the node's operands in the registers of the main line.
    fn use_operands(&mut self, node: Node, main: Main)
        requires operands { Below 64 (operands node) }
        requires main { MainReach main }
        ensures { held self.new.words ≡ used (operands node) (origins main) (held self.old.words) }
    {
        let first = node.first_operand();
        let second = node.second_operand();
        if let Some(l) = main.first_origin() {
            self.add(l, mask_of(first));
        }
        if let Some(l) = main.second_origin() {
            self.add(l, mask_of(second));
        }
    }

    // Back over what the main line sets.
    fn back_result(&mut self, node: Node, main: Main)
        requires assigned { IfSome (result_of node) (λ d. d < 64) }
        requires operands { Below 64 (operands node) }
        requires main { MainReach main }
        ensures { held self.new.words ≡ unset node main (held self.old.words) }
    {
        match node {
            Node::Mov { result, origin, .. } => self.rename(result, origin),
            _ => self.drop_named(node.assigned(), main.target()),
        }
    }

    // Back over the main line of a node.
    fn back_main(&mut self, node: Node, main: Main)
        requires assigned { IfSome (result_of node) (λ d. d < 64) }
        requires operands { Below 64 (operands node) }
        requires main { MainReach main }
        ensures { held self.new.words ≡ back_main node main (held self.old.words) }
    {
        self.back_result(node, main);
        self.use_operands(node, main);
    }

    // The set before the node `next`, taken back over the moves of an edge to it.
    pub fn back_edge(&mut self, memory: &[u64], next: usize, moves: &[Move])
        requires at { 64 * next + 64 ≤ length memory.now }
        requires moves { MovesReach moves.now }
        ensures { held self.new.words ≡ back_moves moves.now (memory_sets memory.now next) }
    {
        self.words
            .copy_from_slice(&memory[64 * next..64 * next + 64]);
        self.back_moves(moves);
    }

    // The set after a branch, over both its edges.
    fn after_branch(&mut self, memory: &[u64], yes: usize, outs: &[Move], no: usize, alts: &[Move])
        requires yes { 64 * yes + 64 ≤ length memory.now }
        requires no { 64 * no + 64 ≤ length memory.now }
        requires outs { MovesReach outs.now }
        requires alts { MovesReach alts.now }
        ensures { held self.new.words ≡ either (back_moves outs.now (memory_sets memory.now yes)) (back_moves alts.now (memory_sets memory.now no)) }
    {
        self.back_edge(memory, yes, outs);
        let mut other = EquationSet { words: [0; 64] };
        other.back_edge(memory, no, alts);
        self.join(&other);
    }

    // The set after the node.
    pub fn after_node(&mut self, node: Node, row: Row, moves: &[Move], memory: &[u64])
        requires sound { Sound 64 (length memory.now / 64) node }
        requires row { RowReach (length moves.now) row }
        requires moves { MovesReach moves.now }
        ensures { held self.new.words ≡ after (memory_sets memory.now) node (line_at moves.now row) }
    {
        let outs = &moves[row.outs as usize..row.alts as usize];
        match node {
            Node::Const { next, .. }
            | Node::Mov { next, .. }
            | Node::Binary { next, .. }
            | Node::Call { next, .. } => self.back_edge(memory, next as usize, outs),
            Node::Branch { yes, no, .. } => {
                let alts = &moves[row.alts as usize..row.end as usize];
                self.after_branch(memory, yes as usize, outs, no as usize, alts);
            }
            Node::Return { .. } => self.words.fill(0),
        }
    }

    // The set before the node.
    fn before_node(&mut self, node: Node, row: Row, moves: &[Move], memory: &[u64])
        requires sound { Sound 64 (length memory.now / 64) node }
        requires row { RowReach (length moves.now) row }
        requires moves { MovesReach moves.now }
        ensures { held self.new.words ≡ before (memory_sets memory.now) node (line_at moves.now row) }
    {
        self.after_node(node, row, moves, memory);
        self.back_main(node, row.main);
        self.back_moves(&moves[row.ins as usize..row.outs as usize]);
    }
}

// Writes a node's set to its words: whether one has changed.
fn store(memory: &mut [u64], at: usize, set: &EquationSet) -> bool
    requires fits { at + 64 ≤ length memory.old }
    requires grows { (l : ℕ) → l < 64 → slice_index memory.old (at + l) ≤ slice_index set.now.words l }
    ensures stored { Stored memory.old at set.now.words memory.new }
    ensures again { result ≡ true → room memory.new < room memory.old }
    ensures done { result ≡ false → memory.new ≡ memory.old }
{
    // most words stand as they are: only where one does not is the set written
    if &memory[at..at + 64] == &set.words[..] {
        return false;
    }
    memory[at..at + 64].copy_from_slice(&set.words);
    true
}

// One pass over the nodes, from the last to the first: whether a set has grown.
fn pass(candidate: &Candidate, memory: &mut [u64]) -> bool
    requires room { 64 * length candidate.now.nodes.now ≤ length memory.old }
    requires growing { Growing (length candidate.now.nodes.now) (step_of candidate.now) (memory_sets memory.old) }
    ensures growing { Growing (length candidate.now.nodes.now) (step_of candidate.now) (memory_sets memory.new) }
    ensures again { result ≡ true → room memory.new < room memory.old }
    ensures done { result ≡ false → Solution (length candidate.now.nodes.now) (step_of candidate.now) (memory_sets memory.new) }
    ensures others { (k : ℕ) → 64 * length candidate.now.nodes.now ≤ k → slice_index memory.new k ≡ slice_index memory.old k }
{
    let mut set = EquationSet { words: [0; 64] };
    let mut changed = false;
    // by number: the words of node n are written while those of all nodes are read
    for n in (0..candidate.nodes.len()).rev() {
        set.before_node(
            candidate.nodes[n],
            candidate.rows[n],
            candidate.moves,
            memory,
        );
        if store(memory, 64 * n, &set) {
            changed = true;
        }
    }
    changed
}

// The sets before all nodes. Words past those of the nodes stay.
pub fn solve(candidate: &Candidate, memory: &mut [u64])
    requires { 64 * length candidate.now.nodes.now ≤ length memory.old }
    ensures least { Least (length candidate.now.nodes.now) (step_of candidate.now) (memory_sets memory.new) }
    ensures others { (k : ℕ) → 64 * length candidate.now.nodes.now ≤ k → slice_index memory.new k ≡ slice_index memory.old k }
{
    let end = 64 * candidate.nodes.len();
    memory[..end].fill(0);
    while pass(candidate, memory) {}
}

// `back_edge` of a set that is any 64 words.
pub fn back_edge(set: &mut [u64], memory: &[u64], next: usize, moves: &[Move])
    requires len { length set.old ≡ 64 }
    requires at { 64 * next + 64 ≤ length memory.now }
    requires moves { MovesReach moves.now }
    ensures { held set.new ≡ back_moves moves.now (memory_sets memory.now next) }
{
    let mut edge = EquationSet { words: [0; 64] };
    edge.back_edge(memory, next, moves);
    set.copy_from_slice(&edge.words);
}

// `after_node` of a set that is any 64 words, among this many nodes.
pub fn after_node(
    set: &mut [u64],
    node: Node,
    row: Row,
    moves: &[Move],
    memory: &[u64],
    nodes: usize,
)
    requires len { length set.old ≡ 64 }
    requires sound { Sound 64 nodes node }
    requires row { RowReach (length moves.now) row }
    requires moves { MovesReach moves.now }
    requires room { 64 * nodes ≤ length memory.now }
    ensures { held set.new ≡ after (memory_sets memory.now) node (line_at moves.now row) }
{
    let mut after = EquationSet { words: [0; 64] };
    after.after_node(node, row, moves, memory);
    set.copy_from_slice(&after.words);
}
