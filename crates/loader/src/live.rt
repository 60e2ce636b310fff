// Liveness: the temporaries whose value may still be read, for each node, as a mask.
ghost use Rattle.std.specs.Prelude.{◌≡◌, ℕ, ◌<◌, ◌≤◌, true, false, ◌&&◌, length, IfSome, MatchOption, MatchResult, nat_le};
ghost use Rattle.sets.specs.Masks.{bit, Below, First};
ghost use Rattle.sets.specs.Least.{Growing, Solution, room};
ghost use Rattle.source.specs.Nodes.{result_of, operands, successors, AllSound, Sound};
ghost use Rattle.loader.specs.Live.{out_of, reads, is_result, into, live_step, live_sets, Liveness, Surveyed};

use refusal::Refusal;
use sets::mask::{below, empty, greatest_size, lowest, mask_of, union, without};
use source::node::Node;

// The temporaries that the node reads.
fn operand_set(node: Node) -> u64
    requires { Below 64 (operands node) }
    ensures { (v : ℕ) → bit result v ≡ reads node v }
{
    union(
        mask_of(node.first_operand()),
        mask_of(node.second_operand()),
    )
}

// The temporaries live out of the node.
pub fn live_out(node: Node, live: &[u64]) -> u64
    requires { Below (length live.now) (successors node) }
    ensures { (v : ℕ) → bit result v ≡ out_of (live_sets live.now) node v }
{
    match node {
        Node::Const { next, .. } => live[next as usize],
        Node::Mov { next, .. } => live[next as usize],
        Node::Binary { next, .. } => live[next as usize],
        Node::Call { next, .. } => live[next as usize],
        Node::Branch { yes, no, .. } => union(live[yes as usize], live[no as usize]),
        Node::Return { .. } => empty(),
    }
}

// The temporaries live into the node, by those live into its successors.
fn live_in(node: Node, live: &[u64]) -> u64
    requires { Sound 64 (length live.now) node }
    ensures { (v : ℕ) → bit result v ≡ into (live_sets live.now) node v }
{
    let kept = without(live_out(node, live), mask_of(node.assigned()));
    union(operand_set(node), kept)
}

// One pass over the nodes, from the last to the first: whether a set has grown. The masks are a part of the tables that is
// lent for writing; in one struct with the nodes they would have to keep its invariant at each write.
fn pass(nodes: &[Node], live: &mut [u64]) -> bool
    requires sound { AllSound 64 nodes.now }
    requires len { length live.old ≡ length nodes.now }
    requires growing { Growing (length nodes.now) (live_step nodes.now) (live_sets live.old) }
    ensures growing { Growing (length nodes.now) (live_step nodes.now) (live_sets live.new) }
    ensures again { result ≡ true → room live.new < room live.old }
    ensures done { result ≡ false → Solution (length nodes.now) (live_step nodes.now) (live_sets live.new) }
{
    let mut changed = false;
    // by number: the word of node n is written while those of all nodes are read
    for n in (0..nodes.len()).rev() {
        let new = live_in(nodes[n], live);
        if new != live[n] {
            live[n] = new;
            changed = true;
        }
    }
    changed
}

// The temporaries live into each node: the least sets that solve the equations.
pub(crate) fn liveness(nodes: &[Node], live: &mut [u64])
    requires sound { AllSound 64 nodes.now }
    requires len { length live.old ≡ length nodes.now }
    ensures { Liveness nodes.now (live_sets live.new) }
{
    live.fill(0);
    while pass(nodes, live) {}
}

// The lowest temporary of the set that is no parameter.
fn unset(entry: u64, parameters: u8) -> Option<u32>
    ensures { MatchOption result ((v : ℕ) → bit entry v ≡ true → v < parameters) (λ t. (t < 64) × First (λ v. nat_le parameters v && bit entry v) t) }
{
    lowest(without(entry, below(parameters)))
}

// The greatest number of temporaries live into one node, or the lowest temporary that may be read before it is set.
pub(crate) fn survey(
    nodes: &[Node],
    parameters: u8,
    temporaries: u8,
    live: &mut [u64],
) -> Result<u32, Refusal>
    requires sound { AllSound temporaries nodes.now }
    requires few { temporaries ≤ 48 }
    requires some { 0 < length nodes.now }
    requires len { length live.old ≡ length nodes.now }
    ensures { Surveyed nodes.now parameters temporaries live.new result }
{
    liveness(nodes, live);
    match unset(live[0], parameters) {
        Some(t) => Err(Refusal::Unset { temporary: t as u8 }),
        None => Ok(greatest_size(live)),
    }
}
