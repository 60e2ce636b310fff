// The questions: which equations each forbids, and the first one that a set has.
ghost use Rattle.std.specs.Prelude.{◌≡◌, ◌+◌, ◌*◌, ◌<◌, ◌≤◌, not, length, IfSome, MatchBool, MatchOption, MatchResult, slice_set, replicate};
ghost use Rattle.source.specs.Nodes.{action, result_of};
ghost use Rattle.equations.specs.Equations.{back_moves, held, memory_sets};
ghost use Rattle.equations.specs.Steps.{line_in};
ghost use Rattle.verdict.specs.Answers.{Finds, Answered, Asked};
ghost use Rattle.equations.specs.Questions.{computes, Matches, never_set, foreign, questions_at, questions_of, foreign_question, Clear, Fails};
ghost use Rattle.equations.specs.Verdict.{MatchesBelow, MismatchedAt, PassedBelow, FailedNode};

use allocation::line::Main;
use equations::candidate::Candidate;
use equations::set::EquationSet;
use refusal::Refusal;
use sets::mask::{below, empty, lowest, mask_of, single, without};
use source::node::Node;

// A location and a temporary that are to hold the same value.
#[derive(Clone, Copy)]
struct Equation {
    pub location: u8,
    pub temporary: u8,
}

// The first equation of the set that is not in `allowed`: of the lowest location, the lowest temporary.
fn find_outside(set: &[u64; 64], allowed: &[u64; 64]) -> Option<Equation>
    ensures { Finds (held set.now) (λ e. not (held allowed.now e)) result }
{
    // by number: the location is answered, and both sets are read there
    for l in 0..64 {
        if let Some(v) = lowest(without(set[l], allowed[l])) {
            return Some(Equation {
                location: l as u8,
                temporary: v as u8,
            });
        }
    }
    None
}

// The set that has the temporaries of `rest` at each location but m, and those of `here` at m.
fn allowing(rest: u64, m: u8, here: u64) -> [u64; 64]
    requires { m < 64 }
    ensures { result ≡ slice_set (replicate 64 rest) m here }
{
    let mut words = [rest; 64];
    words[m as usize] = here;
    words
}

// 36: anything but a parameter where it arrives, the first of them at `arrival`.
fn find_foreign(set: &[u64; 64], arrival: u8, parameters: u8) -> Option<Equation>
    requires { arrival + parameters ≤ 64 }
    ensures { Finds (held set.now) (foreign arrival parameters) result }
{
    let mut words = [empty(); 64];
    // parameter i is the number i: there is no list of parameters to go over
    for i in 0..parameters {
        words[(arrival + i) as usize] = single(i);
    }
    find_outside(set, &words)
}

// The questions of a node whose main line has the result location `m`.
fn ask_result(set: &[u64; 64], n: usize, assigned: Option<u8>, m: u8) -> Result<(), Refusal>
    requires assigned { IfSome assigned (λ d. d < 64) }
    requires at { m < 64 }
    ensures { Answered (questions_at n assigned m) (held set.now) result }
{
    let all = below(64);
    let result = mask_of(assigned);
    // 33: the result elsewhere than at m
    if let Some(e) = find_outside(set, &allowing(without(all, result), m, all)) {
        return Err(Refusal::Elsewhere {
            node: n,
            temporary: e.temporary,
            location: e.location,
        });
    }
    // 34: another temporary than the result at m
    if let Some(e) = find_outside(set, &allowing(all, m, result)) {
        return Err(Refusal::Overwritten {
            node: n,
            temporary: e.temporary,
            location: e.location,
        });
    }
    Ok(())
}

// 35: the result anywhere.
fn find_never_set(set: &[u64; 64], assigned: Option<u8>) -> Option<Equation>
    requires { IfSome assigned (λ d. d < 64) }
    ensures { Finds (held set.now) (never_set assigned) result }
{
    let words = [without(below(64), mask_of(assigned)); 64];
    find_outside(set, &words)
}

// Whether the node is a `const` or an operation.
fn is_computed(node: Node) -> bool
    ensures { result ≡ computes (action node) }
{
    matches!(node, Node::Const { .. } | Node::Binary { .. })
}

// The questions of a node over the set after it.
fn ask_node(set: &[u64; 64], n: usize, node: Node, target: Option<u8>) -> Result<(), Refusal>
    requires result { IfSome (result_of node) (λ d. d < 64) }
    requires target { IfSome target (λ m. m < 64) }
    ensures { Answered (questions_of n node target) (held set.now) result }
{
    let assigned = node.assigned();
    if let Some(m) = target {
        return ask_result(set, n, assigned, m);
    }
    if !is_computed(node) {
        return Ok(());
    }
    if let Some(e) = find_never_set(set, assigned) {
        return Err(Refusal::NeverSet {
            node: n,
            temporary: e.temporary,
            location: e.location,
        });
    }
    Ok(())
}

// The questions of all nodes, in order.
fn ask_nodes(candidate: &Candidate, memory: &[u64]) -> Result<(), Refusal>
    requires { 64 * length candidate.now.nodes.now ≤ length memory.now }
    ensures { MatchResult result (λ _. PassedBelow candidate.now.nodes.now (line_in candidate.now) (memory_sets memory.now) (length candidate.now.nodes.now)) (FailedNode candidate.now.nodes.now (line_in candidate.now) (memory_sets memory.now)) }
{
    let mut set = EquationSet { words: [0; 64] };
    for (n, node) in candidate.nodes.iter().enumerate() {
        let row = candidate.rows[n];
        set.after_node(*node, row, candidate.moves, memory);
        ask_node(&set.words, n, *node, row.main.target())?;
    }
    Ok(())
}

// The question of the set before the first node, taken back over the entry moves.
fn ask_entry(candidate: &Candidate, memory: &[u64]) -> Result<(), Refusal>
    requires { 64 ≤ length memory.now }
    ensures { MatchResult result (λ _. Clear (back_moves candidate.now.entry.now (memory_sets memory.now 0)) (foreign candidate.now.locations.registers candidate.now.parameters)) (Fails (foreign_question candidate.now.locations.registers candidate.now.parameters) (back_moves candidate.now.entry.now (memory_sets memory.now 0))) }
{
    let mut set = EquationSet { words: [0; 64] };
    set.back_edge(memory, 0, candidate.entry);
    let arrival = candidate.locations.registers;
    if let Some(e) = find_foreign(&set.words, arrival, candidate.parameters) {
        return Err(Refusal::Foreign {
            temporary: e.temporary,
            location: e.location,
        });
    }
    Ok(())
}

// Questions 33 to 36 over the sets before all nodes.
pub(crate) fn ask_all(candidate: &Candidate, memory: &[u64]) -> Result<(), Refusal>
    requires some { 0 < length candidate.now.nodes.now }
    requires room { 64 * length candidate.now.nodes.now ≤ length memory.now }
    ensures { Asked candidate.now.nodes.now (line_in candidate.now) (memory_sets memory.now) candidate.now.entry.now (foreign_question candidate.now.locations.registers candidate.now.parameters) result }
{
    ask_nodes(candidate, memory)?;
    ask_entry(candidate, memory)
}

// 32: whether the main line does what the node does, or is a `skip` that may stand there.
fn matches(node: Node, main: Main) -> bool
    ensures { MatchBool result (Matches node main) (Matches node main → ⊥) }
{
    match (node, main) {
        (Node::Const { value: k, .. }, Main::Const { value: j, .. }) => k == j,
        (Node::Binary { operation: o, .. }, Main::Binary { operation: p, .. }) => o == p,
        (Node::Call { function: h, .. }, Main::Call { function: g, .. }) => h == g,
        (Node::Branch { condition: c, .. }, Main::Branch { condition: d, .. }) => c == d,
        (Node::Return { .. }, Main::Return { .. }) => true,
        (Node::Const { .. }, Main::Skip) => true,
        (Node::Mov { .. }, Main::Skip) => true,
        (Node::Binary { .. }, Main::Skip) => true,
        _ => false,
    }
}

// The first node whose main line does not match it.
pub(crate) fn find_mismatch(candidate: &Candidate) -> Option<usize>
    ensures { MatchOption result (MatchesBelow candidate.now.nodes.now (line_in candidate.now) (length candidate.now.nodes.now)) (MismatchedAt candidate.now.nodes.now (line_in candidate.now)) }
{
    candidate
        .nodes
        .iter()
        .zip(candidate.rows)
        .position(|(node, row)| !matches(*node, row.main))
}
