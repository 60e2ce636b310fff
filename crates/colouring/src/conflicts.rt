// Conflicts: which temporaries must differ in place. Row u of a table is the set of those that u is in conflict with.
ghost use Rattle.std.specs.Prelude.{◌≡◌, ℕ, ◌<◌, ◌≤◌, ◌&&◌, ◌||◌, length, nat_lt};
ghost use Rattle.arrayvec.specs.ArrayVec.{array_vec_len};
ghost use Rattle.sets.specs.Masks.{bit};
ghost use Rattle.source.specs.Nodes.{Sound};
ghost use Rattle.loader.specs.Live.{live_sets};
ghost use Rattle.places.specs.Places.{source_of, live_of, copied};
ghost use Rattle.colouring.specs.Colouring.{demands, demanded, apart, conflict, used, rows};

use arrayvec::ArrayVec;
use loader::held::LoadedSource;
use loader::live::live_out;
use sets::mask::{below, empty, has, intersection, mask_of, single, union, without};
use source::node::Node;

// The origin of a `mov`, which may share the place of the result.
fn find_copied(node: Node) -> Option<u8>
    ensures { result ≡ copied node }
{
    match node {
        Node::Mov { origin, .. } => Some(origin),
        _ => None,
    }
}

// Adds what the node demands: its result differs from what is live out of it.
fn add_demands(table: &mut [u64; 48], node: Node, live: &[u64])
    requires { Sound 48 (length live.now) node }
    ensures { (u v : ℕ) → rows table.new u v ≡ (rows table.old u v || demands (live_sets live.now) node u v) }
{
    if let Some(d) = node.assigned() {
        let others = without(live_out(node, live), mask_of(find_copied(node)));
        table[d as usize] = union(table[d as usize], others);
    }
}

// What all nodes demand, one way: row d has what differs from the result d.
fn find_demands(source: &LoadedSource) -> [u64; 48]
    ensures { (u v : ℕ) → rows result u v ≡ demanded (source_of source.now) (live_of source.now) u v }
{
    let mut table = [0; 48];
    for node in source.nodes {
        add_demands(&mut table, *node, source.live);
    }
    table
}

// Those whose row has u.
fn facing(table: &[u64; 48], u: u8) -> u64
    requires { u < 64 }
    ensures { (v : ℕ) → bit result v ≡ rows table.now v u }
{
    let mut set = empty();
    for (v, row) in table.iter().enumerate() {
        if has(*row, u) {
            set = union(set, single(v as u8));
        }
    }
    set
}

// Those live into node 0 that are parameters.
fn find_arriving(entry: u64, parameters: u8) -> u64
    ensures { (v : ℕ) → bit result v ≡ (nat_lt v parameters && bit entry v) }
{
    intersection(below(parameters), entry)
}

// What conflicts with u, by the demands of the nodes and by what arrives.
fn row(table: &[u64; 48], arriving: u64, u: u8) -> u64
    requires { u < 48 }
    ensures { (v : ℕ) → bit result v ≡ apart (rows table.now) (bit arriving) u v }
{
    let mut set = union(table[u as usize], facing(table, u));
    if has(arriving, u) {
        set = union(set, arriving);
    }
    without(set, single(u))
}

// The conflicts of each temporary.
pub(crate) fn find_conflicts(source: &LoadedSource) -> ArrayVec<u64, 48>
    ensures long { array_vec_len result ≡ source.now.heading.temporaries }
    ensures rows { (u v : ℕ) → u < source.now.heading.temporaries → rows result.items u v ≡ conflict (source_of source.now) (live_of source.now) u v }
{
    let demands = find_demands(source);
    let arriving = find_arriving(source.live[0], source.heading.parameters);
    let mut table = ArrayVec::new();
    // by number: u names a row of the demands and a bit of each
    for u in 0..source.heading.temporaries {
        table.push(row(&demands, arriving, u));
    }
    table
}

// Those live into some node or the result of one.
pub(crate) fn find_used(source: &LoadedSource) -> u64
    ensures { (v : ℕ) → bit result v ≡ used (source_of source.now) (live_of source.now) v }
{
    let mut set = empty();
    for (node, live) in source.nodes.iter().zip(source.live) {
        set = union(set, union(*live, mask_of(node.assigned())));
    }
    set
}
