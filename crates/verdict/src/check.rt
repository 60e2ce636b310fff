// The check of an allocation against its source.
ghost use Rattle.std.specs.Prelude.{◌≡◌, length, IfOk};
ghost use Rattle.source.specs.Tables.{source_in};
ghost use Rattle.allocation.specs.Allocations.{allocation_of, moves_in};
ghost use Rattle.allocation.specs.Lines.{move_count};
ghost use Rattle.equations.specs.Verdict.{Fits, Judged, Left};
ghost use Rattle.equations.specs.Laws.{AcceptedExactly, OneVerdict};

use crate::questions::{ask_all, find_mismatch};
use allocation::tables::Tables;
use equations::candidate::Candidate;
use equations::flow::solve;
use refusal::Refusal;
use source::heading::Heading;
use source::table::Table;

// Whether the allocation keeps every value where the source expects it: how many moves the tables hold, or the first
// question that says no. Work memory is left with the sets before all nodes, once each main line matches its node.
pub fn check(
    memory: &mut [u64],
    heading: Heading,
    source: &Table,
    tables: &Tables,
) -> Result<u16, Refusal>
    requires { Fits (source_in heading source.now) (allocation_of tables.now) }
    ensures verdict { Judged (source_in heading source.now) (allocation_of tables.now) memory.old memory.new result }
    ensures count { IfOk result (λ count. count ≡ length (moves_in tables.now)) }
    ensures memory { Left (source_in heading source.now) (allocation_of tables.now) memory.old memory.new }
{
    let nodes = source.nodes();
    if memory.len() / 64 < nodes.len() {
        return Err(Refusal::ShortMemory);
    }
    let moves = tables.moves();
    let candidate = Candidate {
        locations: tables.heading(),
        parameters: heading.parameters,
        entry: &moves[..tables.count_entry() as usize],
        nodes,
        rows: tables.rows(),
        moves,
    };
    if let Some(node) = find_mismatch(&candidate) {
        return Err(Refusal::Mismatch { node });
    }
    solve(&candidate, memory);
    ask_all(&candidate, memory)?;
    Ok(tables.place())
}

// The same, but it answers how many moves the allocation has: tables may hold others beside them.
pub fn check_counted(
    memory: &mut [u64],
    heading: Heading,
    source: &Table,
    tables: &Tables,
) -> Result<u32, Refusal>
    requires { Fits (source_in heading source.now) (allocation_of tables.now) }
    ensures verdict { Judged (source_in heading source.now) (allocation_of tables.now) memory.old memory.new result }
    ensures count { IfOk result (λ count. count ≡ move_count (allocation_of tables.now)) }
    ensures memory { Left (source_in heading source.now) (allocation_of tables.now) memory.old memory.new }
{
    check(memory, heading, source, tables)?;
    Ok(tables.count_moves())
}

// Once each main line matches its node, an allocation is accepted exactly when the least solution fails at no node and
// not at the entry.
pub fn accepted_exactly()
    ensures { AcceptedExactly }
{
    // the contract is all that there is
}

// An allocation is not both accepted and refused, and it is refused in one way.
pub fn one_verdict()
    ensures { OneVerdict }
{
    // the contract is all that there is
}
