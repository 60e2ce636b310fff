// The laws that tie the check to the machine.
ghost use Rattle.soundness.specs.Law.{RunsAsSource, TablesRunAsSource, AcceptedAsks, FewMovesANode};

use values::host::Host;
use values::kind::Kind;

// For every kind of value and every host, an accepted allocation runs as its source does, whatever the cells held.
pub fn accepted_runs_as_source<V: Kind, H: Host<Value = V>>()
    ensures { RunsAsSource V.Kind.arithmetic H.Host.means }
{
    // the contract is all that there is
}

// So do accepted tables.
pub fn tables_run_as_source<V: Kind, H: Host<Value = V>>()
    ensures { TablesRunAsSource V.Kind.arithmetic H.Host.means }
{
    // the contract is all that there is
}

// Accepted tables ask the host only where the source does, so that a run needs no test for room there.
pub fn accepted_asks()
    ensures { AcceptedAsks }
{
    // the contract is all that there is
}

// Where an allocation has at most 8 moves before node 0 and 3 at each node, so has every run of it.
pub fn few_moves_a_node<V: Kind, H: Host<Value = V>>()
    ensures { FewMovesANode V.Kind.arithmetic H.Host.means }
{
    // the contract is all that there is
}
