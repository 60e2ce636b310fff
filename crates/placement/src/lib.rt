#![tactic(auto)]

// Placing the temporaries of the loaded source: the lines of a placer's places are published, and checked.
ghost use Rattle.std.specs.Prelude.{◌≡◌, MatchOption};
ghost use Rattle.loader.specs.Load.{loaded_source, live_words};
ghost use Rattle.allocation.specs.Allocations.{allocation_of};
ghost use Rattle.placement.specs.Placements.{Enough, Placed, AcceptedExactly, OneAnswer};

use allocation::tables::Tables;
use loader::holder::Loader;
use places::place::Place;
use places::placer::Placer;
use places::publish::publish;
use refusal::Refusal;
use verdict::check::check_counted;

// The number of registers, where it is 3 to 16.
fn find_enough(registers: u64) -> Option<u8>
    ensures { MatchOption result (Enough registers → ⊥) (λ n. Enough registers × (n ≡ registers)) }
{
    u8::try_from(registers)
        .ok()
        .filter(|n| (3..=16).contains(n))
}

// Places the temporaries of the loaded source by the placer, publishes their lines in the tables of `spare`, where they
// are left, and checks them.
pub fn place<P: Placer>(
    loader: &Loader,
    spare: &mut Tables,
    placer: &P,
    registers: u64,
    memory: &mut [u64],
) -> Result<u32, Refusal>
    ensures { Placed (P.Placer.places placer.now) (loaded_source loader.now) (live_words loader.now) registers memory.old (allocation_of spare.new) memory.new result }
{
    let source = loader.source().ok_or(Refusal::Unplaced)?;
    let registers = find_enough(registers).ok_or(Refusal::Registers)?;
    // an array and a slice of it: filling an `ArrayVec` first would be no plainer
    let mut row = [Place::Home; 48];
    let places = &mut row[..source.heading.temporaries as usize];
    placer.place(&source, registers, places);
    publish(&source, registers, places, spare);
    check_counted(memory, source.heading, loader.table(), spare)
}

// A placement is accepted exactly when all of its questions are yes: the theorem that this function's contract names.
pub fn accepted_exactly()
    ensures { AcceptedExactly }
{
    // the contract is all that there is
}

// It has one answer.
pub fn one_answer()
    ensures { OneAnswer }
{
    // the contract is all that there is
}
