#![tactic(auto)]

// Offering an allocation text for the loaded source: it is read, and checked.
ghost use Rattle.std.specs.Prelude.{◌≡◌, length, IfOk};
ghost use Rattle.loader.specs.Load.{loaded_source};
ghost use Rattle.allocation.specs.Allocations.{allocation_of, moves_in};
ghost use Rattle.offer.specs.Offers.{Offered};

use loader::holder::Loader;
use reading::reader::Reader;
use refusal::Refusal;
use verdict::check::check;

// Reads the text into the tables of `spare`, where it is left, and checks it against the loaded source.
pub fn offer(
    loader: &Loader,
    spare: &mut Reader,
    text: &[u8],
    memory: &mut [u64],
) -> Result<u16, Refusal>
    ensures answer { Offered (loaded_source loader.now) text.now memory.old (allocation_of spare.new.tables) memory.new result }
    ensures table { IfOk result (λ count. count ≡ length (moves_in spare.new.tables)) }
{
    let Some(source) = loader.source() else {
        return Err(Refusal::NoSource);
    };
    spare.read(text, source.heading.parameters, source.heading.nodes)?;
    check(memory, source.heading, loader.table(), spare.tables())
}
