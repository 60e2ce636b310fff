// The calls that change what is held.
ghost use Rattle.std.specs.Prelude.{◌≡◌, ◌≤◌, length, IfOk, Some, None};
ghost use Rattle.source.specs.Tables.{nodes_in, source_in};
ghost use Rattle.allocation.specs.Allocations.{allocation_of};
ghost use Rattle.engine.specs.Plain.{new, with_source};
ghost use Rattle.engine.specs.Held.{held};
ghost use Rattle.engine.specs.Stands.{Stands};
ghost use Rattle.engine.specs.Calls.{LoadMade, OfferMade, PlaceMade};

use crate::standing::Standing;
use crate::state::Engine;
use allocation::tables::Tables;
use loader::holder::Loader;
use offer::offer;
use placement::place;
use places::placer::Placer;
use reading::reader::Reader;
use refusal::Refusal;
use source::heading::Heading;
use source::table::Table;
use std::alloc::{AllocError, Global};
use std::mem::swap;

impl Engine {
    pub fn new(heap: Global) -> Result<Self, AllocError>
        ensures { IfOk result (λ e. held e ≡ new) }
    {
        let loader = Loader::new(heap)?;
        let reader = Reader::new(heap)?;
        let draft = Tables::new(heap)?;
        let tables = Tables::new(heap)?;
        let source = Table::new(heap)?;
        Ok(Engine {
            loader,
            reader,
            draft,
            standing: None,
            tables,
            source,
        })
    }

    // Reads a source text, which is then loaded; refused, it changes nothing.
    pub fn load(&mut self, text: &[u8]) -> Result<(u8, u16, u32), Refusal>
        ensures { LoadMade (held self.old) text.now result (held self.new) }
    {
        self.loader.load(text)
    }

    // Reads and checks an allocation text for the loaded source, and makes it stand; refused, it leaves what stood.
    pub fn offer(&mut self, text: &[u8], memory: &mut [u64]) -> Result<u32, Refusal>
        ensures { OfferMade (held self.old) text.now memory.old memory.new result (held self.new) }
    {
        let Some(loaded) = self.loader.source() else {
            return Err(Refusal::NoSource);
        };
        let count = offer(&self.loader, &mut self.reader, text, memory)?;
        self.standing = None;
        self.reader.exchange(&mut self.tables);
        self.source.copy_from(self.loader.table());
        self.standing = Some(Standing {
            source: loaded.heading,
            placed: false,
        });
        Ok(u32::from(count))
    }

    // Places the loaded source in this many registers, and makes the published allocation stand; refused, it leaves what stood.
    pub fn place<P: Placer>(
        &mut self,
        placer: &P,
        registers: u64,
        memory: &mut [u64],
    ) -> Result<u32, Refusal>
        ensures { PlaceMade (P.Placer.places placer.now) (held self.old) registers memory.old memory.new result (held self.new) }
    {
        let Some(loaded) = self.loader.source() else {
            return Err(Refusal::Unplaced);
        };
        let count = place(&self.loader, &mut self.draft, placer, registers, memory)?;
        self.standing = None;
        swap(&mut self.draft, &mut self.tables);
        self.source.copy_from(self.loader.table());
        self.standing = Some(Standing {
            source: loaded.heading,
            placed: true,
        });
        Ok(count)
    }
}
