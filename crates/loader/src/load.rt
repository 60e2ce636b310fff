// The load call.
ghost use Rattle.std.specs.Prelude.{◌≡◌, ℕ, ◌<◌, ◌≤◌, List, length, IfOk, Some, None, MatchResult};
ghost use Rattle.source.specs.Nodes.{AllSound};
ghost use Rattle.source.specs.Reading.{Source};
ghost use Rattle.source.specs.Tables.{nodes_in};
ghost use Rattle.loader.specs.Live.{Surveyed};
ghost use Rattle.loader.specs.Load.{loaded_source, live_words, Granted, Refused, OneAnswer};

use crate::holder::{Loader, Tables};
use crate::live::survey;
use refusal::Refusal;
use source::heading::Heading;
use source::table::Table;
use std::alloc::{AllocError, Global};
use std::mem::swap;

impl Tables {
    fn new(heap: Global) -> Result<Self, AllocError> {
        let nodes = Table::new(heap)?;
        let live = Vec::with_capacity(heap, 256)?;
        Ok(Tables { nodes, live })
    }

    // Finds what is live into each node.
    fn find_live(&mut self, h: Heading) -> Result<u32, Refusal>
        requires sound { AllSound h.temporaries (nodes_in self.old.nodes) }
        requires few { h.temporaries ≤ 48 }
        requires some { 0 < length (nodes_in self.old.nodes) }
        requires room { length (nodes_in self.old.nodes) ≤ 256 }
        ensures live { Surveyed (nodes_in self.old.nodes) h.parameters h.temporaries self.new.live.items result }
        ensures same { self.new.nodes ≡ self.old.nodes }
        ensures words { length self.new.live.items ≡ length (nodes_in self.old.nodes) }
    {
        let _ = self.live.resize(self.nodes.nodes().len(), 0);
        survey(
            self.nodes.nodes(),
            h.parameters,
            h.temporaries,
            self.live.as_mut_slice(),
        )
    }
}

// The three counts that a load answers.
fn counts(h: Heading, most: u32) -> (u8, u16, u32)
    ensures { result ≡ (h.temporaries, h.nodes, most) }
{
    (h.temporaries, h.nodes, most)
}

impl Loader {
    pub fn new(heap: Global) -> Result<Self, AllocError>
        ensures { IfOk result (λ l. loaded_source l ≡ None) }
    {
        let tables = Tables::new(heap)?;
        let spare = Tables::new(heap)?;
        Ok(Loader {
            loaded: None,
            tables,
            spare,
        })
    }

    // Reads a source text and takes its source in place of the one held; refused, it keeps the one held.
    pub fn load(&mut self, text: &[u8]) -> Result<(u8, u16, u32), Refusal>
        ensures answer { MatchResult result (λ counts. ((s : Source) × Granted text.now s (live_words self.new) counts × (loaded_source self.new ≡ Some s))) (λ e. Refused text.now e × (loaded_source self.new ≡ loaded_source self.old)) }
    {
        let h = self.spare.nodes.read(text)?;
        let most = self.spare.find_live(h)?;
        swap(&mut self.tables, &mut self.spare);
        self.loaded = Some(h);
        Ok(counts(h, most))
    }
}

// What a load answers is one answer for each text: the theorem that this function's contract names.
pub fn loads_have_one_answer()
    ensures { (bs : List ℕ) → OneAnswer bs }
{
    // the contract is all that there is
}
