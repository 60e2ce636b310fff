// The allocation that stands, and spare tables to read the next one into.
ghost use Rattle.std.specs.Prelude.{◌≡◌, IfOk, Ok, Err, MatchResult, OnErr, OnOk};
ghost use Rattle.allocation.specs.Allocations.{allocation_of, nothing};
ghost use Rattle.reading.specs.Reading.{read_allocation};
ghost use Rattle.allocation.specs.Rendering.{render};
ghost use Rattle.allocation.specs.WellFormed.{WellFormed};

use crate::reader::Reader;
use allocation::heading::Heading;
use allocation::tables::Tables;
use refusal::Refusal;
use std::alloc::{AllocError, Global};

#[derive(Drop)]
pub struct Holder {
    standing: Tables,
    spare: Reader,
}

impl Holder {
    pub fn new(heap: Global) -> Result<Self, AllocError>
        ensures { IfOk result (λ t. allocation_of t.standing ≡ nothing) }
    {
        let standing = Tables::new(heap)?;
        let spare = Reader::new(heap)?;
        Ok(Holder { standing, spare })
    }

    pub fn standing(&self) -> &Tables
        ensures { result.now ≡ self.now.standing }
    {
        &self.standing
    }

    // Reads a text, which then stands; a refused one leaves what stood.
    pub fn read(&mut self, text: &[u8], parameters: u8, nodes: u16) -> Result<Heading, Refusal>
        ensures read { MatchResult result (λ _. read_allocation parameters nodes text.now ≡ Ok (allocation_of self.new.standing)) (λ e. read_allocation parameters nodes text.now ≡ Err e) }
        ensures heading { IfOk result (λ h. h ≡ self.new.standing.heading) }
        ensures formed { OnOk result (WellFormed parameters nodes (allocation_of self.new.standing)) }
        ensures text { OnOk result (render (allocation_of self.new.standing) ≡ text.now) }
        ensures kept { OnErr result (self.new.standing ≡ self.old.standing) }
    {
        let heading = self.spare.read(text, parameters, nodes)?;
        self.spare.exchange(&mut self.standing);
        Ok(heading)
    }
}
