// How many moves an allocation has.
ghost use Rattle.std.specs.Prelude.{◌≡◌};
ghost use Rattle.allocation.specs.Allocations.{allocation_of};
ghost use Rattle.allocation.specs.Lines.{move_count};

use crate::tables::Tables;

impl Tables {
    // How many moves the allocation has: those of the entry, and those of each row.
    pub fn count_moves(&self) -> u32
        ensures { result ≡ move_count (allocation_of self.now) }
    {
        let mut count = u32::from(self.entry);
        // a loop: a closure for `map` and `sum` does not know that a row's moves begin before they end
        for row in &self.rows {
            count += u32::from(row.end - row.ins);
        }
        count
    }
}
