// How tables are filled.
ghost use Rattle.std.specs.Prelude.{◌≡◌, ◌+◌, ◌<◌, ◌≤◌, true, [], ◌∷◌, ◌++◌, length, IfOk, vec_len};
ghost use Rattle.allocation.specs.Ranges.{row_fits, move_fits};
ghost use Rattle.allocation.specs.Allocations.{rows_in, moves_in, allocation_of, nothing};

use crate::heading::Heading;
use crate::line::{Move, Row};
use crate::tables::Tables;
use std::alloc::{AllocError, Global};

impl Tables {
    pub fn new(heap: Global) -> Result<Self, AllocError>
        ensures { IfOk result (λ t. allocation_of t ≡ nothing) }
    {
        let rows = Vec::with_capacity(heap, 256)?;
        let moves = Vec::with_capacity(heap, 1024)?;
        Ok(Tables {
            heading: Heading {
                registers: 0,
                slots: 0,
            },
            entry: 0,
            rows,
            moves,
        })
    }

    // Empties the tables, for an allocation with these registers and slots.
    pub fn start(&mut self, heading: Heading)
        requires registers { heading.registers ≤ 16 }
        requires slots { heading.slots ≤ 48 }
        ensures heading { self.new.heading ≡ heading }
        ensures rows { rows_in self.new ≡ [] }
        ensures moves { moves_in self.new ≡ [] }
        ensures entry { self.new.entry ≡ 0 }
    {
        self.heading = heading;
        self.entry = 0;
        self.rows.clear();
        self.moves.clear();
    }

    // How many moves there are, which is where the next one will stand.
    pub fn place(&self) -> u16
        ensures value { result ≡ length (moves_in self.now) }
        ensures few { result ≤ 1024 }
    {
        self.moves.len() as u16
    }

    // The moves so far are the entry moves.
    pub fn end_entry(&mut self)
        ensures heading { self.new.heading ≡ self.old.heading }
        ensures rows { rows_in self.new ≡ rows_in self.old }
        ensures moves { moves_in self.new ≡ moves_in self.old }
        ensures entry { self.new.entry ≡ length (moves_in self.old) }
    {
        self.entry = self.place();
    }

    pub fn push_move(&mut self, m: Move)
        requires room { length (moves_in self.old) < 1024 }
        requires fits { move_fits self.old.heading.registers self.old.heading.slots m ≡ true }
        ensures heading { self.new.heading ≡ self.old.heading }
        ensures rows { rows_in self.new ≡ rows_in self.old }
        ensures moves { moves_in self.new ≡ moves_in self.old ++ m ∷ [] }
        ensures entry { self.new.entry ≡ self.old.entry }
    {
        self.moves.push_reserved(m);
    }

    pub fn push_row(&mut self, row: Row)
        requires room { length (rows_in self.old) < 256 }
        requires fits { row_fits self.old.heading.registers (length (moves_in self.old)) row ≡ true }
        ensures heading { self.new.heading ≡ self.old.heading }
        ensures rows { rows_in self.new ≡ rows_in self.old ++ row ∷ [] }
        ensures moves { moves_in self.new ≡ moves_in self.old }
        ensures entry { self.new.entry ≡ self.old.entry }
    {
        self.rows.push_reserved(row);
    }
}
