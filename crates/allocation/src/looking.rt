// How tables are looked at.
ghost use Rattle.std.specs.Prelude.{◌≡◌};
ghost use Rattle.allocation.specs.Allocations.{rows_in, moves_in};

use crate::heading::Heading;
use crate::line::{Move, Row};
use crate::tables::Tables;

impl Tables {
    pub fn heading(&self) -> Heading
        ensures { result ≡ self.now.heading }
    {
        self.heading
    }

    // How many of the moves are made before node 0.
    pub fn count_entry(&self) -> u16
        ensures { result ≡ self.now.entry }
    {
        self.entry
    }

    pub fn rows(&self) -> &[Row]
        ensures { result.now ≡ rows_in self.now }
    {
        self.rows.as_slice()
    }

    pub fn moves(&self) -> &[Move]
        ensures { result.now ≡ moves_in self.now }
    {
        self.moves.as_slice()
    }
}
