// An allocation that is to be checked, with its source.
ghost use Rattle.std.specs.Prelude.{◌≡◌, ◌+◌, ◌≤◌, length};
ghost use Rattle.source.specs.Nodes.{AllSound};
ghost use Rattle.allocation.specs.Ranges.{RowsFit, MovesFit};

use allocation::heading::Heading;
use allocation::line::{Move, Row};
use source::node::Node;

// Row n is the line of node n; the entry moves are made before node 0.
// Every temporary and every location is below 64, and the parameters arrive in the slots, from the first on.
#[derive(Clone, Copy)]
pub struct Candidate<'a> {
    pub locations: Heading,
    pub parameters: u8,
    pub entry: &'a [Move],
    pub nodes: &'a [Node],
    pub rows: &'a [Row],
    pub moves: &'a [Move],
    ghost few: { locations.registers + locations.slots ≤ 64 },
    ghost arrive: { parameters ≤ locations.slots },
    ghost sound: { AllSound 64 nodes.now },
    ghost long: { length rows.now ≡ length nodes.now },
    ghost entry_fits: { MovesFit locations.registers locations.slots entry.now },
    ghost rows_fit: { RowsFit locations.registers (length moves.now) rows.now },
    ghost moves_fit: { MovesFit locations.registers locations.slots moves.now },
}
