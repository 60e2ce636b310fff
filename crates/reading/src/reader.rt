// The reader of allocation texts, which reads into tables of its own.
ghost use Rattle.std.specs.Prelude.{◌≡◌, ◌+◌, ◌≤◌, true, length};
ghost use Rattle.allocation.specs.Allocations.{rows_in, moves_in};
ghost use Rattle.allocation.specs.Ranges.{row_fits};
ghost use Rattle.reading.specs.Stages.{held};

use crate::stage::Stage;
use allocation::line::Row;
use allocation::tables::Tables;

// The node that is being read has its row here, which is pushed when its last move is known.
#[derive(Drop)]
pub struct Reader {
    pub(crate) stage: Stage,
    pub(crate) row: Row,
    pub(crate) tables: Tables,
    ghost fits: { row_fits tables.heading.registers (length (moves_in tables)) row ≡ true },
    ghost row_left: { length (rows_in tables) + held stage ≤ 256 },
}

// Where a text is read: the number of the line, and how many nodes the text is for.
#[derive(Clone, Copy)]
pub(crate) struct At {
    pub(crate) line: usize,
    pub(crate) nodes: u16,
    ghost few: { nodes ≤ 256 },
}
