// The tables of an allocation. Their memory is taken once, so that reading never lacks any.
ghost use Rattle.std.specs.Prelude.{◌≡◌, ◌≤◌, length, vec_len, vec_capacity};
ghost use Rattle.allocation.specs.Ranges.{RowsFit, MovesFit};

use crate::heading::Heading;
use crate::line::{Move, Row};

// All moves stand in the order of the text: the first `entry` of them are made before node 0, then come those of each row.
#[derive(Drop)]
pub struct Tables {
    pub(crate) heading: Heading,
    pub(crate) entry: u16,
    pub(crate) rows: Vec<Row>,
    pub(crate) moves: Vec<Move>,
    ghost row_room: { 256 ≤ vec_capacity rows },
    ghost move_room: { 1024 ≤ vec_capacity moves },
    ghost row_len: { vec_len rows ≡ length rows.items },
    ghost move_len: { vec_len moves ≡ length moves.items },
    ghost few_rows: { vec_len rows ≤ 256 },
    ghost few_moves: { vec_len moves ≤ 1024 },
    ghost few_registers: { heading.registers ≤ 16 },
    ghost few_slots: { heading.slots ≤ 48 },
    ghost entry_within: { entry ≤ length moves.items },
    ghost rows_fit: { RowsFit heading.registers (length moves.items) rows.items },
    ghost moves_fit: { MovesFit heading.registers heading.slots moves.items },
}
