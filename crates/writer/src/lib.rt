#![tactic(auto)]

// How an allocation is written, from a given place of the caller's buffer on. Its lines are counted, and where all fit they are written.
ghost use Rattle.std.specs.Prelude.{◌≡◌, true, length};
ghost use Rattle.text.specs.Parts.{ended, written};
ghost use Rattle.text.specs.Put.{piece_bytes, WrittenAt};
ghost use Rattle.refusal.specs.declared.Refusal.TheVariants.{NoRoom};
ghost use Rattle.allocation.specs.Ranges.{row_fits};
ghost use Rattle.allocation.specs.Allocations.{line_at, moves_in, allocation_of};
ghost use Rattle.allocation.specs.Rendering.{register_name, location_name, move_fields, main_fields, move_rows, line_rows, heading_fields, render};
ghost use Rattle.writer.specs.Sinks.{Puts};

mod sink;

use crate::sink::{Room, Sink, Writer};
use allocation::heading::Heading;
use allocation::line::{Main, Move, Row};
use allocation::tables::Tables;
use allocation::words::{Edge, Word};
use refusal::Refusal;
use text::put::Piece;
use text::words::Spelled;

fn word_piece<W: Spelled>(word: W) -> Piece
    ensures { piece_bytes result ≡ W.Spelled.spelling word }
{
    Piece::Word(word.spell())
}

fn location_piece(location: u8, registers: u8) -> Piece
    ensures { piece_bytes result ≡ location_name registers location }
{
    if location < registers {
        Piece::Register(location as u64)
    } else {
        Piece::Slot((location - registers) as u64)
    }
}

fn register_piece(register: u8) -> Piece
    ensures { piece_bytes result ≡ register_name register }
{
    Piece::Register(register as u64)
}

fn put_main<S: Sink>(sink: &mut S, main: Main) -> Option<()>
    ensures { Puts S.Sink.room S.Sink.Takes (ended (main_fields main)) sink.old result sink.new }
{
    match main {
        Main::Skip => sink.put(&[word_piece(Word::Skip)]),
        Main::Const { target, value } => sink.put(&[
            word_piece(Word::Const),
            register_piece(target),
            Piece::Number(value as u64),
        ]),
        Main::Binary {
            operation,
            target,
            first,
            second,
        } => sink.put(&[
            word_piece(operation),
            register_piece(target),
            register_piece(first),
            register_piece(second),
        ]),
        Main::Call {
            target,
            function,
            first,
            second,
        } => sink.put(&[
            word_piece(Word::Call),
            register_piece(target),
            Piece::Number(function as u64),
            register_piece(first),
            register_piece(second),
        ]),
        Main::Branch {
            condition,
            first,
            second,
        } => sink.put(&[
            word_piece(Word::Branch),
            word_piece(condition),
            register_piece(first),
            register_piece(second),
        ]),
        Main::Return { operand } => sink.put(&[word_piece(Word::Return), register_piece(operand)]),
    }
}

fn put_move<S: Sink>(sink: &mut S, edge: Edge, m: Move, registers: u8) -> Option<()>
    ensures { Puts S.Sink.room S.Sink.Takes (ended (move_fields registers edge m)) sink.old result sink.new }
{
    sink.put(&[
        word_piece(edge),
        location_piece(m.to, registers),
        location_piece(m.from, registers),
    ])
}

fn put_moves<S: Sink>(sink: &mut S, edge: Edge, moves: &[Move], registers: u8) -> Option<()>
    ensures { Puts S.Sink.room S.Sink.Takes (written (move_rows registers edge moves.now)) sink.old result sink.new }
{
    for m in moves {
        put_move(sink, edge, *m, registers)?;
    }
    Some(())
}

// The lines of one node: `row` is a row of the tables.
fn put_row<S: Sink>(sink: &mut S, tables: &Tables, row: Row) -> Option<()>
    requires { row_fits tables.now.heading.registers (length (moves_in tables.now)) row ≡ true }
    ensures { Puts S.Sink.room S.Sink.Takes (written (line_rows tables.now.heading.registers (line_at (moves_in tables.now) row))) sink.old result sink.new }
{
    let registers = tables.heading().registers;
    let moves = tables.moves();
    let ins = &moves[row.ins as usize..row.outs as usize];
    let outs = &moves[row.outs as usize..row.alts as usize];
    let alts = &moves[row.alts as usize..row.end as usize];
    put_moves(sink, Edge::In, ins, registers)?;
    put_main(sink, row.main)?;
    put_moves(sink, Edge::Out, outs, registers)?;
    put_moves(sink, Edge::Alt, alts, registers)
}

fn put_heading<S: Sink>(sink: &mut S, heading: Heading, nodes: usize) -> Option<()>
    ensures { Puts S.Sink.room S.Sink.Takes (ended (heading_fields heading.registers heading.slots nodes)) sink.old result sink.new }
{
    sink.put(&[
        Piece::Word(b"alloc"),
        Piece::Number(heading.registers as u64),
        Piece::Number(heading.slots as u64),
        Piece::Number(nodes as u64),
    ])
}

fn put_text<S: Sink>(sink: &mut S, tables: &Tables) -> Option<()>
    ensures { Puts S.Sink.room S.Sink.Takes (render (allocation_of tables.now)) sink.old result sink.new }
{
    let heading = tables.heading();
    let rows = tables.rows();
    let entry = &tables.moves()[..tables.count_entry() as usize];
    put_heading(sink, heading, rows.len())?;
    put_moves(sink, Edge::Entry, entry, heading.registers)?;
    for row in rows {
        put_row(sink, tables, *row)?;
    }
    Some(())
}

// Writes the text of what the tables hold from place `at` on, and answers how many bytes that is; where it does not fit, nothing is written.
pub fn write(tables: &Tables, out: &mut [u8], at: usize) -> Result<usize, Refusal>
    ensures { WrittenAt NoRoom at (render (allocation_of tables.now)) out.old result out.new }
{
    let left = out.len().checked_sub(at).ok_or(Refusal::NoRoom)?;
    put_text(&mut Room { left }, tables).ok_or(Refusal::NoRoom)?;
    let mut writer = Writer { out, at };
    put_text(&mut writer, tables).ok_or(Refusal::NoRoom)?;
    Ok(writer.at - at)
}
