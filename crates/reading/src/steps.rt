// How an allocation text is read: the stage reached and the word of a line decide together whether the line may stand.
ghost use Rattle.std.specs.Prelude.{◌≡◌, ◌+◌, ◌^◌, ◌<◌, ◌≤◌, true, map, length, IfOk, Ok, Err, MatchResult, OnOk};
ghost use Rattle.text.specs.Parts.{fields_of};
ghost use Rattle.text.specs.Lines.{lines_left};
ghost use Rattle.allocation.specs.declared.heading.Heading.{Heading};
ghost use Rattle.reading.specs.declared.stage.Stage.TheVariants.{Start, Before, Branch};
ghost use Rattle.allocation.specs.Ranges.{move_fits, main_line_fits, row_fits, item_fits};
ghost use Rattle.reading.specs.Stages.{held, main_stage};
ghost use Rattle.allocation.specs.Allocations.{line_at, rows_in, moves_in, allocation_of, nothing};
ghost use Rattle.reading.specs.Reading.{fresh, opened, turned, with_move, with_main, next_node, stand, with_room, take_item, refused, one_line, finish, run, read_allocation};
ghost use Rattle.allocation.specs.Lines.{move_count};
ghost use Rattle.allocation.specs.Rendering.{render};
ghost use Rattle.reading.specs.States.{state, line_in};
ghost use Rattle.allocation.specs.WellFormed.{WellFormed};

use crate::reader::{At, Reader};
use crate::stage::Stage;
use allocation::heading::{Heading, find_heading};
use allocation::item::{Item, read_item};
use allocation::line::{Main, Move, Row};
use allocation::tables::Tables;
use allocation::words::Edge;
use refusal::Refusal;
use std::alloc::{AllocError, Global};
use text::fields::Fault;
use text::lines::{Line, Lines};
use text::parts::is_sized;

// A fault of the line with this number. Each kind of text has two refusals of its own, so each has this match.
fn refuse(line: usize, fault: Fault) -> Refusal
    ensures { result ≡ refused line fault }
{
    match fault {
        Fault::Word => Refusal::AllocationWord { line },
        Fault::Field => Refusal::AllocationField { line },
    }
}

fn stage_after(main: Main) -> Stage
    ensures value { result ≡ main_stage main }
    ensures held { held result ≡ 1 }
{
    match main {
        Main::Skip | Main::Const { .. } | Main::Binary { .. } | Main::Call { .. } => Stage::Plain,
        Main::Branch { .. } => Stage::Branch,
        Main::Return { .. } => Stage::Return,
    }
}

// The row of a node of which nothing is read.
const EMPTY: Row = Row {
    main: Main::Skip,
    ins: 0,
    outs: 0,
    alts: 0,
    end: 0,
};

impl Reader {
    pub fn new(heap: Global) -> Result<Self, AllocError>
        ensures { IfOk result (λ t. allocation_of t.tables ≡ nothing) }
    {
        let tables = Tables::new(heap)?;
        Ok(Reader {
            stage: Stage::Start,
            row: EMPTY,
            tables,
        })
    }

    fn restart(&mut self, heading: Heading)
        requires registers { heading.registers ≤ 16 }
        requires slots { heading.slots ≤ 48 }
        ensures { state self.new ≡ fresh heading }
    {
        self.stage = Stage::Start;
        self.row = EMPTY;
        self.tables.start(heading);
    }

    // The places of the next node begin where the moves so far end.
    fn begin_node(&mut self)
        requires { length (rows_in self.old.tables) ≤ 256 }
        ensures stage { self.new.stage ≡ Before }
        ensures ins { self.new.row.ins ≡ length (moves_in self.old.tables) }
        ensures tables { self.new.tables ≡ self.old.tables }
    {
        let place = self.tables.place();
        self.stage = Stage::Before;
        self.row = Row {
            main: Main::Skip,
            ins: place,
            outs: place,
            alts: place,
            end: place,
        };
    }

    fn end_entry(&mut self)
        requires { self.old.stage ≡ Start }
        ensures { state self.new ≡ opened (state self.old) }
    {
        self.tables.end_entry();
        self.begin_node();
    }

    // The row of the node that is being read, now that its last move is known.
    fn row(&self) -> Row
        requires { held self.now.stage ≡ 1 }
        ensures line { line_at (moves_in self.now.tables) result ≡ line_in self.now }
        ensures fits { row_fits self.now.tables.heading.registers (length (moves_in self.now.tables)) result ≡ true }
    {
        let end = self.tables.place();
        match self.stage {
            Stage::Alternate => Row { end, ..self.row },
            _ => Row {
                alts: end,
                end,
                ..self.row
            },
        }
    }

    fn end_node(&mut self)
        requires { held self.old.stage ≡ 1 }
        ensures { state self.new ≡ opened (state self.old) }
    {
        let row = self.row();
        self.stage = Stage::Before;
        self.tables.push_row(row);
        self.begin_node();
    }

    // How many nodes are done.
    fn done(&self) -> usize
        ensures { result ≡ length (rows_in self.now.tables) }
    {
        self.tables.rows().len()
    }

    // Begins the next node, if it is not begun already.
    fn open_node(&mut self)
        ensures { state self.new ≡ opened (state self.old) }
    {
        match self.stage {
            Stage::Start => self.end_entry(),
            Stage::Before => {}
            Stage::Plain | Stage::Branch | Stage::Alternate | Stage::Return => self.end_node(),
        }
    }

    // A line for a node past the last may not stand.
    fn next_node(&mut self, at: At) -> Result<(), Refusal>
        ensures state { MatchResult result (λ _. next_node at.nodes at.line (state self.old) ≡ Ok (state self.new)) (λ e. next_node at.nodes at.line (state self.old) ≡ Err e) }
        ensures stage { self.new.stage ≡ Before }
        ensures room { OnOk result (length (rows_in self.new.tables) < at.nodes) }
        ensures heading { self.new.tables.heading ≡ self.old.tables.heading }
    {
        self.open_node();
        if self.done() < usize::from(at.nodes) {
            Ok(())
        } else {
            Err(Refusal::OutOfOrder { line: at.line })
        }
    }

    fn turn(&mut self)
        requires { self.old.stage ≡ Branch }
        ensures state { state self.new ≡ turned (state self.old) }
        ensures heading { self.new.tables.heading ≡ self.old.tables.heading }
    {
        let place = self.tables.place();
        self.row = Row {
            alts: place,
            end: place,
            ..self.row
        };
        self.stage = Stage::Alternate;
    }

    // Whether a move with this word may stand in this line; the stage moves on.
    fn stand(&mut self, edge: Edge, at: At) -> Result<(), Refusal>
        ensures state { MatchResult result (λ _. stand at.nodes at.line edge (state self.old) ≡ Ok (state self.new)) (λ e. stand at.nodes at.line edge (state self.old) ≡ Err e) }
        ensures heading { self.new.tables.heading ≡ self.old.tables.heading }
    {
        match (self.stage, edge) {
            (_, Edge::In) => self.next_node(at),
            (Stage::Start, Edge::Entry) => Ok(()),
            (Stage::Plain | Stage::Branch, Edge::Out) => Ok(()),
            (Stage::Branch, Edge::Alt) => {
                self.turn();
                Ok(())
            }
            (Stage::Alternate, Edge::Alt) => Ok(()),
            _ => Err(Refusal::OutOfOrder { line: at.line }),
        }
    }

    fn push_move(&mut self, m: Move)
        requires room { length (moves_in self.old.tables) < 1024 }
        requires fits { move_fits self.old.tables.heading.registers self.old.tables.heading.slots m ≡ true }
        ensures { state self.new ≡ with_move (state self.old) m }
    {
        self.tables.push_move(m);
    }

    fn set_main(&mut self, main: Main)
        requires stage { self.old.stage ≡ Before }
        requires room { length (rows_in self.old.tables) < 256 }
        requires fits { main_line_fits self.old.tables.heading.registers main ≡ true }
        ensures { state self.new ≡ with_main (state self.old) main }
    {
        let place = self.tables.place();
        self.row = Row {
            main,
            ins: self.row.ins,
            outs: place,
            alts: place,
            end: place,
        };
        self.stage = stage_after(main);
    }

    fn take_move(&mut self, edge: Edge, m: Move, at: At) -> Result<(), Refusal>
        requires { move_fits self.old.tables.heading.registers self.old.tables.heading.slots m ≡ true }
        ensures { MatchResult result (λ _. take_item at.nodes at.line (state self.old) (Item.Move edge m) ≡ Ok (state self.new)) (λ e. take_item at.nodes at.line (state self.old) (Item.Move edge m) ≡ Err e) }
    {
        self.stand(edge, at)?;
        if self.tables.place() >= 1024 {
            return Err(Refusal::TooManyMoves { line: at.line });
        }
        self.push_move(m);
        Ok(())
    }

    fn take_main(&mut self, main: Main, at: At) -> Result<(), Refusal>
        requires { main_line_fits self.old.tables.heading.registers main ≡ true }
        ensures { MatchResult result (λ _. take_item at.nodes at.line (state self.old) (Item.Main main) ≡ Ok (state self.new)) (λ e. take_item at.nodes at.line (state self.old) (Item.Main main) ≡ Err e) }
    {
        self.next_node(at)?;
        self.set_main(main);
        Ok(())
    }

    // A line that is right in form: it may stand, and is no move too many.
    fn take_item(&mut self, item: Item, at: At) -> Result<(), Refusal>
        requires { item_fits self.old.tables.heading item ≡ true }
        ensures { MatchResult result (λ _. take_item at.nodes at.line (state self.old) item ≡ Ok (state self.new)) (λ e. take_item at.nodes at.line (state self.old) item ≡ Err e) }
    {
        match item {
            Item::Move(edge, m) => self.take_move(edge, m, at),
            Item::Main(main) => self.take_main(main, at),
        }
    }

    // A line after the heading.
    fn read_one(&mut self, line: &Line, nodes: u16) -> Result<(), Refusal>
        requires { nodes ≤ 256 }
        ensures { MatchResult result (λ _. one_line nodes line.now.number (state self.old) (fields_of line.now.bytes.now) ≡ Ok (state self.new)) (λ e. one_line nodes line.now.number (state self.old) (fields_of line.now.bytes.now) ≡ Err e) }
    {
        let number = line.number;
        let item = read_item(line, self.tables.heading()).map_err(|fault| refuse(number, fault))?;
        self.take_item(
            item,
            At {
                line: number,
                nodes,
            },
        )
    }

    // At the end of the text each node has its main line.
    fn finish(&mut self, at: At) -> Result<(), Refusal>
        ensures end { MatchResult result (λ _. finish at.nodes at.line (state self.old) ≡ Ok (allocation_of self.new.tables)) (λ e. finish at.nodes at.line (state self.old) ≡ Err e) }
        ensures moves { length (moves_in self.new.tables) ≡ length (moves_in self.old.tables) }
    {
        self.open_node();
        if self.done() == usize::from(at.nodes) {
            Ok(())
        } else {
            Err(Refusal::MissingNodes { line: at.line })
        }
    }

    // The lines that are left, and then the end.
    fn read_lines(&mut self, lines: Lines, nodes: u16) -> Result<(), Refusal>
        requires { nodes ≤ 256 }
        ensures lines { MatchResult result (λ _. run nodes (map fields_of (lines_left lines.entry)) (state self.old) lines.entry.number ≡ Ok (allocation_of self.new.tables)) (λ e. run nodes (map fields_of (lines_left lines.entry)) (state self.old) lines.entry.number ≡ Err e) }
        ensures moves { (h : Heading) → state self.old ≡ fresh h → h.registers + h.slots ≤ 64 → OnOk result (length (moves_in self.new.tables) ≡ move_count (allocation_of self.new.tables)) }
    {
        let mut lines = lines;
        // A `for` over `lines.by_ref()` loses, in the proof, where `lines` is after it.
        while let Some(line) = lines.next() {
            self.read_one(&line, nodes)?;
        }
        self.finish(At {
            line: lines.number(),
            nodes,
        })
    }

    // Reads a whole text, for a source with this many parameters and nodes; a refused text leaves nothing of use in the tables.
    pub fn read(&mut self, text: &[u8], parameters: u8, nodes: u16) -> Result<Heading, Refusal>
        ensures read { MatchResult result (λ _. read_allocation parameters nodes text.now ≡ Ok (allocation_of self.new.tables)) (λ e. read_allocation parameters nodes text.now ≡ Err e) }
        ensures heading { IfOk result (λ h. h ≡ self.new.tables.heading) }
        ensures formed { OnOk result (WellFormed parameters nodes (allocation_of self.new.tables)) }
        ensures text { OnOk result (render (allocation_of self.new.tables) ≡ text.now) }
        ensures moves { OnOk result (length (moves_in self.new.tables) ≡ move_count (allocation_of self.new.tables)) }
    {
        if !is_sized(text) {
            return Err(Refusal::AllocationSize);
        }
        let mut lines = Lines::of(text);
        let Some(heading) = lines
            .next()
            .and_then(|line| find_heading(&line, parameters, nodes))
        else {
            return Err(Refusal::AllocationHeading);
        };
        self.restart(heading);
        self.read_lines(lines, nodes)?;
        Ok(self.tables.heading())
    }

    pub fn tables(&self) -> &Tables
        ensures { result.now ≡ self.now.tables }
    {
        &self.tables
    }

    // Hands out the tables, and takes others to read into.
    pub fn exchange(&mut self, tables: &mut Tables)
        ensures given { tables.new ≡ self.old.tables }
        ensures taken { self.new.tables ≡ tables.old }
    {
        self.stage = Stage::Start;
        self.row = EMPTY;
        std::mem::swap(&mut self.tables, tables);
    }
}
