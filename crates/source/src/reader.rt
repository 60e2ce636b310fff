// The reader of source texts.
ghost use Rattle.std.specs.Prelude.{◌≡◌, ◌+◌, ◌^◌, ◌<◌, ◌≤◌, min, [], length, IfOk, Ok, Err, vec_capacity, MatchResult};
ghost use Rattle.text.specs.Lines.{lines_left};
ghost use Rattle.source.specs.Reading.{Source, refused, read_nodes, read_source};
ghost use Rattle.source.specs.Writing.{IsTextOf};
ghost use Rattle.source.specs.Tables.{nodes_in, source_in};

use crate::heading::{Heading, find_heading};
use crate::lines::read_node;
use crate::node::Node;
use crate::table::Table;
use refusal::Refusal;
use std::alloc::{AllocError, Global};
use text::fields::Fault;
use text::lines::Lines;
use text::parts::is_sized;

// A fault of the line with this number. Each kind of text has two refusals of its own, so each has this match.
fn refuse(line: usize, fault: Fault) -> Refusal
    ensures { result ≡ refused line fault }
{
    match fault {
        Fault::Word => Refusal::SourceWord { line },
        Fault::Field => Refusal::SourceField { line },
    }
}

// The number of the first line that is missing or too many, where there are `lines` lines after the heading.
fn odd_line(lines: usize, wanted: usize) -> usize
    requires { wanted < 2 ^ 16 }
    ensures { result ≡ min lines wanted + 2 }
{
    lines.min(wanted) + 2
}

// Reads lines, each to a node.
fn read_lines(nodes: &mut Vec<Node>, lines: Lines, h: Heading) -> Result<(), Refusal>
    requires empty { nodes.old.items ≡ [] }
    requires room { length (lines_left lines) ≤ vec_capacity nodes.old }
    ensures read { MatchResult result (λ _. read_nodes h lines.entry.number (lines_left lines.entry) ≡ Ok nodes.new.items) (λ e. read_nodes h lines.entry.number (lines_left lines.entry) ≡ Err e) }
    ensures room { vec_capacity nodes.old ≤ vec_capacity nodes.new }
{
    for line in lines {
        let node = read_node(&line, h).map_err(|fault| refuse(line.number, fault))?;
        nodes.push_reserved(node);
    }
    Ok(())
}

impl Table {
    pub fn new(heap: Global) -> Result<Self, AllocError>
        ensures { IfOk result (λ t. nodes_in t ≡ []) }
    {
        let nodes = Vec::with_capacity(heap, 256)?;
        Ok(Table { nodes })
    }

    pub fn nodes(&self) -> &[Node]
        ensures { result.now ≡ nodes_in self.now }
    {
        self.nodes.as_slice()
    }

    // Takes over the nodes of another table.
    pub fn copy_from(&mut self, other: &Table)
        requires { length (nodes_in other.now) ≤ 256 }
        ensures { nodes_in self.new ≡ nodes_in other.now }
    {
        self.nodes.clear();
        for node in &other.nodes {
            self.nodes.push_reserved(*node);
        }
    }

    // Reads a whole source text in place of what the table held; a refused text leaves nothing of use in it.
    // A text is read exactly when it is a source written out.
    pub fn read(&mut self, text: &[u8]) -> Result<Heading, Refusal>
        ensures exact { MatchResult result (λ h. IsTextOf text.now (source_in h self.new)) (λ _. (s : Source) → IsTextOf text.now s → ⊥) }
        ensures count { IfOk result (λ h. length (nodes_in self.new) ≡ h.nodes) }
        ensures read { MatchResult result (λ h. read_source text.now ≡ Ok (source_in h self.new)) (λ e. read_source text.now ≡ Err e) }
    {
        self.nodes.clear();
        if !is_sized(text) {
            return Err(Refusal::SourceSize);
        }
        let mut lines = Lines::of(text);
        let Some(h) = lines.next().and_then(|line| find_heading(&line)) else {
            return Err(Refusal::SourceHeading);
        };
        let count = lines.count();
        let wanted = h.nodes as usize;
        if count != wanted {
            return Err(Refusal::SourceLength {
                line: odd_line(count, wanted),
            });
        }
        read_lines(&mut self.nodes, lines, h)?;
        Ok(h)
    }
}
