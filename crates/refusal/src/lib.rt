#![tactic(auto)]

// Refusals: which question said no, and what it names.
ghost use Rattle.std.specs.Prelude.{◌≡◌, Some};
ghost use Rattle.refusal.specs.Numbers.{numbers, refusal_line};

use std::fmt;

// One case for each question, with what the question names.
#[derive(Clone, Copy, PartialEq, Eq, Debug)]
pub enum Refusal {
    // a source text's size, or its last byte
    SourceSize,
    // its first line
    SourceHeading,
    // the first line that is missing, or the first that is too many
    SourceLength {
        line: usize,
    },
    // a line's word, or its count of fields
    SourceWord {
        line: usize,
    },
    // another field of a line
    SourceField {
        line: usize,
    },
    // a temporary that may be read before it is set, and is no parameter
    Unset {
        temporary: u8,
    },
    // no source is loaded
    NoSource,
    // an allocation text's size, or its last byte
    AllocationSize,
    // its first line
    AllocationHeading,
    // a line's word, or its count of fields
    AllocationWord {
        line: usize,
    },
    // another field of a line
    AllocationField {
        line: usize,
    },
    // a line that may not stand where it is
    OutOfOrder {
        line: usize,
    },
    // the first move that is too many
    TooManyMoves {
        line: usize,
    },
    // the first line that is missing
    MissingNodes {
        line: usize,
    },
    // too little work memory
    ShortMemory,
    // a main line that does not do what its node does
    Mismatch {
        node: usize,
    },
    // a result that is wanted at another location than its own
    Elsewhere {
        node: usize,
        temporary: u8,
        location: u8,
    },
    // a temporary that is wanted where the result is put
    Overwritten {
        node: usize,
        temporary: u8,
        location: u8,
    },
    // a result that is wanted and never set
    NeverSet {
        node: usize,
        temporary: u8,
        location: u8,
    },
    // a temporary that is wanted at the start where no parameter arrives
    Foreign {
        temporary: u8,
        location: u8,
    },
    // nothing to place: no source is loaded
    Unplaced,
    // a number of registers outside 3 to 16
    Registers,
    // nothing to run: no allocation stands
    NothingStands,
    // more or fewer arguments than parameters
    Arguments,
    // a frame with too few cells
    Cells,
    // nothing to write: no allocation stands
    Unwritten,
    // a text that does not fit the buffer
    NoRoom,
}

// A refusal as support staff read it out: what a question does not name is 0.
#[derive(Clone, Copy, PartialEq, Eq, Debug)]
pub struct Numbers {
    pub question: u8,
    // a line, counted from 1, or a node
    pub place: usize,
    pub temporary: u8,
    pub location: u8,
}

fn name(question: u8, place: usize, temporary: u8, location: u8) -> Numbers
    ensures { result ≡ record { question = question; place = place; temporary = temporary; location = location } }
{
    Numbers {
        question,
        place,
        temporary,
        location,
    }
}

impl From<Refusal> for Numbers {
    ghost from_gives = { λ r n. n ≡ numbers r };

    fn from(refusal: Refusal) -> Numbers {
        match refusal {
            Refusal::SourceSize => name(11, 0, 0, 0),
            Refusal::SourceHeading => name(12, 1, 0, 0),
            Refusal::SourceLength { line } => name(13, line, 0, 0),
            Refusal::SourceWord { line } => name(14, line, 0, 0),
            Refusal::SourceField { line } => name(15, line, 0, 0),
            Refusal::Unset { temporary } => name(16, 0, temporary, 0),
            Refusal::NoSource => name(20, 0, 0, 0),
            Refusal::AllocationSize => name(21, 0, 0, 0),
            Refusal::AllocationHeading => name(22, 1, 0, 0),
            Refusal::AllocationWord { line } => name(23, line, 0, 0),
            Refusal::AllocationField { line } => name(24, line, 0, 0),
            Refusal::OutOfOrder { line } => name(25, line, 0, 0),
            Refusal::TooManyMoves { line } => name(26, line, 0, 0),
            Refusal::MissingNodes { line } => name(27, line, 0, 0),
            Refusal::ShortMemory => name(31, 0, 0, 0),
            Refusal::Mismatch { node } => name(32, node, 0, 0),
            Refusal::Elsewhere {
                node,
                temporary,
                location,
            } => name(33, node, temporary, location),
            Refusal::Overwritten {
                node,
                temporary,
                location,
            } => name(34, node, temporary, location),
            Refusal::NeverSet {
                node,
                temporary,
                location,
            } => name(35, node, temporary, location),
            Refusal::Foreign {
                temporary,
                location,
            } => name(36, 0, temporary, location),
            Refusal::Unplaced => name(40, 0, 0, 0),
            Refusal::Registers => name(41, 0, 0, 0),
            Refusal::NothingStands => name(50, 0, 0, 0),
            Refusal::Arguments => name(51, 0, 0, 0),
            Refusal::Cells => name(52, 0, 0, 0),
            Refusal::Unwritten => name(60, 0, 0, 0),
            Refusal::NoRoom => name(61, 0, 0, 0),
        }
    }
}

// What programs print of a refusal.
impl fmt::Display for Refusal {
    ghost output = { λ r. Some (refusal_line r) };

    fn fmt<W: fmt::Write>(&self, f: &mut fmt::Formatter<W>) -> fmt::Result {
        let Numbers {
            question,
            place,
            temporary,
            location,
        } = Numbers::from(*self);
        write!(f, "refused\t{question}\t{place}\t{temporary}\t{location}")
    }
}
