// What one line of an allocation text after its heading says: a move or a main line.
ghost use Rattle.std.specs.Prelude.{◌≡◌, ◌+◌, ◌≤◌, true, map, Some, IfOk};
ghost use Rattle.text.specs.Fields.{shape, by_word};
ghost use Rattle.text.specs.Parts.{fields_of};
ghost use Rattle.allocation.specs.Words.{word_name, words};
ghost use Rattle.allocation.specs.Ranges.{item_fits};
ghost use Rattle.allocation.specs.Items.{location_in, register_in, arity, move_of, const_of, binary_of, call_of, branch_of, return_of, operands_of, item_of};

use crate::heading::Heading;
use crate::line::{Main, Move};
use crate::words::{Edge, WORDS, Word};
use source::node::Operation;
use source::words::CONDITIONS;
use text::fields::{Fault, Field, Location};
use text::lines::Line;

#[derive(Clone, Copy)]
pub enum Item {
    Move(Edge, Move),
    Main(Main),
}

// The registers and slots that a line may name.
#[derive(Clone, Copy)]
struct Locations {
    heading: Heading,
    ghost few: { heading.registers + heading.slots ≤ 64 },
}

impl Locations {
    // The number of a location: the slots come after the registers.
    fn location(self, f: &Field) -> Option<u8>
        ensures { result ≡ location_in self.heading (shape f.now) }
    {
        let Heading { registers, slots } = self.heading;
        match f {
            Field::Location {
                location: Location::Register(n),
                ..
            } if *n < u64::from(registers) => Some(*n as u8),
            Field::Location {
                location: Location::Slot(n),
                ..
            } if *n < u64::from(slots) => Some(registers + *n as u8),
            _ => None,
        }
    }

    fn register(self, f: &Field) -> Option<u8>
        ensures { result ≡ register_in self.heading (shape f.now) }
    {
        self.location(f).filter(|l| *l < self.heading.registers)
    }

    // At least one of the two locations is a register.
    fn read_move(self, edge: Edge, to: &Field, from: &Field) -> Option<Item>
        ensures { result ≡ move_of self.heading edge (shape to.now) (shape from.now) }
    {
        let to = self.location(to)?;
        let from = self.location(from)?;
        if to < self.heading.registers || from < self.heading.registers {
            Some(Item::Move(edge, Move { to, from }))
        } else {
            None
        }
    }

    fn read_const(self, l: &Field, k: &Field) -> Option<Item>
        ensures { result ≡ const_of self.heading (shape l.now) (shape k.now) }
    {
        let target = self.register(l)?;
        let value = k.number_below(4_294_967_296)?;
        Some(Item::Main(Main::Const {
            target,
            value: value as u32,
        }))
    }

    fn read_binary(self, operation: Operation, l: &Field, a: &Field, b: &Field) -> Option<Item>
        ensures { result ≡ binary_of self.heading operation (shape l.now) (shape a.now) (shape b.now) }
    {
        let target = self.register(l)?;
        let first = self.register(a)?;
        let second = self.register(b)?;
        Some(Item::Main(Main::Binary {
            operation,
            target,
            first,
            second,
        }))
    }

    fn read_call(self, l: &Field, g: &Field, a: &Field, b: &Field) -> Option<Item>
        ensures { result ≡ call_of self.heading (shape l.now) (shape g.now) (shape a.now) (shape b.now) }
    {
        let target = self.register(l)?;
        let function = g.number_below(256)?;
        let first = self.register(a)?;
        let second = self.register(b)?;
        Some(Item::Main(Main::Call {
            target,
            function: function as u8,
            first,
            second,
        }))
    }

    fn read_branch(self, c: &Field, a: &Field, b: &Field) -> Option<Item>
        ensures { result ≡ branch_of self.heading (shape c.now) (shape a.now) (shape b.now) }
    {
        let condition = c.word_in(&CONDITIONS)?;
        let first = self.register(a)?;
        let second = self.register(b)?;
        Some(Item::Main(Main::Branch {
            condition,
            first,
            second,
        }))
    }

    fn read_return(self, a: &Field) -> Option<Item>
        ensures { result ≡ return_of self.heading (shape a.now) }
    {
        let operand = self.register(a)?;
        Some(Item::Main(Main::Return { operand }))
    }

    // The fields after the word are as many as it asks for, and then they are right.
    fn read_operands(self, word: Word, fields: &[Field]) -> Result<Item, Fault>
        ensures { result ≡ by_word word_name words arity (operands_of self.heading) (Some word) (map shape fields.now) }
    {
        let item = match (word, fields) {
            (Word::Move(edge), [to, from]) => self.read_move(edge, to, from),
            (Word::Skip, []) => Some(Item::Main(Main::Skip)),
            (Word::Const, [l, k]) => self.read_const(l, k),
            (Word::Binary(operation), [l, a, b]) => self.read_binary(operation, l, a, b),
            (Word::Call, [l, g, a, b]) => self.read_call(l, g, a, b),
            (Word::Branch, [c, a, b]) => self.read_branch(c, a, b),
            (Word::Return, [a]) => self.read_return(a),
            _ => return Err(Fault::Word),
        };
        item.ok_or(Fault::Field)
    }
}

// The item of a line.
pub fn read_item(line: &Line, h: Heading) -> Result<Item, Fault>
    requires { h.registers + h.slots ≤ 64 }
    ensures value { result ≡ item_of h (fields_of line.now.bytes.now) }
    ensures fits { IfOk result (λ i. item_fits h i ≡ true) }
{
    let Some((word, operands)) = line.split_word::<Word, 5>(&WORDS) else {
        return Err(Fault::Word);
    };
    let locations = Locations { heading: h };
    locations.read_operands(word, operands.as_slice())
}
