// The lines of a source text after its heading: one for each node.
ghost use Rattle.std.specs.Prelude.{◌≡◌, map, Some};
ghost use Rattle.text.specs.Fields.{shape, number_below, by_word};
ghost use Rattle.source.specs.Words.{opcode_name, opcodes};
ghost use Rattle.source.specs.Reading.{arity, const_of, mov_of, binary_of, call_of, branch_of, return_of, operands_of, node_of};

use crate::heading::Heading;
use crate::node::{Node, Operation};
use crate::words::{CONDITIONS, OPCODES, Opcode};
use text::fields::{Fault, Field};
use text::lines::Line;

impl Heading {
    fn temporary(self, f: &Field) -> Option<u8>
        ensures { result ≡ number_below self.temporaries (shape f.now) }
    {
        f.number_below(u64::from(self.temporaries)).map(|v| v as u8)
    }

    fn successor(self, f: &Field) -> Option<u16>
        ensures { result ≡ number_below self.nodes (shape f.now) }
    {
        f.number_below(u64::from(self.nodes)).map(|n| n as u16)
    }

    fn read_const(self, d: &Field, k: &Field, next: &Field) -> Option<Node>
        ensures { result ≡ const_of self (shape d.now) (shape k.now) (shape next.now) }
    {
        let result = self.temporary(d)?;
        let value = k.number_below(4_294_967_296)?;
        let next = self.successor(next)?;
        Some(Node::Const {
            result,
            value: value as u32,
            next,
        })
    }

    fn read_mov(self, d: &Field, a: &Field, next: &Field) -> Option<Node>
        ensures { result ≡ mov_of self (shape d.now) (shape a.now) (shape next.now) }
    {
        let result = self.temporary(d)?;
        let origin = self.temporary(a)?;
        let next = self.successor(next)?;
        Some(Node::Mov {
            result,
            origin,
            next,
        })
    }

    fn read_binary(
        self,
        operation: Operation,
        d: &Field,
        a: &Field,
        b: &Field,
        next: &Field,
    ) -> Option<Node>
        ensures { result ≡ binary_of self operation (shape d.now) (shape a.now) (shape b.now) (shape next.now) }
    {
        let result = self.temporary(d)?;
        let first = self.temporary(a)?;
        let second = self.temporary(b)?;
        let next = self.successor(next)?;
        Some(Node::Binary {
            operation,
            result,
            first,
            second,
            next,
        })
    }

    fn read_call(self, d: &Field, g: &Field, a: &Field, b: &Field, next: &Field) -> Option<Node>
        ensures { result ≡ call_of self (shape d.now) (shape g.now) (shape a.now) (shape b.now) (shape next.now) }
    {
        let result = self.temporary(d)?;
        let function = g.number_below(256)?;
        let first = self.temporary(a)?;
        let second = self.temporary(b)?;
        let next = self.successor(next)?;
        Some(Node::Call {
            result,
            function: function as u8,
            first,
            second,
            next,
        })
    }

    fn read_branch(self, c: &Field, a: &Field, b: &Field, yes: &Field, no: &Field) -> Option<Node>
        ensures { result ≡ branch_of self (shape c.now) (shape a.now) (shape b.now) (shape yes.now) (shape no.now) }
    {
        let condition = c.word_in(&CONDITIONS)?;
        let first = self.temporary(a)?;
        let second = self.temporary(b)?;
        let yes = self.successor(yes)?;
        let no = self.successor(no)?;
        Some(Node::Branch {
            condition,
            first,
            second,
            yes,
            no,
        })
    }

    fn read_return(self, a: &Field) -> Option<Node>
        ensures { result ≡ return_of self (shape a.now) }
    {
        let operand = self.temporary(a)?;
        Some(Node::Return { operand })
    }

    // The fields after the word are as many as it asks for, and then they are right.
    fn read_operands(self, opcode: Opcode, fields: &[Field]) -> Result<Node, Fault>
        ensures { result ≡ by_word opcode_name opcodes arity (operands_of self) (Some opcode) (map shape fields.now) }
    {
        let node = match (opcode, fields) {
            (Opcode::Const, [d, k, next]) => self.read_const(d, k, next),
            (Opcode::Mov, [d, a, next]) => self.read_mov(d, a, next),
            (Opcode::Binary(operation), [d, a, b, next]) => self.read_binary(
                operation, d, a, b, next,
            ),
            (Opcode::Call, [d, g, a, b, next]) => self.read_call(d, g, a, b, next),
            (Opcode::Branch, [c, a, b, yes, no]) => self.read_branch(c, a, b, yes, no),
            (Opcode::Return, [a]) => self.read_return(a),
            _ => return Err(Fault::Word),
        };
        node.ok_or(Fault::Field)
    }
}

// The node of a line.
pub(crate) fn read_node(line: &Line, h: Heading) -> Result<Node, Fault>
    ensures { result ≡ node_of h line.now.bytes.now }
{
    let Some((opcode, operands)) = line.split_word::<Opcode, 6>(&OPCODES) else {
        return Err(Fault::Word);
    };
    h.read_operands(opcode, operands.as_slice())
}
