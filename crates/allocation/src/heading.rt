// The heading of an allocation text: `alloc R S N`.
ghost use Rattle.std.specs.Prelude.{◌≡◌, ◌≤◌, IfSome, OnSome};
ghost use Rattle.text.specs.Fields.{shapes_of};
ghost use Rattle.allocation.specs.Headings.{heading_of};

use text::lines::Line;

// How many registers and slots an allocation has.
#[derive(Clone, Copy, PartialEq, Eq)]
pub struct Heading {
    pub registers: u8,
    pub slots: u8,
}

// 3 to 16 registers, a slot for each parameter and at most 48, and the source's number of nodes, of which there are at most 256.
#[tactic(auto, unfolding(crate::specs::Headings::heading_of))]
pub fn find_heading(line: &Line, parameters: u8, nodes: u16) -> Option<Heading>
    ensures value { result ≡ heading_of parameters nodes (shapes_of line.now.bytes.now) }
    ensures registers { IfSome result (λ x. x.registers ≤ 16) }
    ensures slots { IfSome result (λ x. x.slots ≤ 48) }
    ensures nodes { OnSome result (nodes ≤ 256) }
{
    let (r, s, n) = line.after_title(b"alloc")?;
    let registers = r.number_between(3, 16)?;
    let slots = s.number_between(u64::from(parameters), 48)?;
    let nodes = u64::from(nodes);
    let _ = n.number_between(nodes, nodes.min(256))?;
    Some(Heading {
        registers: registers as u8,
        slots: slots as u8,
    })
}
