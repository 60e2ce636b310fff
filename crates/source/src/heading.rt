// The heading of a source text: `source P V N`.
ghost use Rattle.std.specs.Prelude.{◌≡◌};
ghost use Rattle.text.specs.Fields.{shapes_of};
ghost use Rattle.source.specs.Reading.{heading_of};

use text::lines::Line;

// How many parameters, temporaries and nodes a source has.
#[derive(Clone, Copy, PartialEq, Eq)]
pub struct Heading {
    pub parameters: u8,
    pub temporaries: u8,
    pub nodes: u16,
}

// A source has 1 to 48 temporaries, of which up to 8 are parameters, and 1 to 256 nodes.
#[tactic(auto, unfolding(crate::specs::Reading::heading_of))]
pub(crate) fn find_heading(line: &Line) -> Option<Heading>
    ensures { result ≡ heading_of (shapes_of line.now.bytes.now) }
{
    let (p, v, n) = line.after_title(b"source")?;
    let temporaries = v.number_between(1, 48)?;
    let parameters = p.number_between(0, temporaries.min(8))?;
    let nodes = n.number_between(1, 256)?;
    Some(Heading {
        parameters: parameters as u8,
        temporaries: temporaries as u8,
        nodes: nodes as u16,
    })
}
